//! The formatters and callables that are at hand: the plain formatter, the chart set, and none at all.

#![tactic(auto)]

mod angle;
pub mod chart;
pub mod no_callables;
pub mod plain;
mod position;
mod reasons;
mod writer;
