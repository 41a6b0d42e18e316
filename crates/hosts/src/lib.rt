//! What a rendering asks of those outside it: interfaces, each with its meaning, and those that are at hand.

#![tactic(auto)]

pub mod answer;
pub mod callables;
pub mod formatter;
pub mod source;
