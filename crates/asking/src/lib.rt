//! What a job's lines ask of the formatters that are at hand, through their interfaces.

#![tactic(auto)]

pub mod formatting;
