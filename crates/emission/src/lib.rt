//! Texts on their way to the sink.

#![tactic(auto)]

pub mod instructions;
pub mod offering;
