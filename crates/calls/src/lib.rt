//! The lines of a job: what each asks for, or why it is no call.

#![tactic(auto)]

pub mod line;
mod number;
pub mod word;
