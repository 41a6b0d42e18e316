//! The compiler: from a checked template to instructions in a lent slice.

#![tactic(auto)]

mod compile;
pub mod instr;
pub mod programs;
mod writing;
