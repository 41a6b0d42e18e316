//! Values to try a store with, and what is read of them.

#![tactic(auto)]

pub mod packed;
pub mod reading;
