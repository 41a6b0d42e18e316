//! What is visible at a place of a rendering: the stack of scopes.

#![tactic(auto)]

pub mod iter;
pub mod loop_value;
pub mod searching;
pub mod state;
pub mod var;
