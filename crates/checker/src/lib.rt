//! The checker of packed trees, and templates that passed it.

#![tactic(auto)]

mod check;
pub mod template;
