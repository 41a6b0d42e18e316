//! The walk of a path of members down into a value.

#![tactic(auto)]

pub mod walking;
