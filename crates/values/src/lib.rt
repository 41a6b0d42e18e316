//! Packed values: what their bytes cost in a store, or why they are refused.

#![tactic(auto)]

pub mod cost;
pub mod key;
pub mod measuring;
