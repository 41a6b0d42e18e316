//! Packed values, loaded into a store.

#![tactic(auto)]

pub mod building;
pub mod loading;
