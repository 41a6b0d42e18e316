//! Values as cells and text in supplied memory.

#![tactic(auto)]

pub mod cell;
pub mod kinds;
pub mod memory;
