//! The templates that an engine holds, in supplied memory.

#![tactic(auto)]

pub mod entry;
mod lookup;
mod memory;
pub mod table;
