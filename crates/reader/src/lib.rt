//! The reader of packed trees: its fields and its commands, handed out from left to right.
//! Each command holds parts of the tree itself.

#![tactic(auto)]

pub mod command;
pub mod field;
pub mod literal;
pub mod placed;
pub mod refusal;
pub mod text;
