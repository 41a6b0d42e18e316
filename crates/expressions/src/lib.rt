//! The instructions of expressions: each makes a value in the store and pushes it, or writes the text of one.

#![tactic(auto)]

pub mod calling;
pub mod emitting;
pub mod making;
