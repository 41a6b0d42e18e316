//! What a record of a program means, read where its operands stand in the tree.

#![tactic(auto)]

pub mod decode;
pub mod decoded;
pub mod spans;
