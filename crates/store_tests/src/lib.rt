//! Tests of the store.

#![tactic(auto)]

mod owner;
#[cfg(test)]
mod tests;
