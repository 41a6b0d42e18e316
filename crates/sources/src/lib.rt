//! The value sources that are at hand: a log of pots, and the walk of one value.

#![tactic(auto)]

mod making;
mod packed;
mod pot;
pub mod pot_log;
#[cfg(test)]
mod tests;
pub mod value_walk;
mod walking;
