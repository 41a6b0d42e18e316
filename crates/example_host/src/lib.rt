//! A sink of somebody else's, built word for word as docs/HOSTS.md says: it counts the vowels of what is rendered.

#![tactic(auto)]

#[cfg(test)]
mod tests;
pub mod vowels;
