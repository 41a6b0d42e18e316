//! What takes the text of a rendering: a page, a counter, and limits that are layers over any sink.

#![tactic(auto)]

pub mod counter;
mod lent;
pub mod limit;
pub mod measure;
pub mod page;
pub mod sink;
#[cfg(test)]
mod tests;
