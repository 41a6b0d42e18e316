//! Jobs: the report of what each line asked for, and of what was found.

#![tactic(auto)]

mod formatted;
mod lines;
mod listing;
mod loaded;
mod outline;
pub mod report;
mod stored;
pub mod supply;
