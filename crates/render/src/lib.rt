//! The renderer: it runs the programs of templates, each instruction as one step of the abstract machine.

#![tactic(auto)]

mod fetching;
pub mod renderer;
pub mod restoring;
pub mod state;
