//! What a rendering changes.

use hosts::answer::Argument;
use scopes::state::Scope;
use stack::Stack;
use store::memory::Store;
use templates::table::Templates;

pub mod including;
pub mod looping;
pub mod making;
pub mod opening;
pub mod resting;
pub mod statements;

/// A template that is open, and the instruction that comes next in it.
#[derive(Clone, Copy)]
pub struct Open {
    pub template: usize,
    pub pc: usize,
    /// Whether a scope of its own was pushed for it.
    pub scoped: bool,
}

/// The stacks and the store of a rendering, and the sink that it writes to.
#[derive(Drop)]
pub struct RenderState<'m, K> {
    pub templates: &'m Templates,
    pub here: Open,
    /// The templates that wait for the end of an include.
    pub below: Stack<'m, Open>,
    pub scopes: Stack<'m, Scope>,
    pub values: Stack<'m, Argument>,
    pub store: Store<'m>,
    /// A text on its way to the sink.
    pub buffer: &'m mut [u8],
    pub sink: &'m mut K,
}
