//! The entries of the stack of scopes.

use decoder::decoded::LoopVars;
use meaning::tree::Span;
use store::cell::Ref;
use store::memory::Tally;

/// A loop over a list or a map: its next turn has the number `next`, counted from 0, and it is in the turn before that, if any.
/// Its names are spans of the source of the template with the index `template`; what they stand for is read from the list
/// or map where it is asked for, so that the loop holds nothing of a turn.
#[derive(Clone, Copy)]
pub struct LoopState {
    pub template: usize,
    pub vars: LoopVars,
    pub iterable: Ref,
    pub next: u16,
}

#[derive(Clone, Copy)]
pub enum State {
    /// The value source answers.
    ValueFn,
    /// A value whose parts are variables.
    Scope(Ref),
    /// A name, as a span of the source of the template of that index, and its value.
    Var(usize, Span, Ref),
    Loop(LoopState),
    /// Nothing below it is visible.
    Boundary,
}

/// An entry, with the height of the tally at which the statements under it begin.
#[derive(Clone, Copy)]
pub struct Scope {
    pub state: State,
    pub floor: Tally,
}
