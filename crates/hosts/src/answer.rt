//! What hosts are given and answer.

use meaning::tree::Span;
use store::cell::Ref;

/// A value, and where it is reported.
#[derive(Clone, Copy)]
pub struct Argument {
    pub value: Ref,
    pub span: Span,
}

/// Why there is no text.
#[derive(Clone, Copy)]
pub enum Unwritten {
    /// The formatter refuses the value, for a reason of its own.
    Refused(u16),
    /// The text is longer than the buffer.
    TooLong,
}

/// Why there is no value.
#[derive(Clone, Copy)]
pub enum Unmade<E> {
    /// The store does not hold it.
    Full,
    Refused(E),
}

/// Why a function does not answer, and which of its arguments it blames, counted from 0.
#[derive(Clone, Copy)]
pub struct Refusal {
    pub reason: u16,
    pub argument: Option<usize>,
}

/// What a name stands for, if it stands for anything.
#[derive(Clone, Copy, PartialEq, Eq, Debug)]
pub enum CallableKind {
    Formatter,
    Function,
}
