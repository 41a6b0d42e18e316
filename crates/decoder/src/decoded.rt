//! Instructions with their operands, as parts of the tree.

use meaning::tree::Span;
use reader::field::{Members, PackedText};
use reader::literal::PlainValue;

/// The names of a loop.
#[derive(Clone, Copy)]
pub enum LoopVars {
    Item(Span),
    /// Key, value, both.
    KeyValue(Span, Span, Span),
}

/// An instruction, whose strings and members are parts of the tree.
#[derive(Clone, Copy)]
pub enum Decoded<'t> {
    /// Go on at the instruction of that number.
    Jump(usize),
    JumpIfTrue(usize),
    JumpIfFalse(usize),
    Emit,
    EmitRaw(Span),
    /// Name, number of values taken, whole.
    EmitWith(Span, u8, Span),
    /// Names, iterable.
    LoopStart(LoopVars, Span),
    LoopNext(usize),
    WithStart(Span),
    WithEnd,
    Include(PackedText<'t>),
    IncludeWith(PackedText<'t>),
    ExprStartVar(Members<'t>),
    ExprStartLiteral(Span, PlainValue<'t>),
    ExprStartList(Span),
    ExprStartMap(Span),
    ExprListPush,
    ExprMapInsert(PackedText<'t>),
    /// Name, number of values taken, whole.
    Apply(Span, u8, Span),
}
