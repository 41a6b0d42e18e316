//! The commands of a packed tree, read in place. Each holds parts of the tree itself.

ghost use Rattle.std.specs.Prelude.{◌≡◌, ◌≤◌, length};
ghost use Rattle.reader.specs.Meanings.{base_of, expr_of, scope_of, stmt_of};
ghost use Rattle.reader.specs.Fields.{Strictly, Takes, Within};
ghost use Rattle.reader.specs.Heads.{base_head, callee, expr_head, map_fields, scope_head};
ghost use Rattle.reader.specs.AfterByte.{base_after, callee_of, stmt_after};

use crate::field::{
    Members, PackedText, read_byte, read_flag, read_span, read_string, read_variable,
};
use meaning::tree::Span;

/// An expression other than a filter, without its children.
#[derive(Clone, Copy)]
pub enum BaseCommand<'a> {
    Variable(Members<'a>),
    Literal(Span),
    List(Span, u8),
    EmptyMap(Span),
    /// The first pair's key, and how many pairs there are after that pair.
    Map(Span, PackedText<'a>, u8),
    Paren(Span),
    /// Name, whole, count of arguments.
    Call(Span, Span, u8),
}

/// An expression, without its children.
#[derive(Clone, Copy)]
pub enum ExprCommand<'a> {
    Base(BaseCommand<'a>),
    /// Name, whole, count of arguments after the receiver.
    Filter(Span, Span, u8),
}

/// A statement, without its children.
#[derive(Clone, Copy)]
pub enum StmtCommand<'a> {
    Raw(Span),
    Inline,
    Include(PackedText<'a>),
    IncludeWith(PackedText<'a>),
    /// Whether the condition is negated.
    If(bool),
    IfElse(bool),
    ForItem(Span),
    /// Key, value, both.
    ForPair(Span, Span, Span),
    With(Span),
}

/// A statement, or the end of a scope's statements.
#[derive(Clone, Copy)]
pub enum ScopeCommand<'a> {
    Stmt(StmtCommand<'a>),
    End,
}

/// Name, whole and a count of at most `most`, as calls and filters have them.
#[tactic(auto, using(crate::proofs::Readings::further), unfolding(crate::specs::Heads::callee))]
fn read_callee(tree: &[u8], pos: usize, most: u8) -> Option<((Span, Span, u8), usize)>
    ensures same { Takes callee_of tree.now pos (callee most) result }
    ensures moves { Within tree.now pos result }
{
    let (name, after_name) = read_span(tree, pos)?;
    let (whole, after_whole) = read_span(tree, after_name)?;
    let (count, end) = read_byte(tree, after_whole)?;
    if count <= most {
        Some(((name, whole, count), end))
    } else {
        None
    }
}

/// The rest of an expression's command, after its byte.
#[tactic(auto, using(crate::proofs::Readings::further, crate::proofs::AfterBytes::base_unknown), unfolding(crate::specs::AfterByte::base_after, crate::specs::Heads::base_fields, packing::specs::Reader::coded))]
fn base_fields<'a>(tree: &'a [u8], pos: usize, byte: u8) -> Option<(BaseCommand<'a>, usize)>
    ensures same { Takes base_of tree.now pos (base_after byte) result }
    ensures moves { Within tree.now pos result }
{
    match byte {
        0x10 => {
            let (members, end) = read_variable(tree, pos)?;
            Some((BaseCommand::Variable(members), end))
        }
        0x11 => {
            let (literal, end) = read_span(tree, pos)?;
            Some((BaseCommand::Literal(literal), end))
        }
        0x12 => {
            let (list, next) = read_span(tree, pos)?;
            let (parts, end) = read_byte(tree, next)?;
            Some((BaseCommand::List(list, parts), end))
        }
        0x13 => read_map(tree, pos),
        0x14 => {
            let (paren, end) = read_span(tree, pos)?;
            Some((BaseCommand::Paren(paren), end))
        }
        0x15 => {
            let ((name, whole, count), end) = read_callee(tree, pos, 8)?;
            Some((BaseCommand::Call(name, whole, count), end))
        }
        _ => None,
    }
}

/// A map's span, its count, and its first key if there is one.
#[tactic(auto, using(crate::proofs::Readings::further, crate::proofs::AfterBytes::map_keyed, crate::proofs::AfterBytes::map_cut), unfolding(crate::specs::Heads::map_fields))]
fn read_map<'a>(tree: &'a [u8], pos: usize) -> Option<(BaseCommand<'a>, usize)>
    ensures same { Takes base_of tree.now pos map_fields result }
    ensures moves { Within tree.now pos result }
{
    let (span, after_span) = read_span(tree, pos)?;
    let (count, next) = read_byte(tree, after_span)?;
    if count == 0 {
        return Some((BaseCommand::EmptyMap(span), next));
    }
    let (key, end) = read_string(tree, next)?;
    Some((BaseCommand::Map(span, key, count - 1), end))
}

/// The next command, where an expression other than a filter is due.
#[tactic(auto, using(crate::proofs::Readings::within_ahead, crate::proofs::AfterBytes::base_follows), unfolding(crate::specs::Heads::base_head, packing::specs::Reader::command))]
pub fn base_command<'a>(tree: &'a [u8], pos: usize) -> Option<(BaseCommand<'a>, usize)>
    ensures same { Takes base_of tree.now pos base_head result }
    ensures moves { Strictly tree.now pos result }
{
    let (byte, next) = read_byte(tree, pos)?;
    base_fields(tree, next, byte)
}

/// The next command, where an expression is due.
#[tactic(auto, using(crate::proofs::Readings::ahead_further, crate::proofs::AfterBytes::expr_follows, crate::proofs::AfterBytes::filter_follows), unfolding(crate::specs::Heads::expr_head, packing::specs::Reader::command))]
pub fn expr_command<'a>(tree: &'a [u8], pos: usize) -> Option<(ExprCommand<'a>, usize)>
    ensures same { Takes expr_of tree.now pos expr_head result }
    ensures moves { Strictly tree.now pos result }
{
    let (byte, next) = read_byte(tree, pos)?;
    if byte == 0x16 {
        let ((name, whole, count), end) = read_callee(tree, next, 7)?;
        return Some((ExprCommand::Filter(name, whole, count), end));
    }
    let (base, end) = base_fields(tree, next, byte)?;
    Some((ExprCommand::Base(base), end))
}

/// The rest of a statement's command, after its byte.
#[tactic(auto, using(crate::proofs::Readings::further, crate::proofs::AfterBytes::stmt_unknown), unfolding(crate::specs::AfterByte::stmt_after, crate::specs::Heads::stmt_fields, packing::specs::Reader::coded))]
fn stmt_fields<'a>(tree: &'a [u8], pos: usize, byte: u8) -> Option<(StmtCommand<'a>, usize)>
    requires { pos ≤ length tree.now }
    ensures same { Takes stmt_of tree.now pos (stmt_after byte) result }
    ensures moves { Within tree.now pos result }
{
    match byte {
        0x01 => {
            let (raw, end) = read_span(tree, pos)?;
            Some((StmtCommand::Raw(raw), end))
        }
        0x02 => Some((StmtCommand::Inline, pos)),
        0x03 => {
            let (include, end) = read_string(tree, pos)?;
            Some((StmtCommand::Include(include), end))
        }
        0x04 => {
            let (include_with, end) = read_string(tree, pos)?;
            Some((StmtCommand::IncludeWith(include_with), end))
        }
        0x05 => {
            let (negated, end) = read_flag(tree, pos)?;
            Some((StmtCommand::If(negated), end))
        }
        0x06 => {
            let (negated_else, end) = read_flag(tree, pos)?;
            Some((StmtCommand::IfElse(negated_else), end))
        }
        0x07 => {
            let (item, end) = read_span(tree, pos)?;
            Some((StmtCommand::ForItem(item), end))
        }
        0x08 => {
            let (key, after_key) = read_span(tree, pos)?;
            let (value, after_value) = read_span(tree, after_key)?;
            let (both, end) = read_span(tree, after_value)?;
            Some((StmtCommand::ForPair(key, value, both), end))
        }
        0x09 => {
            let (name, end) = read_span(tree, pos)?;
            Some((StmtCommand::With(name), end))
        }
        _ => None,
    }
}

/// The next command, where a statement or the end of its scope is due.
#[tactic(auto, using(crate::proofs::Readings::ahead_further, crate::proofs::AfterBytes::stmt_follows, crate::proofs::AfterBytes::end_follows), unfolding(crate::specs::Heads::scope_head, packing::specs::Reader::command))]
pub fn scope_command<'a>(tree: &'a [u8], pos: usize) -> Option<(ScopeCommand<'a>, usize)>
    ensures same { Takes scope_of tree.now pos scope_head result }
    ensures moves { Strictly tree.now pos result }
{
    let (byte, next) = read_byte(tree, pos)?;
    if byte == 0x0A {
        return Some((ScopeCommand::End, next));
    }
    let (stmt, end) = stmt_fields(tree, next, byte)?;
    Some((ScopeCommand::Stmt(stmt), end))
}
