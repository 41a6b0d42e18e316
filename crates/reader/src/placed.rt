//! The spans of a command: neither reversed, nor past the source, nor inside a character.

ghost use Rattle.std.specs.Prelude.{◌≡◌, drop};
ghost use Rattle.reader.specs.Forms.{Form, base_form, expr_form, scope_form};
ghost use Rattle.packing.specs.Limits.{inside};
ghost use Rattle.meaning.specs.Spans.{access_span};
ghost use Rattle.packing.specs.Unpacking.{all_inside, member_spans};
ghost use Rattle.reader.specs.Meanings.{base_of, expr_of, scope_of, stmt_of};
ghost use Rattle.reader.specs.Fields.{Strictly, Takes, members_of};
ghost use Rattle.reader.specs.Verdicts.{Ahead, heard, well_placed};
ghost use Rattle.reader.specs.Heads.{stmt_spans};

use crate::command::{
    BaseCommand, ExprCommand, ScopeCommand, StmtCommand, base_command, expr_command, scope_command,
};
use crate::field::Members;
use crate::refusal::Refusal;
use crate::text::is_between_characters;
use meaning::tree::{Access, Span};

pub fn is_inside(source: &[u8], span: Span) -> bool
    ensures { result ≡ inside source.now span }
{
    if span.start > span.end {
        return false;
    }
    if !is_between_characters(source, span.start as usize) {
        return false;
    }
    is_between_characters(source, span.end as usize)
}

fn access_span(access: Access) -> Span
    ensures { result ≡ access_span access }
{
    match access {
        Access::Index(_, span) => span,
        Access::Key(span) => span,
    }
}

fn members_placed(source: &[u8], members: Members) -> bool
    ensures { result ≡ all_inside source.now (member_spans (members_of members.entry)) }
{
    for member in members {
        if !is_inside(source, access_span(member.access)) {
            return false;
        }
        if !is_inside(source, member.span) {
            return false;
        }
    }
    true
}

fn stmt_placed(source: &[u8], command: StmtCommand) -> bool
    ensures { result ≡ all_inside source.now (stmt_spans (stmt_of command.entry)) }
{
    match command {
        StmtCommand::Raw(span) => is_inside(source, span),
        StmtCommand::Inline => true,
        StmtCommand::Include(name) | StmtCommand::IncludeWith(name) => is_inside(source, name.span),
        StmtCommand::If(_) | StmtCommand::IfElse(_) => true,
        StmtCommand::ForItem(span) => is_inside(source, span),
        StmtCommand::ForPair(key, value, both) => {
            is_inside(source, key) && is_inside(source, value) && is_inside(source, both)
        }
        StmtCommand::With(span) => is_inside(source, span),
    }
}

/// A kind of command, as it stands in a tree.
pub trait Command<'a>: Copy {
    /// How such a command is read, and which spans it has.
    ghost form: { Form };

    ghost head: { Self → form.Head };

    fn read(tree: &'a [u8], pos: usize) -> Option<(Self, usize)>
        ensures same { Takes head tree.now pos form.reads result }
        ensures moves { Strictly tree.now pos result };

    /// Whether its spans are good ones in the source.
    fn is_placed(self, source: &[u8]) -> bool
        ensures { result ≡ all_inside source.now (form.spans (head self)) };
}

impl<'a> Command<'a> for BaseCommand<'a> {
    ghost form = { base_form };

    ghost head = { base_of };

    fn read(tree: &'a [u8], pos: usize) -> Option<(BaseCommand<'a>, usize)> {
        base_command(tree, pos)
    }

    fn is_placed(self, source: &[u8]) -> bool {
        match self {
            BaseCommand::Variable(members) => members_placed(source, members),
            BaseCommand::Literal(span) | BaseCommand::EmptyMap(span) | BaseCommand::Paren(span) => {
                is_inside(source, span)
            }
            BaseCommand::List(span, _) => is_inside(source, span),
            BaseCommand::Map(span, key, _) => is_inside(source, key.span)
                && is_inside(source, span),
            BaseCommand::Call(name, whole, _) => is_inside(source, name)
                && is_inside(source, whole),
        }
    }
}

impl<'a> Command<'a> for ExprCommand<'a> {
    ghost form = { expr_form };

    ghost head = { expr_of };

    fn read(tree: &'a [u8], pos: usize) -> Option<(ExprCommand<'a>, usize)> {
        expr_command(tree, pos)
    }

    fn is_placed(self, source: &[u8]) -> bool {
        match self {
            ExprCommand::Base(base) => base.is_placed(source),
            ExprCommand::Filter(name, whole, _) => is_inside(source, name)
                && is_inside(source, whole),
        }
    }
}

impl<'a> Command<'a> for ScopeCommand<'a> {
    ghost form = { scope_form };

    ghost head = { scope_of };

    fn read(tree: &'a [u8], pos: usize) -> Option<(ScopeCommand<'a>, usize)> {
        scope_command(tree, pos)
    }

    fn is_placed(self, source: &[u8]) -> bool {
        match self {
            ScopeCommand::Stmt(stmt) => stmt_placed(source, stmt),
            ScopeCommand::End => true,
        }
    }
}

/// The command at a position, with its spans tested.
pub fn next_command<'a, C: Command<'a>>(
    source: &[u8],
    tree: &'a [u8],
    pos: usize,
) -> Result<(C, usize), Refusal>
    ensures same { heard C.Command.head tree.now result ≡ well_placed source.now C.Command.form.spans C.Command.form.reads (drop pos tree.now) }
    ensures moves { Ahead tree.now pos result }
{
    let (command, next) = C::read(tree, pos).ok_or(Refusal::Malformed(pos))?;
    if command.is_placed(source) {
        Ok((command, next))
    } else {
        Err(Refusal::Misplaced(pos))
    }
}
