//! The spans of expressions.

ghost use Rattle.std.specs.Prelude.{◌≡◌};
ghost use Rattle.compiler.specs.Records.{head_span, members_span};
ghost use Rattle.decoder.specs.Decoding.{found};
ghost use Rattle.meaning.specs.Spans.{combine};
ghost use Rattle.reader.specs.Fields.{as_it_is, members_of};
ghost use Rattle.reader.specs.Heads.{BaseOf};
ghost use Rattle.reader.specs.Meanings.{base_of, expr_of};

use meaning::tree::Span;
use reader::command::{BaseCommand, ExprCommand};
use reader::field::Members;

/// The least span over two.
fn combine_spans(a: Span, b: Span) -> Span
    ensures { result ≡ combine a b }
{
    Span {
        start: a.start.min(b.start),
        end: a.end.max(b.end),
    }
}

/// The least span over a variable's first and last members.
pub fn members_span(members: Members) -> Option<Span>
    ensures { found as_it_is result ≡ members_span (members_of members.entry) }
{
    let mut left = members;
    let first = left.next()?;
    let mut last = first;
    for member in left {
        last = member;
    }
    Some(combine_spans(first.span, last.span))
}

/// The span of an expression other than a filter, by its command.
fn base_span(command: BaseCommand) -> Option<Span>
    ensures { found as_it_is result ≡ head_span (BaseOf (base_of command.entry)) }
{
    match command {
        BaseCommand::Variable(members) => members_span(members),
        BaseCommand::Literal(span)
        | BaseCommand::List(span, _)
        | BaseCommand::EmptyMap(span)
        | BaseCommand::Map(span, _, _)
        | BaseCommand::Paren(span)
        | BaseCommand::Call(_, span, _) => Some(span),
    }
}

/// The span of an expression, by its command.
pub fn expr_span(command: ExprCommand) -> Option<Span>
    ensures { found as_it_is result ≡ head_span (expr_of command.entry) }
{
    match command {
        ExprCommand::Base(base) => base_span(base),
        ExprCommand::Filter(_, whole, _) => Some(whole),
    }
}
