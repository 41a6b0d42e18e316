//! A variable, taken apart.

ghost use Rattle.std.specs.Prelude.{◌≡◌, ◌∷◌, ◌≤◌, length};
ghost use Rattle.meaning.specs.Spans.{access_span, combine, last_member, text_at};
ghost use Rattle.reader.specs.Fields.{members_of};

use decoder::spans::members_span;
use meaning::tree::{Access, Member, Span};
use reader::field::Members;
use reader::text::text_under;

/// A variable, and the source of the template in which it and its names stand.
#[derive(Clone, Copy)]
pub struct Var<'t> {
    pub source: &'t [u8],
    pub path: Members<'t>,
    /// The first member of the path, and those after it.
    pub first: Member,
    pub rest: Members<'t>,
    /// The least span over the first and last members.
    pub span: Span,
    ghost whole: { members_of path ≡ first ∷ members_of rest },
    ghost least: { span ≡ combine first.span (last_member first (members_of rest)).span },
}

impl<'t> Var<'t> {
    pub fn new(source: &'t [u8], path: Members<'t>) -> Var<'t>
        requires { 1 ≤ length (members_of path) }
        ensures source { result.source.now ≡ source.now }
        ensures path { members_of result.path ≡ members_of path.entry }
    {
        let mut rest = path;
        let Some(first) = rest.next() else {
            unreachable()
        };
        let Some(span) = members_span(path) else {
            unreachable()
        };
        Var {
            source,
            path,
            first,
            rest,
            span,
        }
    }

    /// The text of the first access.
    pub fn name(&self) -> &[u8]
        ensures { result.now ≡ text_at self.now.source.now (access_span self.now.first.access) }
    {
        match self.first.access {
            Access::Index(_, span) | Access::Key(span) => text_under(self.source, span),
        }
    }
}
