//! The small parts of a tree, which code and definitions share.

/// A region of a template's source, from `start` up to `end`.
#[derive(Clone, Copy, PartialEq, Eq, Debug)]
pub struct Span {
    pub start: u16,
    pub end: u16,
}

/// Whether a member may be absent.
#[derive(Clone, Copy)]
pub enum AccessOp {
    Direct,
    Optional,
}

/// What a member asks for: the number or the name, with the span of either in the source.
#[derive(Clone, Copy)]
pub enum Access {
    Index(u32, Span),
    Key(Span),
}

/// One member of a variable.
#[derive(Clone, Copy)]
pub struct Member {
    pub op: AccessOp,
    pub access: Access,
    pub span: Span,
}
