//! What a store holds: cells that are written once, and refer only to cells below themselves.

/// A value: none, or the number of the cell that holds it. It is no `Option`, since none is one of the values:
/// an `Option<Ref>` says whether there is a value at all, which may be none.
/// It borrows nothing from its store, so that more can be made while it is in hand; `Known` says that it belongs there.
#[derive(Clone, Copy, PartialEq, Eq, Debug)]
pub enum Ref {
    None,
    At(u16),
}

/// A part of the store's text: `len` bytes from `start` on.
#[derive(Clone, Copy)]
pub struct TextSpan {
    pub start: u16,
    pub len: u16,
}

/// A list or map grows by one new cell over the old one, which stays as it is.
/// `jump` is a cell further down the same list, or the same map where that is sorted, by which a part is found in few steps.
#[derive(Clone, Copy)]
pub enum Cell {
    Boolean(bool),
    Integer(i64),
    /// The 64 bits of a binary64 number.
    Float(u64),
    String(TextSpan),
    EmptyList,
    /// The list in the cell `front` with one more part at its end: `len` parts in all.
    Push {
        front: u16,
        part: Ref,
        len: u16,
        jump: u16,
    },
    EmptyMap,
    /// The map in the cell `front` with `part` under `key`: `len` entries in all.
    /// `sorted` says that the key went in above all those before it.
    Insert {
        front: u16,
        key: TextSpan,
        part: Ref,
        len: u16,
        jump: u16,
        sorted: bool,
    },
}

/// An entry of a map: its key, in the store's text, and its value.
#[derive(Clone, Copy)]
pub struct Entry {
    pub key: TextSpan,
    pub value: Ref,
}
