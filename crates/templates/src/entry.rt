//! An entry of the table: a name, and where its template lies.

ghost use Rattle.std.specs.Prelude.{◌≡◌, ◌<◌, ◌≤◌};

use meaning::name::Name;

/// How many entries there are, and as many places.
pub(crate) const PLACES: usize = 16;

/// How many bytes lie at a place, and how many of them before the tree.
pub(crate) const PLACE_BYTES: usize = 16384;

pub(crate) const SOURCE_BYTES: usize = 8192;

/// How many instructions lie at a place.
pub(crate) const PLACE_INSTRS: usize = 1024;

/// The template's bytes and instructions stand at its place of the memory, which has a fixed size, so that an entry says how long they are; an entry that is not in use holds a free place.
#[derive(Clone, Copy)]
pub struct Entry {
    pub(crate) name: Name,
    pub(crate) place: usize,
    pub(crate) source_len: usize,
    pub(crate) tree_len: usize,
    /// How many instructions its program has.
    pub(crate) len: usize,
    ghost within: { place < 16 },
    ghost source: { source_len ≤ 8192 },
    ghost tree: { tree_len ≤ 8192 },
    ghost program: { len ≤ 1024 },
}

impl Entry {
    /// An entry that is not in use, with a place that is free.
    pub(crate) fn free(place: usize) -> Entry
        requires { place < 16 }
        ensures { result.place ≡ place }
    {
        Entry {
            // some name, which nothing reads
            name: Name::new(b"-").unwrap(),
            place,
            source_len: 0,
            tree_len: 0,
            len: 0,
        }
    }
}
