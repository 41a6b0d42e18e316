//! Reading values.

ghost use Rattle.std.specs.Prelude.{◌≡◌, ◌<◌, ◌≤◌, slice_index_or};
ghost use Rattle.meaning.specs.Value.{none, boolean, float as the_float, integer as the_integer, string};
ghost use Rattle.meaning.specs.Parts.{truth};
ghost use Rattle.store.specs.Cells.{at_span};
ghost use Rattle.store.specs.Jumps.{Begins, jump_of};
ghost use Rattle.store.specs.Kinds.{kind_of, size_of};
ghost use Rattle.store.specs.Shown.{Shows};
ghost use Rattle.store.specs.Stores.{Found, KeyKnown, Known, ShownIn, cells_of, text_of, used, value, values_of};
ghost use Rattle.store.specs.declared.cell.Cell.TheVariants.{EmptyList};
ghost use Rattle.store.specs.Values.{entry_in, part_of};

use super::Store;
use crate::cell::{Cell, Ref, TextSpan};
use crate::kinds::Kind;
use values::key::is_before;

/// The bits of negative zero.
const NEGATIVE_ZERO: u64 = 0x8000_0000_0000_0000;

impl Store<'_> {
    #[tactic(auto, using(crate::proofs::Stores::memory_shows, crate::proofs::Jumps::memory_is))]
    pub(super) fn cell(&self, at: u16) -> Cell
        requires { at < (used self.now).cells }
        ensures is { result ≡ slice_index_or (cells_of self.now) at EmptyList }
        ensures shows { Shows (text_of self.now) at (values_of self.now) (slice_index_or (values_of self.now) at none) result }
        ensures begins { Begins (slice_index_or (values_of self.now) (jump_of result at) none) (slice_index_or (values_of self.now) at none) }
    {
        self.cells[at as usize]
    }

    /// The cell that a reference names, if any.
    fn cell_of(&self, r: Ref) -> Option<Cell>
        requires { Known self.now r }
        ensures { ShownIn self.now r result }
    {
        match r {
            Ref::None => None,
            Ref::At(at) => Some(self.cell(at)),
        }
    }

    /// How many bytes, parts or entries the value in a cell has.
    #[tactic(auto, using(crate::proofs::Lists::push_size))]
    pub(super) fn size_at(&self, at: u16) -> u16
        requires { at < (used self.now).cells }
        ensures same { result ≡ size_of (slice_index_or (values_of self.now) at none) }
        ensures list_short { kind_of (slice_index_or (values_of self.now) at none) ≡ Kind.List → result ≤ at }
        ensures map_short { kind_of (slice_index_or (values_of self.now) at none) ≡ Kind.Map → result ≤ at }
    {
        match self.cell(at) {
            Cell::String(span) => span.len,
            Cell::Push { len, .. } | Cell::Insert { len, .. } => len,
            _ => 0,
        }
    }

    /// How many bytes, parts or entries a value has.
    pub fn size(&self, r: Ref) -> u16
        requires { Known self.now r }
        ensures { result ≡ size_of (value self.now r) }
    {
        match r {
            Ref::None => 0,
            Ref::At(at) => self.size_at(at),
        }
    }

    pub fn kind(&self, r: Ref) -> Kind
        requires { Known self.now r }
        ensures { result ≡ kind_of (value self.now r) }
    {
        match self.cell_of(r) {
            None => Kind::None,
            Some(Cell::Boolean(_)) => Kind::Boolean,
            Some(Cell::Integer(_)) => Kind::Integer,
            Some(Cell::Float(_)) => Kind::Float,
            Some(Cell::String(_)) => Kind::String,
            Some(Cell::EmptyList | Cell::Push { .. }) => Kind::List,
            Some(Cell::EmptyMap | Cell::Insert { .. }) => Kind::Map,
        }
    }

    /// False are none, false, 0, both float zeros, and an empty string, list or map.
    #[tactic(auto, using(crate::proofs::Lists::push_true, crate::proofs::Lists::insert_true))]
    pub fn truth(&self, r: Ref) -> bool
        requires { Known self.now r }
        ensures { result ≡ truth (value self.now r) }
    {
        match self.cell_of(r) {
            None => false,
            Some(Cell::Boolean(b)) => b,
            Some(Cell::Integer(n)) => n != 0,
            Some(Cell::Float(bits)) => bits != 0 && bits != NEGATIVE_ZERO,
            Some(Cell::String(span)) => span.len != 0,
            Some(Cell::EmptyList | Cell::EmptyMap) => false,
            Some(Cell::Push { .. } | Cell::Insert { .. }) => true,
        }
    }

    // Each of the next four names one kind of cell and hands out what it holds: one function for all of them would
    // need that kind as a parameter, and be longer than the four.

    pub fn boolean(&self, r: Ref) -> bool
        requires known { Known self.now r }
        requires is_boolean { kind_of (value self.now r) ≡ Kind.Boolean }
        ensures { value self.now r ≡ boolean result }
    {
        let Some(Cell::Boolean(b)) = self.cell_of(r) else {
            unreachable()
        };
        b
    }

    pub fn integer(&self, r: Ref) -> i64
        requires known { Known self.now r }
        requires is_integer { kind_of (value self.now r) ≡ Kind.Integer }
        ensures { value self.now r ≡ the_integer result }
    {
        let Some(Cell::Integer(n)) = self.cell_of(r) else {
            unreachable()
        };
        n
    }

    /// The 64 bits of a float.
    pub fn float(&self, r: Ref) -> u64
        requires known { Known self.now r }
        requires is_float { kind_of (value self.now r) ≡ Kind.Float }
        ensures { value self.now r ≡ the_float result }
    {
        let Some(Cell::Float(bits)) = self.cell_of(r) else {
            unreachable()
        };
        bits
    }

    /// The bytes of a span, as of an entry's key.
    #[tactic(auto, using(crate::proofs::Cells::span_under))]
    pub fn text_at(&self, span: TextSpan) -> &[u8]
        requires { KeyKnown self.now span }
        ensures { result.now ≡ at_span (text_of self.now) span }
    {
        let start = span.start as usize;
        &self.text[start..start + span.len as usize]
    }

    /// The bytes of a string.
    pub fn text(&self, r: Ref) -> &[u8]
        requires known { Known self.now r }
        requires is_string { kind_of (value self.now r) ≡ Kind.String }
        ensures { value self.now r ≡ string result.now }
    {
        let Some(Cell::String(span)) = self.cell_of(r) else {
            unreachable()
        };
        self.text_at(span)
    }

    /// The part of a list with that number, counted from 0.
    #[tactic(auto, using(crate::proofs::Lists::push_past, crate::proofs::Lists::push_top, crate::proofs::Lists::push_low, crate::proofs::Lists::jump_part))]
    pub fn part(&self, r: Ref, number: usize) -> Option<Ref>
        requires { Known self.now r }
        ensures { Found self.now (part_of (value self.now r) number) result }
    {
        let Ref::At(mut here) = r else {
            return None;
        };
        while let Cell::Push {
            front,
            part,
            len,
            jump,
        } = self.cell(here)
        {
            if number >= len as usize {
                return None;
            }
            if number + 1 == len as usize {
                return Some(part);
            }
            here = if number < self.size_at(jump) as usize {
                jump
            } else {
                front
            };
        }
        None
    }

    /// The value under a key of a map: the newest entry with that key counts. Where a key went in above the others, it is
    /// above all that lie below.
    #[tactic(auto, using(crate::proofs::Lists::insert_hit, crate::proofs::Lists::insert_miss, crate::proofs::Lists::insert_past, crate::proofs::Lists::jump_key))]
    pub fn value_of(&self, r: Ref, key: &[u8]) -> Option<Ref>
        requires { Known self.now r }
        ensures { Found self.now (entry_in (value self.now r) key.now) result }
    {
        let Ref::At(mut here) = r else {
            return None;
        };
        while let Cell::Insert {
            front,
            key: newest,
            part,
            jump,
            sorted,
            ..
        } = self.cell(here)
        {
            if key == self.text_at(newest) {
                return Some(part);
            }
            if sorted && is_before(self.text_at(newest), key) {
                return None;
            }
            here = if sorted && self.newest_is_above(jump, Some(key)) {
                jump
            } else {
                front
            };
        }
        None
    }
}
