//! Making values: each answers a reference to the value made, or that the supply is full.

ghost use Rattle.std.specs.Prelude.{◌≡◌, ◌+◌, ◌<◌, ◌≤◌, true, not, ◌||◌, ◌++◌, length, take, slice_index_or};
ghost use Rattle.meaning.specs.Charge.{◌⊕◌, cell_and_text, cost, one_cell, within};
ghost use Rattle.meaning.specs.Value.{Value, boolean, float, integer, list as the_list, map as the_map, no_entries, no_items, none, string};
ghost use Rattle.reader.specs.Meanings.{plain_of};
ghost use Rattle.store.specs.Cells.{at_span, fits, of_cell};
ghost use Rattle.store.specs.Jumps.{jumps};
ghost use Rattle.store.specs.Kinds.{kind_of};
ghost use Rattle.store.specs.Stores.{Added, KeyKnown, Known, Made, Placed, cells_of, supply, text_of, used, value, values_of};
ghost use Rattle.store.specs.Values.{goes_last, has_entries, inserted, pushed};

use super::{Full, Store, Tally};
use crate::cell::{Cell, Ref, TextSpan};
use crate::kinds::Kind;
use reader::literal::PlainValue;
use values::key::is_before;

impl Store<'_> {
    /// Where the next bytes will lie, if the supply holds them and one cell more.
    fn next_span(&self, bytes: &[u8]) -> Result<TextSpan, Full>
        ensures { Placed self.now bytes.now result }
    {
        let lent = self.supply();
        let has_room = self.tally.cells < lent.cells
            && bytes.len() <= lent.bytes - self.tally.bytes;
        if !has_room {
            return Err(Full);
        }
        Ok(TextSpan {
            start: self.tally.bytes as u16,
            len: bytes.len() as u16,
        })
    }

    /// Puts one cell and its bytes on top.
    fn add(&mut self, cell: Cell, bytes: &[u8]) -> Ref
        requires room { within (supply self.old) (used self.old ⊕ cell_and_text bytes.now) ≡ true }
        requires fit { fits (text_of self.old ++ bytes.now) (used self.old).cells (values_of self.old) cell ≡ true }
        requires jump { jumps (cells_of self.old) cell ≡ true }
        ensures { Added self.old self.new (cell_and_text bytes.now) (of_cell (text_of self.old ++ bytes.now) (values_of self.old) cell) result }
    {
        let at = self.tally.cells;
        let start = self.tally.bytes;
        let end = start + bytes.len();
        let Store { text, .. } = self;
        write_at(*text, start, bytes);
        self.cells[at] = cell;
        *self.tally = Tally {
            cells: at + 1,
            bytes: end,
        };
        Ref::At(at as u16)
    }

    /// Makes what a cell without bytes of its own stands for.
    fn make(&mut self, cell: Cell) -> Result<Ref, Full>
        requires fit { fits (text_of self.old) (used self.old).cells (values_of self.old) cell ≡ true }
        requires jump { jumps (cells_of self.old) cell ≡ true }
        ensures { Made self.old self.new one_cell (of_cell (text_of self.old) (values_of self.old) cell) result }
    {
        self.next_span(&[])?;
        Ok(self.add(cell, &[]))
    }

    // The next three have only their cell's kind of their own; what they share is `make`.

    pub fn make_boolean(&mut self, b: bool) -> Result<Ref, Full>
        ensures { Made self.old self.new (cost (boolean b)) (boolean b) result }
    {
        self.make(Cell::Boolean(b))
    }

    pub fn make_integer(&mut self, n: i64) -> Result<Ref, Full>
        ensures { Made self.old self.new (cost (integer n)) (integer n) result }
    {
        self.make(Cell::Integer(n))
    }

    /// A float, by its 64 bits.
    pub fn make_float(&mut self, bits: u64) -> Result<Ref, Full>
        ensures { Made self.old self.new (cost (float bits)) (float bits) result }
    {
        self.make(Cell::Float(bits))
    }

    #[tactic(auto, using(crate::proofs::Cells::top_span))]
    pub fn make_string(&mut self, bytes: &[u8]) -> Result<Ref, Full>
        ensures { Made self.old self.new (cost (string bytes.now)) (string bytes.now) result }
    {
        let span = self.next_span(bytes)?;
        Ok(self.add(Cell::String(span), bytes))
    }

    /// A string whose bytes lie in the store's text already, as those of a key do: it shares them.
    pub fn share(&mut self, text: TextSpan) -> Result<Ref, Full>
        requires { KeyKnown self.old text }
        ensures { Made self.old self.new one_cell (string (at_span (text_of self.old) text)) result }
    {
        self.make(Cell::String(text))
    }

    /// A value without parts, as a literal has it: none takes no cell.
    pub fn make_plain(&mut self, value: PlainValue) -> Result<Ref, Full>
        ensures { Made self.old self.new (cost (plain_of value.entry)) (plain_of value.entry) result }
    {
        match value {
            PlainValue::Nothing => Ok(Ref::None),
            PlainValue::False => self.make_boolean(false),
            PlainValue::True => self.make_boolean(true),
            PlainValue::Integer(n) => self.make_integer(n),
            PlainValue::Float(bits) => self.make_float(bits),
            PlainValue::String(bytes) => self.make_string(bytes),
        }
    }

    pub fn empty_list(&mut self) -> Result<Ref, Full>
        ensures { Made self.old self.new one_cell (the_list no_items) result }
    {
        self.make(Cell::EmptyList)
    }

    /// The list with one more part at its end.
    #[tactic(auto, using(crate::proofs::Lists::pushed_counts))]
    pub fn push(&mut self, list: Ref, part: Ref) -> Result<Ref, Full>
        requires list_known { Known self.old list }
        requires is_list { kind_of (value self.old list) ≡ Kind.List }
        requires part_known { Known self.old part }
        ensures { Made self.old self.new one_cell (pushed (value self.old list) (value self.old part)) result }
    {
        let Ref::At(front) = list else { unreachable() };
        let len = self.size_at(front) + 1;
        let jump = self.jump_over(front);
        self.make(Cell::Push {
            front,
            part,
            len,
            jump,
        })
    }

    pub fn empty_map(&mut self) -> Result<Ref, Full>
        ensures { Made self.old self.new one_cell (the_map no_entries) result }
    {
        self.make(Cell::EmptyMap)
    }

    /// Whether a key is above all keys of the map in a cell. Of a map that is not sorted it is not known.
    #[tactic(auto, using(crate::proofs::Lists::insert_under))]
    fn goes_last(&self, front: u16, key: &[u8]) -> bool
        requires { front < (used self.now).cells }
        ensures { (not result || goes_last key.now (slice_index_or (values_of self.now) front none)) ≡ true }
    {
        match self.cell(front) {
            Cell::EmptyMap => true,
            Cell::Insert {
                key: newest,
                sorted: true,
                ..
            } => is_before(self.text_at(newest), key),
            _ => false,
        }
    }

    /// How many entries the map in a cell has once the key is in it, which is new if it is above all others.
    #[tactic(auto, using(crate::proofs::Stores::counts_with, crate::proofs::Stores::counts_last))]
    fn size_with(&self, front: u16, key: &[u8], last: bool) -> u16
        requires low { front < (used self.now).cells }
        requires is_map { kind_of (slice_index_or (values_of self.now) front none) ≡ Kind.Map }
        requires is_last { (not last || goes_last key.now (slice_index_or (values_of self.now) front none)) ≡ true }
        ensures counts { (v : Value) → has_entries result (inserted (slice_index_or (values_of self.now) front none) key.now v) ≡ true }
        ensures short { result ≤ front + 1 }
    {
        let size = self.size_at(front);
        if last {
            return size + 1;
        }
        match self.value_of(Ref::At(front), key) {
            Some(_) => size,
            None => size + 1,
        }
    }

    /// The map in which that part stands under the key.
    #[tactic(auto, using(crate::proofs::Cells::top_span, crate::proofs::Stores::text_count, crate::proofs::Stores::added_as))]
    pub fn insert(&mut self, map: Ref, key: &[u8], part: Ref) -> Result<Ref, Full>
        requires map_known { Known self.old map }
        requires is_map { kind_of (value self.old map) ≡ Kind.Map }
        requires part_known { Known self.old part }
        ensures { Made self.old self.new (cell_and_text key.now) (inserted (value self.old map) key.now (value self.old part)) result }
    {
        let Ref::At(front) = map else { unreachable() };
        let span = self.next_span(key)?;
        let sorted = self.goes_last(front, key);
        let len = self.size_with(front, key, sorted);
        let jump = self.jump_over(front);
        let cell = Cell::Insert {
            front,
            key: span,
            part,
            len,
            jump,
            sorted,
        };
        Ok(self.add(cell, key))
    }
}

/// Writes the bytes over those from `start` on.
fn write_at(text: &mut [u8], start: usize, bytes: &[u8])
    requires { start + length bytes.now ≤ length text.old }
    ensures { take (start + length bytes.now) text.new ≡ take start text.old ++ bytes.now }
{
    text[start..start + bytes.len()].copy_from_slice(bytes);
}
