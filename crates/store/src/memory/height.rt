//! The tally of a store: the view begins at one, and is put back to a height that it had.

ghost use Rattle.std.specs.Prelude.{◌≡◌};
ghost use Rattle.store.specs.Stores.{Freed, Height, charged, supply};
ghost use Rattle.store.specs.Supplied.{Supplied};

use super::{Store, Tally};
use crate::cell::Cell;

/// The most cells, and the most bytes, that are used.
const MOST: usize = 65_535;

impl Tally {
    /// Nothing is in use.
    pub const EMPTY: Tally = Tally { cells: 0, bytes: 0 };
}

impl<'m> Store<'m> {
    /// The store in that memory, of which so much is in use already.
    pub fn new(cells: &'m mut [Cell], text: &'m mut [u8], tally: &'m mut Tally) -> Store<'m>
        requires { Supplied cells.old text.old tally.old }
        ensures cells { (result.cells.ghost_name ≡ cells.entry.ghost_name) × (result.cells.now ≡ cells.old) }
        ensures text { (result.text.ghost_name ≡ text.entry.ghost_name) × (result.text.now ≡ text.old) }
        ensures tally { (result.tally.ghost_name ≡ tally.entry.ghost_name) × (result.tally.now ≡ tally.old) }
    {
        Store { cells, text, tally }
    }

    /// How many cells and bytes it may use in all.
    pub fn supply(&self) -> Tally
        ensures { charged result ≡ supply self.now }
    {
        Tally {
            cells: self.cells.len().min(MOST),
            bytes: self.text.len().min(MOST),
        }
    }

    /// The height of the tally.
    pub fn mark(&self) -> Tally
        ensures { result ≡ self.now.tally.now }
    {
        *self.tally
    }

    /// Frees what was made since the mark.
    pub fn free_to(&mut self, mark: Tally)
        requires { Height self.old (charged mark) }
        ensures { Freed self.old self.new (charged mark) }
    {
        *self.tally = mark;
    }
}
