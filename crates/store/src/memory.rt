//! The store: a view over lent memory, of which the lowest cells and bytes are in use.

ghost use Rattle.store.specs.Supplied.{Supplied};

use crate::cell::Cell;

pub mod height;
pub mod in_order;
pub mod jumping;
pub mod making;
pub mod reading;

/// How many cells and bytes are in use.
#[derive(Clone, Copy, PartialEq, Eq, Debug)]
pub struct Tally {
    pub cells: usize,
    pub bytes: usize,
}

/// What lies above the tally is free. Of the memory supplied, 65,535 cells and as many bytes are used at most.
/// A store has no heap, so cells refer to one another by number, and lowering the tally frees all above it at once.
/// The tally is lent too: it is known after the view has ended.
#[derive(Drop)]
pub struct Store<'m> {
    cells: &'m mut [Cell],
    text: &'m mut [u8],
    tally: &'m mut Tally,
    ghost supplied: { Supplied cells.now text.now tally.now },
}

/// The supply does not hold what was to be made.
#[derive(Clone, Copy, PartialEq, Eq, Debug)]
pub struct Full;
