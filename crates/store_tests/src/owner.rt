//! An owner of a store's memory: it lends the memory to a view for each piece of work, and knows afterwards what the
//! memory holds.

ghost use Rattle.std.specs.Prelude.{◌≡◌, take};
ghost use Rattle.store.specs.Stores.{Over};
ghost use Rattle.store.specs.Supplied.{Supplied};

use store::cell::{Cell, Ref};
use store::memory::{Full, Store, Tally};

pub struct Owner {
    cells: Vec<Cell>,
    text: Vec<u8>,
    tally: Tally,
    ghost supplied: { Supplied cells.items text.items tally },
}

/// Some values.
fn make_values(store: &mut Store) -> Result<Ref, Full>
    ensures { Over store.old store.new }
{
    let whole = store.empty_list()?;
    store.make_string(b"pots")?;
    Ok(whole)
}

/// The same in memory that is lent.
fn make_in(cells: &mut [Cell], text: &mut [u8], tally: &mut Tally) -> Result<Ref, Full>
    requires { Supplied cells.old text.old tally.old }
    ensures supplied { Supplied cells.new text.new tally.new }
    ensures cells_under { take tally.old.cells (take tally.new.cells cells.new) ≡ take tally.old.cells cells.old }
{
    let mut store = Store::new(cells, text, tally);
    make_values(&mut store)
}

impl Owner {
    /// What lay below the tally is as it was.
    pub fn make(&mut self) -> Result<Ref, Full>
        ensures { take self.old.tally.cells (take self.new.tally.cells self.new.cells.items) ≡ take self.old.tally.cells self.old.cells.items }
    {
        make_in(
            self.cells.as_mut_slice(),
            self.text.as_mut_slice(),
            &mut self.tally,
        )
    }
}
