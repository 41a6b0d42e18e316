//! The report of a packed value that is loaded into a store.

ghost use Rattle.std.specs.Prelude.{◌≡◌, ◌++◌, length};
ghost use Rattle.meaning.specs.Charge.{cost};
ghost use Rattle.meaning.specs.FaultRecords.{fault_of};
ghost use Rattle.meaning.specs.Or.{fails};
ghost use Rattle.job.specs.Lines.{Wrote};
ghost use Rattle.job.specs.Loads.{came_of_load, cost_words, load_words, size_words};
ghost use Rattle.job.specs.Reported.{CameTo};
ghost use Rattle.job.specs.Values.{outline_value};
ghost use Rattle.job.specs.Supplies.{usable};
ghost use Rattle.loading.specs.Loading.{loaded};
ghost use Rattle.store.specs.Stores.{Known, SameMemory, charged, supply, used, value};
ghost use Rattle.store.specs.Supplied.{Supplied};

use crate::lines::Report;
use crate::report::Came;
use loading::loading::load;
use meaning::fault::Fault;
use std::alloc::AllocError;
use store::cell::{Cell, Ref};
use store::memory::{Store, Tally};
use values::measuring::measure;

impl Report {
    /// What a value costs, of what may be used. Its cells may be the sum of two counts.
    fn put_cost(&mut self, lent: Tally, cells: u128, bytes: usize) -> Result<(), AllocError>
        ensures { Wrote (cost_words (charged lent) (record { cells = cells; bytes = bytes })) result self.old self.new }
    {
        let Tally {
            cells: lent_cells,
            bytes: lent_bytes,
        } = lent;
        writeln!(
            self,
            ", cost {cells} cells of {lent_cells} and {bytes} bytes of {lent_bytes}"
        )
    }

    /// Why packed bytes were refused: in the bytes themselves, or for what their value costs.
    pub(crate) fn put_not_loaded(
        &mut self,
        lent: Tally,
        packed: &[u8],
        fault: Fault,
    ) -> Result<(), AllocError>
        requires { loaded (charged lent) packed.now ≡ fails (fault_of fault) }
        ensures { Wrote (load_words (charged lent) packed.now) result self.old self.new }
    {
        self.put_cause(fault.cause)?;
        match measure(packed) {
            Ok(cost) => self.put_cost(lent, cost.values as u128 + cost.parts as u128, cost.bytes),
            Err(_) => {
                let offset = fault.detail;
                writeln!(self, ", at byte {offset} of the value")
            }
        }
    }

    /// The size, the cost and the outline of a value that was loaded, which is all that is in use.
    fn put_loaded(&mut self, store: &Store, packed: &[u8], at: Ref) -> Result<(), AllocError>
        requires known { Known store.now at }
        requires alone { used store.now ≡ cost (value store.now at) }
        ensures { Wrote (size_words (length packed.now) ++ cost_words (supply store.now) (cost (value store.now at)) ++ outline_value 1 (value store.now at)) result self.old self.new }
    {
        let size = packed.len();
        let Tally { cells, bytes } = store.mark();
        write!(self, "taken, value of {size} bytes")?;
        self.put_cost(store.supply(), cells as u128, bytes)?;
        self.put_stored(store, at, 1)
    }

    /// Loads a value, and says what came of it.
    fn put_load_into(&mut self, store: &mut Store, packed: &[u8]) -> Result<Came, AllocError>
        ensures wrote { Wrote (load_words (supply store.old) packed.now) result self.old self.new }
        ensures came { CameTo (came_of_load (supply store.old) packed.now) result }
        ensures memory { SameMemory store.old store.new }
    {
        match load(store, packed) {
            Ok(at) => {
                self.put_loaded(store, packed, at)?;
                Ok(Came::Taken)
            }
            Err(fault) => {
                self.put_not_loaded(store.supply(), packed, fault)?;
                Ok(Came::Refused)
            }
        }
    }
}

/// The same into memory that is lent.
pub(crate) fn load_in(
    cells: &mut [Cell],
    text: &mut [u8],
    tally: &mut Tally,
    packed: &[u8],
    report: &mut Report,
) -> Result<Came, AllocError>
    requires { Supplied cells.old text.old tally.old }
    ensures wrote { Wrote (load_words (usable (length cells.old) (length text.old)) packed.now) result report.old report.new }
    ensures came { CameTo (came_of_load (usable (length cells.old) (length text.old)) packed.now) result }
    ensures supplied { Supplied cells.new text.new tally.new }
{
    let mut store = Store::new(cells, text, tally);
    report.put_load_into(&mut store, packed)
}
