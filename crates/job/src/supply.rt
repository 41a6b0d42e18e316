//! The memory that a job supplies for the values that it loads.

ghost use Rattle.std.specs.Prelude.{◌≡◌, IfOk, length};
ghost use Rattle.meaning.specs.Charge.{Charge};
ghost use Rattle.store.specs.Stores.{charged};
ghost use Rattle.store.specs.Supplied.{Supplied};
ghost use Rattle.asking.specs.Formats.{formatter_named};
ghost use Rattle.job.specs.Formats.{came_of_format, format_words};
ghost use Rattle.job.specs.Lines.{Wrote};
ghost use Rattle.job.specs.Loads.{came_of_load, load_words};
ghost use Rattle.job.specs.Reported.{CameTo};
ghost use Rattle.job.specs.Supplies.{usable};

use crate::formatted::format_in;
use crate::lines::Report;
use crate::loaded::load_in;
use crate::report::Came;
use calls::line::FormatterName;
use std::alloc::{AllocError, Global};
use std::marker::Model;
use store::cell::Cell;
use store::memory::Tally;

/// The most cells, and the most bytes, that a store uses.
pub const MOST: usize = 65_535;

/// The memory of a store, and what of it is in use. It is seen as what may be used.
#[derive(Drop)]
pub struct Supply {
    cells: Vec<Cell>,
    text: Vec<u8>,
    tally: Tally,
}

impl Model for Supply {
    ghost Value = { Charge };

    ghost view = { λ supply. usable (length supply.cells.items) (length supply.text.items) };

    ghost invariant = { λ supply. Supplied supply.cells.items supply.text.items supply.tally };
}

impl Supply {
    /// So many cells and bytes, as far as a store uses them, and nothing in them.
    pub fn new(heap: Global, cells: usize, bytes: usize) -> Result<Supply, AllocError>
        ensures { IfOk result (λ supply. supply ≡ usable cells bytes) }
    {
        Ok(Supply {
            cells: vec![in heap; Cell::EmptyMap; cells.min(MOST)]?,
            text: vec![in heap; 0; bytes.min(MOST)]?,
            tally: Tally::EMPTY,
        })
    }

    /// What may be used.
    pub fn usable(&self) -> Tally
        ensures { charged result ≡ self.now }
    {
        Tally {
            cells: self.cells.len().min(MOST),
            bytes: self.text.len().min(MOST),
        }
    }

    /// Loads the packed value in place of what was loaded before, and reports what came of it.
    pub(crate) fn load(&mut self, packed: &[u8], report: &mut Report) -> Result<Came, AllocError>
        ensures wrote { Wrote (load_words self.old packed.now) result report.old report.new }
        ensures came { CameTo (came_of_load self.old packed.now) result }
        ensures same { self.new ≡ self.old }
    {
        load_in(
            self.cells.as_mut_slice(),
            self.text.as_mut_slice(),
            &mut self.tally,
            packed,
            report,
        )
    }

    /// Loads the packed value in place of what was loaded before, and reports what the formatter writes of it.
    pub(crate) fn format(
        &mut self,
        formatter: FormatterName,
        packed: &[u8],
        report: &mut Report,
    ) -> Result<Came, AllocError>
        ensures wrote { Wrote (format_words self.old (formatter_named formatter) packed.now) result report.old report.new }
        ensures came { CameTo (came_of_format self.old (formatter_named formatter) packed.now) result }
        ensures same { self.new ≡ self.old }
    {
        format_in(
            self.cells.as_mut_slice(),
            self.text.as_mut_slice(),
            &mut self.tally,
            formatter,
            packed,
            report,
        )
    }
}
