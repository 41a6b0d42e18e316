//! The report of a job: what each line asked for, and what came of it.

ghost use Rattle.std.specs.Prelude.{◌≡◌, ◌++◌, IfOk, codes};
ghost use Rattle.meaning.specs.Fault.{number};
ghost use Rattle.meaning.specs.FaultRecords.{fault_of};
ghost use Rattle.packing.specs.Unpacking.{unpack};
ghost use Rattle.calls.specs.Calls.{call_of};
ghost use Rattle.job.specs.Lines.{Wrote};
ghost use Rattle.job.specs.Causes.{cause_words, refused_by};
ghost use Rattle.job.specs.Report.{add_words, bad_line, call_words, came_of, came_of_add, counts_words, heading, place_words, refused_words, taken_words, usable_after, verdict_words};
ghost use Rattle.job.specs.Reported.{CameTo, counted, no_counts, one_more};
ghost use Rattle.asking.specs.Formats.{formatter_named};
ghost use Rattle.job.specs.Formats.{came_of_format, format_heading, format_words};
ghost use Rattle.job.specs.Loads.{came_of_load, load_words};
ghost use Rattle.job.specs.Supplies.{supply_words, usable};

pub use crate::lines::Report;
use crate::outline::outline;
use crate::supply::Supply;
use calls::line::{FormatterName, Line, read_line};
pub use calls::word::words_of_bad;
use calls::word::{BadLine, Failure};
use checker::template::Template;
use meaning::fault::{Cause, Fault};
use std::alloc::AllocError;
use store::memory::Tally;

/// What came of a line.
#[derive(Clone, Copy)]
pub enum Came {
    Passed,
    Taken,
    Refused,
    NoCall,
}

/// How many lines came to what.
#[derive(Clone, Copy)]
pub struct Counts {
    pub taken: u64,
    pub refused: u64,
    pub bad: u64,
}

/// A cause in words. No `Display` can say them, since the type is of another crate.
pub fn words_of_cause(cause: Cause) -> &'static [u8]
    ensures { result.now ≡ cause_words cause }
{
    match cause {
        Cause::BadSource => b"the source is too long or is not well-formed text",
        Cause::Malformed => b"the packed bytes are cut, over-long, left over or break the format",
        Cause::Misplaced => b"a span is reversed, past the source or inside a character",
        Cause::TooDeep => b"the nesting is too deep",
        Cause::TooManyInstructions => b"the template has too many instructions",
        Cause::BadName => b"the name has not 1 to 32 bytes",
        Cause::TemplatesFull => b"16 templates are held already",
        Cause::UnknownName => b"no template of that name is held",
        Cause::IncludeDepthTooHigh => b"the include depth is above 32",
        Cause::NotInScope => b"the variable is not in scope",
        Cause::NoSuchKey => b"the map has no such key",
        Cause::NoSuchIndex => b"the list has no such index",
        Cause::WrongAccess => b"a value of this kind has no such member",
        Cause::NoParts => b"this has no members",
        Cause::NotIterable => b"this is neither a list nor a map",
        Cause::WrongLoopNames => b"a list takes one loop name, and a map two",
        Cause::UnknownFunction => b"no function of that name is known",
        Cause::UnknownEmitted => b"no formatter or function of that name is known",
        Cause::FormatterInside => b"a formatter cannot stand inside an expression",
        Cause::FormatterCount => b"a formatter takes just one value",
        Cause::Refused => b"a host refused",
        Cause::UnknownTemplate => b"no template of that name is held",
        Cause::TooManyOpen => b"too many templates are open",
        Cause::SinkStopped => b"the sink stopped",
        Cause::StoreFull => b"the store is full",
        Cause::TextTooLong => b"a formatter's text is too long",
    }
}

// written out, since its law names the counts of the definition
impl Default for Counts {
    ghost is_default = { λ counts. counts ≡ no_counts };

    fn default() -> Counts {
        Counts {
            taken: 0,
            refused: 0,
            bad: 0,
        }
    }
}

impl Counts {
    /// One line more.
    pub fn with(mut self, came: Came) -> Counts
        ensures { result ≡ counted self came }
    {
        match came {
            Came::Passed => {}
            Came::Taken => count(&mut self.taken),
            Came::Refused => count(&mut self.refused),
            Came::NoCall => count(&mut self.bad),
        }
        self
    }
}

/// One more, up to what 64 bits hold.
fn count(counter: &mut u64)
    ensures { counter.new ≡ one_more counter.old }
{
    *counter = counter.saturating_add(1);
}

impl Report {
    /// Which line is reported.
    fn put_heading(&mut self, number: u64) -> Result<(), AllocError>
        ensures { Wrote (heading number) result self.old self.new }
    {
        write!(self, "line {number}: ")
    }

    /// Where in a tree bytes are refused.
    fn put_place(&mut self, cause: Cause, offset: usize) -> Result<(), AllocError>
        ensures { Wrote (place_words (number cause) offset) result self.old self.new }
    {
        match cause {
            Cause::BadSource => self.put(b"\n"),
            _ => writeln!(self, ", at byte {offset} of the tree"),
        }
    }

    /// The cause of a refusal, by number and in words.
    pub(crate) fn put_cause(&mut self, cause: Cause) -> Result<(), AllocError>
        ensures { Wrote (refused_by cause) result self.old self.new }
    {
        let number = cause.number();
        write!(self, "refused by cause {number}, ")?;
        self.put(words_of_cause(cause))
    }

    /// Why bytes are no template.
    fn put_refusal(&mut self, fault: Fault) -> Result<(), AllocError>
        ensures { Wrote (refused_words (fault_of fault)) result self.old self.new }
    {
        self.put(b": ")?;
        self.put_cause(fault.cause)?;
        self.put_place(fault.cause, fault.detail)
    }

    /// That bytes are a template.
    fn put_taken(&mut self, source: &[u8], tree: &[u8]) -> Result<(), AllocError>
        ensures { Wrote (taken_words source.now tree.now) result self.old self.new }
    {
        let source_len = source.len();
        let tree_len = tree.len();
        writeln!(
            self,
            ": taken, source of {source_len} bytes, tree of {tree_len} bytes"
        )
    }

    /// What is found of a template's bytes, which are none before they are checked: its outline and its listing, or why
    /// they are refused.
    fn put_verdict(&mut self, source: &[u8], tree: &[u8]) -> Result<Came, AllocError>
        ensures wrote { Wrote (verdict_words source.now tree.now (unpack source.now tree.now)) result self.old self.new }
        ensures came { CameTo (came_of_add (unpack source.now tree.now)) result }
    {
        match Template::new(source, tree) {
            Ok(template) => {
                self.put_taken(source, tree)?;
                outline(&template, self)?;
                self.put_listing(&template)?;
                Ok(Came::Taken)
            }
            Err(fault) => {
                self.put_refusal(fault)?;
                Ok(Came::Refused)
            }
        }
    }

    /// What is asked of a template that is to be added, and what came of it.
    fn put_add(
        &mut self,
        number: u64,
        name: &[u8],
        source: &[u8],
        tree: &[u8],
    ) -> Result<Came, AllocError>
        ensures wrote { Wrote (add_words number name.now source.now tree.now) result self.old self.new }
        ensures came { CameTo (came_of_add (unpack source.now tree.now)) result }
    {
        self.put_heading(number)?;
        self.put(b"add ")?;
        self.put_quoted(name)?;
        self.put_verdict(source, tree)
    }

    /// Makes a new store, and says what is supplied.
    fn put_supply(
        &mut self,
        supply: &mut Supply,
        number: u64,
        cells: usize,
        bytes: usize,
    ) -> Result<Came, AllocError>
        ensures wrote { Wrote (heading number ++ supply_words cells bytes (usable cells bytes)) result self.old self.new }
        ensures came { CameTo Came.Taken result }
        ensures supplied { IfOk result (λ _. supply.new ≡ usable cells bytes) }
    {
        *supply = Supply::new(self.heap(), cells, bytes)?;
        let Tally {
            cells: used_cells,
            bytes: used_bytes,
        } = supply.usable();
        self.put_heading(number)?;
        writeln!(
            self,
            "supply: {cells} cells and {bytes} bytes, of which {used_cells} cells and {used_bytes} bytes are used at most"
        )?;
        Ok(Came::Taken)
    }

    /// Loads a value, and says what came of it.
    fn put_load(
        &mut self,
        supply: &mut Supply,
        number: u64,
        packed: &[u8],
    ) -> Result<Came, AllocError>
        ensures wrote { Wrote (heading number ++ codes "load: " ++ load_words supply.old packed.now) result self.old self.new }
        ensures came { CameTo (came_of_load supply.old packed.now) result }
        ensures supplied { supply.new ≡ supply.old }
    {
        self.put_heading(number)?;
        self.put(b"load: ")?;
        supply.load(packed, self)
    }

    /// Loads a value, and says what the formatter writes of it.
    fn put_format(
        &mut self,
        supply: &mut Supply,
        number: u64,
        formatter: FormatterName,
        packed: &[u8],
    ) -> Result<Came, AllocError>
        ensures wrote { Wrote (heading number ++ format_heading formatter ++ format_words supply.old (formatter_named formatter) packed.now) result self.old self.new }
        ensures came { CameTo (came_of_format supply.old (formatter_named formatter) packed.now) result }
        ensures supplied { supply.new ≡ supply.old }
    {
        self.put_heading(number)?;
        match formatter {
            FormatterName::Plain => self.put(b"format plain: ")?,
            FormatterName::Lat => self.put(b"format lat: ")?,
            FormatterName::Lon => self.put(b"format lon: ")?,
        }
        supply.format(formatter, packed, self)
    }

    /// That a line is no call, and why.
    fn put_bad(&mut self, number: u64, bad: BadLine) -> Result<Came, AllocError>
        ensures wrote { Wrote (bad_line number bad) result self.old self.new }
        ensures came { CameTo Came.NoCall result }
    {
        self.put_heading(number)?;
        writeln!(self, "bad line, {bad}")?;
        Ok(Came::NoCall)
    }

    /// What the line of that number asks for, and what came of it.
    pub fn put_line(
        &mut self,
        supply: &mut Supply,
        number: u64,
        line: &[u8],
    ) -> Result<Came, AllocError>
        ensures wrote { Wrote (call_words supply.old number (call_of line.now)) result self.old self.new }
        ensures came { CameTo (came_of supply.old (call_of line.now)) result }
        ensures supplied { IfOk result (λ _. supply.new ≡ usable_after supply.old (call_of line.now)) }
    {
        match read_line(self.heap(), line) {
            Ok(None) => Ok(Came::Passed),
            Ok(Some(Line::Add { name, source, tree })) => {
                self.put_add(number, name.as_slice(), source.as_slice(), tree.as_slice())
            }
            Ok(Some(Line::Supply { cells, bytes })) => {
                self.put_supply(supply, number, cells, bytes)
            }
            Ok(Some(Line::Load { packed })) => self.put_load(supply, number, packed.as_slice()),
            Ok(Some(Line::Format { formatter, packed })) => {
                self.put_format(supply, number, formatter, packed.as_slice())
            }
            Err(Failure::Memory) => Err(AllocError),
            Err(Failure::Bad(bad)) => self.put_bad(number, bad),
        }
    }

    /// The last line of a report.
    pub fn put_counts(&mut self, counts: Counts) -> Result<(), AllocError>
        ensures { Wrote (counts_words counts) result self.old self.new }
    {
        let Counts {
            taken,
            refused,
            bad,
        } = counts;
        writeln!(self, "{taken} taken, {refused} refused, {bad} bad lines")
    }
}
