//! The report of a packed value that a formatter writes as text.

ghost use Rattle.std.specs.Prelude.{◌≡◌, length};
ghost use Rattle.asking.specs.Formats.{formatter_named};
ghost use Rattle.hosts.specs.Answers.{Within, written};
ghost use Rattle.job.specs.Formats.{came_of_format, came_of_text, came_told, format_words, text_words, told_words};
ghost use Rattle.job.specs.Lines.{Wrote};
ghost use Rattle.job.specs.Reported.{CameTo};
ghost use Rattle.job.specs.Supplies.{usable};
ghost use Rattle.store.specs.Stores.{Known, SameMemory, supply, value};
ghost use Rattle.store.specs.Supplied.{Supplied};

use crate::lines::Report;
use crate::report::Came;
use asking::formatting::{MOST_TEXT, format_value, words_of_reason};
use calls::line::FormatterName;
use hosts::answer::Unwritten;
use loading::loading::load;
use std::alloc::AllocError;
use store::cell::{Cell, Ref};
use store::memory::{Store, Tally};

impl Report {
    /// The text at the front of the buffer, or why there is none.
    fn put_told(
        &mut self,
        told: Result<usize, Unwritten>,
        buffer: &[u8],
    ) -> Result<Came, AllocError>
        requires { Within told buffer.now }
        ensures wrote { Wrote (told_words (written told buffer.now)) result self.old self.new }
        ensures came { CameTo (came_told (written told buffer.now)) result }
    {
        match told {
            Ok(len) => {
                write!(self, "taken, text of {len} bytes, ")?;
                self.put_quoted(&buffer[..len])?;
                self.put(b"\n")?;
                Ok(Came::Taken)
            }
            Err(Unwritten::Refused(reason)) => {
                write!(self, "refused for reason {reason}, ")?;
                self.put(words_of_reason(reason))?;
                self.put(b"\n")?;
                Ok(Came::Refused)
            }
            Err(Unwritten::TooLong) => {
                self.put(b"refused, the text is longer than 4096 bytes\n")?;
                Ok(Came::Refused)
            }
        }
    }

    /// The text of a value by the formatter of that name, or why there is none.
    fn put_formatted(
        &mut self,
        store: &Store,
        formatter: FormatterName,
        at: Ref,
    ) -> Result<Came, AllocError>
        requires { Known store.now at }
        ensures wrote { Wrote (text_words (formatter_named formatter (value store.now at))) result self.old self.new }
        ensures came { CameTo (came_of_text (formatter_named formatter (value store.now at))) result }
    {
        let mut buffer = [0; MOST_TEXT];
        let told = format_value(formatter, store, at, &mut buffer);
        self.put_told(told, &buffer)
    }

    /// Loads a value, and says what the formatter writes of it.
    fn put_format_into(
        &mut self,
        store: &mut Store,
        formatter: FormatterName,
        packed: &[u8],
    ) -> Result<Came, AllocError>
        ensures wrote { Wrote (format_words (supply store.old) (formatter_named formatter) packed.now) result self.old self.new }
        ensures came { CameTo (came_of_format (supply store.old) (formatter_named formatter) packed.now) result }
        ensures memory { SameMemory store.old store.new }
    {
        match load(store, packed) {
            Ok(at) => self.put_formatted(store, formatter, at),
            Err(fault) => {
                self.put_not_loaded(store.supply(), packed, fault)?;
                Ok(Came::Refused)
            }
        }
    }
}

/// The same in memory that is lent.
pub(crate) fn format_in(
    cells: &mut [Cell],
    text: &mut [u8],
    tally: &mut Tally,
    formatter: FormatterName,
    packed: &[u8],
    report: &mut Report,
) -> Result<Came, AllocError>
    requires { Supplied cells.old text.old tally.old }
    ensures wrote { Wrote (format_words (usable (length cells.old) (length text.old)) (formatter_named formatter) packed.now) result report.old report.new }
    ensures came { CameTo (came_of_format (usable (length cells.old) (length text.old)) (formatter_named formatter) packed.now) result }
    ensures supplied { Supplied cells.new text.new tally.new }
{
    let mut store = Store::new(cells, text, tally);
    report.put_format_into(&mut store, formatter, packed)
}
