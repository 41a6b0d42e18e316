//! Values as text.

ghost use Rattle.std.specs.Prelude.{◌≡◌, length};
ghost use Rattle.asking.specs.Formats.{formatter_named, reason_words};
ghost use Rattle.hosts.specs.Answers.{Within, fitted, written};
ghost use Rattle.store.specs.Stores.{Known, value as value_in};

use calls::line::FormatterName;
use formatters::chart::ChartSet;
use formatters::plain::Plain;
use hosts::answer::Unwritten;
use hosts::callables::Callables;
use hosts::formatter::Formatter;
use store::cell::Ref;
use store::memory::Store;

/// The most bytes of a text.
pub const MOST_TEXT: usize = 4_096;

/// Writes the text of a value by the formatter of that name to the front of the buffer.
pub fn format_value(
    name: FormatterName,
    store: &Store,
    value: Ref,
    buffer: &mut [u8],
) -> Result<usize, Unwritten>
    requires { Known store.now value }
    ensures answers { written result buffer.new ≡ fitted (length buffer.old) (formatter_named name (value_in store.now value)) }
    ensures within { Within result buffer.old }
{
    match name {
        FormatterName::Plain => Plain.format(store, value, buffer),
        FormatterName::Lat => ChartSet.format(b"lat", store, value, buffer),
        FormatterName::Lon => ChartSet.format(b"lon", store, value, buffer),
    }
}

/// The reason of a formatter in words.
pub fn words_of_reason(reason: u16) -> &'static [u8]
    ensures { result.now ≡ reason_words reason }
{
    match reason {
        1 => b"the value is of the wrong kind",
        2 => b"the value is out of range",
        4 => b"floats are not written",
        _ => b"a reason without words",
    }
}
