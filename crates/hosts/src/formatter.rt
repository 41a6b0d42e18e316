//! Formatters: from values to text.

ghost use Rattle.std.specs.Prelude.{◌≡◌, length};
ghost use Rattle.meaning.specs.Hosts.{Formatter as Meaning};
ghost use Rattle.packing.specs.Texts.{WritesText};
ghost use Rattle.store.specs.Stores.{Known, value as value_in};
ghost use Rattle.hosts.specs.Answers.{Within, fitted, written};

use crate::answer::Unwritten;
use store::cell::Ref;
use store::memory::Store;

/// Writes the text of a value. Being asked changes nothing.
pub trait Formatter {
    /// The text, or the reason, for each value.
    ghost formatted: { Self → Meaning };

    /// Its texts are well-formed, if those in the values are.
    ghost texts: { (self : Self) → WritesText (formatted self) };

    /// Writes the text to the front of the buffer and answers its length. What stands behind it in the buffer is free.
    fn format(&self, store: &Store, value: Ref, buffer: &mut [u8]) -> Result<usize, Unwritten>
        requires { Known store.now value }
        ensures answers { written result buffer.new ≡ fitted (length buffer.old) (formatted self.now (value_in store.now value)) }
        ensures within { Within result buffer.old };
}
