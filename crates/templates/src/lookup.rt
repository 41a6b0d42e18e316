//! Entries found by name.

ghost use Rattle.std.specs.Prelude.{◌≡◌, ◌<◌, ◌≤◌, length};
ghost use Rattle.meaning.specs.Names.{name_of};
ghost use Rattle.std.specs.Str.{bytes_eq as same_text};
ghost use Rattle.templates.specs.Entries.{Located, closed};

use crate::entry::Entry;

/// Whether the entry has the name.
fn has_name(entry: &Entry, name: &[u8]) -> bool
    ensures { result ≡ same_text name.now (name_of entry.now.name) }
{
    name == entry.name.as_bytes()
}

/// The index of the first entry that has the name.
pub(crate) fn index_of(entries: &[Entry], name: &[u8]) -> Option<usize>
    ensures { Located name.now entries.now result }
{
    entries.iter().position(|entry| has_name(entry, name))
}

/// Puts the entry at `at` behind the others up to `end`.
pub(crate) fn close_gap(entries: &mut [Entry], at: usize, end: usize)
    requires { (at < end) × (end ≤ length entries.old) }
    ensures { entries.new ≡ closed entries.old at end }
{
    entries[at..end].rotate_left(1);
}
