//! The entries of a map in ascending order of their keys.

ghost use Rattle.std.proofs.Math.Option.{some};
ghost use Rattle.std.specs.Prelude.{◌≡◌, ◌<◌, Some, true, slice_index_or};
ghost use Rattle.meaning.specs.Value.{none};
ghost use Rattle.store.specs.Stores.{BoundKnown, EntryKnown, KeyKnown, Known, bound_now, entry_shown, key_shown, shown, text_of, used, value, values_of};
ghost use Rattle.store.specs.Values.{above_bound, any_above, entry_at, first_in, lower};

use super::Store;
use crate::cell::{Cell, Entry, Ref, TextSpan};
use values::key::is_before;

impl Store<'_> {
    /// The entry of a map with that number in the order of keys, counted from 0.
    #[tactic(auto, using(crate::proofs::Lists::entry_past, crate::proofs::Lists::entry_top, crate::proofs::Lists::entry_low, crate::proofs::Lists::jump_entry))]
    pub fn entry(&self, r: Ref, number: usize) -> Option<Entry>
        requires { Known self.now r }
        ensures same { shown self.now result ≡ entry_at (value self.now r) number }
        ensures known { EntryKnown self.now result }
    {
        let Ref::At(mut here) = r else {
            return None;
        };
        while let Cell::Insert {
            front,
            key,
            part,
            len,
            jump,
            sorted: true,
        } = self.cell(here)
        {
            if number >= len as usize {
                return None;
            }
            if number + 1 == len as usize {
                return Some(Entry { key, value: part });
            }
            here = if number < self.size_at(jump) as usize {
                jump
            } else {
                front
            };
        }
        self.entry_after_others(Ref::At(here), number)
    }

    /// The same by going over the entries before it.
    #[tactic(auto, using(crate::proofs::Ordered::first_at, crate::proofs::Ordered::past_at))]
    fn entry_after_others(&self, r: Ref, number: usize) -> Option<Entry>
        requires { Known self.now r }
        ensures same { shown self.now result ≡ entry_at (value self.now r) number }
        ensures known { EntryKnown self.now result }
    {
        let mut here = self.next_entry(r, None)?;
        for _passed in 0..number {
            here = self.next_entry(r, Some(here.key))?;
        }
        Some(here)
    }

    /// The first entry of a map whose key is above `after`, or the first of all.
    #[tactic(auto, using(crate::proofs::Lists::next_hit, crate::proofs::Lists::next_miss, crate::proofs::Lists::next_stop, crate::proofs::Lists::jump_first))]
    pub fn next_entry(&self, r: Ref, after: Option<TextSpan>) -> Option<Entry>
        requires map_known { Known self.now r }
        requires after_known { BoundKnown self.now after }
        ensures same { shown self.now result ≡ first_in (value self.now r) (key_shown self.now after) }
        ensures known { EntryKnown self.now result }
    {
        let Ref::At(mut here) = r else {
            return None;
        };
        let bound = self.bound(after);
        let mut best = None;
        while let Cell::Insert {
            front,
            key,
            part,
            jump,
            sorted,
            ..
        } = self.cell(here)
        {
            let above = is_above(self.text_at(key), bound);
            if sorted && !above {
                return best;
            }
            if sorted && self.newest_is_above(jump, bound) {
                here = jump;
            } else {
                if above {
                    best = self.lower(best, Entry { key, value: part });
                }
                here = front;
            }
        }
        best
    }

    /// The bytes of a bound.
    fn bound(&self, after: Option<TextSpan>) -> Option<&[u8]>
        requires { BoundKnown self.now after }
        ensures { bound_now result ≡ key_shown self.now after }
    {
        match after {
            None => None,
            Some(span) => Some(self.text_at(span)),
        }
    }

    /// Whether a cell holds a map whose newest key is above the bound.
    #[tactic(auto, using(crate::proofs::Lists::insert_any))]
    pub(super) fn newest_is_above(&self, at: u16, bound: Option<&[u8]>) -> bool
        requires { at < (used self.now).cells }
        ensures { result ≡ true → any_above (slice_index_or (values_of self.now) at none) (bound_now bound.entry) ≡ true }
    {
        match self.cell(at) {
            Cell::Insert { key, .. } => is_above(self.text_at(key), bound),
            _ => false,
        }
    }

    /// The lower of two entries: the newer where their keys are the same.
    fn lower(&self, newer: Option<Entry>, older: Entry) -> Option<Entry>
        requires newer_known { EntryKnown self.now newer }
        requires older_known { EntryKnown self.now (Some older) }
        ensures same { shown self.now result ≡ lower (shown self.now newer) (some (entry_shown self.now older)) }
        ensures known { EntryKnown self.now result }
    {
        let Some(entry) = newer else {
            return Some(older);
        };
        if is_before(self.text_at(older.key), self.text_at(entry.key)) {
            Some(older)
        } else {
            newer
        }
    }
}

fn is_above(key: &[u8], bound: Option<&[u8]>) -> bool
    ensures { result ≡ above_bound (bound_now bound.entry) key.now }
{
    match bound {
        None => true,
        Some(under) => is_before(under, key),
    }
}
