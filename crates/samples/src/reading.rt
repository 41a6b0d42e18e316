//! Reading a store, and making maps, where the values are integers.

ghost use Rattle.std.specs.Prelude.{Some};
ghost use Rattle.store.specs.Stores.{EntryKnown, Known};
ghost use Rattle.samples.specs.Known.{MapKnown, MapMade};

use crate::packed::key_of;
use store::cell::{Entry, Ref};
use store::kinds::Kind;
use store::memory::{Full, Store};

pub fn integer(store: &Store, r: Ref) -> Option<i64>
    requires { Known store.now r }
{
    match store.kind(r) {
        Kind::Integer => Some(store.integer(r)),
        _ => None,
    }
}

/// The part of a list.
#[tactic(auto, using(crate::proofs::Known::found_known))]
pub fn integer_at(store: &Store, list: Ref, number: usize) -> Option<i64>
    requires { Known store.now list }
{
    integer(store, store.part(list, number)?)
}

/// The value under a key of a map.
#[tactic(auto, using(crate::proofs::Known::found_known))]
pub fn integer_under(store: &Store, map: Ref, key: &[u8]) -> Option<i64>
    requires { Known store.now map }
{
    integer(store, store.value_of(map, key)?)
}

// The next four say how many numbers, from 0 on, are read where they should stand: of a list or map of the integers below
// a count just that count.

pub fn listed(store: &Store, list: Ref) -> u16
    requires { Known store.now list }
{
    for number in 0..u16::MAX {
        if integer_at(store, list, usize::from(number)) != Some(i64::from(number)) {
            return number;
        }
    }
    u16::MAX
}

pub fn under_keys(store: &Store, map: Ref) -> u16
    requires { Known store.now map }
{
    for number in 0..u16::MAX {
        if integer_under(store, map, &key_of(number)) != Some(i64::from(number)) {
            return number;
        }
    }
    u16::MAX
}

pub fn numbered(store: &Store, map: Ref) -> u16
    requires { Known store.now map }
{
    for number in 0..u16::MAX {
        let Some(entry) = store.entry(map, usize::from(number)) else {
            return number;
        };
        if !is_of(store, entry, number) {
            return number;
        }
    }
    u16::MAX
}

pub fn in_turn(store: &Store, map: Ref) -> u16
    requires { Known store.now map }
{
    let mut after = None;
    for number in 0..u16::MAX {
        let Some(entry) = store.next_entry(map, after) else {
            return number;
        };
        if !is_of(store, entry, number) {
            return number;
        }
        after = Some(entry.key);
    }
    u16::MAX
}

/// Whether an entry has the number under its key.
fn is_of(store: &Store, entry: Entry, number: u16) -> bool
    requires { EntryKnown store.now (Some entry) }
{
    store.text_at(entry.key) == key_of(number).as_slice()
        && integer(store, entry.value) == Some(i64::from(number))
}

/// The map with that integer under the key.
#[tactic(auto, using(crate::proofs::Known::map_over, crate::proofs::Known::map_made))]
pub fn put(store: &mut Store, map: Ref, key: &[u8], number: i64) -> Result<Ref, Full>
    requires { MapKnown store.old map }
    ensures { MapMade store.new result }
{
    let part = store.make_integer(number)?;
    store.insert(map, key, part)
}

/// The map into which those integers go under their keys, one after another.
#[tactic(auto, using(crate::proofs::Known::empty_made))]
pub fn map_of(store: &mut Store, entries: &[(&[u8], i64)]) -> Result<Ref, Full>
    ensures { MapMade store.new result }
{
    let mut map = store.empty_map()?;
    for (key, number) in entries {
        map = put(store, map, key, *number)?;
    }
    Ok(map)
}
