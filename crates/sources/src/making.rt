//! Pots and lists of them, made in a store.

ghost use Rattle.std.specs.Prelude.{◌≡◌};
ghost use Rattle.meaning.specs.Charge.{◌⊕◌, cell_and_text, cost, one_cell};
ghost use Rattle.meaning.specs.Value.{integer, list};
ghost use Rattle.store.specs.Kinds.{kind_of};
ghost use Rattle.store.specs.Stores.{Known, value};
ghost use Rattle.store.specs.Values.{inserted};
ghost use Rattle.sources.specs.Building.{Builds};
ghost use Rattle.sources.specs.Pots.{pots_in, value_of_log, value_of_pot};

use crate::pot::Pot;
use store::cell::Ref;
use store::kinds::Kind;
use store::memory::{Full, Store};

/// The map in which the integer stands under the key.
fn insert_integer(store: &mut Store, map: Ref, key: &[u8], n: i64) -> Result<Ref, Full>
    requires map_known { Known store.old map }
    requires is_map { kind_of (value store.old map) ≡ Kind.Map }
    ensures { Builds store.old store.new (one_cell ⊕ cell_and_text key.now) (inserted (value store.old map) key.now (integer n)) result }
{
    let part = store.make_integer(n)?;
    store.insert(map, key, part)
}

/// The map of a pot.
pub(crate) fn make_pot(store: &mut Store, pot: Pot) -> Result<Ref, Full>
    ensures { Builds store.old store.new (cost (value_of_pot pot)) (value_of_pot pot) result }
{
    let empty = store.empty_map()?;
    let deep = insert_integer(store, empty, b"depth", i64::from(pot.depth))?;
    let north = insert_integer(store, deep, b"lat", i64::from(pot.lat))?;
    let placed = insert_integer(store, north, b"lon", i64::from(pot.lon))?;
    insert_integer(store, placed, b"number", i64::from(pot.number))
}

/// The list of the pots of those records.
pub(crate) fn make_pots(store: &mut Store, records: &[[u8; 12]]) -> Result<Ref, Full>
    ensures { Builds store.old store.new (cost (list (pots_in records.now))) (list (pots_in records.now)) result }
{
    let mut whole = store.empty_list()?;
    for bytes in records {
        let pot = make_pot(store, Pot::of_record(bytes))?;
        whole = store.push(whole, pot)?;
    }
    Ok(whole)
}

/// The map with the list of those pots.
pub(crate) fn make_log(store: &mut Store, records: &[[u8; 12]]) -> Result<Ref, Full>
    ensures { Builds store.old store.new (cost (value_of_log (pots_in records.now))) (value_of_log (pots_in records.now)) result }
{
    let empty = store.empty_map()?;
    let pots = make_pots(store, records)?;
    store.insert(empty, b"pots", pots)
}
