//! Builds what packed bytes read as, from left to right. It goes on the measure of the bytes: what is no value is
//! not told apart from what the supply does not hold.

ghost use Rattle.std.specs.Prelude.{◌≡◌, ℕ, true, drop};
ghost use Rattle.packing.specs.Commands.{list_byte, map_byte};
ghost use Rattle.packing.specs.Limits.{no_key};
ghost use Rattle.packing.specs.Unpacking.{entries, items, literal_value, value_within};
ghost use Rattle.store.specs.Kinds.{kind_of};
ghost use Rattle.store.specs.Stores.{Known, Over, value};
ghost use Rattle.values.specs.Measures.{rest_within};
ghost use Rattle.loading.specs.Building.{BuildsEntries, BuildsItems, BuildsValue, BuiltKnown};

use reader::field::{read_byte, read_text, read_u16};
use reader::literal::plain_value;
use store::cell::Ref;
use store::kinds::Kind;
use store::memory::Store;

/// The value at `pos`, which has no parts.
fn build_plain(store: &mut Store, bytes: &[u8], pos: usize) -> Option<(Ref, usize)>
    ensures reads { BuildsValue store.old store.new (literal_value (drop pos bytes.now)) bytes.now result }
    ensures over { Over store.old store.new }
    ensures known { BuiltKnown store.new result }
{
    let (plain, next) = plain_value(bytes, pos)?;
    let value = store.make_plain(plain).ok()?;
    Some((value, next))
}

/// The value at `pos`, which may have so many levels, and the position after it.
#[cycle(parts)]
pub fn build_value(
    store: &mut Store,
    bytes: &[u8],
    pos: usize,
    levels: usize,
) -> Option<(Ref, usize)>
    ensures reads { BuildsValue store.old store.new (value_within levels (drop pos bytes.now)) bytes.now result }
    ensures over { Over store.old store.new }
    ensures known { BuiltKnown store.new result }
{
    let (byte, next) = read_byte(bytes, pos)?;
    match byte {
        0x26 => build_list(store, bytes, next, levels),
        0x27 => build_map(store, bytes, next, levels),
        _ => build_plain(store, bytes, pos),
    }
}

/// A list, whose count stands at `pos`.
#[cycle(parts)]
fn build_list(store: &mut Store, bytes: &[u8], pos: usize, levels: usize) -> Option<(Ref, usize)>
    ensures reads { (at : ℕ) → BuildsValue store.old store.new (rest_within levels at list_byte (drop pos bytes.now)) bytes.now result }
    ensures over { Over store.old store.new }
    ensures known { BuiltKnown store.new result }
{
    let (count, next) = read_u16(bytes, pos)?;
    let below = levels.checked_sub(1)?;
    let empty = store.empty_list().ok()?;
    build_items(store, bytes, empty, next, below, count)
}

/// The list with so many items more.
#[cycle(parts)]
fn build_items(
    store: &mut Store,
    bytes: &[u8],
    list: Ref,
    pos: usize,
    levels: usize,
    count: u16,
) -> Option<(Ref, usize)>
    requires list_known { Known store.old list }
    requires is_list { kind_of (value store.old list) ≡ Kind.List }
    ensures reads { BuildsItems store.old store.new (value store.old list) (items (value_within levels) count (drop pos bytes.now)) bytes.now result }
    ensures over { Over store.old store.new }
    ensures known { BuiltKnown store.new result }
{
    let mut whole = list;
    let mut next = pos;
    for _item in 0..count {
        let (part, end) = build_value(store, bytes, next, levels)?;
        whole = store.push(whole, part).ok()?;
        next = end;
    }
    Some((whole, next))
}

/// A map, whose count stands at `pos`.
#[cycle(parts)]
fn build_map(store: &mut Store, bytes: &[u8], pos: usize, levels: usize) -> Option<(Ref, usize)>
    ensures reads { (at : ℕ) → BuildsValue store.old store.new (rest_within levels at map_byte (drop pos bytes.now)) bytes.now result }
    ensures over { Over store.old store.new }
    ensures known { BuiltKnown store.new result }
{
    let (count, next) = read_u16(bytes, pos)?;
    let below = levels.checked_sub(1)?;
    let empty = store.empty_map().ok()?;
    build_entries(store, bytes, empty, next, below, count)
}

/// The map with so many entries more.
#[cycle(parts)]
fn build_entries(
    store: &mut Store,
    bytes: &[u8],
    map: Ref,
    pos: usize,
    levels: usize,
    count: u16,
) -> Option<(Ref, usize)>
    requires map_known { Known store.old map }
    requires is_map { kind_of (value store.old map) ≡ Kind.Map }
    ensures reads { (at : ℕ) → BuildsEntries store.old store.new (value store.old map) (entries at true (value_within levels) count no_key (drop pos bytes.now)) bytes.now result }
    ensures over { Over store.old store.new }
    ensures known { BuiltKnown store.new result }
{
    let mut whole = map;
    let mut next = pos;
    for _entry in 0..count {
        let (key, inside) = read_text(bytes, next)?;
        let (part, end) = build_value(store, bytes, inside, levels)?;
        whole = store.insert(whole, key, part).ok()?;
        next = end;
    }
    Some((whole, next))
}
