//! Ways of reading a list or a map again and again.

ghost use Rattle.store.specs.Stores.{Known};

use loading::loading::load;
use samples::packed::key_of;
use samples::reading::{integer, integer_at, integer_under};
use store::cell::{Cell, Ref};
use store::memory::{Store, Tally};

/// Far from one part to the next, in no order.
const STRIDE: u16 = 7919;

#[derive(Clone, Copy)]
pub enum Way {
    ListIndex,
    ListLoop,
    MapKey,
    MapLoop,
    /// A map is loaded again, and its entries are counted.
    MapLoad,
}

impl Way {
    pub fn of_name(name: &str) -> Option<Way> {
        match name {
            "list-index" => Some(Way::ListIndex),
            "list-loop" => Some(Way::ListLoop),
            "map-key" => Some(Way::MapKey),
            "map-loop" => Some(Way::MapLoop),
            "map-load" => Some(Way::MapLoad),
            _ => None,
        }
    }

    pub fn is_of_map(self) -> bool {
        matches!(self, Way::MapKey | Way::MapLoop | Way::MapLoad)
    }
}

/// The sum of integers, one of which may be missing: then nothing is added.
fn plus(sum: u64, found: Option<i64>) -> u64 {
    sum.wrapping_add(found.unwrap_or(0).cast_unsigned())
}

/// The number of the part that stands so far from that one, where the first comes again after the last.
fn further(number: u16, stride: u16, parts: u16) -> u16 {
    ((u32::from(number) + u32::from(stride)) % u32::from(parts.max(1))) as u16
}

/// The parts that stand `stride` from one another.
fn read_list(store: &Store, list: Ref, parts: u16, stride: u16, count: u64) -> u64
    requires { Known store.now list }
{
    let mut sum = 0;
    let mut number = 0;
    for _ in 0..count {
        sum = plus(sum, integer_at(store, list, usize::from(number)));
        number = further(number, stride, parts);
    }
    sum
}

fn read_keys(store: &Store, map: Ref, parts: u16, count: u64) -> u64
    requires { Known store.now map }
{
    let mut sum = 0;
    let mut number = 0;
    for _ in 0..count {
        sum = plus(sum, integer_under(store, map, &key_of(number)));
        number = further(number, STRIDE, parts);
    }
    sum
}

/// The entries one after another, from the first again after the last.
fn read_entries(store: &Store, map: Ref, count: u64) -> u64
    requires { Known store.now map }
{
    let mut sum = 0;
    let mut after = None;
    for _ in 0..count {
        after = match store.next_entry(map, after) {
            Some(entry) => {
                sum = plus(sum, integer(store, entry.value));
                Some(entry.key)
            }
            None => None,
        };
    }
    sum
}

#[tactic(auto, using(samples::proofs::Known::load_known))]
fn load_again(store: &mut Store, packed: &[u8], count: u64) -> u64 {
    let mut sum = 0u64;
    for _ in 0..count {
        if let Ok(value) = load(store, packed) {
            sum = sum.wrapping_add(u64::from(store.size(value)));
        }
    }
    sum
}

/// Loads a list or map of so many parts, and reads that many of them. A value that is refused has none.
#[tactic(auto, using(samples::proofs::Known::load_known))]
pub fn read(
    cells: &mut [Cell],
    text: &mut [u8],
    packed: &[u8],
    way: Way,
    parts: u16,
    count: u64,
) -> u64 {
    let mut tally = Tally::EMPTY;
    let mut store = Store::new(cells, text, &mut tally);
    let Ok(value) = load(&mut store, packed) else {
        return 0;
    };
    match way {
        Way::ListIndex => read_list(&store, value, parts, STRIDE, count),
        Way::ListLoop => read_list(&store, value, parts, 1, count),
        Way::MapKey => read_keys(&store, value, parts, count),
        Way::MapLoop => read_entries(&store, value, count),
        Way::MapLoad => load_again(&mut store, packed, count),
    }
}
