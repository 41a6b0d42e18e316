//! Loads a packed value: it is measured first, so that a refused one leaves the store as it was.

ghost use Rattle.std.specs.Prelude.{◌≡◌};
ghost use Rattle.meaning.specs.Charge.{within};
ghost use Rattle.store.specs.Stores.{charged, supply};
ghost use Rattle.values.specs.Costs.{charge_of};
ghost use Rattle.loading.specs.Loading.{Loads, loaded};

use crate::building::build_value;
use meaning::fault::{Cause, Fault};
use store::cell::Ref;
use store::memory::{Store, Tally};
use values::cost::Cost;
use values::measuring::measure;

/// The most levels of a value.
const LEVELS: usize = 16;

/// Whether a supply holds the cost of a value: the cells are not added up, since their sum could wrap.
fn is_held(cost: Cost, lent: Tally) -> bool
    ensures { result ≡ within (charged lent) (charge_of cost) }
{
    cost.parts <= lent.cells && cost.values <= lent.cells - cost.parts && cost.bytes <= lent.bytes
}

/// Frees the whole store and loads the packed value into it, or answers the first fault of its bytes, or that its cost
/// passes the whole supply. What was in use before does not count.
pub fn load(store: &mut Store, bytes: &[u8]) -> Result<Ref, Fault>
    ensures { Loads store.old store.new (loaded (supply store.old) bytes.now) result }
{
    let cost = measure(bytes)?;
    if !is_held(cost, store.supply()) {
        return Err(Fault::of_call(Cause::StoreFull, 0));
    }
    store.free_to(Tally::EMPTY);
    match build_value(store, bytes, 0, LEVELS) {
        Some((value, _)) => Ok(value),
        None => unreachable(),
    }
}

#[cfg(test)]
mod tests {
    use super::load;
    use meaning::fault::Cause;
    use store::cell::Cell;
    use store::kinds::Kind;
    use store::memory::{Store, Tally};

    /// Lists, each the only item of the one around it, around the value none: three bytes for each, and one.
    fn nested<const N: usize>() -> [u8; N] {
        let mut bytes = [0x20; N];
        for list in 0..N / 3 {
            bytes[3 * list] = 0x26;
            bytes[3 * list + 1] = 1;
            bytes[3 * list + 2] = 0;
        }
        bytes
    }

    /// Loads both values, one after the other, into a store of 40 cells and 4 bytes of text: the kind and the size of
    /// the second, or its fault, and what is in use then.
    fn load_both(first: &[u8], second: &[u8]) -> (Result<(Kind, u16), (Cause, usize)>, Tally) {
        let mut cells = [Cell::EmptyMap; 40];
        let mut text = [0u8; 4];
        let mut tally = Tally::EMPTY;
        let mut store = Store::new(&mut cells, &mut text, &mut tally);
        let _ = load(&mut store, first);
        let told = match load(&mut store, second) {
            Ok(value) => Ok((store.kind(value), store.size(value))),
            Err(fault) => Err((fault.cause, fault.detail)),
        };
        (told, store.mark())
    }

    #[test]
    fn values_nest_16_deep(rt: HostRuntime) {
        assert_eq!(rt;
            load_both(b"\x20", &nested::<46>()),
            (
                Ok((Kind::List, 1)),
                Tally {
                    cells: 30,
                    bytes: 0
                }
            )
        );
        assert_eq!(rt;
            load_both(b"\x20", &nested::<49>()),
            (Err((Cause::TooDeep, 48)), Tally { cells: 0, bytes: 0 })
        );
    }

    #[test]
    fn lists_and_maps_may_be_empty(rt: HostRuntime) {
        let one = Tally { cells: 1, bytes: 0 };
        assert_eq!(rt;
            load_both(b"\x21", b"\x26\x00\x00"),
            (Ok((Kind::List, 0)), one)
        );
        assert_eq!(rt;
            load_both(b"\x21", b"\x27\x00\x00"),
            (Ok((Kind::Map, 0)), one)
        );
    }

    #[test]
    fn keys_ascend_to_the_last_byte(rt: HostRuntime) {
        assert_eq!(rt;
            load_both(b"\x20", b"\x27\x02\x00\x02\x00aa\x20\x02\x00ab\x20"),
            (Ok((Kind::Map, 2)), Tally { cells: 3, bytes: 4 })
        );
        assert_eq!(rt;
            load_both(b"\x20", b"\x27\x02\x00\x02\x00ab\x20\x02\x00aa\x20"),
            (Err((Cause::Malformed, 0)), Tally { cells: 0, bytes: 0 })
        );
    }

    // The store holds the text of only one of them.
    #[test]
    fn what_was_loaded_makes_room(rt: HostRuntime) {
        let pots = b"\x25\x04\x00pots";
        assert_eq!(rt;
            load_both(pots, b"\x25\x03\x00cod"),
            (Ok((Kind::String, 3)), Tally { cells: 1, bytes: 3 })
        );
        assert_eq!(rt;
            load_both(pots, b"\x25\x05\x00coral"),
            (Err((Cause::StoreFull, 0)), Tally { cells: 1, bytes: 4 })
        );
    }
}
