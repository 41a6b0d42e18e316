//! Both sources through their trait.

ghost use Rattle.std.specs.Prelude.{◌≤◌};
ghost use Rattle.store.specs.Stores.{Known};

use crate::pot_log::PotLog;
use crate::value_walk::ValueWalk;
use hosts::answer::Unmade;
use hosts::source::ValueSource;
use meaning::fault::Cause;
use reader::field::Members;
use store::cell::{Cell, Ref};
use store::kinds::Kind;
use store::memory::{Store, Tally};

/// What the members below are called.
const NAMES: &[u8] = b"pots lat number a";

// Paths: for each member its operation, its access (a number, or a name by its span) and its span.

/// pots
const ALL: &[u8] = b"\x00\x01\x00\x00\x04\x00\x00\x00\x04\x00";

/// pots[1]
const SECOND: &[u8] =
    b"\x00\x01\x00\x00\x04\x00\x00\x00\x04\x00\x00\x00\x01\x00\x00\x00\x05\x00\x08\x00\x04\x00\x08\x00";

/// pots[1].lat
const SECOND_LAT: &[u8] =
    b"\x00\x01\x00\x00\x04\x00\x00\x00\x04\x00\x00\x00\x01\x00\x00\x00\x05\x00\x08\x00\x04\x00\x08\x00\x00\x01\x05\x00\x08\x00\x04\x00\x08\x00";

/// pots[1].number
const SECOND_NUMBER: &[u8] =
    b"\x00\x01\x00\x00\x04\x00\x00\x00\x04\x00\x00\x00\x01\x00\x00\x00\x09\x00\x0f\x00\x04\x00\x0f\x00\x00\x01\x09\x00\x0f\x00\x04\x00\x0f\x00";

/// pots[2].lat
const THIRD_LAT: &[u8] =
    b"\x00\x01\x00\x00\x04\x00\x00\x00\x04\x00\x00\x00\x02\x00\x00\x00\x05\x00\x08\x00\x04\x00\x08\x00\x00\x01\x05\x00\x08\x00\x04\x00\x08\x00";

/// pots[3]
const FOURTH: &[u8] =
    b"\x00\x01\x00\x00\x04\x00\x00\x00\x04\x00\x00\x00\x03\x00\x00\x00\x05\x00\x08\x00\x04\x00\x08\x00";

/// pots?[3]
const FOURTH_IF_ANY: &[u8] =
    b"\x00\x01\x00\x00\x04\x00\x00\x00\x04\x00\x01\x00\x03\x00\x00\x00\x05\x00\x08\x00\x04\x00\x08\x00";

/// lat
const LAT: &[u8] = b"\x00\x01\x05\x00\x08\x00\x05\x00\x08\x00";

/// pots.a
const ALL_A: &[u8] =
    b"\x00\x01\x00\x00\x04\x00\x00\x00\x04\x00\x00\x01\x10\x00\x11\x00\x04\x00\x11\x00";

/// pots[2].lat.a
const BEHIND_A_FIELD: &[u8] =
    b"\x00\x01\x00\x00\x04\x00\x00\x00\x04\x00\x00\x00\x02\x00\x00\x00\x05\x00\x08\x00\x04\x00\x08\x00\x00\x01\x05\x00\x08\x00\x04\x00\x08\x00\x00\x01\x10\x00\x11\x00\x08\x00\x11\x00";

/// Three pots, of which the second has the greatest and least numbers, and part of a fourth.
const POTS: &[u8] =
    b"\x07\x00\x28\x00\x40\x5a\x34\xfe\x05\x00\x00\x00\xff\xff\xfe\xff\x00\x00\x00\x80\xff\xff\xff\x7f\x01\x00\x02\x00\x03\x00\x00\x00\xfc\xff\xff\xff\x07\x00\x28";

/// An integer, or how many parts or bytes a value has.
fn number(store: &Store, value: Ref) -> i64
    requires { Known store.now value }
{
    match store.kind(value) {
        Kind::Integer => store.integer(value),
        _ => i64::from(store.size(value)),
    }
}

/// What a source answers with so many cells to hold it, or the reason, or none where it does not fit; and what is in use then.
fn ask<const CELLS: usize, S: ValueSource>(
    from: &S,
    count: u8,
    bytes: &[u8],
) -> (Result<(Kind, i64), Option<u16>>, Tally)
    requires { CELLS ≤ 64 }
{
    let mut cells = [Cell::EmptyMap; CELLS];
    let mut text = [0u8; 64];
    let mut tally = Tally::EMPTY;
    let mut store = Store::new(&mut cells, &mut text, &mut tally);
    let told = match from.ask(NAMES, Members { count, bytes }, &mut store) {
        Ok(value) => Ok((store.kind(value), number(&store, value))),
        Err(Unmade::Full) => Err(None),
        Err(Unmade::Refused(reason)) => Err(Some(reason)),
    };
    (told, store.mark())
}

#[test]
fn one_field_costs_one_cell(rt: HostRuntime) {
    let log = PotLog::new(POTS);
    let one = Tally { cells: 1, bytes: 0 };
    assert_eq!(rt;
        ask::<1, PotLog>(&log, 3, SECOND_LAT),
        (Ok((Kind::Integer, -2147483648)), one)
    );
    assert_eq!(rt;
        ask::<1, PotLog>(&log, 3, SECOND_NUMBER),
        (Ok((Kind::Integer, 65535)), one)
    );
    assert_eq!(rt;
        ask::<1, PotLog>(&log, 3, THIRD_LAT),
        (Ok((Kind::Integer, 3)), one)
    );
    assert_eq!(rt;
        ask::<0, PotLog>(&log, 3, THIRD_LAT),
        (Err(None), Tally::EMPTY)
    );
}

#[test]
fn what_is_absent_is_none_or_a_reason(rt: HostRuntime) {
    let log = PotLog::new(POTS);
    assert_eq!(rt;
        ask::<1, PotLog>(&log, 2, FOURTH),
        (Err(Some(12)), Tally::EMPTY)
    );
    assert_eq!(rt;
        ask::<1, PotLog>(&log, 2, FOURTH_IF_ANY),
        (Ok((Kind::None, 0)), Tally::EMPTY)
    );
    assert_eq!(rt;
        ask::<1, PotLog>(&log, 1, LAT),
        (Err(Some(11)), Tally::EMPTY)
    );
    assert_eq!(rt;
        ask::<1, PotLog>(&log, 2, ALL_A),
        (Err(Some(13)), Tally::EMPTY)
    );
    assert_eq!(rt;
        ask::<1, PotLog>(&log, 4, BEHIND_A_FIELD),
        (Err(Some(13)), Tally::EMPTY)
    );
}

#[test]
fn a_log_may_be_empty(rt: HostRuntime) {
    let log = PotLog::new(b"\x07\x00\x28");
    assert_eq!(rt;
        ask::<1, PotLog>(&log, 1, ALL),
        (Ok((Kind::List, 0)), Tally { cells: 1, bytes: 0 })
    );
}

#[test]
fn a_list_has_the_room_that_it_costs(rt: HostRuntime) {
    let log = PotLog::new(POTS);
    let used = Tally {
        cells: 31,
        bytes: 51,
    };
    assert_eq!(rt;
        ask::<31, PotLog>(&log, 1, ALL),
        (Ok((Kind::List, 3)), used)
    );
    assert_eq!(rt; ask::<30, PotLog>(&log, 1, ALL), (Err(None), Tally::EMPTY));
}

#[test]
fn a_map_has_the_room_that_it_costs(rt: HostRuntime) {
    let log = PotLog::new(POTS);
    let pot = Tally {
        cells: 9,
        bytes: 17,
    };
    assert_eq!(rt;
        ask::<9, PotLog>(&log, 2, SECOND),
        (Ok((Kind::Map, 4)), pot)
    );
    assert_eq!(rt;
        ask::<8, PotLog>(&log, 2, SECOND),
        (Err(None), Tally::EMPTY)
    );
    let whole = Tally {
        cells: 33,
        bytes: 55,
    };
    assert_eq!(rt;
        ask::<33, PotLog>(&log, 0, b""),
        (Ok((Kind::Map, 1)), whole)
    );
}

// The value {"pots": [none, "cod"]}: its second item costs a cell and three bytes.
#[test]
fn a_packed_value_is_walked(rt: HostRuntime) {
    let bytes = b"\x27\x01\x00\x04\x00pots\x26\x02\x00\x20\x25\x03\x00cod";
    let Ok(walk) = ValueWalk::new(bytes) else {
        panic!(rt; "it is a value")
    };
    let string = Tally { cells: 1, bytes: 3 };
    assert_eq!(rt;
        ask::<1, ValueWalk>(&walk, 2, SECOND),
        (Ok((Kind::String, 3)), string)
    );
    assert_eq!(rt;
        ask::<0, ValueWalk>(&walk, 2, SECOND),
        (Err(None), Tally::EMPTY)
    );
    assert_eq!(rt;
        ask::<4, ValueWalk>(&walk, 1, ALL),
        (Ok((Kind::List, 2)), Tally { cells: 4, bytes: 3 })
    );
    assert_eq!(rt;
        ask::<1, ValueWalk>(&walk, 2, FOURTH),
        (Err(Some(12)), Tally::EMPTY)
    );
    assert_eq!(rt;
        ask::<1, ValueWalk>(&walk, 2, FOURTH_IF_ANY),
        (Ok((Kind::None, 0)), Tally::EMPTY)
    );
    assert_eq!(rt;
        ask::<1, ValueWalk>(&walk, 1, LAT),
        (Err(Some(11)), Tally::EMPTY)
    );
    assert_eq!(rt;
        ask::<1, ValueWalk>(&walk, 2, ALL_A),
        (Err(Some(13)), Tally::EMPTY)
    );
}

#[test]
fn bytes_left_over_are_no_value(rt: HostRuntime) {
    match ValueWalk::new(b"\x20\x20") {
        Ok(_) => panic!(rt; "a byte is left"),
        Err(fault) => assert_eq!(rt; (fault.cause, fault.detail), (Cause::Malformed, 1)),
    }
}
