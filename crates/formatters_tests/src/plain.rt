//! The plain formatter.

ghost use Rattle.std.specs.Prelude.{◌≡◌, ◌↔◌, IsTrue, Ok, length};
ghost use Rattle.hosts.specs.Answers.{fitted};
ghost use Rattle.store.specs.Stores.{Known, value as value_in};

use formatters::plain::Plain;
use hosts::answer::Unwritten;
use hosts::formatter::Formatter;
use std::process::Abort;
use store::cell::{Cell, Ref};
use store::memory::{Store, Tally};

/// Whether a formatter writes just that text where there is as much room as in the buffer.
fn writes<F: Formatter>(
    formatter: &F,
    store: &Store,
    value: Ref,
    buffer: &mut [u8],
    text: &[u8],
) -> bool
    requires { Known store.now value }
    ensures { IsTrue result ↔ (fitted (length buffer.old) (F.formatted formatter.now (value_in store.now value)) ≡ Ok text.now) }
{
    match formatter.format(store, value, buffer) {
        Ok(n) => &buffer[..n] == text,
        Err(_) => false,
    }
}

/// Whether the plain formatter writes just that text of an integer.
fn writes_integer(rt: &impl Abort, n: i64, buffer: &mut [u8], text: &[u8]) -> bool {
    let mut cells = [Cell::EmptyList; 1];
    let mut tally = Tally::EMPTY;
    let mut store = Store::new(&mut cells, &mut [], &mut tally);
    let value = store.make_integer(n).expect(rt, "a cell");
    writes(&Plain, &store, value, buffer, text)
}

#[test]
fn integers_at_both_ends(rt: HostRuntime) {
    let mut buffer = [0; 20];
    assert!(rt; writes_integer(&rt, 0, &mut buffer, b"0"));
    assert!(rt; writes_integer(&rt, -1, &mut buffer, b"-1"));
    assert!(rt; writes_integer(&rt, i64::MAX, &mut buffer, b"9223372036854775807"));
    assert!(rt; writes_integer(&rt, i64::MIN, &mut buffer, b"-9223372036854775808"));
}

#[test]
fn words(rt: HostRuntime) {
    let mut cells = [Cell::EmptyList; 2];
    let mut tally = Tally::EMPTY;
    let mut store = Store::new(&mut cells, &mut [], &mut tally);
    let yes = store.make_boolean(true).expect(&rt, "a cell");
    let no = store.make_boolean(false).expect(&rt, "a cell");
    let mut buffer = [0; 8];
    assert!(rt; writes(&Plain, &store, yes, &mut buffer, b"true"));
    assert!(rt; writes(&Plain, &store, no, &mut buffer, b"false"));
}

#[test]
fn a_string_fits_exactly(rt: HostRuntime) {
    let mut cells = [Cell::EmptyList; 1];
    let mut bytes = [0; 4];
    let mut tally = Tally::EMPTY;
    let mut store = Store::new(&mut cells, &mut bytes, &mut tally);
    let string = store
        .make_string(b"pots")
        .expect(&rt, "a cell and four bytes");
    assert!(rt; writes(&Plain, &store, string, &mut [0; 4], b"pots"));
    let short = Plain.format(&store, string, &mut [0; 3]);
    assert!(rt; matches!(short, Err(Unwritten::TooLong)));
}

#[test]
fn none_fits_an_empty_buffer(rt: HostRuntime) {
    let mut cells = [Cell::EmptyList; 1];
    let mut tally = Tally::EMPTY;
    let mut store = Store::new(&mut cells, &mut [], &mut tally);
    let digit = store.make_integer(7).expect(&rt, "a cell");
    assert!(rt; writes(&Plain, &store, Ref::None, &mut [], b""));
    let empty = Plain.format(&store, digit, &mut []);
    assert!(rt; matches!(empty, Err(Unwritten::TooLong)));
}

#[test]
fn lists_maps_and_floats_are_refused(rt: HostRuntime) {
    let mut cells = [Cell::EmptyList; 3];
    let mut tally = Tally::EMPTY;
    let mut store = Store::new(&mut cells, &mut [], &mut tally);
    let list = store.empty_list().expect(&rt, "a cell");
    let map = store.empty_map().expect(&rt, "a cell");
    let float = store.make_float(0).expect(&rt, "a cell");
    let mut buffer = [0; 8];
    let answer = Plain.format(&store, list, &mut buffer);
    assert!(rt; matches!(answer, Err(Unwritten::Refused(1))));
    let answer = Plain.format(&store, map, &mut buffer);
    assert!(rt; matches!(answer, Err(Unwritten::Refused(1))));
    let answer = Plain.format(&store, float, &mut buffer);
    assert!(rt; matches!(answer, Err(Unwritten::Refused(4))));
}
