//! The function `len`.

ghost use Rattle.std.specs.Prelude.{◌≡◌};
ghost use Rattle.store.specs.Stores.{Known};

use formatters::chart::ChartSet;
use hosts::answer::{Argument, Refusal, Unmade};
use hosts::callables::Callables;
use meaning::tree::Span;
use store::cell::{Cell, Ref};
use store::kinds::Kind;
use store::memory::{Store, Tally};

/// An argument, wherever it is reported.
fn argument(value: Ref) -> Argument
    ensures { result.value ≡ value }
{
    Argument {
        value,
        span: Span { start: 0, end: 0 },
    }
}

/// Whether `len` of the value is that integer.
fn counts(store: &mut Store, value: Ref, n: i64) -> bool
    requires { Known store.old value }
{
    match ChartSet.call(b"len", &[argument(value)], store) {
        Ok(size) => store.kind(size) == Kind::Integer && store.integer(size) == n,
        Err(_) => false,
    }
}

/// Whether the answer is a refusal for that reason that blames that argument.
fn refused(answer: Result<Ref, Unmade<Refusal>>, reason: u16, argument: Option<usize>) -> bool {
    match answer {
        Err(Unmade::Refused(refusal)) => refusal.reason == reason && refusal.argument == argument,
        _ => false,
    }
}

#[test]
fn of_strings(rt: HostRuntime) {
    let mut cells = [Cell::EmptyList; 2];
    let mut bytes = [0; 4];
    let mut tally = Tally::EMPTY;
    let mut store = Store::new(&mut cells, &mut bytes, &mut tally);
    let string = store
        .make_string(b"pots")
        .expect(&rt, "a cell and four bytes");
    assert!(rt; counts(&mut store, string, 4));
}

#[test]
fn of_lists(rt: HostRuntime) {
    let mut cells = [Cell::EmptyList; 5];
    let mut tally = Tally::EMPTY;
    let mut store = Store::new(&mut cells, &mut [], &mut tally);
    let empty = store.empty_list().expect(&rt, "a cell");
    assert!(rt; counts(&mut store, empty, 0));
    let other = store.empty_list().expect(&rt, "a cell");
    let list = store.push(other, Ref::None).expect(&rt, "a cell");
    assert!(rt; counts(&mut store, list, 1));
}

#[test]
fn of_maps(rt: HostRuntime) {
    let mut cells = [Cell::EmptyList; 3];
    let mut bytes = [0; 1];
    let mut tally = Tally::EMPTY;
    let mut store = Store::new(&mut cells, &mut bytes, &mut tally);
    let empty = store.empty_map().expect(&rt, "a cell");
    let map = store
        .insert(empty, b"n", Ref::None)
        .expect(&rt, "a cell and a byte");
    assert!(rt; counts(&mut store, map, 1));
}

#[test]
fn of_nothing_else(rt: HostRuntime) {
    let mut cells = [Cell::EmptyList; 3];
    let mut tally = Tally::EMPTY;
    let mut store = Store::new(&mut cells, &mut [], &mut tally);
    let answer = ChartSet.call(b"len", &[argument(Ref::None)], &mut store);
    assert!(rt; refused(answer, 1, Some(0)));
    let boolean = store.make_boolean(true).expect(&rt, "a cell");
    let answer = ChartSet.call(b"len", &[argument(boolean)], &mut store);
    assert!(rt; refused(answer, 1, Some(0)));
    let integer = store.make_integer(7).expect(&rt, "a cell");
    let answer = ChartSet.call(b"len", &[argument(integer)], &mut store);
    assert!(rt; refused(answer, 1, Some(0)));
    let float = store.make_float(0).expect(&rt, "a cell");
    let answer = ChartSet.call(b"len", &[argument(float)], &mut store);
    assert!(rt; refused(answer, 1, Some(0)));
}

#[test]
fn of_one_argument(rt: HostRuntime) {
    let mut cells = [];
    let mut tally = Tally::EMPTY;
    let mut store = Store::new(&mut cells, &mut [], &mut tally);
    let answer = ChartSet.call(b"len", &[], &mut store);
    assert!(rt; refused(answer, 3, None));
    let none = argument(Ref::None);
    let answer = ChartSet.call(b"len", &[none, none], &mut store);
    assert!(rt; refused(answer, 3, None));
}

#[test]
fn needs_a_cell(rt: HostRuntime) {
    let mut cells = [Cell::EmptyList; 1];
    let mut tally = Tally::EMPTY;
    let mut store = Store::new(&mut cells, &mut [], &mut tally);
    let list = store.empty_list().expect(&rt, "a cell");
    let answer = ChartSet.call(b"len", &[argument(list)], &mut store);
    assert!(rt; matches!(answer, Err(Unmade::Full)));
    assert_eq!(rt; store.mark(), Tally { cells: 1, bytes: 0 });
}
