//! The formatters `lat` and `lon`.

ghost use Rattle.std.specs.Prelude.{◌≡◌, Some};
ghost use Rattle.hosts.specs.Answers.{kind_of};
ghost use Rattle.meaning.specs.Formatters.{chart_set};

use formatters::chart::ChartSet;
use formatters::no_callables::NoCallables;
use hosts::answer::{CallableKind, Unwritten};
use hosts::callables::Callables;
use std::process::Abort;
use store::cell::{Cell, Ref};
use store::memory::{Store, Tally};

/// What the formatter of that name makes of an integer.
fn format(rt: &impl Abort, name: &[u8], n: i64, buffer: &mut [u8]) -> Result<usize, Unwritten>
    requires { kind_of (chart_set name.now) ≡ Some CallableKind.Formatter }
{
    let mut cells = [Cell::EmptyList; 1];
    let mut tally = Tally::EMPTY;
    let mut store = Store::new(&mut cells, &mut [], &mut tally);
    let value = store.make_integer(n).expect(rt, "a cell");
    ChartSet.format(name, &store, value, buffer)
}

#[test]
fn latitudes(rt: HostRuntime) {
    let mut buffer = [0; 12];
    for (n, text) in [
        (54_000_000, b"90-00.0000 N"),
        (-54_000_000, b"90-00.0000 S"),
        (0, b"00-00.0000 N"),
        (-1, b"00-00.0001 S"),
        (-30_123_456, b"50-12.3456 S"),
    ] {
        assert!(rt; matches!(format(&rt, b"lat", n, &mut buffer), Ok(12)));
        assert!(rt; &buffer == text);
    }
    for n in [54_000_001, -54_000_001, i64::MAX, i64::MIN] {
        let answer = format(&rt, b"lat", n, &mut buffer);
        assert!(rt; matches!(answer, Err(Unwritten::Refused(2))));
    }
}

#[test]
fn longitudes(rt: HostRuntime) {
    let mut buffer = [0; 13];
    for (n, text) in [
        (108_000_000, b"180-00.0000 E"),
        (-108_000_000, b"180-00.0000 W"),
        (0, b"000-00.0000 E"),
        (-1, b"000-00.0001 W"),
        (599_999, b"000-59.9999 E"),
    ] {
        assert!(rt; matches!(format(&rt, b"lon", n, &mut buffer), Ok(13)));
        assert!(rt; &buffer == text);
    }
    for n in [108_000_001, -108_000_001] {
        let answer = format(&rt, b"lon", n, &mut buffer);
        assert!(rt; matches!(answer, Err(Unwritten::Refused(2))));
    }
}

#[test]
fn a_position_has_twelve_bytes(rt: HostRuntime) {
    let answer = format(&rt, b"lat", 0, &mut [0; 11]);
    assert!(rt; matches!(answer, Err(Unwritten::TooLong)));
}

#[test]
fn only_integers_are_positions(rt: HostRuntime) {
    let mut cells = [];
    let mut tally = Tally::EMPTY;
    let store = Store::new(&mut cells, &mut [], &mut tally);
    let answer = ChartSet.format(b"lat", &store, Ref::None, &mut []);
    assert!(rt; matches!(answer, Err(Unwritten::Refused(1))));
}

#[test]
fn names(rt: HostRuntime) {
    assert_eq!(rt; ChartSet.kind(b"len"), Some(CallableKind::Function));
    assert_eq!(rt; ChartSet.kind(b"lat"), Some(CallableKind::Formatter));
    assert_eq!(rt; ChartSet.kind(b"lon"), Some(CallableKind::Formatter));
    assert_eq!(rt; ChartSet.kind(b"length"), None);
    assert_eq!(rt; NoCallables.kind(b"len"), None);
}
