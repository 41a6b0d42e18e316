use loading::loading::load;
use samples::packed::{packed_list, packed_map};
use samples::reading::{in_turn, integer_under, listed, map_of, numbered, under_keys};
use std::test::Fail;
use store::cell::Cell;
use store::memory::{Full, Store, Tally};

#[test]
fn cells_are_used_up_to_65535(rt: HostRuntime) -> Result<(), Fail> {
    let mut cells = vec![in rt.alloc(); Cell::EmptyList; 65_536]?;
    let mut text = [];
    let mut tally = Tally::EMPTY;
    let mut store = Store::new(cells.as_mut_slice(), &mut text, &mut tally);
    for _ in 0..65_535 {
        assert!(rt; store.make_boolean(true).is_ok());
    }
    assert_eq!(rt; store.make_boolean(true), Err(Full));
    assert_eq!(rt;
        store.mark(),
        Tally {
            cells: 65_535,
            bytes: 0
        }
    );
    Ok(())
}

#[test]
fn bytes_are_used_up_to_65535(rt: HostRuntime) -> Result<(), Fail> {
    let heap = rt.alloc();
    let mut cells = [Cell::EmptyList; 4];
    let mut text = vec![in heap; 0u8; 65_536]?;
    let mut tally = Tally::EMPTY;
    let mut store = Store::new(&mut cells, text.as_mut_slice(), &mut tally);
    let longest = vec![in heap; b'a'; 65_535]?;
    let longer = vec![in heap; b'a'; 65_536]?;
    assert_eq!(rt; store.make_string(longer.as_slice()), Err(Full));
    assert!(rt; store.make_string(longest.as_slice()).is_ok());
    assert_eq!(rt; store.make_string(b"a"), Err(Full));
    assert!(rt; store.make_string(b"").is_ok());
    assert_eq!(rt;
        store.mark(),
        Tally {
            cells: 2,
            bytes: 65_535
        }
    );
    Ok(())
}

#[test]
#[tactic(auto, using(samples::proofs::Known::load_known))]
fn lists_are_read_at_each_index(rt: HostRuntime) -> Result<(), Fail> {
    let heap = rt.alloc();
    let mut cells = vec![in heap; Cell::EmptyList; 2001]?;
    let mut text = [];
    let mut tally = Tally::EMPTY;
    let mut store = Store::new(cells.as_mut_slice(), &mut text, &mut tally);
    let packed = packed_list(heap, 1000)?;
    let Ok(list) = load(&mut store, packed.as_slice()) else {
        return Err(Fail::new("the list was refused"));
    };
    assert_eq!(rt; listed(&store, list), 1000);
    assert_eq!(rt; store.part(list, usize::MAX), None);
    Ok(())
}

#[test]
#[tactic(auto, using(samples::proofs::Known::load_known))]
fn sorted_maps_are_read_by_key_and_in_order(rt: HostRuntime) -> Result<(), Fail> {
    let heap = rt.alloc();
    let mut cells = vec![in heap; Cell::EmptyList; 2001]?;
    let mut text = vec![in heap; 0u8; 4000]?;
    let mut tally = Tally::EMPTY;
    let mut store = Store::new(cells.as_mut_slice(), text.as_mut_slice(), &mut tally);
    let packed = packed_map(heap, 1000)?;
    let Ok(map) = load(&mut store, packed.as_slice()) else {
        return Err(Fail::new("the map was refused"));
    };
    assert_eq!(rt; under_keys(&store, map), 1000);
    assert_eq!(rt; numbered(&store, map), 1000);
    assert_eq!(rt; in_turn(&store, map), 1000);
    for absent in [b"".as_slice(), b"0", b"0500a", b"1000", b"a"] {
        assert_eq!(rt; store.value_of(map, absent), None);
    }
    Ok(())
}

#[test]
fn the_newest_equal_key_counts(rt: HostRuntime) -> Result<(), Fail> {
    let mut cells = [Cell::EmptyList; 32];
    let mut text = [0; 64];
    let mut tally = Tally::EMPTY;
    let mut store = Store::new(&mut cells, &mut text, &mut tally);
    let entries = [
        (b"0002".as_slice(), 9),
        (b"0000", 9),
        (b"0001", 1),
        (b"0000", 8),
        (b"0003", 3),
        (b"0002", 2),
        (b"0000", 0),
    ];
    let Ok(map) = map_of(&mut store, &entries) else {
        return Err(Fail::new("the store is full"));
    };
    assert_eq!(rt; under_keys(&store, map), 4);
    assert_eq!(rt; numbered(&store, map), 4);
    assert_eq!(rt; in_turn(&store, map), 4);
    assert_eq!(rt;
        store.mark(),
        Tally {
            cells: 15,
            bytes: 28
        }
    );
    Ok(())
}

#[test]
fn keys_may_be_empty_and_differ_in_the_last_byte(rt: HostRuntime) -> Result<(), Fail> {
    let mut cells = [Cell::EmptyList; 16];
    let mut text = [0; 64];
    let mut tally = Tally::EMPTY;
    let mut store = Store::new(&mut cells, &mut text, &mut tally);
    let sorted = [
        (b"".as_slice(), 0),
        (b"depth a", 1),
        (b"depth b", 2),
        (b"depth ba", 3),
    ];
    let Ok(map) = map_of(&mut store, &sorted) else {
        return Err(Fail::new("the store is full"));
    };
    for (key, number) in sorted {
        assert_eq!(rt; integer_under(&store, map, key), Some(number));
    }
    assert_eq!(rt; integer_under(&store, map, b"depth"), None);
    assert_eq!(rt; integer_under(&store, map, b"depth c"), None);
    Ok(())
}

#[test]
#[tactic(auto, using(samples::proofs::Known::load_known))]
fn each_kind_has_its_truth(rt: HostRuntime) -> Result<(), Fail> {
    let mut cells = [Cell::EmptyList; 4];
    let mut text = [0; 4];
    let packed = [
        (b"\x20".as_slice(), false),
        (b"\x21", false),
        (b"\x22", true),
        (b"\x23\x00\x00\x00\x00\x00\x00\x00\x00", false),
        (b"\x23\x00\x00\x00\x00\x00\x00\x00\x80", true),
        (b"\x24\x00\x00\x00\x00\x00\x00\x00\x00", false),
        (b"\x24\x00\x00\x00\x00\x00\x00\x00\x80", false),
        (b"\x24\x01\x00\x00\x00\x00\x00\x00\x00", true),
        // not a number
        (b"\x24\x00\x00\x00\x00\x00\x00\xF8\x7F", true),
        (b"\x25\x00\x00", false),
        (b"\x25\x01\x00\x00", true),
        (b"\x26\x00\x00", false),
        (b"\x26\x01\x00\x20", true),
        (b"\x27\x00\x00", false),
        (b"\x27\x01\x00\x00\x00\x20", true),
    ];
    for (bytes, expected) in packed {
        let mut tally = Tally::EMPTY;
        let mut store = Store::new(&mut cells, &mut text, &mut tally);
        let Ok(value) = load(&mut store, bytes) else {
            return Err(Fail::new("a value was refused"));
        };
        assert_eq!(rt; store.truth(value), expected, "{bytes:?}");
    }
    Ok(())
}
