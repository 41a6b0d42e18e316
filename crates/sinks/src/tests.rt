use crate::counter::Counter;
use crate::limit::{ByteLimit, LineLimit, level_above};
use crate::measure::Measure;
use crate::page::Page;
use crate::sink::{Sink, offer_all};

#[test]
fn a_page_takes_what_fits_exactly(rt: HostRuntime) {
    let mut memory = [0; 4];
    let mut page = Page::new(&mut memory);
    assert_eq!(rt; page.offer(b"abcd"), Ok(()));
    assert_eq!(rt; page.offer(b""), Ok(()));
    assert_eq!(rt; page.offer(b"e"), Err(0));
    assert!(rt; page.bytes() == b"abcd".as_slice());
}

#[test]
fn a_page_takes_no_part_of_a_piece(rt: HostRuntime) {
    let mut memory = [0; 4];
    let mut page = Page::new(&mut memory);
    assert_eq!(rt; offer_all(&mut page, &[b"abc", b"de", b"f"]), Err(0));
    assert!(rt; page.bytes() == b"abc".as_slice());
}

#[test]
fn a_counter_counts(rt: HostRuntime) {
    let mut counter = Counter::new();
    assert_eq!(rt; offer_all(&mut counter, &[b"a\nb", b"", b"\n\nc"]), Ok(()));
    assert_eq!(rt; counter.bytes(), 6);
    assert_eq!(rt; counter.lines(), 3);
}

#[test]
fn lines_over_bytes(rt: HostRuntime) {
    let mut memory = [0; 4];
    let mut sink = LineLimit::new(1, ByteLimit::new(3, Page::new(&mut memory)));
    assert_eq!(rt; sink.highest(), 2);
    assert_eq!(rt; sink.offer(b"\n\n\n\n"), Err(2));
    assert_eq!(rt; sink.offer(b"abcd"), Err(1));
    assert_eq!(rt; sink.offer(b"a\n"), Ok(()));
    assert_eq!(rt; sink.count(), 1);
    assert_eq!(rt; sink.beneath().count(), 2);
    let page = sink.into_beneath().into_beneath();
    assert!(rt; page.bytes() == b"a\n".as_slice());
}

#[test]
fn bytes_over_lines(rt: HostRuntime) {
    let mut memory = [0; 2];
    let mut page = Page::new(&mut memory);
    let mut sink = ByteLimit::new(3, LineLimit::new(1, &mut page));
    assert_eq!(rt; sink.highest(), 2);
    assert_eq!(rt; sink.offer(b"\n\n\n\n"), Err(2));
    assert_eq!(rt; sink.offer(b"\n\n"), Err(1));
    assert_eq!(rt; sink.offer(b"abc"), Err(0));
    assert_eq!(rt; sink.offer(b"a\n"), Ok(()));
    assert!(rt; page.bytes() == b"a\n".as_slice());
}

#[test]
fn the_last_level_stays(rt: HostRuntime) {
    assert_eq!(rt; level_above(0), 1);
    assert_eq!(rt; level_above(65_534), 65_535);
    assert_eq!(rt; level_above(65_535), 65_535);
}
