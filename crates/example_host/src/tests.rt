use crate::vowels::VowelCounter;
use sinks::limit::ByteLimit;
use sinks::sink::{Sink, offer_all};

#[test]
fn vowels_are_counted_across_pieces(rt: HostRuntime) {
    let mut counter = VowelCounter::new();
    assert_eq!(rt;
        offer_all(&mut counter, &[b"Pot 12, ", b"", b"three buoys"]),
        Ok(())
    );
    assert_eq!(rt; counter.count(), 5);
}

#[test]
fn it_stands_under_a_limit(rt: HostRuntime) {
    let mut sink = ByteLimit::new(5, VowelCounter::new());
    assert_eq!(rt; sink.highest(), 1);
    assert_eq!(rt; sink.offer(b"aeiou"), Ok(()));
    assert_eq!(rt; sink.offer(b"a"), Err(1));
    assert_eq!(rt; sink.beneath().count(), 5);
}
