ghost use Rattle.std.specs.Prelude.{◌≡◌, suc, ◌-◌, ◌≤◌, ◌^◌, min};
ghost use Rattle.sinks.specs.Sinks.{limited};
ghost use Rattle.sinks.specs.SinkLaws.{limited_is_lawful};
ghost use Rattle.sinks.specs.States.{up_to};

use crate::measure::{Bytes, Lines, Measure};
use crate::sink::Sink;
use std::marker::PhantomData;

/// A limit on some measure of the text, over the sink beneath, which it holds.
#[derive(Drop)]
pub struct Limit<K, S> {
    kind: PhantomData<K>,
    limit: usize,
    count: usize,
    beneath: S,
    ghost within: { count ≤ limit },
}

pub type LineLimit<S> = Limit<Lines, S>;

pub type ByteLimit<S> = Limit<Bytes, S>;

impl<K, S> Limit<K, S> {
    /// Nothing is counted yet.
    pub fn new(limit: usize, beneath: S) -> Limit<K, S>
        ensures { up_to result.limit result.count result.beneath ≡ up_to limit 0 beneath }
    {
        Limit {
            kind: PhantomData,
            limit,
            count: 0,
            beneath,
        }
    }

    pub fn limit(&self) -> usize
        ensures { result ≡ self.now.limit }
    {
        self.limit
    }

    /// How much was taken so far.
    pub fn count(&self) -> usize
        ensures { result ≡ self.now.count }
    {
        self.count
    }

    pub fn beneath(&self) -> &S
        ensures { result.now ≡ self.now.beneath }
    {
        &self.beneath
    }

    pub fn into_beneath(self) -> S
        ensures { result ≡ self.beneath }
    {
        self.beneath
    }
}

/// One above the highest level beneath, up to what 16 bits hold.
pub fn level_above(highest: u16) -> u16
    ensures { result ≡ min (2 ^ 16 - 1) (suc highest) }
{
    highest.saturating_add(1)
}

impl<K: Measure, S: Sink> Sink for Limit<K, S> {
    ghost sink = { limited K.Measure.measure S.Sink.sink };

    ghost state = { λ l. up_to l.limit l.count (S.Sink.state l.beneath) };

    ghost lawful = { limited_is_lawful K.Measure.additive S.Sink.lawful };

    fn offer(&mut self, piece: &[u8]) -> Result<(), u16> {
        let count = K::count(piece);
        if count > self.limit - self.count {
            // of the limit itself, and not of it as a borrowed sink
            return Err((*self).highest());
        }
        self.beneath.offer(piece)?;
        self.count += count;
        Ok(())
    }

    fn highest(&self) -> u16 {
        level_above(self.beneath.highest())
    }
}
