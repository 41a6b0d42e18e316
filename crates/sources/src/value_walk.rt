//! The walk of one value as a value source.

ghost use Rattle.sources.specs.Packed.{Unpacks};

pub mod asking;

/// A packed value.
#[derive(Clone, Copy)]
pub struct ValueWalk<'v> {
    bytes: &'v [u8],
    ghost packed: { Unpacks bytes.now },
}
