//! How a packed value is walked where it stands: only what was asked for is made.

ghost use Rattle.std.specs.Prelude.{◌≡◌};
ghost use Rattle.meaning.specs.Sources.{walk_of};
ghost use Rattle.packing.specs.Unpacking.{unpack_value};
ghost use Rattle.sources.specs.Packed.{Stands};
ghost use Rattle.sources.specs.SourceTexts.{value_walk_is_text};
ghost use Rattle.sources.specs.Walks.{value_of_walk, walked};

use crate::packed::PackedValue;
use crate::value_walk::ValueWalk;
use crate::walking::ask;
use hosts::answer::Unmade;
use hosts::source::ValueSource;
use meaning::fault::Fault;
use reader::field::Members;
use store::cell::Ref;
use store::memory::Store;
use values::measuring::measure;

/// The most levels of a value.
const LEVELS: usize = 16;

impl<'v> ValueWalk<'v> {
    /// The walk of the value that the bytes pack; or the first fault in them.
    pub fn new(bytes: &'v [u8]) -> Result<ValueWalk<'v>, Fault>
        ensures { walked result ≡ unpack_value bytes.now }
    {
        measure(bytes)?;
        Ok(ValueWalk { bytes })
    }

    #[tactic(auto, using(crate::proofs::PackedValues::unpacked_stands))]
    fn whole(&self) -> PackedValue<'v>
        ensures { Stands result (value_of_walk self.now) }
    {
        PackedValue {
            bytes: self.bytes,
            levels: LEVELS,
        }
    }
}

impl ValueSource for ValueWalk<'_> {
    ghost valued = { λ w. walk_of (value_of_walk w) };

    ghost texts = { λ w. value_walk_is_text w.bytes.now };

    fn ask(&self, source: &[u8], path: Members, store: &mut Store) -> Result<Ref, Unmade<u16>> {
        ask(self.whole(), source, path, store)
    }
}
