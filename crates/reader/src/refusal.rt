//! Why packed bytes are refused.

ghost use Rattle.std.specs.Prelude.{◌≡◌};
ghost use Rattle.meaning.specs.Fault.{fault};
ghost use Rattle.meaning.specs.FaultRecords.{fault_of};
ghost use Rattle.reader.specs.Refusals.{cause_of, offset_of};

use meaning::fault::{Cause, Fault};

/// A cause, with the offset of the command at fault or of the bytes left over.
#[derive(Clone, Copy)]
pub enum Refusal {
    /// The source is too long, or is no text.
    BadSource,
    /// The bytes are cut, over-long or left over, or break the format.
    Malformed(usize),
    /// A span is reversed, past the source, or inside a character.
    Misplaced(usize),
    TooDeep(usize),
}

/// The refusal as a fault of the whole call.
impl From<Refusal> for Fault {
    ghost from_gives = { λ refusal f. fault_of f ≡ fault (cause_of refusal) (offset_of refusal) };

    fn from(refusal: Refusal) -> Fault {
        match refusal {
            Refusal::BadSource => Fault::of_call(Cause::BadSource, 0),
            Refusal::Malformed(offset) => Fault::of_call(Cause::Malformed, offset),
            Refusal::Misplaced(offset) => Fault::of_call(Cause::Misplaced, offset),
            Refusal::TooDeep(offset) => Fault::of_call(Cause::TooDeep, offset),
        }
    }
}
