//! Positions as text.

ghost use Rattle.std.specs.Prelude.{◌≡◌, ◌≤◌, [], ◌∷◌, length};
ghost use Rattle.meaning.specs.Formatters.{position};
ghost use Rattle.hosts.specs.Answers.{Within, fitted, written};

use crate::angle::Angle;
use crate::reasons::OUT_OF_RANGE;
use crate::writer::Writer;
use hosts::answer::Unwritten;

/// How a position along one axis is written.
#[derive(Clone, Copy)]
pub struct Axis {
    /// The digits of its degrees.
    pub width: u8,
    /// The greatest on either side, in ten-thousandths of a minute.
    pub limit: u64,
    /// The letter of the side of zero and of the numbers above.
    pub positive: u8,
    /// The letter of the other side.
    pub negative: u8,
}

/// Up to 90 degrees.
pub const LAT: Axis = Axis {
    width: 2,
    limit: 54_000_000,
    positive: b'N',
    negative: b'S',
};

/// Up to 180 degrees.
pub const LON: Axis = Axis {
    width: 3,
    limit: 108_000_000,
    positive: b'E',
    negative: b'W',
};

impl Axis {
    /// Writes signed ten-thousandths of a minute as degrees and minutes with the letter of the side.
    pub fn write(self, n: i64, buffer: &mut [u8]) -> Result<usize, Unwritten>
        ensures answers { written result buffer.new ≡ fitted (length buffer.old) (position self.width self.limit (self.positive ∷ []) (self.negative ∷ []) n) }
        ensures within { Within result buffer.old }
    {
        if n.unsigned_abs() > self.limit {
            return Err(Unwritten::Refused(OUT_OF_RANGE));
        }
        let angle = Angle::of(n);
        let side = if n < 0 { self.negative } else { self.positive };
        let mut out = Writer::new(buffer);
        out.put_digits(self.width, angle.degrees)?;
        out.put(b"-")?;
        out.put_digits(2, angle.minutes)?;
        out.put(b".")?;
        out.put_digits(4, angle.fraction)?;
        out.put(&[b' ', side])?;
        Ok(out.len())
    }
}
