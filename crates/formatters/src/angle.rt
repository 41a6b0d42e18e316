//! Angles.

ghost use Rattle.std.specs.Prelude.{◌≡◌, ◌/◌, ◌%◌, unsigned_abs};

/// Ten-thousandths of a minute in a minute and in a degree.
const MINUTE: i64 = 10_000;

const DEGREE: i64 = 60 * MINUTE;

/// Degrees, minutes and ten-thousandths of a minute, without a sign.
#[derive(Clone, Copy)]
pub struct Angle {
    pub degrees: u64,
    pub minutes: u64,
    pub fraction: u64,
}

impl Angle {
    /// Of signed ten-thousandths of a minute.
    pub fn of(n: i64) -> Angle
        ensures degrees { result.degrees ≡ unsigned_abs n / 600000 }
        ensures minutes { result.minutes ≡ (unsigned_abs n / 10000) % 60 }
        ensures fraction { result.fraction ≡ unsigned_abs n % 10000 }
    {
        // A quotient and its remainder have the sign of what is divided. Nothing is negated, as the least number could not be.
        let degrees = n / DEGREE;
        let rest = n % DEGREE;
        Angle {
            degrees: degrees.unsigned_abs(),
            minutes: (rest / MINUTE).unsigned_abs(),
            fraction: (rest % MINUTE).unsigned_abs(),
        }
    }
}
