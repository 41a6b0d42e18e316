//! What values cost in a store.

ghost use Rattle.std.specs.Prelude.{◌≡◌, ◌+◌, ◌^◌, ◌<◌, ◌≤◌};
ghost use Rattle.meaning.specs.Charge.{cost};
ghost use Rattle.reader.specs.Meanings.{plain_of};
ghost use Rattle.values.specs.Costs.{charge_of, with_part};

use reader::literal::PlainValue;

/// What a value costs: a cell for each value made and one for each part put in, and bytes of text.
/// The cells are counted apart, so that neither count can wrap.
#[derive(Clone, Copy)]
pub struct Cost {
    pub values: usize,
    pub parts: usize,
    pub bytes: usize,
}

impl Cost {
    pub(crate) const NOTHING: Cost = Cost {
        values: 0,
        parts: 0,
        bytes: 0,
    };

    /// The cost of a value without parts.
    pub(crate) fn of_plain(value: PlainValue) -> Cost
        ensures same { charge_of result ≡ cost (plain_of value.entry) }
        ensures small { (result.values ≤ 1) × (result.parts ≡ 0) }
    {
        let cell = Cost {
            values: 1,
            parts: 0,
            bytes: 0,
        };
        match value {
            PlainValue::Nothing => Cost::NOTHING,
            PlainValue::False | PlainValue::True | PlainValue::Integer(_) | PlainValue::Float(_) =>
                cell,
            PlainValue::String(text) => Cost {
                bytes: text.len(),
                ..cell
            },
        }
    }

    /// With one part more, and the bytes of its key.
    pub(crate) fn with_part(self, part: Cost, key: usize) -> Cost
        requires values { self.values + part.values < 2 ^ 64 }
        requires parts { self.parts + part.parts + 1 < 2 ^ 64 }
        requires bytes { self.bytes + part.bytes + key < 2 ^ 64 }
        ensures { result ≡ with_part self part key }
    {
        Cost {
            values: self.values + part.values,
            parts: self.parts + part.parts + 1,
            bytes: self.bytes + part.bytes + key,
        }
    }
}
