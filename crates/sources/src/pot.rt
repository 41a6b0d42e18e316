//! One pot of a log.

ghost use Rattle.std.specs.Prelude.{◌≡◌};
ghost use Rattle.meaning.specs.FaultRecords.{given};
ghost use Rattle.meaning.specs.Parts.{value_of};
ghost use Rattle.meaning.specs.Sources.{pot};
ghost use Rattle.meaning.specs.Value.{integer};
ghost use Rattle.sources.specs.Pots.{entries_of, value_of_pot};

/// A pot that was set: its number, how deep it lies, and where.
#[derive(Clone, Copy, PartialEq, Eq, Debug)]
pub(crate) struct Pot {
    pub(crate) number: u16,
    pub(crate) depth: u16,
    pub(crate) lat: i32,
    pub(crate) lon: i32,
}

impl Pot {
    /// The pot of one record.
    pub(crate) fn of_record(bytes: &[u8; 12]) -> Pot
        ensures { value_of_pot result ≡ pot bytes.now }
    {
        let [n0, n1, d0, d1, a0, a1, a2, a3, o0, o1, o2, o3] = *bytes;
        Pot {
            number: u16::from_le_bytes([n0, n1]),
            depth: u16::from_le_bytes([d0, d1]),
            lat: i32::from_le_bytes([a0, a1, a2, a3]),
            lon: i32::from_le_bytes([o0, o1, o2, o3]),
        }
    }
    /// The field of that name.
    pub(crate) fn field(self, name: &[u8]) -> Option<i64>
        ensures { given integer result ≡ value_of (entries_of self) name.now }
    {
        match name {
            b"depth" => Some(i64::from(self.depth)),
            b"lat" => Some(i64::from(self.lat)),
            b"lon" => Some(i64::from(self.lon)),
            b"number" => Some(i64::from(self.number)),
            _ => None,
        }
    }
}
