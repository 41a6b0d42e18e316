//! How a name is made, and its bytes.

ghost use Rattle.std.specs.Prelude.{◌≡◌, ◌≤◌};
ghost use Rattle.meaning.specs.Names.{Named, name_of};

use crate::name::Name;

/// The most bytes of a name.
pub const MOST_BYTES: usize = 32;

impl Name {
    /// The name of these bytes, or none where there are not 1 to 32 of them.
    pub fn new(bytes: &[u8]) -> Option<Name>
        ensures { Named bytes.now result }
    {
        let len = bytes.len();
        if len == 0 || len > MOST_BYTES {
            return None;
        }
        let mut copy = [0u8; 32];
        let part = &mut copy[0..len];
        part.copy_from_slice(bytes);
        Some(Name { bytes: copy, len })
    }

    /// The bytes of the name.
    pub fn as_bytes(&self) -> &[u8]
        ensures { result.now ≡ name_of self.now }
    {
        &self.bytes[0..self.len]
    }
}
