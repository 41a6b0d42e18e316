//! The kinds of values.

ghost use Rattle.std.specs.Prelude.{◌≡◌};
ghost use Rattle.store.specs.Kinds.{byte_of};

/// Each is numbered by the command byte of a packed value of this kind; both booleans have that of false.
#[derive(Clone, Copy, PartialEq, Eq, Debug)]
pub enum Kind {
    None = 0x20,
    Boolean = 0x21,
    Integer = 0x23,
    Float = 0x24,
    String = 0x25,
    List = 0x26,
    Map = 0x27,
}

impl Kind {
    /// The command byte of a packed value of this kind. As a conversion it would not say which byte it is.
    pub fn byte(self) -> u8
        ensures { result ≡ byte_of self }
    {
        self as u8
    }
}
