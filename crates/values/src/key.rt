//! The keys of a packed map, which ascend strictly by their bytes.

ghost use Rattle.std.specs.Prelude.{◌≡◌};
ghost use Rattle.meaning.specs.Bytes.{precedes};
ghost use Rattle.reader.specs.Fields.{Takes, now_of};
ghost use Rattle.values.specs.Keys.{KeyWithin, key_before, rising_key};

use reader::field::read_text;

/// Whether the bytes of one key come before those of another.
pub fn is_before(a: &[u8], b: &[u8]) -> bool
    ensures { result ≡ precedes a.now b.now }
{
    // `cmp` passes over equal bytes in groups, where `<` takes them one by one
    a.cmp(&b).is_lt()
}

/// A key, which has to come after the key before it.
pub(crate) fn read_key<'a>(
    bytes: &'a [u8],
    pos: usize,
    before: Option<&[u8]>,
) -> Option<(&'a [u8], usize)>
    ensures same { Takes now_of bytes.now pos (rising_key (key_before before.entry)) result }
    ensures moves { KeyWithin bytes.now pos result }
{
    let (key, next) = read_text(bytes, pos)?;
    match before {
        Some(lower) if !is_before(lower, key) => None,
        _ => Some((key, next)),
    }
}
