//! The values that a literal may have, read in place.

ghost use Rattle.std.specs.Prelude.{◌≤◌, length};
ghost use Rattle.reader.specs.Meanings.{plain_of};
ghost use Rattle.reader.specs.Fields.{Strictly, Takes, Within};
ghost use Rattle.reader.specs.AfterByte.{plain_after, plain_head};

use crate::field::{read_array, read_byte, read_text};

/// A value without parts, as a literal has it: of a float its 64 bits. `Nothing` is the value none, and no absence.
#[derive(Clone, Copy)]
pub enum PlainValue<'a> {
    Nothing,
    False,
    True,
    Integer(i64),
    Float(u64),
    String(&'a [u8]),
}

/// The rest of a value's command, after its byte.
#[tactic(auto, using(crate::proofs::Readings::word_here, crate::proofs::Readings::no_word, crate::proofs::Readings::eight_are, crate::proofs::AfterBytes::plain_unknown), unfolding(crate::specs::AfterByte::plain_after, packing::specs::Unpacking::plain_value, packing::specs::Reader::coded))]
fn plain_fields<'a>(tree: &'a [u8], pos: usize, byte: u8) -> Option<(PlainValue<'a>, usize)>
    requires { pos ≤ length tree.now }
    ensures same { Takes plain_of tree.now pos (plain_after byte) result }
    ensures moves { Within tree.now pos result }
{
    match byte {
        0x20 => Some((PlainValue::Nothing, pos)),
        0x21 => Some((PlainValue::False, pos)),
        0x22 => Some((PlainValue::True, pos)),
        0x23 => {
            let (integer, end) = read_array(tree, pos)?;
            let bits = u64::from_le_bytes(integer);
            Some((PlainValue::Integer(bits.cast_signed()), end))
        }
        0x24 => {
            let (float, end) = read_array(tree, pos)?;
            Some((PlainValue::Float(u64::from_le_bytes(float)), end))
        }
        0x25 => {
            let (string, end) = read_text(tree, pos)?;
            Some((PlainValue::String(string), end))
        }
        _ => None,
    }
}

/// The next command, where a literal's value is due.
#[tactic(auto, using(crate::proofs::Readings::within_ahead, crate::proofs::AfterBytes::plain_follows), unfolding(crate::specs::AfterByte::plain_head, packing::specs::Reader::command))]
pub fn plain_value<'a>(tree: &'a [u8], pos: usize) -> Option<(PlainValue<'a>, usize)>
    ensures same { Takes plain_of tree.now pos plain_head result }
    ensures moves { Strictly tree.now pos result }
{
    let (byte, next) = read_byte(tree, pos)?;
    plain_fields(tree, next, byte)
}
