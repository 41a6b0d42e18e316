//! The fields of a command, read in place: each reader answers a field and the position after it,
//! or none where the tree is malformed there. Positions stand beside the tree and are no state of a reader: a fault
//! keeps the one of its command, an instruction those of its operands, and reading starts from either again.

ghost use Rattle.std.specs.Prelude.{◌≡◌, ◌<◌, ◌≤◌, length};
ghost use Rattle.std.specs.Iterator.{YieldsFirst, item_count};
ghost use Rattle.packing.specs.Reader.{byte, bytes, flag, word};
ghost use Rattle.packing.specs.Unpacking.{access_of, member, more_members, op_of, span, string_of, text};
ghost use Rattle.reader.specs.Fields.{Onward, Passes, Strictly, Takes, Within, as_it_is, members_of, now_of, text_of, variable_members};

use crate::text::is_text;
use meaning::tree::{Access, AccessOp, Member, Span};

/// A string of the tree: where it stands in the source, and its text.
#[derive(Clone, Copy)]
pub struct PackedText<'a> {
    pub span: Span,
    pub text: &'a [u8],
}

/// The members of a variable that are still to be read, as they stand in the tree. They differ in size, so that their
/// count stands beside their bytes.
#[derive(Clone, Copy)]
pub struct Members<'a> {
    pub count: u8,
    pub bytes: &'a [u8],
}

#[tactic(auto, using(crate::proofs::Readings::byte_here, crate::proofs::Readings::no_byte))]
pub fn read_byte(tree: &[u8], pos: usize) -> Option<(u8, usize)>
    ensures same { Takes as_it_is tree.now pos byte result }
    ensures moves { Within tree.now pos result }
    ensures ahead { Strictly tree.now pos result }
{
    let byte = tree.get(pos)?;
    Some((*byte, pos + 1))
}

/// A byte that is 0 or 1, as a flag.
#[tactic(auto, using(crate::proofs::Readings::further), unfolding(packing::specs::Reader::flag))]
pub fn read_flag(tree: &[u8], pos: usize) -> Option<(bool, usize)>
    ensures same { Takes as_it_is tree.now pos flag result }
    ensures moves { Within tree.now pos result }
{
    let (byte, next) = read_byte(tree, pos)?;
    if byte < 2 {
        Some((byte == 1, next))
    } else {
        None
    }
}

/// The next `N` bytes, as they stand.
pub(crate) fn read_array<const N: usize>(tree: &[u8], pos: usize) -> Option<([u8; N], usize)>
    requires { 0 < N }
    ensures same { Takes as_it_is tree.now pos (bytes N) result }
    ensures moves { Within tree.now pos result }
{
    let part = tree.get(pos..)?.get(..N)?;
    let array = <[u8; N]>::try_from(part).ok()?;
    Some((array, pos + N))
}

#[tactic(auto, using(crate::proofs::Readings::two_are, crate::proofs::Readings::word_here, crate::proofs::Readings::no_word))]
pub fn read_u16(tree: &[u8], pos: usize) -> Option<(u16, usize)>
    ensures same { Takes as_it_is tree.now pos (word 2) result }
    ensures moves { Within tree.now pos result }
{
    let (bytes, end) = read_array(tree, pos)?;
    Some((u16::from_le_bytes(bytes), end))
}

#[tactic(auto, using(crate::proofs::Readings::four_are, crate::proofs::Readings::word_here, crate::proofs::Readings::no_word))]
pub fn read_u32(tree: &[u8], pos: usize) -> Option<(u32, usize)>
    ensures same { Takes as_it_is tree.now pos (word 4) result }
    ensures moves { Within tree.now pos result }
{
    let (bytes, end) = read_array(tree, pos)?;
    Some((u32::from_le_bytes(bytes), end))
}

/// The next `size` bytes, as they stand.
#[tactic(auto, using(crate::proofs::Readings::part_here))]
pub fn read_slice<'a>(tree: &'a [u8], pos: usize, size: usize) -> Option<(&'a [u8], usize)>
    requires { pos ≤ length tree.now }
    ensures same { Takes now_of tree.now pos (bytes size) result }
    ensures moves { Within tree.now pos result }
{
    let part = tree[pos..].get(..size)?;
    Some((part, pos + size))
}

#[tactic(auto, using(crate::proofs::Readings::further), unfolding(packing::specs::Unpacking::span))]
pub fn read_span(tree: &[u8], pos: usize) -> Option<(Span, usize)>
    ensures same { Takes as_it_is tree.now pos span result }
    ensures moves { Within tree.now pos result }
{
    let (start, next) = read_u16(tree, pos)?;
    let (end, after) = read_u16(tree, next)?;
    Some((Span { start, end }, after))
}

/// Text, with its length before it.
#[tactic(auto, using(crate::proofs::Readings::further), unfolding(packing::specs::Unpacking::text))]
pub fn read_text<'a>(tree: &'a [u8], pos: usize) -> Option<(&'a [u8], usize)>
    ensures same { Takes now_of tree.now pos text result }
    ensures moves { Within tree.now pos result }
{
    let (size, next) = read_u16(tree, pos)?;
    let (part, end) = read_slice(tree, next, size as usize)?;
    if is_text(part) {
        Some((part, end))
    } else {
        None
    }
}

#[tactic(auto, using(crate::proofs::Readings::further), unfolding(packing::specs::Unpacking::string_of))]
pub fn read_string<'a>(tree: &'a [u8], pos: usize) -> Option<(PackedText<'a>, usize)>
    ensures same { Takes text_of tree.now pos string_of result }
    ensures moves { Within tree.now pos result }
{
    let (span, next) = read_span(tree, pos)?;
    let (text, end) = read_text(tree, next)?;
    Some((PackedText { span, text }, end))
}

#[tactic(auto, using(crate::proofs::Readings::further), unfolding(packing::specs::Unpacking::access_of))]
fn read_access(tree: &[u8], pos: usize, by_key: bool) -> Option<(Access, usize)>
    ensures same { Takes as_it_is tree.now pos (λ at. access_of at by_key) result }
    ensures moves { Within tree.now pos result }
{
    if by_key {
        let (key, end) = read_span(tree, pos)?;
        return Some((Access::Key(key), end));
    }
    let (index, next) = read_u32(tree, pos)?;
    let (span, end) = read_span(tree, next)?;
    Some((Access::Index(index, span), end))
}

// What the flag says; not every `bool` is an operation.
fn access_op(optional: bool) -> AccessOp
    ensures { result ≡ op_of optional }
{
    if optional {
        AccessOp::Optional
    } else {
        AccessOp::Direct
    }
}

/// One member of a variable.
#[tactic(auto, using(crate::proofs::Readings::further), unfolding(packing::specs::Unpacking::member))]
pub fn read_member(tree: &[u8], pos: usize) -> Option<(Member, usize)>
    ensures same { Takes as_it_is tree.now pos member result }
    ensures moves { Within tree.now pos result }
{
    let (optional, after_optional) = read_flag(tree, pos)?;
    let (by_key, after_flags) = read_flag(tree, after_optional)?;
    let (access, after_access) = read_access(tree, after_flags, by_key)?;
    let (span, end) = read_span(tree, after_access)?;
    let op = access_op(optional);
    Some((Member { op, access, span }, end))
}

/// The position after `count` members.
fn pass_members(tree: &[u8], pos: usize, count: u8) -> Option<usize>
    requires { pos ≤ length tree.now }
    ensures same { Passes tree.now pos (more_members count) result }
    ensures moves { Onward tree.now pos result }
{
    let mut at = pos;
    for _member in 0..count {
        let (_, next) = read_member(tree, at)?;
        at = next;
    }
    Some(at)
}

/// A variable: its count, and as many members.
#[tactic(auto, using(crate::proofs::Readings::further, crate::proofs::Members::variable_not, crate::proofs::Members::variable_cut))]
pub fn read_variable<'a>(tree: &'a [u8], pos: usize) -> Option<(Members<'a>, usize)>
    ensures same { Takes members_of tree.now pos variable_members result }
    ensures moves { Within tree.now pos result }
{
    let (count, start) = read_byte(tree, pos)?;
    if count == 0 || count > 8 {
        return None;
    }
    let end = pass_members(tree, start, count)?;
    Some((
        Members {
            count,
            bytes: &tree[start..end],
        },
        end,
    ))
}

impl Iterator for Members<'_> {
    type Item = Member;

    ghost next_gives = { YieldsFirst members_of };

    ghost remaining = { item_count members_of };

    fn next(&mut self) -> Option<Member> {
        let count = self.count.checked_sub(1)?;
        let (member, next) = read_member(self.bytes, 0)?;
        *self = Members {
            count,
            bytes: &self.bytes[next..],
        };
        Some(member)
    }
}
