//! The walk: an index on a list and a key on a map give the part. If it is absent, an optional member is a miss,
//! which ends the walk, and a direct one is a fault; every other pairing is a fault too. Store, source and path belong
//! to three owners, and stand beside one another.

ghost use Rattle.std.specs.Prelude.{◌≡◌, map as each};
ghost use Rattle.meaning.specs.Scopes.{ask};
ghost use Rattle.meaning.specs.Sources.{walk_of};
ghost use Rattle.meaning.specs.Walk.{index, key as by_text, part, part_at, walk};
ghost use Rattle.reader.specs.Fields.{members_of};
ghost use Rattle.store.specs.Stores.{Known, value};
ghost use Rattle.lookup.specs.Paths.{Answers, Tells, answered};

use meaning::fault::{Cause, Fault};
use meaning::tree::{Access, AccessOp, Member};
use reader::field::Members;
use reader::text::text_under;
use store::cell::Ref;
use store::kinds::Kind;
use store::memory::Store;

/// The value that the path leads to; none where an optional member is absent.
pub fn lookup_path(
    store: &Store,
    source: &[u8],
    start: Ref,
    path: Members,
) -> Result<Option<Ref>, Fault>
    requires { Known store.now start }
    ensures { Tells store.now (walk (ask source.now) (value store.now start) (members_of path.entry)) result }
{
    let mut here = start;
    for member in path {
        match lookup(store, source, here, member)? {
            Some(part) => here = part,
            None => return Ok(None),
        }
    }
    Ok(Some(here))
}

/// The part of a value that one member asks for.
pub fn lookup(store: &Store, source: &[u8], from: Ref, member: Member) -> Result<Option<Ref>, Fault>
    requires { Known store.now from }
    ensures { Tells store.now (part (ask source.now) (value store.now from) member) result }
{
    match member.access {
        Access::Index(number, _) => by_index(store, from, number as usize, member),
        Access::Key(span) => by_key(store, from, text_under(source, span), member),
    }
}

fn by_index(store: &Store, from: Ref, number: usize, member: Member) -> Result<Option<Ref>, Fault>
    requires { Known store.now from }
    ensures { Tells store.now (part_at member member.op (value store.now from) (index number)) result }
{
    match store.kind(from) {
        Kind::List => {
            let absent = Fault::at(Cause::NoSuchIndex, member.span, store.size(from) as usize);
            or_absent(store.part(from, number), member.op, absent)
        }
        kind => Err(Fault::at(Cause::WrongAccess, member.span, kind.byte() as usize)),
    }
}

fn by_key(store: &Store, from: Ref, key: &[u8], member: Member) -> Result<Option<Ref>, Fault>
    requires { Known store.now from }
    ensures { Tells store.now (part_at member member.op (value store.now from) (by_text key.now)) result }
{
    match store.kind(from) {
        Kind::Map => {
            let absent = Fault::at(Cause::NoSuchKey, member.span, 0);
            or_absent(store.value_of(from, key), member.op, absent)
        }
        kind => Err(Fault::at(Cause::WrongAccess, member.span, kind.byte() as usize)),
    }
}

/// What was found, a miss, or the fault of a direct member.
fn or_absent(part: Option<Ref>, op: AccessOp, absent: Fault) -> Result<Option<Ref>, Fault>
    ensures { result ≡ answered part op absent }
{
    match (part, op) {
        (None, AccessOp::Direct) => Err(absent),
        _ => Ok(part),
    }
}

/// What the value answers as a source: a miss is none, and the number of a fault is the reason.
pub fn answer_path(store: &Store, source: &[u8], start: Ref, path: Members) -> Result<Ref, u16>
    requires { Known store.now start }
    ensures { Answers store.now (walk_of (value store.now start) (each (ask source.now) (members_of path.entry))) result }
{
    // both outcomes turn into others, so that `?` would pass on neither
    match lookup_path(store, source, start, path) {
        Ok(found) => Ok(found.unwrap_or(Ref::None)),
        Err(fault) => Err(fault.cause.number() as u16),
    }
}
