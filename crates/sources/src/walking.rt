//! The walk of a path over something whose parts are found where they stand.

ghost use Rattle.std.specs.Prelude.{◌≡◌, map as each};
ghost use Rattle.meaning.specs.Charge.{cost};
ghost use Rattle.meaning.specs.Or.{gives};
ghost use Rattle.meaning.specs.Scopes.{ask as asked};
ghost use Rattle.meaning.specs.Sources.{walk_of};
ghost use Rattle.meaning.specs.Value.{Value};
ghost use Rattle.meaning.specs.Walk.{index, key as by_text, part};
ghost use Rattle.reader.specs.Fields.{as_it_is, members_of};
ghost use Rattle.store.specs.Stores.{Over};
ghost use Rattle.hosts.specs.Answers.{Answers};
ghost use Rattle.sources.specs.Building.{Builds};
ghost use Rattle.sources.specs.Outcomes.{Tells, absent_or, outcome, part_outcome, path_outcome};

use hosts::answer::Unmade;
use meaning::fault::Cause;
use meaning::tree::{Access, AccessOp, Member};
use reader::field::Members;
use reader::text::text_under;
use store::cell::Ref;
use store::memory::{Full, Store};

/// A place where a value stands: its parts are found from there, and the value can be made in a store.
pub(crate) trait Place: Copy {
    /// That this is the value.
    ghost stands: { Self → Value → Type 0 };

    /// The part that a member asks for by its number, counted from 0.
    fn by_index(self, number: usize, op: AccessOp) -> Result<Option<Self>, Cause>
        ensures { (v : Value) → stands self v → Tells stands (part_outcome v op (index number)) result };

    /// The part that a member asks for by its name.
    fn by_key(self, key: &[u8], op: AccessOp) -> Result<Option<Self>, Cause>
        ensures { (v : Value) → stands self v → Tells stands (part_outcome v op (by_text key.now)) result };

    /// Makes the value in a store. If it does not fit, some of its parts may be left there.
    fn make(self, store: &mut Store) -> Result<Ref, Full>
        ensures builds { (v : Value) → stands self v → Builds store.old store.new (cost v) v result }
        ensures over { Over store.old store.new };
}

/// What a source of that value answers.
pub(crate) fn ask<P: Place>(
    start: P,
    source: &[u8],
    path: Members,
    store: &mut Store,
) -> Result<Ref, Unmade<u16>>
    ensures { (v : Value) → P.Place.stands start v → Answers as_it_is store.old store.new (walk_of v (each (asked source.now) (members_of path.entry))) result }
{
    match walk(start, source, path) {
        Ok(Some(found)) => make_whole(found, store),
        Ok(None) => Ok(Ref::None),
        Err(cause) => Err(Unmade::Refused(u16::from(cause.number()))),
    }
}

/// Makes the value whole, or not at all.
fn make_whole<P: Place>(place: P, store: &mut Store) -> Result<Ref, Unmade<u16>>
    ensures { (v : Value) → P.Place.stands place v → Answers as_it_is store.old store.new (gives v) result }
{
    let mark = store.mark();
    match place.make(store) {
        Ok(value) => Ok(value),
        Err(Full) => {
            store.free_to(mark);
            Err(Unmade::Full)
        }
    }
}

/// The place that the path leads to; none where an optional member is absent.
fn walk<P: Place>(start: P, source: &[u8], path: Members) -> Result<Option<P>, Cause>
    ensures { (v : Value) → P.Place.stands start v → Tells P.Place.stands (path_outcome v (each (asked source.now) (members_of path.entry))) result }
{
    let mut here = start;
    for member in path {
        match part(here, source, member)? {
            Some(found) => here = found,
            None => return Ok(None),
        }
    }
    Ok(Some(here))
}

/// The part that one member asks for.
fn part<P: Place>(from: P, source: &[u8], member: Member) -> Result<Option<P>, Cause>
    ensures { (v : Value) → P.Place.stands from v → Tells P.Place.stands (outcome (part (λ x. x) v (asked source.now member))) result }
{
    match member.access {
        Access::Index(number, _) => from.by_index(number as usize, member.op),
        Access::Key(span) => from.by_key(text_under(source, span), member.op),
    }
}

/// What was found, a miss, or the cause for a direct member.
pub(crate) fn or_absent<T: Copy>(
    part: Option<T>,
    op: AccessOp,
    absent: Cause,
) -> Result<Option<T>, Cause>
    ensures { result ≡ absent_or part op absent }
{
    match (part, op) {
        (None, AccessOp::Direct) => Err(absent),
        _ => Ok(part),
    }
}
