//! The variable `loop`: a map of three members, which is made when it is asked for.

ghost use Rattle.std.specs.Prelude.{◌≡◌, ◌==◌, pos, suc};
ghost use Rattle.meaning.specs.Charge.{◌⊕◌, Charge, cell_and_text, cost};
ghost use Rattle.meaning.specs.Fault.{Fault as TheFault};
ghost use Rattle.meaning.specs.FaultRecords.{given};
ghost use Rattle.meaning.specs.Or.{Or, gives};
ghost use Rattle.meaning.specs.Parts.{value_of};
ghost use Rattle.meaning.specs.Scopes.{Current, Had, loop_member, loop_value, loop_variable};
ghost use Rattle.meaning.specs.Value.{Value, boolean, integer};
ghost use Rattle.reader.specs.Fields.{members_of};
ghost use Rattle.store.specs.Kinds.{byte_of, kind_of};
ghost use Rattle.store.specs.Stores.{Known, Made, value};
ghost use Rattle.store.specs.Values.{inserted};
ghost use Rattle.store.specs.declared.memory.Store.{Store as Memory};
ghost use Rattle.scopes.specs.Entries.{entries_of};
ghost use Rattle.scopes.specs.Looping.{Builds, Gives, NoFurther, member_of, turn_of};
ghost use Rattle.scopes.specs.Searching.{Answers};

use crate::var::Var;
use meaning::fault::{Cause, Fault};
use meaning::tree::{Access, AccessOp, Member, Span};
use reader::field::Members;
use reader::text::text_under;
use store::cell::Ref;
use store::kinds::Kind;
use store::memory::{Full, Store};

const FIRST: &[u8] = b"first";

const INDEX: &[u8] = b"index";

const LAST: &[u8] = b"last";

/// A turn of a loop: its number, counted from 0, and the number of turns.
#[derive(Clone, Copy)]
pub(crate) struct Turn {
    pub position: u16,
    pub length: u16,
}

/// What a member of `loop` is; an optional one may be absent.
#[derive(Clone, Copy)]
pub(crate) enum LoopMember {
    Absent,
    Flag(bool),
    Index(u16),
}

impl LoopMember {
    fn kind(self) -> Kind
        ensures { result ≡ kind_of (member_of self) }
    {
        match self {
            LoopMember::Absent => Kind::None,
            LoopMember::Flag(_) => Kind::Boolean,
            LoopMember::Index(_) => Kind::Integer,
        }
    }

    fn make(self, store: &mut Store) -> Result<Ref, Full>
        ensures { Made store.old store.new (cost (member_of self)) (member_of self) result }
    {
        match self {
            LoopMember::Absent => Ok(Ref::None),
            LoopMember::Flag(flag) => store.make_boolean(flag),
            LoopMember::Index(index) => store.make_integer(index.into()),
        }
    }
}

/// The map with one more member.
fn insert_member(store: &mut Store, map: Ref, key: &[u8], member: LoopMember) -> Result<Ref, Full>
    requires map_known { Known store.old map }
    requires is_map { kind_of (value store.old map) ≡ Kind.Map }
    ensures { Builds store.old store.new (cost (member_of member) ⊕ cell_and_text key.now) (inserted (value store.old map) key.now (member_of member)) result }
{
    let part = member.make(store)?;
    store.insert(map, key, part)
}

impl Turn {
    fn first(self) -> LoopMember
        ensures { member_of result ≡ boolean (self.position == 0) }
    {
        LoopMember::Flag(self.position == 0)
    }

    fn index(self) -> LoopMember
        ensures { member_of result ≡ integer (pos self.position) }
    {
        LoopMember::Index(self.position)
    }

    fn last(self) -> LoopMember
        ensures { member_of result ≡ boolean (suc self.position == self.length) }
    {
        LoopMember::Flag(u32::from(self.position) + 1 == u32::from(self.length))
    }

    /// `loop` as a whole.
    fn make(self, store: &mut Store) -> Result<Ref, Full>
        ensures { (c : Current) → Builds store.old store.new (cost (loop_value (turn_of self c))) (loop_value (turn_of self c)) result }
    {
        let empty = store.empty_map()?;
        let with_first = insert_member(store, empty, FIRST, self.first())?;
        let with_index = insert_member(store, with_first, INDEX, self.index())?;
        insert_member(store, with_index, LAST, self.last())
    }

    /// The member of that name.
    fn named(self, name: &[u8]) -> Option<LoopMember>
        ensures { (c : Current) → given member_of result ≡ value_of (entries_of (loop_value (turn_of self c))) name.now }
    {
        if name == FIRST {
            Some(self.first())
        } else if name == INDEX {
            Some(self.index())
        } else if name == LAST {
            Some(self.last())
        } else {
            None
        }
    }

    fn member(self, source: &[u8], member: Member) -> Result<LoopMember, Fault>
        ensures { (c : Current) → Gives (loop_member source.now (loop_value (turn_of self c)) member member.access) result }
    {
        let Access::Key(name) = member.access else {
            return Err(Fault::at(Cause::NoParts, member.span, Kind::Map.byte() as usize));
        };
        match (self.named(text_under(source, name)), member.op) {
            (Some(found), _) => Ok(found),
            (None, AccessOp::Optional) => Ok(LoopMember::Absent),
            (None, AccessOp::Direct) => Err(Fault::at(Cause::NoSuchKey, member.span, 0)),
        }
    }
}

/// A value of that kind has no parts, for which there might be a further member.
pub(crate) fn no_further(kind: Kind, members: Members) -> Result<(), Fault>
    ensures { NoFurther (byte_of kind) (members_of members.entry) result }
{
    let mut further = members;
    match further.next() {
        Some(member) => Err(Fault::at(Cause::NoParts, member.span, kind.byte() as usize)),
        None => Ok(()),
    }
}

/// What was made for a variable; that the store is full is reported at its span.
pub(crate) fn made_for(made: Result<Ref, Full>, span: Span) -> Result<Option<Ref>, Fault>
    ensures { (before : Memory) (after : Memory) (more : Charge) (v : Value) (outward : Or TheFault Had) → Builds before after more v made → Answers before after span (gives (v, more)) outward result }
{
    match made {
        Ok(value) => Ok(Some(value)),
        Err(Full) => Err(Fault::at(Cause::StoreFull, span, 0)),
    }
}

/// What stands behind the name `loop`.
pub(crate) fn lookup_loop(turn: Turn, var: &Var, store: &mut Store) -> Result<Option<Ref>, Fault>
    ensures { (c : Current) (outward : Or TheFault Had) → Answers store.old store.new var.now.span (loop_variable var.now.source.now (loop_value (turn_of turn c)) (members_of var.now.rest)) outward result }
{
    let mut further = var.rest;
    let Some(member) = further.next() else {
        return made_for(turn.make(store), var.span);
    };
    let found = turn.member(var.source, member)?;
    no_further(found.kind(), further)?;
    made_for(found.make(store), var.span)
}
