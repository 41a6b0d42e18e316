//! Loops: how they start and go on, and what their names stand for.

ghost use Rattle.std.proofs.Math.Option.{some};
ghost use Rattle.std.specs.Prelude.{◌≡◌, ◌<◌, Some};
ghost use Rattle.meaning.specs.Charge.{one_cell};
ghost use Rattle.meaning.specs.Fault.{Fault as TheFault};
ghost use Rattle.meaning.specs.Or.{Or, gives};
ghost use Rattle.meaning.specs.Parts.{nth};
ghost use Rattle.meaning.specs.Reading.{Templates as TheTemplates};
ghost use Rattle.meaning.specs.Scopes.{Had, in_current, no_further as further, one_entry, one_item};
ghost use Rattle.meaning.specs.Spans.{access_span, text_at};
ghost use Rattle.meaning.specs.Statements.{turns};
ghost use Rattle.meaning.specs.Value.{Text, Value, string};
ghost use Rattle.decoder.specs.Decoding.{loop_vars_of};
ghost use Rattle.reader.specs.Fields.{members_of};
ghost use Rattle.store.specs.Cells.{at_span};
ghost use Rattle.store.specs.Kinds.{kind_of, size_of};
ghost use Rattle.store.specs.Stores.{EntryKnown, KeyKnown, Known, entry_shown, text_of, used, value};
ghost use Rattle.store.specs.Values.{nth_entry};
ghost use Rattle.templates.specs.Held.{templates_of};
ghost use Rattle.scopes.specs.Entries.{entries_of, items_of, loop_in, source_at};
ghost use Rattle.scopes.specs.Iterating.{Iterates, Starts, StillFits};
ghost use Rattle.scopes.specs.Layers.{LoopFits, iterable_kind};
ghost use Rattle.scopes.specs.Looping.{IsIn, LooksIn};
ghost use Rattle.scopes.specs.Searching.{Answers, Searches};

use crate::loop_value::{Turn, lookup_loop, made_for, no_further};
use crate::state::LoopState;
use crate::var::Var;
use decoder::decoded::LoopVars;
use lookup::walking::lookup_path;
use meaning::fault::{Cause, Fault};
use meaning::tree::{Access, Span};
use reader::text::text_under;
use store::cell::{Entry, Ref, TextSpan};
use store::kinds::Kind;
use store::memory::Store;
use templates::table::Templates;

const LOOP: &[u8] = b"loop";

impl LoopState {
    /// The loop over a value before its first turn. The span is where the value is reported.
    pub fn start(
        template: usize,
        vars: LoopVars,
        iterable: Ref,
        span: Span,
        store: &Store,
    ) -> Result<LoopState, Fault>
        requires { Known store.now iterable }
        ensures { (all : TheTemplates) → Starts all store.now template (turns (source_at all template) (loop_vars_of vars) (value store.now iterable) span) result }
    {
        match (vars, store.kind(iterable)) {
            (LoopVars::Item(_), Kind::List) | (LoopVars::KeyValue(_, _, _), Kind::Map) => {
                Ok(LoopState {
                    template,
                    vars,
                    iterable,
                    next: 0,
                })
            }
            (LoopVars::Item(name), Kind::Map) => Err(Fault::at(Cause::WrongLoopNames, name, 0)),
            (LoopVars::KeyValue(_, _, both), Kind::List) => {
                Err(Fault::at(Cause::WrongLoopNames, both, 0))
            }
            _ => Err(Fault::at(Cause::NotIterable, span, 0)),
        }
    }

    /// The loop in its next turn; none where no turn is left.
    pub fn iterate(self, store: &Store) -> Option<LoopState>
        requires known { Known store.now self.iterable }
        requires is_kind { kind_of (value store.now self.iterable) ≡ iterable_kind self.vars }
        ensures means { (all : TheTemplates) → Iterates all store.now self result }
        ensures fits { (all : TheTemplates) → StillFits all store.now self result }
    {
        if self.next < store.size(self.iterable) {
            Some(LoopState {
                next: self.next + 1,
                ..self
            })
        } else {
            None
        }
    }

    /// The turn that it is in, if one has begun.
    fn turn(&self, store: &Store) -> Option<Turn>
        requires { Known store.now self.now.iterable }
        ensures { IsIn self.now.next (size_of (value store.now self.now.iterable)) result }
    {
        let position = self.next.checked_sub(1)?;
        let length = store.size(self.iterable);
        Some(Turn { position, length })
    }
}

/// A key is made a string, which has no parts.
fn key_string(key: TextSpan, var: &Var, store: &mut Store) -> Result<Option<Ref>, Fault>
    requires { KeyKnown store.old key }
    ensures { (outward : Or TheFault Had) → Answers store.old store.new var.now.span (further var.now.source.now (gives (string (at_span (text_of store.old) key), one_cell)) (members_of var.now.rest)) outward result }
{
    no_further(Kind::String, var.rest)?;
    made_for(store.share(key), var.span)
}

/// The item with that number: there is one.
fn item_at(list: Ref, position: u16, store: &Store) -> Ref
    requires known { Known store.now list }
    requires is_list { kind_of (value store.now list) ≡ Kind.List }
    requires there { position < size_of (value store.now list) }
    ensures known { Known store.now result }
    ensures is { nth (items_of (value store.now list)) position ≡ some (value store.now result) }
{
    let Some(item) = store.part(list, position as usize) else {
        unreachable()
    };
    item
}

/// The entry with that number: there is one.
fn entry_at(map: Ref, position: u16, store: &Store) -> Entry
    requires known { Known store.now map }
    requires is_map { kind_of (value store.now map) ≡ Kind.Map }
    requires there { position < size_of (value store.now map) }
    ensures known { EntryKnown store.now (Some result) }
    ensures is { nth_entry (entries_of (value store.now map)) position ≡ some (entry_shown store.now result) }
{
    let Some(entry) = store.entry(map, position as usize) else {
        unreachable()
    };
    entry
}

/// An item is walked under its name, and a miss goes outward.
fn in_item(
    list: Ref,
    position: u16,
    item_name: &[u8],
    var: &Var,
    store: &Store,
) -> Result<Option<Ref>, Fault>
    requires known { Known store.now list }
    requires is_list { kind_of (value store.now list) ≡ Kind.List }
    requires there { position < size_of (value store.now list) }
    ensures { (v : Value) → nth (items_of (value store.now list)) position ≡ some v → LooksIn store.now store.now var.now (one_item item_name.now v) result }
{
    if var.name() == item_name {
        let item = item_at(list, position, store);
        lookup_path(store, var.source, item, var.rest)
    } else {
        Ok(None)
    }
}

/// A key stands before a value of the same name.
fn in_entry(
    map: Ref,
    position: u16,
    key_name: &[u8],
    value_name: &[u8],
    var: &Var,
    store: &mut Store,
) -> Result<Option<Ref>, Fault>
    requires known { Known store.old map }
    requires is_map { kind_of (value store.old map) ≡ Kind.Map }
    requires there { position < size_of (value store.old map) }
    ensures { (k : Text) (v : Value) → nth_entry (entries_of (value store.old map)) position ≡ some (k, v) → LooksIn store.old store.new var.now (one_entry key_name.now value_name.now k v) result }
{
    let name = var.name();
    if name == key_name {
        let entry = entry_at(map, position, store);
        key_string(entry.key, var, store)
    } else if name == value_name {
        let entry = entry_at(map, position, store);
        lookup_path(store, var.source, entry.value, var.rest)
    } else {
        Ok(None)
    }
}

/// In a loop the name `loop` stands before the loop's own names, and an index goes outward.
pub(crate) fn in_loop(
    state: LoopState,
    templates: &Templates,
    var: &Var,
    store: &mut Store,
) -> Result<Option<Ref>, Fault>
    requires { LoopFits (templates_of templates.now) store.old (used store.old) state }
    ensures { Searches store.old store.new var.now (loop_in (templates_of templates.now) store.old state) result }
{
    let Some(turn) = state.turn(store) else {
        return Ok(None);
    };
    let Access::Key(_) = var.first.access else {
        return Ok(None);
    };
    if var.name() == LOOP {
        return lookup_loop(turn, var, store);
    }
    let source = templates.source(state.template);
    match state.vars {
        LoopVars::Item(item) => {
            let item_name = text_under(source, item);
            in_item(state.iterable, turn.position, item_name, var, store)
        }
        LoopVars::KeyValue(key, value, _) => {
            let key_name = text_under(source, key);
            let value_name = text_under(source, value);
            in_entry(
                state.iterable,
                turn.position,
                key_name,
                value_name,
                var,
                store,
            )
        }
    }
}
