//! The search for a variable through the stack of scopes.

ghost use Rattle.std.specs.Prelude.{◌≡◌};
ghost use Rattle.machine.specs.Machine.{a_scope, a_source, a_with, visible};
ghost use Rattle.meaning.specs.Fault.{Fault as TheFault, fault_at};
ghost use Rattle.meaning.specs.FaultRecords.{fault_of};
ghost use Rattle.meaning.specs.Or.{Or};
ghost use Rattle.meaning.specs.Scopes.{Had, walked};
ghost use Rattle.reader.specs.Fields.{members_of};
ghost use Rattle.store.specs.Stores.{Known, used, value as value_in};
ghost use Rattle.stack.specs.Entries.{entries};
ghost use Rattle.templates.specs.Held.{templates_of};
ghost use Rattle.scopes.specs.Entries.{entries_in, kind_in};
ghost use Rattle.scopes.specs.Layers.{Layered, StateFits};
ghost use Rattle.scopes.specs.Searching.{Answers, Has, Searches, looked_up};

use crate::iter::in_loop;
use crate::state::{Scope, State};
use crate::var::Var;
use hosts::answer::Unmade;
use hosts::source::ValueSource;
use lookup::walking::{lookup, lookup_path};
use meaning::fault::{Cause, Fault};
use reader::text::text_under;
use stack::Stack;
use store::cell::Ref;
use store::memory::Store;
use templates::table::Templates;

/// What the rest of the variable's path leads to: a miss gives none.
fn walk_rest(from: Ref, var: &Var, store: &Store) -> Result<Option<Ref>, Fault>
    requires { Known store.now from }
    ensures { (outward : Or TheFault Had) → Answers store.now store.now var.now.span (walked var.now.source.now (value_in store.now from) (members_of var.now.rest)) outward result }
{
    let found = lookup_path(store, var.source, from, var.rest)?;
    Ok(Some(found.unwrap_or(Ref::None)))
}

/// In a value whose parts are variables a fault at the first member goes outward, and a miss gives none.
#[tactic(auto, using(crate::proofs::Finds::has_stored), unfolding(meaning::specs::Scopes::look_up))]
fn in_scope(scope: Ref, var: &Var, store: &Store) -> Result<Option<Ref>, Fault>
    requires { Known store.now scope }
    ensures { Searches store.now store.now var.now (a_scope (value_in store.now scope)) result }
{
    match lookup(store, var.source, scope, var.first) {
        Ok(Some(part)) => walk_rest(part, var, store),
        Ok(None) => Ok(Some(Ref::None)),
        Err(_) => Ok(None),
    }
}

/// A name is compared with the text of the first access.
#[tactic(auto, unfolding(meaning::specs::Scopes::look_up))]
fn in_var(name: &[u8], value: Ref, var: &Var, store: &Store) -> Result<Option<Ref>, Fault>
    requires { Known store.now value }
    ensures { Searches store.now store.now var.now (a_with name.now (value_in store.now value)) result }
{
    if name == var.name() {
        walk_rest(value, var, store)
    } else {
        Ok(None)
    }
}

/// The value source answers the whole path.
fn ask_source<S: ValueSource>(
    value_source: &S,
    var: &Var,
    store: &mut Store,
) -> Result<Option<Ref>, Fault>
    ensures { Searches store.old store.new var.now (a_source (S.valued value_source.now)) result }
{
    match value_source.ask(var.source, var.path, store) {
        Ok(value) => Ok(Some(value)),
        Err(Unmade::Full) => Err(Fault::at(Cause::StoreFull, var.span, 0)),
        Err(Unmade::Refused(reason)) => {
            Err(Fault::at(Cause::Refused, var.span, reason as usize))
        }
    }
}

/// Nothing that is visible has the variable.
fn not_in_scope(var: &Var) -> Fault
    ensures { fault_of result ≡ fault_at Cause.NotInScope var.now.first.span 0 }
{
    Fault::at(Cause::NotInScope, var.first.span, 0)
}

/// What one entry answers: none sends the search outward.
#[tactic(auto, unfolding(meaning::specs::Scopes::look_up))]
fn in_state<S: ValueSource>(
    state: State,
    templates: &Templates,
    value_source: &S,
    var: &Var,
    store: &mut Store,
) -> Result<Option<Ref>, Fault>
    requires { StateFits (templates_of templates.now) store.old (used store.old) state }
    ensures { Searches store.old store.new var.now (kind_in (templates_of templates.now) store.old (S.valued value_source.now) state) result }
{
    match state {
        State::ValueFn => ask_source(value_source, var, store),
        State::Scope(scope) => in_scope(scope, var, store),
        State::Var(template, name, value) => {
            let name = text_under(templates.source(template), name);
            in_var(name, value, var, store)
        }
        State::Loop(state) => in_loop(state, templates, var, store),
        State::Boundary => Err(not_in_scope(var)),
    }
}

/// The value of a variable, from the innermost entry that has it. What it costs where it is made is charged.
pub fn lookup_var<S: ValueSource>(
    scopes: &Stack<Scope>,
    templates: &Templates,
    value_source: &S,
    var: &Var,
    store: &mut Store,
) -> Result<Ref, Fault>
    requires { Layered (templates_of templates.now) store.old (used store.old) (entries scopes.now) }
    ensures { Has store.old store.new var.now.span (looked_up var.now (visible (entries_in (templates_of templates.now) store.old (S.valued value_source.now) (entries scopes.now)))) result }
{
    for depth in 0..scopes.len() {
        let Some(scope) = scopes.get(depth) else {
            unreachable()
        };
        if let Some(value) = in_state(scope.state, templates, value_source, var, store)? {
            return Ok(value);
        }
    }
    Err(not_in_scope(var))
}
