//! Literals, lists and maps. The store stands beside the stack of values: scopes and hosts use it between two of
//! these calls. That there is room for a value that is pushed (`spare`) and that the store knows the stack's values (`known`)
//! are asked of each state, since both change under them. What must be on the stack is taken by `let .. else`.

ghost use Rattle.std.specs.Prelude.{◌≡◌, ◌∷◌};
ghost use Rattle.meaning.specs.Charge.{cell_and_text, charge, cost, one_cell};
ghost use Rattle.meaning.specs.Value.{list, map, no_entries, no_items};
ghost use Rattle.stack.specs.Entries.{Kept, entries};
ghost use Rattle.reader.specs.Meanings.{plain_of};
ghost use Rattle.store.specs.Stores.{supply, used};
ghost use Rattle.store.specs.Values.{inserted, pushed};
ghost use Rattle.hosts.specs.Answers.{AllKnown};
ghost use Rattle.expressions.specs.Pushing.{Joins, PlaceFor, Pushes, Spare, Tops, Two};

use hosts::answer::Argument;
use meaning::fault::{Cause, Fault};
use meaning::tree::Span;
use reader::literal::PlainValue;
use stack::Stack;
use store::cell::Ref;
use store::kinds::Kind;
use store::memory::{Full, Store};

/// Pushes a value that was made, for which there is a place on the stack. That the store is full is reported at the span.
pub fn push_value(
    values: &mut Stack<Argument>,
    made: Result<Ref, Full>,
    span: Span,
) -> Result<(), Fault>
    requires { PlaceFor made values.old }
    ensures kept { Kept values.old values.new }
    ensures tops { Tops (entries values.old) (entries values.new) span made result }
{
    let value = made.ok().ok_or(Fault::at(Cause::StoreFull, span, 0))?;
    values.push(Argument { value, span }).unwrap();
    Ok(())
}

#[tactic(auto, using(crate::proofs::Places::made_place))]
pub fn start_list(values: &mut Stack<Argument>, store: &mut Store, span: Span) -> Result<(), Fault>
    requires spare { Spare (charge (supply store.old) span one_cell (list no_items) (used store.old)) values.old }
    requires known { AllKnown store.old (entries values.old) }
    ensures kept { Kept values.old values.new }
    ensures pushes { Pushes store.old store.new (entries values.old) (entries values.new) span (charge (supply store.old) span one_cell (list no_items) (used store.old)) result }
{
    let made = store.empty_list();
    push_value(values, made, span)
}

// what is made tells it from `start_list`, and stands in the call
#[tactic(auto, using(crate::proofs::Places::made_place))]
pub fn start_map(values: &mut Stack<Argument>, store: &mut Store, span: Span) -> Result<(), Fault>
    requires spare { Spare (charge (supply store.old) span one_cell (map no_entries) (used store.old)) values.old }
    requires known { AllKnown store.old (entries values.old) }
    ensures kept { Kept values.old values.new }
    ensures pushes { Pushes store.old store.new (entries values.old) (entries values.new) span (charge (supply store.old) span one_cell (map no_entries) (used store.old)) result }
{
    let made = store.empty_map();
    push_value(values, made, span)
}

#[tactic(auto, using(crate::proofs::Places::made_place))]
pub fn start_literal(
    values: &mut Stack<Argument>,
    store: &mut Store,
    span: Span,
    value: PlainValue,
) -> Result<(), Fault>
    requires spare { Spare (charge (supply store.old) span (cost (plain_of value)) (plain_of value) (used store.old)) values.old }
    requires known { AllKnown store.old (entries values.old) }
    ensures kept { Kept values.old values.new }
    ensures pushes { Pushes store.old store.new (entries values.old) (entries values.new) span (charge (supply store.old) span (cost (plain_of value.entry)) (plain_of value.entry) (used store.old)) result }
{
    let made = store.make_plain(value);
    push_value(values, made, span)
}

#[tactic(auto, using(crate::proofs::Places::place_any, crate::proofs::Places::popped_place))]
/// Takes the newest value off, and puts the list under it with that value at its end in its place.
pub fn list_push(values: &mut Stack<Argument>, store: &mut Store) -> Result<(), Fault>
    requires two { Two store.old values.old Kind.List }
    requires known { AllKnown store.old (entries values.old) }
    ensures kept { Kept values.old values.new }
    ensures joins { Joins store.old store.new (entries values.old) (entries values.new) pushed one_cell result }
{
    let Some(part) = values.pop() else {
        unreachable()
    };
    let Some(list) = values.pop() else {
        unreachable()
    };
    let made = store.push(list.value, part.value);
    push_value(values, made, list.span)
}

#[tactic(auto, using(crate::proofs::Places::place_any, crate::proofs::Places::popped_place))]
/// Takes the newest value off, and puts the map under it with that value under the key in its place.
pub fn map_insert(values: &mut Stack<Argument>, store: &mut Store, key: &[u8]) -> Result<(), Fault>
    requires two { Two store.old values.old Kind.Map }
    requires known { AllKnown store.old (entries values.old) }
    ensures kept { Kept values.old values.new }
    ensures joins { Joins store.old store.new (entries values.old) (entries values.new) (λ m v. inserted m key.now v) (cell_and_text key.now) result }
{
    let Some(part) = values.pop() else {
        unreachable()
    };
    let Some(map) = values.pop() else {
        unreachable()
    };
    let made = store.insert(map.value, key, part.value);
    push_value(values, made, map.span)
}
