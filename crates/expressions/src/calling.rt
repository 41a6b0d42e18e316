//! Calls of functions.

ghost use Rattle.std.specs.Prelude.{◌≡◌, ◌≤◌, [], drop, length, Some};
ghost use Rattle.meaning.specs.Expressions.{apply as applied, ask_function as asked, blamed};
ghost use Rattle.meaning.specs.FaultRecords.{given};
ghost use Rattle.stack.specs.Entries.{Kept, entries, room};
ghost use Rattle.store.specs.Stores.{supply, used};
ghost use Rattle.store.specs.declared.memory.Store.{Store as Memory};
ghost use Rattle.hosts.specs.Answers.{AllKnown, arguments_in, function_of, kind_of};
ghost use Rattle.scopes.specs.Told.{Tells};
ghost use Rattle.expressions.specs.Calling.{arguments, calling};
ghost use Rattle.expressions.specs.Pushing.{Enough, Pushes, RoomFor};

use hosts::answer::{Argument, CallableKind, Unmade};
use hosts::callables::Callables;
use meaning::fault::{Cause, Fault};
use meaning::tree::Span;
use reader::text::text_under;
use stack::Stack;
use store::cell::Ref;
use store::memory::Store;

/// A call or filter: the span of its name, how many of the newest values are its arguments, and its own span.
#[derive(Clone, Copy)]
pub struct Call {
    pub name: Span,
    pub arity: usize,
    pub whole: Span,
}

/// Where a refusal is reported: at the argument that is blamed, or else at the site of the call.
fn blamed_span(args: &[Argument], argument: Option<usize>, site: Span) -> Span
    ensures { (s : Memory) → result ≡ blamed (given (λ n. n) argument) (arguments_in s args.now) site }
{
    let Some(number) = argument else {
        return site;
    };
    match args.get(number) {
        Some(blamed) => blamed.span,
        None => site,
    }
}

/// The answer of a function to these arguments, which is made at `whole`. Its refusal is reported at `site`, unless it
/// blames an argument.
pub fn ask_function<C: Callables>(
    callables: &C,
    function: &[u8],
    args: &[Argument],
    store: &mut Store,
    site: Span,
    whole: Span,
) -> Result<Ref, Fault>
    requires known { AllKnown store.old args.now }
    ensures { Tells store.old store.new (asked (supply store.old) (function_of (C.Callables.named callables.now function.now)) site whole (arguments_in store.old args.now) (used store.old)) result }
{
    match callables.call(function, args, store) {
        Ok(value) => Ok(value),
        Err(Unmade::Full) => Err(Fault::at(Cause::StoreFull, whole, 0)),
        Err(Unmade::Refused(refusal)) => {
            let span = blamed_span(args, refusal.argument, site);
            Err(Fault::at(Cause::Refused, span, refusal.reason as usize))
        }
    }
}

/// The value of a call inside an expression.
fn answer<C: Callables>(
    callables: &C,
    source: &[u8],
    call: Call,
    args: &[Argument],
    store: &mut Store,
) -> Result<Ref, Fault>
    requires { AllKnown store.old args.now }
    ensures { Tells store.old store.new (applied (calling (supply store.old) (C.Callables.named callables.now)) source.now [] call.name call.whole (arguments_in store.old args.now) (used store.old)) result }
{
    let function = text_under(source, call.name);
    match callables.kind(function) {
        Some(CallableKind::Function) => {
            ask_function(callables, function, args, store, call.whole, call.whole)
        }
        Some(CallableKind::Formatter) => Err(Fault::at(Cause::FormatterInside, call.name, 0)),
        None => Err(Fault::at(Cause::UnknownFunction, call.name, 0)),
    }
}

/// Puts the answer of the function of that name to the newest values in their place.
pub fn apply<C: Callables>(
    values: &mut Stack<Argument>,
    store: &mut Store,
    callables: &C,
    source: &[u8],
    call: Call,
) -> Result<(), Fault>
    requires enough { Enough call.arity values.old }
    requires few { RoomFor (applied (calling (supply store.old) (C.Callables.named callables.now)) source.now [] call.name call.whole (arguments store.old call.arity (entries values.old)) (used store.old)) (drop call.arity (entries values.old)) }
    requires known { AllKnown store.old (entries values.old) }
    ensures kept { Kept values.old values.new }
    ensures pushes { Pushes store.old store.new (drop call.arity (entries values.old)) (entries values.new) call.whole (applied (calling (supply store.old) (C.Callables.named callables.now)) source.now [] call.name call.whole (arguments store.old call.arity (entries values.old)) (used store.old)) result }
{
    let Some(args) = values.newest(call.arity) else {
        unreachable()
    };
    let value = answer(callables, source, call, args, store)?;
    values.discard(call.arity);
    let span = call.whole;
    values.push(Argument { value, span }).unwrap();
    Ok(())
}
