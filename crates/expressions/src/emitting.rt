//! The texts that inline expressions offer. A formatter writes them to the front of a lent buffer, which holds the
//! longest.

ghost use Rattle.std.specs.Prelude.{◌≡◌, ℕ, ◌<◌, ◌≤◌, List, [], drop, length, Some};
ghost use Rattle.meaning.specs.Expressions.{emit_call as emitted, short_enough, write};
ghost use Rattle.meaning.specs.Hosts.{Reason};
ghost use Rattle.meaning.specs.Or.{Or};
ghost use Rattle.meaning.specs.Reading.{Setting};
ghost use Rattle.meaning.specs.Scopes.{Visible};
ghost use Rattle.meaning.specs.Step.{from};
ghost use Rattle.meaning.specs.Value.{Text};
ghost use Rattle.stack.specs.Entries.{Kept, entries};
ghost use Rattle.store.specs.Stores.{Known, supply, used, value as value_in};
ghost use Rattle.store.specs.declared.memory.Store.{Store as Memory};
ghost use Rattle.hosts.specs.Answers.{AllKnown, Within, arguments_in, fitted, formatter_of, kind_of, written};
ghost use Rattle.expressions.specs.Calling.{arguments, asking};
ghost use Rattle.expressions.specs.Emitting.{Writes, WritesNewest};

use crate::calling::{Call, ask_function};
use hosts::answer::{Argument, CallableKind, Unwritten};
use hosts::callables::Callables;
use hosts::formatter::Formatter;
use meaning::fault::{Cause, Fault};
use meaning::tree::Span;
use reader::text::text_under;
use stack::Stack;
use store::cell::Ref;
use store::memory::Store;

/// The most bytes of a text.
pub const MOST_TEXT: usize = 4_096;

/// A text at the front of the buffer.
#[derive(Clone, Copy)]
pub struct Written {
    pub len: usize,
    /// Where it is reported that the sink stops.
    pub span: Span,
}

/// A formatter's answer, reported at the span.
fn reported(text: Result<usize, Unwritten>, span: Span) -> Result<Written, Fault>
    ensures { (setting : Setting) (source : List ℕ) (visible : List Visible) (s : Memory) (buffer : List ℕ) (answer : Or Reason Text) → written text buffer ≡ fitted MOST_TEXT answer → Within text buffer → Writes s s buffer (from (short_enough setting source visible span answer) (used s)) result }
{
    match text {
        Ok(len) => Ok(Written { len, span }),
        Err(Unwritten::Refused(reason)) => Err(Fault::at(Cause::Refused, span, reason as usize)),
        Err(Unwritten::TooLong) => Err(Fault::at(Cause::TextTooLong, span, 0)),
    }
}

/// Writes a value's text by a formatter, which is the default one.
fn write_text<F: Formatter>(
    formatter: &F,
    store: &Store,
    value: Ref,
    span: Span,
    buffer: &mut [u8],
) -> Result<Written, Fault>
    requires known { Known store.now value }
    requires long { length buffer.old ≡ MOST_TEXT }
    ensures { (setting : Setting) (source : List ℕ) (visible : List Visible) → Writes store.now store.now buffer.new (write setting source visible (F.Formatter.formatted formatter.now) span (value_in store.now value) (used store.now)) result }
{
    reported(formatter.format(store, value, buffer), span)
}

/// Writes a value's text by the formatter of that name, which stands at the span.
fn write_named<C: Callables>(
    callables: &C,
    formatter: &[u8],
    store: &Store,
    value: Ref,
    span: Span,
    buffer: &mut [u8],
) -> Result<Written, Fault>
    requires known { Known store.now value }
    requires long { length buffer.old ≡ MOST_TEXT }
    ensures { (setting : Setting) (source : List ℕ) (visible : List Visible) → Writes store.now store.now buffer.new (write setting source visible (formatter_of (C.Callables.named callables.now formatter.now)) span (value_in store.now value) (used store.now)) result }
{
    reported(callables.format(formatter, store, value, buffer), span)
}

/// Takes the newest value off and writes its text by the default formatter.
pub fn emit_value<F: Formatter>(
    values: &mut Stack<Argument>,
    store: &Store,
    formatter: &F,
    buffer: &mut [u8],
) -> Result<Written, Fault>
    requires there { 0 < length (entries values.old) }
    requires known { AllKnown store.now (entries values.old) }
    requires long { length buffer.old ≡ MOST_TEXT }
    ensures kept { Kept values.old values.new }
    ensures left { entries values.new ≡ drop 1 (entries values.old) }
    ensures writes { WritesNewest store.now buffer.new (F.Formatter.formatted formatter.now) (entries values.old) result }
{
    let Some(newest) = values.pop() else {
        unreachable()
    };
    write_text(formatter, store, newest.value, newest.span, buffer)
}

/// Writes the text of an emitted call by the formatter of that name; or by the default one, after the function of that
/// name.
fn write_call<C: Callables, F: Formatter>(
    callables: &C,
    formatter: &F,
    source: &[u8],
    call: Call,
    args: &[Argument],
    store: &mut Store,
    buffer: &mut [u8],
) -> Result<Written, Fault>
    requires known { AllKnown store.old args.now }
    requires long { length buffer.old ≡ MOST_TEXT }
    ensures { Writes store.old store.new buffer.new (emitted (asking (supply store.old) (C.Callables.named callables.now) (F.Formatter.formatted formatter.now)) source.now [] call.name call.whole (arguments_in store.old args.now) (used store.old)) result }
{
    let callable = text_under(source, call.name);
    match callables.kind(callable) {
        Some(CallableKind::Function) => {
            let value = ask_function(callables, callable, args, store, call.name, call.whole)?;
            write_text(formatter, store, value, call.whole, buffer)
        }
        Some(CallableKind::Formatter) => {
            let [arg] = args else {
                return Err(Fault::at(Cause::FormatterCount, call.name, 0));
            };
            write_named(callables, callable, store, arg.value, call.name, buffer)
        }
        None => Err(Fault::at(Cause::UnknownEmitted, call.name, 0)),
    }
}

/// Takes the newest values off, and writes the text of the emitted call of that name with these arguments.
pub fn emit_call<C: Callables, F: Formatter>(
    values: &mut Stack<Argument>,
    store: &mut Store,
    callables: &C,
    formatter: &F,
    source: &[u8],
    call: Call,
    buffer: &mut [u8],
) -> Result<Written, Fault>
    requires there { call.arity ≤ length (entries values.old) }
    requires known { AllKnown store.old (entries values.old) }
    requires long { length buffer.old ≡ MOST_TEXT }
    ensures kept { Kept values.old values.new }
    ensures left { entries values.new ≡ drop call.arity (entries values.old) }
    ensures writes { Writes store.old store.new buffer.new (emitted (asking (supply store.old) (C.Callables.named callables.now) (F.Formatter.formatted formatter.now)) source.now [] call.name call.whole (arguments store.old call.arity (entries values.old)) (used store.old)) result }
{
    let Some(args) = values.newest(call.arity) else {
        unreachable()
    };
    let written = write_call(callables, formatter, source, call, args, store, buffer);
    values.discard(call.arity);
    written
}
