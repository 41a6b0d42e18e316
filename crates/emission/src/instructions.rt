//! The instructions that offer a text to the sink. They free nothing: the tally stands where the text left it.

ghost use Rattle.std.specs.Prelude.{◌≡◌, ◌<◌, ◌≤◌, [], drop, length, take};
ghost use Rattle.std.proofs.Math.Option.{none, some};
ghost use Rattle.meaning.specs.Expressions.{emit_call as emitted};
ghost use Rattle.meaning.specs.Spans.{text_at};
ghost use Rattle.stack.specs.Entries.{Kept, entries};
ghost use Rattle.store.specs.Stores.{supply, used};
ghost use Rattle.hosts.specs.Answers.{AllKnown};
ghost use Rattle.expressions.specs.Calling.{arguments, asking};
ghost use Rattle.emission.specs.Offers.{Offers};
ghost use Rattle.emission.specs.Emits.{Emits, EmitsNewest};

use crate::offering::offer_text;
use expressions::calling::Call;
use expressions::emitting::{MOST_TEXT, Written, emit_call, emit_value};
use hosts::answer::Argument;
use hosts::callables::Callables;
use hosts::formatter::Formatter;
use meaning::fault::Fault;
use meaning::tree::Span;
use reader::text::text_under;
use sinks::sink::Sink;
use stack::Stack;
use store::memory::Store;

/// Offers what stands in the source under the span.
pub fn emit_raw<K: Sink>(source: &[u8], span: Span, sink: &mut K) -> Result<(), Fault>
    ensures { Offers (K.Sink.state sink.old) (K.Sink.state sink.new) (text_at source.now span) none (K.Sink.sink.take (K.Sink.state sink.old) (text_at source.now span)) result }
{
    offer_text(sink, text_under(source, span), None)
}

/// Offers the text at the front of the buffer.
fn offer_written<K: Sink>(written: Written, buffer: &[u8], sink: &mut K) -> Result<(), Fault>
    requires { written.len ≤ length buffer.now }
    ensures { Offers (K.Sink.state sink.old) (K.Sink.state sink.new) (take written.len buffer.now) (some written.span) (K.Sink.sink.take (K.Sink.state sink.old) (take written.len buffer.now)) result }
{
    offer_text(sink, &buffer[..written.len], Some(written.span))
}

/// Takes the newest value off and offers its text by the default formatter.
pub fn emit<F: Formatter, K: Sink>(
    values: &mut Stack<Argument>,
    store: &Store,
    formatter: &F,
    buffer: &mut [u8],
    sink: &mut K,
) -> Result<(), Fault>
    requires there { 0 < length (entries values.old) }
    requires known { AllKnown store.now (entries values.old) }
    requires long { length buffer.old ≡ MOST_TEXT }
    ensures kept { Kept values.old values.new }
    ensures left { entries values.new ≡ drop 1 (entries values.old) }
    ensures emits { EmitsNewest store.now K.Sink.sink (K.Sink.state sink.old) (K.Sink.state sink.new) (F.Formatter.formatted formatter.now) (entries values.old) result }
{
    let written = emit_value(values, store, formatter, buffer)?;
    offer_written(written, buffer, sink)
}

/// Takes the arguments of an emitted call off and offers its text: by the formatter of that name, or by the default one
/// after the function of that name.
pub fn emit_with<C: Callables, F: Formatter, K: Sink>(
    values: &mut Stack<Argument>,
    store: &mut Store,
    callables: &C,
    formatter: &F,
    source: &[u8],
    call: Call,
    buffer: &mut [u8],
    sink: &mut K,
) -> Result<(), Fault>
    requires there { call.arity ≤ length (entries values.old) }
    requires known { AllKnown store.old (entries values.old) }
    requires long { length buffer.old ≡ MOST_TEXT }
    ensures kept { Kept values.old values.new }
    ensures left { entries values.new ≡ drop call.arity (entries values.old) }
    ensures emits { Emits store.old store.new K.Sink.sink (K.Sink.state sink.old) (K.Sink.state sink.new) (emitted (asking (supply store.old) (C.Callables.named callables.now) (F.Formatter.formatted formatter.now)) source.now [] call.name call.whole (arguments store.old call.arity (entries values.old)) (used store.old)) result }
{
    let written = emit_call(values, store, callables, formatter, source, call, buffer)?;
    offer_written(written, buffer, sink)
}
