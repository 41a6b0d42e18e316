//! Texts that are offered to a sink, and the fault where it stops.

ghost use Rattle.meaning.specs.FaultRecords.{given};
ghost use Rattle.emission.specs.Offers.{Offers};

use meaning::fault::{Cause, Fault};
use meaning::tree::Span;
use sinks::sink::Sink;

/// Offers the sink a text. That it stops is reported at the span, which a raw text does not have.
pub fn offer_text<K: Sink>(sink: &mut K, bytes: &[u8], span: Option<Span>) -> Result<(), Fault>
    ensures { Offers (K.Sink.state sink.old) (K.Sink.state sink.new) bytes.now (given (λ s. s) span) (K.Sink.sink.take (K.Sink.state sink.old) bytes.now) result }
{
    match sink.offer(bytes) {
        Ok(()) => Ok(()),
        Err(level) => Err(Fault {
            cause: Cause::SinkStopped,
            template: None,
            span,
            detail: level as usize,
        }),
    }
}
