//! The instructions that offer a text to the sink; with them a statement ends.

ghost use Rattle.program.specs.Program.{Emit, EmitRaw, EmitWith};
ghost use Rattle.render.specs.Keeping.{Keeps};
ghost use Rattle.render.specs.Renderers.{given_by};
ghost use Rattle.render.specs.States.{ComesAt, Goes, Same, Sound, SoundAfter};

use super::RendererImpl;
use crate::state::RenderState;
use emission::instructions::{emit, emit_raw, emit_with};
use expressions::calling::Call;
use hosts::callables::Callables;
use hosts::formatter::Formatter;
use hosts::source::ValueSource;
use meaning::fault::Fault;
use meaning::tree::Span;
use sinks::sink::Sink;

impl<S: ValueSource, C: Callables, F: Formatter> RendererImpl<'_, S, C, F> {
    /// Offers what stands in the source under the span.
    pub(crate) fn emit_raw<K: Sink>(
        &self,
        state: &mut RenderState<K>,
        span: Span,
    ) -> Result<(), Fault>
        requires sound { Sound state.old }
        requires goes { Goes K.Sink.sink K.Sink.state (given_by S.valued C.named F.formatted self.now) (EmitRaw span) state.old }
        ensures sound { SoundAfter result state.new }
        ensures same { Same state.old state.new }
        ensures keeps { Keeps state.old state.new }
        ensures came { ComesAt K.Sink.sink K.Sink.state (given_by S.valued C.named F.formatted self.now) (EmitRaw span) state.old state.new result }
    {
        let source = state.templates.source(state.here.template);
        emit_raw(source, span, state.sink)?;
        state.end_statement();
        Ok(())
    }
    /// Offers the text of the newest value.
    pub(crate) fn emit<K: Sink>(&self, state: &mut RenderState<K>) -> Result<(), Fault>
        requires sound { Sound state.old }
        requires goes { Goes K.Sink.sink K.Sink.state (given_by S.valued C.named F.formatted self.now) Emit state.old }
        ensures sound { SoundAfter result state.new }
        ensures same { Same state.old state.new }
        ensures keeps { Keeps state.old state.new }
        ensures came { ComesAt K.Sink.sink K.Sink.state (given_by S.valued C.named F.formatted self.now) Emit state.old state.new result }
    {
        emit(
            &mut state.values,
            &state.store,
            self.default_formatter,
            state.buffer,
            state.sink,
        )?;
        state.end_statement();
        Ok(())
    }

    /// Offers the text of a call, whose arguments are the newest values.
    pub(crate) fn emit_with<K: Sink>(
        &self,
        state: &mut RenderState<K>,
        call: Call,
    ) -> Result<(), Fault>
        requires sound { Sound state.old }
        requires goes { Goes K.Sink.sink K.Sink.state (given_by S.valued C.named F.formatted self.now) (EmitWith call.name call.arity call.whole) state.old }
        ensures sound { SoundAfter result state.new }
        ensures same { Same state.old state.new }
        ensures keeps { Keeps state.old state.new }
        ensures came { ComesAt K.Sink.sink K.Sink.state (given_by S.valued C.named F.formatted self.now) (EmitWith call.name call.arity call.whole) state.old state.new result }
    {
        let source = state.templates.source(state.here.template);
        emit_with(
            &mut state.values,
            &mut state.store,
            self.callables,
            self.default_formatter,
            source,
            call,
            state.buffer,
            state.sink,
        )?;
        state.end_statement();
        Ok(())
    }
}
