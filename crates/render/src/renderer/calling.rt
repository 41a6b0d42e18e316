//! The instructions of expressions that ask a host for a value, which they push.

ghost use Rattle.std.specs.Prelude.{◌≡◌, ◌≤◌, length};
ghost use Rattle.std.proofs.Math.Option.{some};
ghost use Rattle.decoder.specs.Decoding.{variable_of};
ghost use Rattle.program.specs.Program.{Apply, Instr};
ghost use Rattle.reader.specs.Fields.{members_of};
ghost use Rattle.render.specs.Keeping.{Keeps};
ghost use Rattle.render.specs.Renderers.{given_by};
ghost use Rattle.render.specs.States.{ComesAt, Goes, Same, Sound, SoundAfter};

use super::RendererImpl;
use crate::state::RenderState;
use expressions::calling::{Call, apply};
use hosts::answer::Argument;
use hosts::callables::Callables;
use hosts::formatter::Formatter;
use hosts::source::ValueSource;
use meaning::fault::Fault;
use reader::field::Members;
use scopes::searching::lookup_var;
use scopes::var::Var;
use sinks::sink::Sink;

impl<S: ValueSource, C: Callables, F: Formatter> RendererImpl<'_, S, C, F> {
    /// Puts the answer of a function in the place of its arguments.
    pub(crate) fn apply<K: Sink>(&self, state: &mut RenderState<K>, call: Call) -> Result<(), Fault>
        requires sound { Sound state.old }
        requires goes { Goes K.Sink.sink K.Sink.state (given_by S.valued C.named F.formatted self.now) (Apply call.name call.arity call.whole) state.old }
        ensures sound { SoundAfter result state.new }
        ensures same { Same state.old state.new }
        ensures keeps { Keeps state.old state.new }
        ensures came { ComesAt K.Sink.sink K.Sink.state (given_by S.valued C.named F.formatted self.now) (Apply call.name call.arity call.whole) state.old state.new result }
    {
        let source = state.templates.source(state.here.template);
        apply(
            &mut state.values,
            &mut state.store,
            self.callables,
            source,
            call,
        )
    }

    /// Pushes the value of a variable.
    pub(crate) fn variable<K: Sink>(
        &self,
        state: &mut RenderState<K>,
        path: Members,
    ) -> Result<(), Fault>
        requires sound { Sound state.old }
        requires some { 1 ≤ length (members_of path) }
        requires goes { (i : Instr) → variable_of (members_of path) ≡ some i → Goes K.Sink.sink K.Sink.state (given_by S.valued C.named F.formatted self.now) i state.old }
        ensures sound { SoundAfter result state.new }
        ensures same { Same state.old state.new }
        ensures keeps { Keeps state.old state.new }
        ensures came { (i : Instr) → variable_of (members_of path.entry) ≡ some i → ComesAt K.Sink.sink K.Sink.state (given_by S.valued C.named F.formatted self.now) i state.old state.new result }
    {
        let source = state.templates.source(state.here.template);
        let var = Var::new(source, path);
        let value = lookup_var(
            &state.scopes,
            state.templates,
            self.source,
            &var,
            &mut state.store,
        )?;
        let span = var.span;
        state.values.push(Argument { value, span }).unwrap();
        Ok(())
    }
}
