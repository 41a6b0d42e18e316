//! Loops.

ghost use Rattle.decoder.specs.Decoding.{loop_vars_of};
ghost use Rattle.program.specs.Program.{LoopNext, LoopStart};
ghost use Rattle.render.specs.Keeping.{Keeps};
ghost use Rattle.render.specs.States.{Comes, Ends, GoesFor, Same, Sound, SoundAfter, Steps};

use super::RenderState;
use decoder::decoded::LoopVars;
use meaning::fault::Fault;
use meaning::tree::Span;
use scopes::state::{LoopState, Scope, State};
use sinks::sink::Sink;

impl<K: Sink> RenderState<'_, K> {
    /// Puts a loop over the newest value on the scopes, before its first turn. The span is where the value is reported.
    pub(crate) fn loop_start(&mut self, vars: LoopVars, span: Span) -> Result<(), Fault>
        requires sound { Sound self.old }
        requires goes { GoesFor K.Sink.sink K.Sink.state (LoopStart (loop_vars_of vars) span) self.old }
        ensures sound { SoundAfter result self.new }
        ensures same { Same self.old self.new }
        ensures keeps { Keeps self.old self.new }
        ensures came { Comes K.Sink.sink K.Sink.state (LoopStart (loop_vars_of vars) span) self.old self.new result }
    {
        let Some(iterable) = self.values.pop() else {
            unreachable()
        };
        let template = self.here.template;
        let started = LoopState::start(template, vars, iterable.value, span, &self.store)?;
        let scope = Scope {
            state: State::Loop(started),
            floor: self.store.mark(),
        };
        self.scopes.push(scope).unwrap();
        Ok(())
    }

    /// Puts the loop on top into its next turn. Where none is left, takes it off and goes on at another instruction.
    fn turn(&mut self, target: usize)
        requires sound { Sound self.old }
        requires goes { GoesFor K.Sink.sink K.Sink.state (LoopNext target) self.old }
        ensures sound { Sound self.new }
        ensures same { Same self.old self.new }
        ensures keeps { Keeps self.old self.new }
        ensures ends { Ends K.Sink.sink K.Sink.state (LoopNext target) self.old self.new }
    {
        let Some(
            Scope {
                state: State::Loop(turn),
                floor,
            },
        ) = self.scopes.pop()
        else {
            unreachable()
        };
        let Some(next) = turn.iterate(&self.store) else {
            self.here.pc = target;
            return;
        };
        let state = State::Loop(next);
        self.scopes.push(Scope { state, floor }).unwrap();
    }

    /// Goes into the next turn of the loop on top, or on behind it.
    pub(crate) fn loop_next(&mut self, target: usize)
        requires sound { Sound self.old }
        requires goes { GoesFor K.Sink.sink K.Sink.state (LoopNext target) self.old }
        ensures sound { Sound self.new }
        ensures same { Same self.old self.new }
        ensures keeps { Keeps self.old self.new }
        ensures came { Steps K.Sink.sink K.Sink.state (LoopNext target) self.old self.new }
    {
        self.turn(target);
        self.end_statement();
    }
}
