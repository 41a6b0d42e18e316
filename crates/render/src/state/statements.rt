//! The instructions of statements that ask nobody outside.

ghost use Rattle.std.specs.Prelude.{◌<◌, length};
ghost use Rattle.machine.specs.Machine.{most_scopes};
ghost use Rattle.program.specs.Program.{Jump, WithEnd, WithStart};
ghost use Rattle.stack.specs.Entries.{entries};
ghost use Rattle.render.specs.Keeping.{Keeps};
ghost use Rattle.render.specs.States.{EndsWith, OneValue, Same, SomeValue, Sound, Steps, jump_if};

use super::RenderState;
use meaning::tree::Span;
use scopes::state::{Scope, State};
use sinks::sink::Sink;

impl<K: Sink> RenderState<'_, K> {
    /// Goes on at another instruction.
    #[tactic(auto, using(crate::proofs::Keeping::keeps_same))]
    pub(crate) fn jump(&mut self, target: usize)
        requires sound { Sound self.old }
        ensures sound { Sound self.new }
        ensures same { Same self.old self.new }
        ensures keeps { Keeps self.old self.new }
        ensures came { Steps K.Sink.sink K.Sink.state (Jump target) self.old self.new }
    {
        self.here.pc = target;
    }

    /// Goes on at another instruction when the truth of the newest value is that.
    pub(crate) fn branch(&mut self, when: bool, target: usize)
        requires sound { Sound self.old }
        requires scoped { 0 < length (entries self.old.scopes) }
        requires one { OneValue self.old }
        ensures sound { Sound self.new }
        ensures same { Same self.old self.new }
        ensures keeps { Keeps self.old self.new }
        ensures came { Steps K.Sink.sink K.Sink.state (jump_if when target) self.old self.new }
    {
        let Some(value) = self.values.pop() else {
            unreachable()
        };
        if self.store.truth(value.value) == when {
            self.here.pc = target;
        }
        self.end_statement();
    }

    /// Puts the newest value under a name.
    #[tactic(auto, using(scopes::proofs::Keeping::push_layered, crate::proofs::Keeping::keeps_push))]
    pub(crate) fn with_start(&mut self, name: Span)
        requires sound { Sound self.old }
        requires some { SomeValue self.old }
        requires room { length (entries self.old.scopes) < most_scopes }
        ensures sound { Sound self.new }
        ensures same { Same self.old self.new }
        ensures keeps { Keeps self.old self.new }
        ensures came { Steps K.Sink.sink K.Sink.state (WithStart name) self.old self.new }
    {
        let Some(value) = self.values.pop() else {
            unreachable()
        };
        let scope = Scope {
            state: State::Var(self.here.template, name, value.value),
            floor: self.store.mark(),
        };
        self.scopes.push(scope).unwrap();
    }

    /// Takes the name off again.
    #[tactic(auto, using(scopes::proofs::Keeping::pop_layered))]
    pub(crate) fn with_end(&mut self)
        requires sound { Sound self.old }
        requires ends { EndsWith self.old }
        ensures sound { Sound self.new }
        ensures same { Same self.old self.new }
        ensures keeps { Keeps self.old self.new }
        ensures came { Steps K.Sink.sink K.Sink.state WithEnd self.old self.new }
    {
        let Some(
            Scope {
                state: State::Var(..),
                ..
            },
        ) = self.scopes.pop()
        else {
            unreachable()
        };
        self.end_statement();
    }
}
