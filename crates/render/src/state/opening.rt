//! Templates that are opened and closed.

ghost use Rattle.std.specs.Prelude.{◌≡◌, ◌+◌, ◌<◌, drop, length, true};
ghost use Rattle.machine.specs.Machine.{most_open};
ghost use Rattle.stack.specs.Entries.{entries};
ghost use Rattle.templates.specs.Held.{templates_of};
ghost use Rattle.render.specs.Keeping.{Keeps};
ghost use Rattle.render.specs.States.{Beside, Closes, EndsTemplate, Opens, Owned, Same, Sound, held};

use super::{Open, RenderState};
use meaning::fault::{Cause, Fault};
use scopes::state::{Scope, State};
use sinks::sink::Sink;

impl<K: Sink> RenderState<'_, K> {
    #[tactic(auto, using(crate::proofs::Keeping::keeps_same))]
    /// Opens a template, and only then sees whether too many are open.
    pub(crate) fn enter(&mut self, template: usize, scoped: bool, max: usize) -> Result<(), Fault>
        requires sound { Sound self.old }
        requires is_held { template < length (held self.old) }
        requires room { length (entries self.old.below) + 1 < most_open }
        ensures sound { Sound self.new }
        ensures same { Same self.old self.new }
        ensures keeps { Keeps self.old self.new }
        ensures opens { Opens K.Sink.sink K.Sink.state max template scoped self.old self.new result }
    {
        self.below.push(self.here).unwrap();
        self.here = Open {
            template,
            pc: 0,
            scoped,
        };
        if self.below.len() + 1 > max {
            return Err(Fault::of_call(Cause::TooManyOpen, 0));
        }
        Ok(())
    }

    /// Takes off the scope that was pushed for the template here, and the boundary under it.
    #[tactic(auto, using(scopes::proofs::Keeping::pop_layered, crate::proofs::Keeping::keeps_pop, crate::proofs::Keeping::keeps_trans))]
    fn pop_own_scope(&mut self)
        requires sound { Sound self.old }
        requires own { Owned true (entries self.old.scopes) }
        ensures sound { Sound self.new }
        ensures same { Same self.old self.new }
        ensures keeps { Keeps self.old self.new }
        ensures popped { entries self.new.scopes ≡ drop 2 (entries self.old.scopes) }
        ensures rest { Beside self.old self.new }
    {
        let Some(
            Scope {
                state: State::Scope(_),
                ..
            },
        ) = self.scopes.pop()
        else {
            unreachable()
        };
        let Some(
            Scope {
                state: State::Boundary,
                ..
            },
        ) = self.scopes.pop()
        else {
            unreachable()
        };
    }

    /// Closes the template here at its end, and answers whether one below it goes on.

    pub(crate) fn close(&mut self) -> bool
        requires sound { Sound self.old }
        requires ends { EndsTemplate self.old }
        ensures sound { Sound self.new }
        ensures same { Same self.old self.new }
        ensures keeps { Keeps self.old self.new }
        ensures closes { Closes K.Sink.sink K.Sink.state result self.old self.new }
    {
        if self.here.scoped {
            self.pop_own_scope();
        }
        let Some(below) = self.below.pop() else {
            return false;
        };
        self.here = below;
        self.end_statement();
        true
    }
}
