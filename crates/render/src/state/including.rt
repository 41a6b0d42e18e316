//! Includes: the template of a name is to be opened.

ghost use Rattle.std.specs.Prelude.{◌≡◌, ◌+◌, ◌<◌, false, length, true};
ghost use Rattle.std.proofs.Math.Option.{some};
ghost use Rattle.meaning.specs.Reading.{Template, find};
ghost use Rattle.machine.specs.Machine.{most_scopes};
ghost use Rattle.program.specs.Program.{Include, IncludeWith};
ghost use Rattle.reader.specs.Fields.{text_of};
ghost use Rattle.stack.specs.Entries.{entries};
ghost use Rattle.render.specs.Finding.{Finds};
ghost use Rattle.render.specs.Keeping.{Keeps};
ghost use Rattle.render.specs.States.{Includes, Same, SomeValue, Sound, held};

use super::RenderState;
use meaning::fault::{Cause, Fault};
use reader::field::PackedText;
use scopes::state::{Scope, State};
use sinks::sink::Sink;

impl<K: Sink> RenderState<'_, K> {
    /// The index of the template of that name.
    fn get_template(&self, name: PackedText) -> Result<usize, Fault>
        ensures { Finds (held self.now) (text_of name.entry) result }
    {
        let unknown = Fault::at(Cause::UnknownTemplate, name.span, 0);
        self.templates.find(name.text).ok_or(unknown)
    }

    /// The template is found, to be opened under what is visible here.
    #[tactic(auto, using(crate::proofs::Finds::found, crate::proofs::Finds::missing))]
    pub(crate) fn include(&self, name: PackedText) -> Result<usize, Fault>
        requires { Sound self.now }
        ensures { Includes K.Sink.sink K.Sink.state (Include (text_of name.entry)) false self.now self.now result }
    {
        self.get_template(name)
    }

    /// The template is found, to be opened over a boundary and the newest value.
    #[tactic(auto, using(crate::proofs::Finds::found, crate::proofs::Finds::missing, scopes::proofs::Keeping::push_layered, crate::proofs::Keeping::keeps_push, crate::proofs::Keeping::keeps_same, crate::proofs::Keeping::keeps_trans))]
    pub(crate) fn include_with(&mut self, name: PackedText) -> Result<usize, Fault>
        requires sound { Sound self.old }
        requires some { SomeValue self.old }
        requires room { (template : Template) → find (held self.old) name.text.now ≡ some template → length (entries self.old.scopes) + 1 < most_scopes }
        ensures sound { Sound self.new }
        ensures same { Same self.old self.new }
        ensures keeps { Keeps self.old self.new }
        ensures includes { Includes K.Sink.sink K.Sink.state (IncludeWith (text_of name.entry)) true self.old self.new result }
    {
        let Some(value) = self.values.pop() else {
            unreachable()
        };
        let template = self.get_template(name)?;
        let floor = self.store.mark();
        let boundary = Scope {
            state: State::Boundary,
            floor,
        };
        let own = Scope {
            state: State::Scope(value.value),
            floor,
        };
        self.scopes.push(boundary).unwrap();
        self.scopes.push(own).unwrap();
        Ok(template)
    }
}
