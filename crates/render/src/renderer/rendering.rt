//! A whole rendering.

ghost use Rattle.std.specs.Prelude.{◌≡◌};
ghost use Rattle.std.proofs.Math.Option.{some};
ghost use Rattle.meaning.specs.Reading.{find};
ghost use Rattle.machine.specs.Promise.{Stacks, read_out};
ghost use Rattle.templates.specs.Held.{name_at, template_at};
ghost use Rattle.render.specs.Keeping.{Keeps};
ghost use Rattle.render.specs.Renderers.{given_by};
ghost use Rattle.render.specs.Rendering.{Fresh, Rendered, rendering_at};
ghost use Rattle.render.specs.States.{Same, Sound, held};

use super::RendererImpl;
use crate::state::RenderState;
use hosts::callables::Callables;
use hosts::formatter::Formatter;
use hosts::source::ValueSource;
use meaning::fault::Fault;
use sinks::sink::Sink;

impl<S: ValueSource, C: Callables, F: Formatter> RendererImpl<'_, S, C, F> {
    /// Renders the template that stands open at its beginning, over the lowest scope. The answer and what the sink got are
    /// those of the direct reading.
    pub fn render<K: Sink>(&self, state: &mut RenderState<K>) -> Result<(), Fault>
        requires sound { Sound state.old }
        requires stacks { Stacks (rendering_at K.Sink.sink (given_by S.valued C.named F.formatted self.now) state.old) }
        requires found { find (held state.old) (name_at (held state.old) state.old.here.template) ≡ some (template_at (held state.old) state.old.here.template) }
        requires fresh { Fresh K.Sink.sink K.Sink.state (given_by S.valued C.named F.formatted self.now) state.old }
        ensures same { Same state.old state.new }
        ensures keeps { Keeps state.old state.new }
        ensures rendered { Rendered K.Sink.sink K.Sink.state (given_by S.valued C.named F.formatted self.now) (rendering_at K.Sink.sink (given_by S.valued C.named F.formatted self.now) state.old) (read_out (rendering_at K.Sink.sink (given_by S.valued C.named F.formatted self.now) state.old) (name_at (held state.old) state.old.here.template) (template_at (held state.old) state.old.here.template) (K.Sink.state state.old.sink.now)) state.new result }
    {
        while self.step(state)? {}
        Ok(())
    }
}
