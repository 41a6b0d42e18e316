//! One step of a rendering.

ghost use Rattle.render.specs.Keeping.{Keeps};
ghost use Rattle.render.specs.Renderers.{given_by};
ghost use Rattle.render.specs.States.{Same, Sound};
ghost use Rattle.render.specs.Stepping.{SoundStep, StepGoes, StepsTo};

use super::RendererImpl;
use super::executing::Turn;
use crate::fetching::fetch;
use crate::state::RenderState;
use hosts::callables::Callables;
use hosts::formatter::Formatter;
use hosts::source::ValueSource;
use meaning::fault::Fault;
use sinks::sink::Sink;

impl<S: ValueSource, C: Callables, F: Formatter> RendererImpl<'_, S, C, F> {
    /// One instruction, or the end of a template; and whether the rendering goes on.
    pub(crate) fn step<K: Sink>(&self, state: &mut RenderState<K>) -> Result<bool, Fault>
        requires sound { Sound state.old }
        requires goes { StepGoes K.Sink.sink K.Sink.state (given_by S.valued C.named F.formatted self.now) state.old }
        ensures sound { SoundStep result state.new }
        ensures same { Same state.old state.new }
        ensures keeps { Keeps state.old state.new }
        ensures came { StepsTo K.Sink.sink K.Sink.state (given_by S.valued C.named F.formatted self.now) state.old state.new result }
    {
        let here = state.here;
        let Some(instr) = fetch(state.templates, here) else {
            return Ok(state.close());
        };
        state.here.pc += 1;
        match self.execute(state, instr) {
            Ok(Turn::GoesOn) => Ok(true),
            Ok(Turn::Opens(template, scoped)) => {
                state.enter(template, scoped, self.max_include_depth)?;
                Ok(true)
            }
            Err(fault) => Err(Fault {
                template: Some(state.templates.name(here.template)),
                ..fault
            }),
        }
    }
}
