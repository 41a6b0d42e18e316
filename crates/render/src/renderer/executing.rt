//! The instructions.

ghost use Rattle.decoder.specs.Decoding.{IsSound, decoded_instr};
ghost use Rattle.render.specs.Executing.{Executes, IfAny, SoundTurn};
ghost use Rattle.render.specs.Keeping.{Keeps};
ghost use Rattle.render.specs.Renderers.{given_by};
ghost use Rattle.render.specs.States.{Goes, Same, Sound};

use super::RendererImpl;
use crate::state::RenderState;
use decoder::decoded::Decoded;
use expressions::calling::Call;
use hosts::callables::Callables;
use hosts::formatter::Formatter;
use hosts::source::ValueSource;
use meaning::fault::Fault;
use sinks::sink::Sink;

/// What comes after an instruction.
#[derive(Clone, Copy)]
pub enum Turn {
    /// The instruction where the renderer stands.
    GoesOn,
    /// The template of that index is to be opened; a scope of its own was pushed for it, or not.
    Opens(usize, bool),
}

impl<S: ValueSource, C: Callables, F: Formatter> RendererImpl<'_, S, C, F> {
    /// Does what an instruction says, behind which the renderer stands already.
    pub(crate) fn execute<K: Sink>(
        &self,
        state: &mut RenderState<K>,
        instr: Decoded,
    ) -> Result<Turn, Fault>
        requires sound { Sound state.old }
        requires instr { IsSound instr }
        requires goes { IfAny (decoded_instr instr) (λ i. Goes K.Sink.sink K.Sink.state (given_by S.valued C.named F.formatted self.now) i state.old) }
        ensures sound { SoundTurn result state.new }
        ensures same { Same state.old state.new }
        ensures keeps { Keeps state.old state.new }
        ensures came { IfAny (decoded_instr instr.entry) (λ i. Executes K.Sink.sink K.Sink.state (given_by S.valued C.named F.formatted self.now) i state.old state.new result) }
    {
        match instr {
            Decoded::Jump(target) => {
                state.jump(target);
                Ok(Turn::GoesOn)
            }
            Decoded::JumpIfTrue(target) => {
                state.branch(true, target);
                Ok(Turn::GoesOn)
            }
            Decoded::JumpIfFalse(target) => {
                state.branch(false, target);
                Ok(Turn::GoesOn)
            }
            Decoded::Emit => {
                self.emit(state)?;
                Ok(Turn::GoesOn)
            }
            Decoded::EmitRaw(span) => {
                self.emit_raw(state, span)?;
                Ok(Turn::GoesOn)
            }
            Decoded::EmitWith(name, arity, whole) => {
                let arity = arity as usize;
                self.emit_with(state, Call { name, arity, whole })?;
                Ok(Turn::GoesOn)
            }
            Decoded::LoopStart(vars, iterable) => {
                state.loop_start(vars, iterable)?;
                Ok(Turn::GoesOn)
            }
            Decoded::LoopNext(target) => {
                state.loop_next(target);
                Ok(Turn::GoesOn)
            }
            Decoded::WithStart(name) => {
                state.with_start(name);
                Ok(Turn::GoesOn)
            }
            Decoded::WithEnd => {
                state.with_end();
                Ok(Turn::GoesOn)
            }
            Decoded::Include(name) => {
                let template = state.include(name)?;
                Ok(Turn::Opens(template, false))
            }
            Decoded::IncludeWith(name) => {
                let template = state.include_with(name)?;
                Ok(Turn::Opens(template, true))
            }
            Decoded::ExprStartVar(path) => {
                self.variable(state, path)?;
                Ok(Turn::GoesOn)
            }
            Decoded::ExprStartLiteral(span, value) => {
                state.literal(span, value)?;
                Ok(Turn::GoesOn)
            }
            Decoded::ExprStartList(span) => {
                state.list_start(span)?;
                Ok(Turn::GoesOn)
            }
            Decoded::ExprStartMap(span) => {
                state.map_start(span)?;
                Ok(Turn::GoesOn)
            }
            Decoded::ExprListPush => {
                state.list_push()?;
                Ok(Turn::GoesOn)
            }
            Decoded::ExprMapInsert(key) => {
                state.map_insert(key)?;
                Ok(Turn::GoesOn)
            }
            Decoded::Apply(name, arity, whole) => {
                let arity = arity as usize;
                self.apply(state, Call { name, arity, whole })?;
                Ok(Turn::GoesOn)
            }
        }
    }
}
