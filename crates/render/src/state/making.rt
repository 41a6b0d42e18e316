//! The instructions of expressions that ask nobody outside: each makes a value and pushes it.

ghost use Rattle.program.specs.Program.{ExprListPush, ExprMapInsert, ExprStartList, ExprStartLiteral, ExprStartMap};
ghost use Rattle.reader.specs.Fields.{text_of};
ghost use Rattle.reader.specs.Meanings.{plain_of};
ghost use Rattle.render.specs.Keeping.{Keeps};
ghost use Rattle.render.specs.States.{Comes, GoesFor, Same, Sound, SoundAfter};

use super::RenderState;
use expressions::making::{list_push, map_insert, start_list, start_literal, start_map};
use meaning::fault::Fault;
use meaning::tree::Span;
use reader::field::PackedText;
use reader::literal::PlainValue;
use sinks::sink::Sink;

impl<K: Sink> RenderState<'_, K> {
    pub(crate) fn list_start(&mut self, span: Span) -> Result<(), Fault>
        requires sound { Sound self.old }
        requires goes { GoesFor K.Sink.sink K.Sink.state (ExprStartList span) self.old }
        ensures sound { SoundAfter result self.new }
        ensures same { Same self.old self.new }
        ensures keeps { Keeps self.old self.new }
        ensures came { Comes K.Sink.sink K.Sink.state (ExprStartList span) self.old self.new result }
    {
        start_list(&mut self.values, &mut self.store, span)
    }

    pub(crate) fn map_start(&mut self, span: Span) -> Result<(), Fault>
        requires sound { Sound self.old }
        requires goes { GoesFor K.Sink.sink K.Sink.state (ExprStartMap span) self.old }
        ensures sound { SoundAfter result self.new }
        ensures same { Same self.old self.new }
        ensures keeps { Keeps self.old self.new }
        ensures came { Comes K.Sink.sink K.Sink.state (ExprStartMap span) self.old self.new result }
    {
        start_map(&mut self.values, &mut self.store, span)
    }

    pub(crate) fn literal(&mut self, span: Span, value: PlainValue) -> Result<(), Fault>
        requires sound { Sound self.old }
        requires goes { GoesFor K.Sink.sink K.Sink.state (ExprStartLiteral span (plain_of value)) self.old }
        ensures sound { SoundAfter result self.new }
        ensures same { Same self.old self.new }
        ensures keeps { Keeps self.old self.new }
        ensures came { Comes K.Sink.sink K.Sink.state (ExprStartLiteral span (plain_of value.entry)) self.old self.new result }
    {
        start_literal(&mut self.values, &mut self.store, span, value)
    }

    /// Puts the newest value at the end of the list under it.
    pub(crate) fn list_push(&mut self) -> Result<(), Fault>
        requires sound { Sound self.old }
        requires goes { GoesFor K.Sink.sink K.Sink.state ExprListPush self.old }
        ensures sound { SoundAfter result self.new }
        ensures same { Same self.old self.new }
        ensures keeps { Keeps self.old self.new }
        ensures came { Comes K.Sink.sink K.Sink.state ExprListPush self.old self.new result }
    {
        list_push(&mut self.values, &mut self.store)
    }

    /// Puts the newest value under a key into the map under it.
    pub(crate) fn map_insert(&mut self, key: PackedText) -> Result<(), Fault>
        requires sound { Sound self.old }
        requires goes { GoesFor K.Sink.sink K.Sink.state (ExprMapInsert (text_of key)) self.old }
        ensures sound { SoundAfter result self.new }
        ensures same { Same self.old self.new }
        ensures keeps { Keeps self.old self.new }
        ensures came { Comes K.Sink.sink K.Sink.state (ExprMapInsert (text_of key.entry)) self.old self.new result }
    {
        map_insert(&mut self.values, &mut self.store, key.text)
    }
}
