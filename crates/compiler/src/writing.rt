//! The compiler, and how it writes instructions into a lent slice. Each write tests its index itself: of a slice's
//! elements nothing would be known behind a `get_mut`.

ghost use Rattle.std.specs.Prelude.{◌≡◌, ◌+◌, ◌^◌, ◌<◌, [], length};
ghost use Rattle.compiler.specs.Writing.{Emitting, Patched, Pushed};

use crate::instr::{Instr, Op};

/// The slice that the instructions are written to, and how many there are so far. Those past its end are counted all
/// the same. That it stays the same slice (`lender`) ties two states, which no field of one can say.
#[derive(Drop)]
pub struct Compiler<'i> {
    pub instrs: &'i mut [Instr],
    pub len: usize,
}

impl<'i> Compiler<'i> {
    /// A compiler that has not written anything.
    pub fn new(instrs: &'i mut [Instr]) -> Compiler<'i>
        ensures same { result.instrs.now ≡ instrs.old }
        ensures none { result.len ≡ 0 }
        ensures lender { result.instrs.ghost_name ≡ instrs.entry.ghost_name }
    {
        Compiler { instrs, len: 0 }
    }

    /// Writes an instruction where there is room, counts it in any case, and answers its number.
    pub fn push(&mut self, instr: Instr) -> usize
        requires { self.now.len < 2 ^ 32 }
        ensures number { result ≡ self.old.len }
        ensures pushed { Pushed instr self.old self.new }
        ensures lender { self.new.instrs.ghost_name ≡ self.old.instrs.ghost_name }
    {
        let number = self.len;
        if number < self.instrs.len() {
            self.instrs[number] = instr;
        }
        self.len += 1;
        number
    }

    /// Gives a jump its target.
    pub fn update_jump(&mut self, jump: usize, target: usize)
        ensures patched { Patched jump target self.old self.new }
        ensures lender { self.new.instrs.ghost_name ≡ self.old.instrs.ghost_name }
    {
        if jump < self.instrs.len() {
            self.instrs[jump].target = target;
        }
    }

    /// Turns the `Apply` that was written last into an `EmitWith`.
    pub fn emit_applied(&mut self)
        ensures emitting { Emitting self.old self.new }
        ensures lender { self.new.instrs.ghost_name ≡ self.old.instrs.ghost_name }
    {
        let last = self.len.saturating_sub(1);
        if last < self.instrs.len() {
            self.instrs[last].op = Op::EmitWith;
        }
    }
}
