//! Instructions as records. Their operands stand in the template's tree.

ghost use Rattle.std.specs.Prelude.{◌≡◌};
ghost use Rattle.compiler.specs.Making.{apply_record, jump_record, past_op, plain_record};

/// The operations, by the names of the instructions.
#[derive(Clone, Copy)]
pub enum Op {
    Jump,
    JumpIfTrue,
    JumpIfFalse,
    Emit,
    EmitRaw,
    EmitWith,
    LoopStart,
    LoopNext,
    WithStart,
    WithEnd,
    Include,
    IncludeWith,
    ExprStartVar,
    ExprStartLiteral,
    ExprStartList,
    ExprStartMap,
    ExprListPush,
    ExprMapInsert,
    Apply,
}

impl Op {
    /// The jump past the branch that a condition, perhaps negated, guards.
    pub(crate) fn jump_past(negated: bool) -> Op
        ensures { result ≡ past_op negated }
    {
        if negated {
            Op::JumpIfTrue
        } else {
            Op::JumpIfFalse
        }
    }
}

/// An instruction. What its operation does not use is 0.
#[derive(Clone, Copy)]
pub struct Instr {
    pub op: Op,
    /// Where its operands stand in the tree: behind the byte of their command, and of a loop at that byte.
    pub at: usize,
    /// How many values an `Apply` or `EmitWith` takes.
    pub arity: u8,
    /// The instruction that a jump goes to.
    pub target: usize,
}

impl Instr {
    /// An instruction with operands at a position, and no more.
    pub(crate) fn plain(op: Op, at: usize) -> Instr
        ensures { result ≡ plain_record op at }
    {
        Instr {
            op,
            at,
            arity: 0,
            target: 0,
        }
    }

    /// A jump.
    pub(crate) fn jump(op: Op, target: usize) -> Instr
        ensures { result ≡ jump_record op target }
    {
        Instr {
            op,
            at: 0,
            arity: 0,
            target,
        }
    }

    /// An `Apply` with its operands at a position.
    pub(crate) fn apply(at: usize, arity: u8) -> Instr
        ensures { result ≡ apply_record at arity }
    {
        Instr {
            op: Op::Apply,
            at,
            arity,
            target: 0,
        }
    }
}
