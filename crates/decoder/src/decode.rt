//! The instruction that a record means.

ghost use Rattle.std.specs.Prelude.{◌≡◌};
ghost use Rattle.compiler.specs.Records.{callee_operands, instr_of, literal_operands, loop_names, loop_operands};
ghost use Rattle.decoder.specs.Decoding.{Sound, found, loop_of, loop_vars_of, meaning};
ghost use Rattle.program.specs.Program as program;
ghost use Rattle.reader.specs.Heads.{StmtOf};
ghost use Rattle.reader.specs.Meanings.{stmt_of};

use crate::decoded::{Decoded, LoopVars};
use crate::spans::expr_span;
use compiler::instr::{Instr, Op};
use meaning::tree::Span;
use reader::command::{ScopeCommand, StmtCommand, expr_command, scope_command};
use reader::field::{read_span, read_string, read_variable};
use reader::literal::plain_value;

/// The names of a loop, by its command.
fn loop_vars(command: StmtCommand) -> Option<LoopVars>
    ensures { found loop_vars_of result ≡ loop_names (StmtOf (stmt_of command.entry)) }
{
    match command {
        StmtCommand::ForItem(item) => Some(LoopVars::Item(item)),
        StmtCommand::ForPair(key, value, both) => Some(LoopVars::KeyValue(key, value, both)),
        _ => None,
    }
}

/// The names of the loop at a position, and the span of what it goes over.
fn read_loop(tree: &[u8], at: usize) -> Option<(LoopVars, Span)>
    ensures { found loop_of result ≡ loop_operands tree.now at }
{
    let (command, next) = scope_command(tree, at)?;
    let (iterable, _) = expr_command(tree, next)?;
    let ScopeCommand::Stmt(stmt) = command else {
        return None;
    };
    let vars = loop_vars(stmt)?;
    let span = expr_span(iterable)?;
    Some((vars, span))
}

/// Name and whole of a call or filter at a position.
fn read_callee(tree: &[u8], at: usize) -> Option<(Span, Span)>
    ensures { (make : Span → Span → program.Instr) → found (λ c. make c.0 c.1) result ≡ callee_operands tree.now at make }
{
    let (name, next) = read_span(tree, at)?;
    let (whole, _) = read_span(tree, next)?;
    Some((name, whole))
}

/// A literal at a position: its span and its value.
fn read_literal<'t>(tree: &'t [u8], at: usize) -> Option<Decoded<'t>>
    ensures same { meaning result ≡ literal_operands tree.now at }
    ensures sound { Sound result }
{
    let (span, next) = read_span(tree, at)?;
    let (value, _) = plain_value(tree, next)?;
    Some(Decoded::ExprStartLiteral(span, value))
}

/// The instruction that a record means, its operands read where they stand in the tree; none where they do not.
pub fn decode<'t>(tree: &'t [u8], instr: Instr) -> Option<Decoded<'t>>
    ensures same { meaning result ≡ instr_of tree.now instr }
    ensures sound { Sound result }
{
    let at = instr.at;
    match instr.op {
        Op::Jump => Some(Decoded::Jump(instr.target)),
        Op::JumpIfTrue => Some(Decoded::JumpIfTrue(instr.target)),
        Op::JumpIfFalse => Some(Decoded::JumpIfFalse(instr.target)),
        Op::Emit => Some(Decoded::Emit),
        Op::EmitRaw => Some(Decoded::EmitRaw(read_span(tree, at)?.0)),
        Op::EmitWith => {
            let (name, whole) = read_callee(tree, at)?;
            Some(Decoded::EmitWith(name, instr.arity, whole))
        }
        Op::LoopStart => {
            let (vars, iterable) = read_loop(tree, at)?;
            Some(Decoded::LoopStart(vars, iterable))
        }
        Op::LoopNext => Some(Decoded::LoopNext(instr.target)),
        Op::WithStart => Some(Decoded::WithStart(read_span(tree, at)?.0)),
        Op::WithEnd => Some(Decoded::WithEnd),
        Op::Include => Some(Decoded::Include(read_string(tree, at)?.0)),
        Op::IncludeWith => Some(Decoded::IncludeWith(read_string(tree, at)?.0)),
        Op::ExprStartVar => Some(Decoded::ExprStartVar(read_variable(tree, at)?.0)),
        Op::ExprStartLiteral => read_literal(tree, at),
        Op::ExprStartList => Some(Decoded::ExprStartList(read_span(tree, at)?.0)),
        Op::ExprStartMap => Some(Decoded::ExprStartMap(read_span(tree, at)?.0)),
        Op::ExprListPush => Some(Decoded::ExprListPush),
        Op::ExprMapInsert => Some(Decoded::ExprMapInsert(read_string(tree, at)?.0)),
        Op::Apply => {
            let (name, whole) = read_callee(tree, at)?;
            Some(Decoded::Apply(name, instr.arity, whole))
        }
    }
}
