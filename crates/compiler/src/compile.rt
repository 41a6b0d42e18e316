//! Scope, statement, expression and base expression, which compile by calling one another.
//!
//! Each method takes a position in the tree, and answers where its part ends. Every part has more bytes than
//! instructions, so that their number stays below the position: `room` and `ahead` say so of the position and the
//! number that a part begins with. The tree stands beside the compiler: in it, each method would have to promise that it
//! stays the same. What a checked tree must hold is taken by `let .. else`, so that the other case is refuted at its place.

ghost use Rattle.std.specs.Prelude.{◌≡◌, ◌+◌, ◌^◌, ◌<◌, ◌≤◌, true, length};
ghost use Rattle.checker.specs.There.{ArgsThere, BaseThere, ExprThere, PairsThere, ScopeThere};
ghost use Rattle.compiler.specs.Compiled.{Ahead, ArgsMade, BaseMade, BaseOver, BehindMade, EmitMade, ExprMade, ItemsMade, LoopMade, LoopOver, Over, PairsMade, Room, ScopeMade, StmtMade, StmtOver};
ghost use Rattle.compiler.specs.Making.{apply_record};
ghost use Rattle.compiler.specs.Writing.{Pushed};
ghost use Rattle.reader.specs.Meanings.{base_of, stmt_of};

use crate::instr::{Instr, Op};
use crate::writing::Compiler;
use reader::command::{
    BaseCommand, ExprCommand, ScopeCommand, StmtCommand, base_command, expr_command, scope_command,
};
use reader::field::read_string;
use reader::literal::plain_value;

/// An expression that is compiled: where it ends in the tree, and whether its last instruction is an `Apply`.
#[derive(Clone, Copy)]
struct Compiled {
    end: usize,
    applied: bool,
}

/// The target of a jump until it is known.
const JUMP_PLACEHOLDER: usize = usize::MAX;

impl Compiler<'_> {
    /// Writes an `Apply` with its operands at a position, behind the arguments, which end at `end`.
    fn push_apply(&mut self, operands: usize, arity: u8, end: usize) -> Compiled
        requires { self.now.len < 2 ^ 32 }
        ensures end { result.end ≡ end }
        ensures applied { result.applied ≡ true }
        ensures pushed { Pushed (apply_record operands arity) self.old self.new }
        ensures lender { self.new.instrs.ghost_name ≡ self.old.instrs.ghost_name }
    {
        self.push(Instr::apply(operands, arity));
        Compiled { end, applied: true }
    }

    /// An expression.
    #[cycle(expressions)]
    fn compile_expr(&mut self, tree: &[u8], pos: usize) -> Compiled
        requires room { Room tree.now pos self.now.len }
        requires there { Over (λ s. ExprThere s tree.now pos) }
        ensures lender { self.new.instrs.ghost_name ≡ self.old.instrs.ghost_name }
        ensures ahead { Ahead tree.now (pos + 1) self.old.len result.end self.new.len }
        ensures made { ExprMade tree.now pos result self.old self.new }
    {
        let Some((command, next)) = expr_command(tree, pos) else {
            unreachable()
        };
        match command {
            ExprCommand::Base(base) => self.compile_behind(tree, pos, next, base),
            ExprCommand::Filter(_, _, count) => {
                let receiver = self.compile_expr(tree, next);
                let end = self.compile_args(tree, receiver.end, count);
                self.push_apply(pos + 1, count + 1, end)
            }
        }
    }

    /// An expression other than a filter.
    #[cycle(expressions)]
    fn compile_base_expr(&mut self, tree: &[u8], pos: usize) -> Compiled
        requires room { Room tree.now pos self.now.len }
        requires there { Over (λ s. BaseThere s tree.now pos) }
        ensures lender { self.new.instrs.ghost_name ≡ self.old.instrs.ghost_name }
        ensures ahead { Ahead tree.now (pos + 1) self.old.len result.end self.new.len }
        ensures made { BaseMade tree.now pos result self.old self.new }
    {
        let Some((command, next)) = base_command(tree, pos) else {
            unreachable()
        };
        self.compile_behind(tree, pos, next, command)
    }

    /// The same, whose command stands at `start`, from behind it on.
    #[cycle(expressions)]
    fn compile_behind(
        &mut self,
        tree: &[u8],
        start: usize,
        pos: usize,
        command: BaseCommand,
    ) -> Compiled
        requires room { Room tree.now start self.now.len }
        requires there { Over (λ s. BaseOver s tree.now start (base_of command) pos) }
        requires along { start + 2 ≤ pos }
        requires within { pos ≤ length tree.now }
        ensures lender { self.new.instrs.ghost_name ≡ self.old.instrs.ghost_name }
        ensures ahead { Ahead tree.now (start + 1) self.old.len result.end self.new.len }
        ensures made { BehindMade tree.now start pos (base_of command.entry) result self.old self.new }
    {
        match command {
            BaseCommand::Variable(_) => {
                self.push(Instr::plain(Op::ExprStartVar, start + 1));
                Compiled {
                    end: pos,
                    applied: false,
                }
            }
            BaseCommand::Literal(_) => {
                let Some((_, end)) = plain_value(tree, pos) else {
                    unreachable()
                };
                self.push(Instr::plain(Op::ExprStartLiteral, start + 1));
                Compiled {
                    end,
                    applied: false,
                }
            }
            BaseCommand::List(_, count) => {
                self.push(Instr::plain(Op::ExprStartList, start + 1));
                let end = self.compile_items(tree, pos, count);
                Compiled {
                    end,
                    applied: false,
                }
            }
            BaseCommand::EmptyMap(_) => {
                self.push(Instr::plain(Op::ExprStartMap, start + 1));
                Compiled {
                    end: pos,
                    applied: false,
                }
            }
            BaseCommand::Map(_, _, more) => {
                self.push(Instr::plain(Op::ExprStartMap, start + 1));
                let value = self.compile_base_expr(tree, pos);
                self.push(Instr::plain(Op::ExprMapInsert, start + 6));
                let end = self.compile_pairs(tree, value.end, more);
                Compiled {
                    end,
                    applied: false,
                }
            }
            BaseCommand::Paren(_) => self.compile_expr(tree, pos),
            BaseCommand::Call(_, _, count) => {
                let end = self.compile_args(tree, pos, count);
                self.push_apply(start + 1, count, end)
            }
        }
    }

    /// As many expressions other than filters as are counted.
    #[cycle(expressions)]
    fn compile_args(&mut self, tree: &[u8], pos: usize, count: u8) -> usize
        requires room { Room tree.now pos self.now.len }
        requires there { Over (λ s. ArgsThere s tree.now count pos) }
        ensures lender { self.new.instrs.ghost_name ≡ self.old.instrs.ghost_name }
        ensures ahead { Ahead tree.now pos self.old.len result self.new.len }
        ensures made { ArgsMade tree.now pos count result self.old self.new }
    {
        let mut at = pos;
        for _arg in 0..count {
            at = self.compile_base_expr(tree, at).end;
        }
        at
    }

    /// The same, each pushed onto a list.
    #[cycle(expressions)]
    fn compile_items(&mut self, tree: &[u8], pos: usize, count: u8) -> usize
        requires room { Room tree.now pos self.now.len }
        requires there { Over (λ s. ArgsThere s tree.now count pos) }
        ensures lender { self.new.instrs.ghost_name ≡ self.old.instrs.ghost_name }
        ensures ahead { Ahead tree.now pos self.old.len result self.new.len }
        ensures made { ItemsMade tree.now pos count result self.old self.new }
    {
        let mut at = pos;
        for _item in 0..count {
            at = self.compile_base_expr(tree, at).end;
            self.push(Instr::plain(Op::ExprListPush, 0));
        }
        at
    }

    /// As many pairs as are counted, each inserted into a map.
    #[cycle(expressions)]
    fn compile_pairs(&mut self, tree: &[u8], pos: usize, count: u8) -> usize
        requires room { Room tree.now pos self.now.len }
        requires there { Over (λ s. PairsThere s tree.now count pos) }
        ensures lender { self.new.instrs.ghost_name ≡ self.old.instrs.ghost_name }
        ensures ahead { Ahead tree.now pos self.old.len result self.new.len }
        ensures made { PairsMade tree.now pos count result self.old self.new }
    {
        let mut at = pos;
        for _pair in 0..count {
            let key = at;
            let Some((_, behind)) = read_string(tree, key) else {
                unreachable()
            };
            at = self.compile_base_expr(tree, behind).end;
            self.push(Instr::plain(Op::ExprMapInsert, key));
        }
        at
    }

    /// Emits the expression that was just compiled: its `Apply` as it is applied, and any other by an `Emit` behind it.
    fn pop_emit_expr(&mut self, expr: Compiled)
        requires { self.now.len < 2 ^ 32 }
        ensures lender { self.new.instrs.ghost_name ≡ self.old.instrs.ghost_name }
        ensures more { self.new.len ≤ self.old.len + 1 }
        ensures fewer { self.old.len ≤ self.new.len }
        ensures made { EmitMade expr self.old self.new }
    {
        if expr.applied {
            self.emit_applied();
        } else {
            self.push(Instr::plain(Op::Emit, 0));
        }
    }

    /// The statements of a scope, up to their end.
    #[cycle(statements)]
    pub fn compile_scope(&mut self, tree: &[u8], pos: usize) -> usize
        requires room { Room tree.now pos self.now.len }
        requires there { Over (λ s. ScopeThere s tree.now pos) }
        ensures lender { self.new.instrs.ghost_name ≡ self.old.instrs.ghost_name }
        ensures ahead { Ahead tree.now (pos + 1) self.old.len result self.new.len }
        ensures made { ScopeMade tree.now pos result self.old self.new }
    {
        let mut at = pos;
        loop {
            let Some((command, next)) = scope_command(tree, at) else {
                unreachable()
            };
            match command {
                ScopeCommand::End => return next,
                ScopeCommand::Stmt(stmt) => {
                    at = self.compile_stmt(tree, at, next, stmt);
                }
            }
        }
    }

    /// A statement whose command stands at `start`, from behind it on.
    #[cycle(statements)]
    #[tactic(auto, using(crate::proofs::StmtArms::inline_expr, crate::proofs::StmtArms::include_expr))]
    fn compile_stmt(&mut self, tree: &[u8], start: usize, pos: usize, command: StmtCommand) -> usize
        requires room { Room tree.now start self.now.len }
        requires there { Over (λ s. StmtOver s tree.now start (stmt_of command) pos) }
        ensures lender { self.new.instrs.ghost_name ≡ self.old.instrs.ghost_name }
        ensures ahead { Ahead tree.now start self.old.len result self.new.len }
        ensures past { start < result }
        ensures made { StmtMade tree.now start pos (stmt_of command.entry) result self.old self.new }
    {
        match command {
            StmtCommand::Raw(_) => {
                self.push(Instr::plain(Op::EmitRaw, start + 1));
                pos
            }
            StmtCommand::Inline => {
                let expr = self.compile_expr(tree, pos);
                self.pop_emit_expr(expr);
                expr.end
            }
            StmtCommand::Include(_) => {
                self.push(Instr::plain(Op::Include, start + 1));
                pos
            }
            StmtCommand::IncludeWith(_) => {
                let globals = self.compile_expr(tree, pos);
                self.push(Instr::plain(Op::IncludeWith, start + 1));
                globals.end
            }
            StmtCommand::If(negated) => {
                let cond = self.compile_expr(tree, pos);
                let past = self.push(Instr::jump(Op::jump_past(negated), JUMP_PLACEHOLDER));
                let end = self.compile_scope(tree, cond.end);
                self.update_jump(past, self.len);
                end
            }
            StmtCommand::IfElse(negated) => {
                let cond = self.compile_expr(tree, pos);
                let past = self.push(Instr::jump(Op::jump_past(negated), JUMP_PLACEHOLDER));
                let then_end = self.compile_scope(tree, cond.end);
                let over = self.push(Instr::jump(Op::Jump, JUMP_PLACEHOLDER));
                let otherwise = self.len;
                let else_end = self.compile_scope(tree, then_end);
                self.update_jump(over, self.len);
                self.update_jump(past, otherwise);
                else_end
            }
            StmtCommand::ForItem(_) => self.compile_loop(tree, start, pos),
            StmtCommand::ForPair(_, _, _) => self.compile_loop(tree, start, pos),
            StmtCommand::With(_) => {
                let expr = self.compile_expr(tree, pos);
                self.push(Instr::plain(Op::WithStart, start + 1));
                let with_end = self.compile_scope(tree, expr.end);
                self.push(Instr::plain(Op::WithEnd, 0));
                with_end
            }
        }
    }

    /// A loop whose command stands at `start`, from behind it on.
    #[cycle(statements)]
    fn compile_loop(&mut self, tree: &[u8], start: usize, pos: usize) -> usize
        requires room { Room tree.now start self.now.len }
        requires there { Over (λ s. LoopOver s tree.now start pos) }
        ensures lender { self.new.instrs.ghost_name ≡ self.old.instrs.ghost_name }
        ensures ahead { Ahead tree.now start self.old.len result self.new.len }
        ensures past { start < result }
        ensures made { LoopMade tree.now start pos result self.old self.new }
    {
        let iterable = self.compile_expr(tree, pos);
        self.push(Instr::plain(Op::LoopStart, start));
        let next = self.push(Instr::jump(Op::LoopNext, JUMP_PLACEHOLDER));
        let end = self.compile_scope(tree, iterable.end);
        self.push(Instr::jump(Op::Jump, next));
        self.update_jump(next, self.len);
        end
    }
}
