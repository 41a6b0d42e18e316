//! The checker: goes through a packed tree from left to right, and answers the first fault that it meets.

ghost use Rattle.std.specs.Prelude.{◌≡◌, ◌-◌, ◌≤◌, true, length, drop};
ghost use Rattle.packing.specs.Unpacking.{args, base_within, block_at, expr_within, literal_value, room_at, scope_within, unpack, whole_expr};
ghost use Rattle.reader.specs.Meanings.{base_of, stmt_of};
ghost use Rattle.reader.specs.Fields.{ended};
ghost use Rattle.checker.specs.Rests.{base_rest, branches, from_first, nested, stmt_rest, then_block};
ghost use Rattle.checker.specs.Whole.{judged, verdict};
ghost use Rattle.reader.specs.Verdicts.{Moves, reached};

use reader::command::{BaseCommand, ExprCommand, ScopeCommand, StmtCommand};
use reader::field::read_string;
use reader::literal::plain_value;
use reader::placed::{is_inside, next_command};
use reader::refusal::Refusal;
use reader::text::is_text;

/// The most levels of an expression.
const EXPR_LEVELS: usize = 16;

/// The most bytes of a source, and of a tree.
const MOST_BYTES: usize = 8192;

/// The most levels of if, for and with.
const BLOCK_LEVELS: usize = 14;

/// A source, and the packed tree over it that is checked. Positions are no part of it, since an answer is tied to the
/// one that it began at.
#[derive(Clone, Copy)]
pub(crate) struct Checker<'a> {
    pub(crate) source: &'a [u8],
    pub(crate) tree: &'a [u8],
}

impl Checker<'_> {
    /// Whether the bytes are a template's source and tree, or else why not.
    #[tactic(auto, using(crate::proofs::Wholes::whole_cases))]
    pub(crate) fn check(&self) -> Result<(), Refusal>
        ensures { judged result ≡ verdict (unpack self.now.source.now self.now.tree.now) }
    {
        if self.source.len() > MOST_BYTES || !is_text(self.source) {
            return Err(Refusal::BadSource);
        }
        if self.tree.len() > MOST_BYTES {
            return Err(Refusal::Malformed(0));
        }
        let end = self.check_scope(0, BLOCK_LEVELS)?;
        if end == self.tree.len() {
            Ok(())
        } else {
            Err(Refusal::Malformed(end))
        }
    }

    /// The position after a literal's value.
    #[tactic(auto, using(crate::proofs::Rests::literal_cut))]
    fn check_literal(&self, pos: usize) -> Result<usize, Refusal>
        requires { pos ≤ length self.now.tree.now }
        ensures same { reached self.now.tree.now result ≡ ended (literal_value (drop pos self.now.tree.now)) }
        ensures moves { Moves self.now.tree.now pos result }
    {
        let (_, end) = plain_value(self.tree, pos).ok_or(Refusal::Malformed(pos))?;
        Ok(end)
    }

    /// The position after the expression at `pos`, which has at most so many levels.
    #[cycle(expressions)]
    #[tactic(auto, using(crate::proofs::Rests::expr_cases))]
    fn check_expr(&self, pos: usize, levels: usize) -> Result<usize, Refusal>
        requires { pos ≤ length self.now.tree.now }
        ensures same { reached self.now.tree.now result ≡ ended (expr_within self.now.source.now levels (drop pos self.now.tree.now)) }
        ensures moves { Moves self.now.tree.now pos result }
    {
        let (command, next) = next_command(self.source, self.tree, pos)?;
        let below = levels.checked_sub(1).ok_or(Refusal::TooDeep(pos))?;
        match command {
            ExprCommand::Base(base) => self.check_inside(pos, next, below, base),
            ExprCommand::Filter(_, _, count) => {
                let after = self.check_expr(next, below)?;
                self.check_args(after, below, count)
            }
        }
    }

    /// The same of an expression other than a filter.
    #[cycle(expressions)]
    #[tactic(auto, using(crate::proofs::Rests::base_cases))]
    fn check_base(&self, pos: usize, levels: usize) -> Result<usize, Refusal>
        requires { pos ≤ length self.now.tree.now }
        ensures same { reached self.now.tree.now result ≡ ended (base_within self.now.source.now levels (drop pos self.now.tree.now)) }
        ensures moves { Moves self.now.tree.now pos result }
    {
        let (command, next) = next_command(self.source, self.tree, pos)?;
        let below = levels.checked_sub(1).ok_or(Refusal::TooDeep(pos))?;
        self.check_inside(pos, next, below, command)
    }

    /// The children of the command at `pos`, which begin at `next`.
    #[cycle(expressions)]
    fn check_inside(
        &self,
        pos: usize,
        next: usize,
        levels: usize,
        command: BaseCommand,
    ) -> Result<usize, Refusal>
        requires { (pos ≤ length self.now.tree.now) × (next ≤ length self.now.tree.now) }
        ensures same { reached self.now.tree.now result ≡ base_rest self.now.source.now (length self.now.tree.now - pos) true (expr_within self.now.source.now levels) (base_within self.now.source.now levels) (base_of command.entry) (drop next self.now.tree.now) }
        ensures moves { Moves self.now.tree.now next result }
    {
        match command {
            BaseCommand::Variable(_) | BaseCommand::EmptyMap(_) => Ok(next),
            BaseCommand::Literal(_) => self.check_literal(next),
            BaseCommand::Map(_, _, more) => self.check_pairs(pos, next, levels, more),
            BaseCommand::Paren(_) => self.check_expr(next, levels),
            BaseCommand::List(_, count) | BaseCommand::Call(_, _, count) => {
                self.check_args(next, levels, count)
            }
        }
    }

    /// The position after `count` expressions other than filters.
    #[cycle(expressions)]
    #[tactic(auto, using(crate::proofs::Rests::args_cases))]
    fn check_args(&self, pos: usize, levels: usize, count: u8) -> Result<usize, Refusal>
        requires { pos ≤ length self.now.tree.now }
        ensures same { reached self.now.tree.now result ≡ ended (args (base_within self.now.source.now levels) count (drop pos self.now.tree.now)) }
        ensures moves { Moves self.now.tree.now pos result }
    {
        let mut at = pos;
        for _arg in 0..count {
            at = self.check_base(at, levels)?;
        }
        Ok(at)
    }

    /// The pairs of the map at `start`, from the first pair's value on, and `more` pairs after it.
    #[cycle(expressions)]
    #[tactic(auto, using(crate::proofs::Rests::pairs_cases))]
    fn check_pairs(
        &self,
        start: usize,
        pos: usize,
        levels: usize,
        more: u8,
    ) -> Result<usize, Refusal>
        requires { (start ≤ length self.now.tree.now) × (pos ≤ length self.now.tree.now) }
        ensures same { reached self.now.tree.now result ≡ ended (from_first self.now.source.now (length self.now.tree.now - start) true (base_within self.now.source.now levels) more (drop pos self.now.tree.now)) }
        ensures moves { Moves self.now.tree.now pos result }
    {
        let mut at = self.check_base(pos, levels)?;
        for _pair in 0..more {
            let (key, next) = read_string(self.tree, at).ok_or(Refusal::Malformed(start))?;
            if !is_inside(self.source, key.span) {
                return Err(Refusal::Misplaced(start));
            }
            at = self.check_base(next, levels)?;
        }
        Ok(at)
    }

    /// The position after the expression of a statement.
    #[tactic(auto, unfolding(packing::specs::Unpacking::whole_expr))]
    fn check_whole(&self, pos: usize) -> Result<usize, Refusal>
        requires { pos ≤ length self.now.tree.now }
        ensures same { reached self.now.tree.now result ≡ ended (whole_expr self.now.source.now (drop pos self.now.tree.now)) }
        ensures moves { Moves self.now.tree.now pos result }
    {
        self.check_expr(pos, EXPR_LEVELS)
    }

    /// The position after the scope at `pos`, in which if, for and with nest at most so many levels.
    #[cycle(statements)]
    #[tactic(auto, using(crate::proofs::Statements::scope_cases))]
    fn check_scope(&self, pos: usize, levels: usize) -> Result<usize, Refusal>
        requires { pos ≤ length self.now.tree.now }
        ensures same { reached self.now.tree.now result ≡ ended (scope_within self.now.source.now levels (drop pos self.now.tree.now)) }
        ensures moves { Moves self.now.tree.now pos result }
    {
        let mut at = pos;
        loop {
            let (command, next) = next_command(self.source, self.tree, at)?;
            match command {
                ScopeCommand::End => return Ok(next),
                ScopeCommand::Stmt(stmt) => {
                    at = self.check_stmt(at, next, levels, stmt)?;
                }
            }
        }
    }

    /// The children of the statement at `pos`, which begin at `next`.
    #[cycle(statements)]
    fn check_stmt(
        &self,
        pos: usize,
        next: usize,
        levels: usize,
        command: StmtCommand,
    ) -> Result<usize, Refusal>
        requires { (pos ≤ length self.now.tree.now) × (next ≤ length self.now.tree.now) }
        ensures same { reached self.now.tree.now result ≡ stmt_rest self.now.source.now (length self.now.tree.now - pos) (room_at levels) (block_at self.now.source.now levels) (stmt_of command.entry) (drop next self.now.tree.now) }
        ensures moves { Moves self.now.tree.now next result }
    {
        match command {
            StmtCommand::Raw(_) | StmtCommand::Include(_) => Ok(next),
            StmtCommand::Inline | StmtCommand::IncludeWith(_) => self.check_whole(next),
            StmtCommand::If(_)
            | StmtCommand::ForItem(_)
            | StmtCommand::ForPair(_, _, _)
            | StmtCommand::With(_) => self.check_nested(pos, next, levels),
            StmtCommand::IfElse(_) => self.check_branches(pos, next, levels),
        }
    }

    /// An expression and a block, if there is room for a block.
    #[cycle(statements)]
    fn check_nested(&self, pos: usize, next: usize, levels: usize) -> Result<usize, Refusal>
        requires { (pos ≤ length self.now.tree.now) × (next ≤ length self.now.tree.now) }
        ensures same { reached self.now.tree.now result ≡ nested self.now.source.now (length self.now.tree.now - pos) (room_at levels) (block_at self.now.source.now levels) (drop next self.now.tree.now) }
        ensures moves { Moves self.now.tree.now next result }
    {
        let below = levels.checked_sub(1).ok_or(Refusal::TooDeep(pos))?;
        self.check_block(next, below)
    }

    /// An expression and two blocks, if there is room for a block.
    #[cycle(statements)]
    fn check_branches(&self, pos: usize, next: usize, levels: usize) -> Result<usize, Refusal>
        requires { (pos ≤ length self.now.tree.now) × (next ≤ length self.now.tree.now) }
        ensures same { reached self.now.tree.now result ≡ branches self.now.source.now (length self.now.tree.now - pos) (room_at levels) (block_at self.now.source.now levels) (drop next self.now.tree.now) }
        ensures moves { Moves self.now.tree.now next result }
    {
        let below = levels.checked_sub(1).ok_or(Refusal::TooDeep(pos))?;
        let first = self.check_whole(next)?;
        let second = self.check_scope(first, below)?;
        self.check_scope(second, below)
    }

    /// An expression and the statements of a block.
    #[cycle(statements)]
    fn check_block(&self, pos: usize, levels: usize) -> Result<usize, Refusal>
        requires { pos ≤ length self.now.tree.now }
        ensures same { reached self.now.tree.now result ≡ ended (then_block self.now.source.now (scope_within self.now.source.now levels) (drop pos self.now.tree.now)) }
        ensures moves { Moves self.now.tree.now pos result }
    {
        let first = self.check_whole(pos)?;
        self.check_scope(first, levels)
    }
}
