//! The outline of a checked template: a line for each statement and expression.
//!
//! Each function takes the position that it reads from and answers the position after what it read. What a checked tree
//! must hold is taken by `let .. else`, so that the other case is refuted at its place.

ghost use Rattle.std.specs.Prelude.{◌≡◌, ◌+◌, ◌*◌, ◌≤◌, length};
ghost use Rattle.meaning.specs.Or.{gives};
ghost use Rattle.meaning.specs.Tree.{Scope};
ghost use Rattle.packing.specs.Limits.{most_bytes};
ghost use Rattle.packing.specs.Unpacking.{unpack};
ghost use Rattle.checker.specs.Templates.{source_of, tree_of};
ghost use Rattle.checker.specs.There.{ArgsThere, BaseThere, BehindBase, BehindStmt, ExprThere, NestedThere, PairsThere, ScopeThere, ValueThere};
ghost use Rattle.job.specs.Lines.{Wrote};
ghost use Rattle.job.specs.Outline.{if_label, outline_scope};
ghost use Rattle.job.specs.Outlined.{ArgsOutlined, BaseOutlined, BehindOutlined, ExprOutlined, NestedOutlined, PairsOutlined, ScopeOutlined, StmtOutlined, ValueOutlined};
ghost use Rattle.reader.specs.Meanings.{base_of, stmt_of};

use crate::lines::Report;
use checker::template::Template;
use reader::command::{
    BaseCommand, ExprCommand, ScopeCommand, StmtCommand, base_command, expr_command, scope_command,
};
use reader::field::read_string;
use reader::literal::plain_value;
use std::alloc::AllocError;

/// A walk over a checked template, whose source and tree are short. Position, depth and report change from call to
/// call, and are no part of it.
#[derive(Clone, Copy)]
struct Walk<'a> {
    source: &'a [u8],
    tree: &'a [u8],
    ghost source_short: { length source.now ≤ most_bytes },
    ghost tree_short: { length tree.now ≤ most_bytes },
}

/// The label of an if.
fn if_label(negated: bool) -> &'static [u8]
    ensures { result.now ≡ if_label negated }
{
    if negated { b"if not" } else { b"if" }
}

impl Walk<'_> {
    /// An expression.
    #[cycle(expressions)]
    fn expr(&self, pos: usize, depth: usize, report: &mut Report) -> Result<usize, AllocError>
        requires shallow { depth ≤ 2 * pos + 1 }
        requires there { ExprThere self.now.source.now self.now.tree.now pos }
        ensures { ExprOutlined self.now.source.now self.now.tree.now pos depth result report.old report.new }
    {
        let Some((command, next)) = expr_command(self.tree, pos) else {
            unreachable()
        };
        match command {
            ExprCommand::Base(base) => self.behind(next, depth, base, report),
            ExprCommand::Filter(name, whole, count) => {
                report.put_spans_line(self.source, depth, b"filter", whole, name)?;
                let after = self.expr(next, depth + 1, report)?;
                self.bases(after, depth + 1, count, report)
            }
        }
    }

    /// An expression other than a filter.
    #[cycle(expressions)]
    fn base(&self, pos: usize, depth: usize, report: &mut Report) -> Result<usize, AllocError>
        requires shallow { depth ≤ 2 * pos + 1 }
        requires there { BaseThere self.now.source.now self.now.tree.now pos }
        ensures { BaseOutlined self.now.source.now self.now.tree.now pos depth result report.old report.new }
    {
        let Some((command, next)) = base_command(self.tree, pos) else {
            unreachable()
        };
        self.behind(next, depth, command, report)
    }

    /// An expression other than a filter, from behind its command on.
    #[cycle(expressions)]
    fn behind(
        &self,
        pos: usize,
        depth: usize,
        command: BaseCommand,
        report: &mut Report,
    ) -> Result<usize, AllocError>
        requires shallow { depth + 2 ≤ 2 * pos + 1 }
        requires there { BehindBase self.now.source.now self.now.tree.now (base_of command) pos }
        ensures { BehindOutlined self.now.source.now self.now.tree.now pos depth result report.old report.new (base_of command.entry) }
    {
        match command {
            BaseCommand::Variable(members) => {
                report.put_members_line(self.source, depth, members)?;
                Ok(pos)
            }
            BaseCommand::Literal(span) => {
                report.put_span_line(self.source, depth, b"literal", span)?;
                self.value(pos, depth + 1, report)
            }
            BaseCommand::List(span, count) => {
                report.put_span_line(self.source, depth, b"list", span)?;
                self.bases(pos, depth + 1, count, report)
            }
            BaseCommand::EmptyMap(span) => {
                report.put_span_line(self.source, depth, b"map", span)?;
                Ok(pos)
            }
            BaseCommand::Map(span, key, more) => {
                report.put_span_line(self.source, depth, b"map", span)?;
                let inner = depth + 1;
                report.put_string_line(self.source, inner, b"key", key)?;
                let after = self.base(pos, inner + 1, report)?;
                self.pairs(after, inner, more, report)
            }
            BaseCommand::Paren(span) => {
                report.put_span_line(self.source, depth, b"paren", span)?;
                self.expr(pos, depth + 1, report)
            }
            BaseCommand::Call(name, whole, count) => {
                report.put_spans_line(self.source, depth, b"call", whole, name)?;
                self.bases(pos, depth + 1, count, report)
            }
        }
    }

    /// A literal's value.
    fn value(&self, pos: usize, depth: usize, report: &mut Report) -> Result<usize, AllocError>
        requires { ValueThere self.now.tree.now pos }
        ensures { ValueOutlined self.now.tree.now pos depth result report.old report.new }
    {
        let Some((value, next)) = plain_value(self.tree, pos) else {
            unreachable()
        };
        report.put_value_line(depth, value)?;
        Ok(next)
    }

    /// As many expressions other than filters as are counted.
    #[cycle(expressions)]
    fn bases(
        &self,
        pos: usize,
        depth: usize,
        count: u8,
        report: &mut Report,
    ) -> Result<usize, AllocError>
        requires shallow { depth ≤ 2 * pos + 1 }
        requires there { ArgsThere self.now.source.now self.now.tree.now count pos }
        ensures { ArgsOutlined self.now.source.now self.now.tree.now pos depth result report.old report.new count }
    {
        let mut at = pos;
        for _arg in 0..count {
            at = self.base(at, depth, report)?;
        }
        Ok(at)
    }

    /// As many pairs of a map as are counted.
    #[cycle(expressions)]
    fn pairs(
        &self,
        pos: usize,
        depth: usize,
        count: u8,
        report: &mut Report,
    ) -> Result<usize, AllocError>
        requires shallow { depth ≤ 2 * pos + 1 }
        requires there { PairsThere self.now.source.now self.now.tree.now count pos }
        ensures { PairsOutlined self.now.source.now self.now.tree.now pos depth result report.old report.new count }
    {
        let mut at = pos;
        for _pair in 0..count {
            let Some((key, next)) = read_string(self.tree, at) else {
                unreachable()
            };
            report.put_string_line(self.source, depth, b"key", key)?;
            at = self.base(next, depth + 1, report)?;
        }
        Ok(at)
    }

    /// The statements of a scope, up to their end.
    #[cycle(statements)]
    fn scope(&self, pos: usize, depth: usize, report: &mut Report) -> Result<usize, AllocError>
        requires shallow { depth ≤ 2 * pos + 1 }
        requires there { ScopeThere self.now.source.now self.now.tree.now pos }
        ensures { ScopeOutlined self.now.source.now self.now.tree.now pos depth result report.old report.new }
    {
        let mut at = pos;
        loop {
            let Some((command, next)) = scope_command(self.tree, at) else {
                unreachable()
            };
            match command {
                ScopeCommand::End => return Ok(next),
                ScopeCommand::Stmt(stmt) => {
                    at = self.stmt(next, depth, stmt, report)?;
                }
            }
        }
    }

    /// A statement, from behind its command on.
    #[cycle(statements)]
    fn stmt(
        &self,
        pos: usize,
        depth: usize,
        command: StmtCommand,
        report: &mut Report,
    ) -> Result<usize, AllocError>
        requires shallow { depth + 1 ≤ 2 * pos + 1 }
        requires there { BehindStmt self.now.source.now self.now.tree.now (stmt_of command) pos }
        ensures { StmtOutlined self.now.source.now self.now.tree.now pos depth result report.old report.new (stmt_of command.entry) }
    {
        match command {
            StmtCommand::Raw(span) => {
                report.put_span_line(self.source, depth, b"raw", span)?;
                Ok(pos)
            }
            StmtCommand::Inline => {
                report.put_label_line(depth, b"inline")?;
                self.expr(pos, depth + 1, report)
            }
            StmtCommand::Include(name) => {
                report.put_string_line(self.source, depth, b"include", name)?;
                Ok(pos)
            }
            StmtCommand::IncludeWith(name) => {
                report.put_string_line(self.source, depth, b"include with", name)?;
                self.expr(pos, depth + 1, report)
            }
            StmtCommand::If(negated) => {
                report.put_label_line(depth, if_label(negated))?;
                self.nested(pos, depth, b"then", report)
            }
            StmtCommand::IfElse(negated) => {
                report.put_label_line(depth, if_label(negated))?;
                let after = self.nested(pos, depth, b"then", report)?;
                report.put_label_line(depth, b"else")?;
                self.scope(after, depth + 1, report)
            }
            StmtCommand::ForItem(span) => {
                report.put_span_line(self.source, depth, b"for", span)?;
                self.nested(pos, depth, b"do", report)
            }
            StmtCommand::ForPair(key, value, _) => {
                report.put_spans_line(self.source, depth, b"for", key, value)?;
                self.nested(pos, depth, b"do", report)
            }
            StmtCommand::With(span) => {
                report.put_span_line(self.source, depth, b"with", span)?;
                self.nested(pos, depth, b"do", report)
            }
        }
    }

    /// The expression of a block, a label, and the statements of the block.
    #[cycle(statements)]
    fn nested(
        &self,
        pos: usize,
        depth: usize,
        label: &[u8],
        report: &mut Report,
    ) -> Result<usize, AllocError>
        requires shallow { depth + 1 ≤ 2 * pos + 1 }
        requires there { NestedThere self.now.source.now self.now.tree.now pos }
        ensures { NestedOutlined self.now.source.now self.now.tree.now pos depth result report.old report.new label.now }
    {
        let after = self.expr(pos, depth + 1, report)?;
        report.put_label_line(depth, label)?;
        self.scope(after, depth + 1, report)
    }
}

/// The outline of a template, a level deep.
pub fn outline(template: &Template, report: &mut Report) -> Result<(), AllocError>
    ensures { (scope : Scope) → unpack (source_of template.now) (tree_of template.now) ≡ gives scope → Wrote (outline_scope (source_of template.now) 1 scope) result report.old report.new }
{
    let walk = Walk {
        source: template.source(),
        tree: template.tree(),
    };
    let _end = walk.scope(0, 1, report)?;
    Ok(())
}
