//! The listing of a template's program: a line for each instruction.

ghost use Rattle.std.specs.Prelude.{◌≡◌, ◌≤◌, length, true};
ghost use Rattle.meaning.specs.Or.{gives};
ghost use Rattle.meaning.specs.Tree.{Scope};
ghost use Rattle.packing.specs.Unpacking.{unpack};
ghost use Rattle.checker.specs.Templates.{source_of, tree_of};
ghost use Rattle.decoder.specs.Decoding.{IsSound, decoded_instr, loop_vars_of, variable_of};
ghost use Rattle.job.specs.Lines.{Wrote};
ghost use Rattle.job.specs.Listed.{MeanProgram, Meant, meant_words, record_line, record_program};
ghost use Rattle.job.specs.Listing.{access_words, applied_words, joint, listing, loop_words, member_words, name_words, path, too_many_line};
ghost use Rattle.reader.specs.Fields.{members_of};

use crate::lines::Report;
use checker::template::Template;
use compiler::instr::{Instr, Op};
use compiler::programs::{CompileError, compile};
use decoder::decode::decode;
use decoder::decoded::{Decoded, LoopVars};
use meaning::fault::Cause;
use meaning::tree::{Access, AccessOp, Member, Span};
use reader::field::Members;
use reader::text::text_under;
use std::alloc::AllocError;

/// The most instructions of a program.
const MOST_INSTRUCTIONS: usize = 1024;

/// What stands in a slot before it is written.
const UNWRITTEN: Instr = Instr {
    op: Op::Emit,
    at: 0,
    arity: 0,
    target: 0,
};

/// What stands before a member.
fn joint(first: bool, op: AccessOp) -> &'static [u8]
    ensures { result.now ≡ joint first op }
{
    match op {
        AccessOp::Optional => b"?.",
        AccessOp::Direct if first => b"",
        AccessOp::Direct => b".",
    }
}

impl Report {
    /// A name: the source under its span.
    fn put_name(&mut self, source: &[u8], name: Span) -> Result<(), AllocError>
        ensures { Wrote (name_words source.now name) result self.old self.new }
    {
        self.put_text(text_under(source, name))
    }

    /// What a member asks for.
    fn put_access(&mut self, source: &[u8], access: Access) -> Result<(), AllocError>
        ensures { Wrote (access_words source.now access) result self.old self.new }
    {
        match access {
            Access::Index(number, _) => write!(self, "{number}"),
            Access::Key(name) => self.put_name(source, name),
        }
    }

    /// A member, and what stands before it.
    fn put_member(&mut self, source: &[u8], first: bool, member: Member) -> Result<(), AllocError>
        ensures { Wrote (member_words source.now first member) result self.old self.new }
    {
        self.put(joint(first, member.op))?;
        self.put_access(source, member.access)
    }

    /// The members of a variable in a row.
    fn put_path(&mut self, source: &[u8], members: Members) -> Result<(), AllocError>
        ensures { Wrote (path source.now true (members_of members.entry)) result self.old self.new }
    {
        let mut first = true;
        for member in members {
            self.put_member(source, first, member)?;
            first = false;
        }
        Ok(())
    }

    /// A variable, which has a member at least.
    fn put_variable(&mut self, source: &[u8], members: Members) -> Result<(), AllocError>
        requires { 1 ≤ length (members_of members) }
        ensures { Wrote (meant_words source.now (variable_of (members_of members.entry))) result self.old self.new }
    {
        self.put(b"ExprStartVar ")?;
        self.put_path(source, members)
    }

    /// The names of a loop.
    fn put_loop_names(&mut self, source: &[u8], vars: LoopVars) -> Result<(), AllocError>
        ensures { Wrote (loop_words source.now (loop_vars_of vars)) result self.old self.new }
    {
        match vars {
            LoopVars::Item(item) => self.put_name(source, item),
            LoopVars::KeyValue(key, value, _) => {
                self.put_name(source, key)?;
                self.put(b" ")?;
                self.put_name(source, value)
            }
        }
    }

    /// The name of what is applied, and the number of values that it takes.
    fn put_applied(&mut self, source: &[u8], name: Span, arity: u8) -> Result<(), AllocError>
        ensures { Wrote (applied_words source.now name arity) result self.old self.new }
    {
        self.put_name(source, name)?;
        write!(self, " {arity}")
    }

    /// The name of an instruction, and its operands.
    fn put_instr(&mut self, source: &[u8], instr: Decoded) -> Result<(), AllocError>
        requires { IsSound instr }
        ensures { Wrote (meant_words source.now (decoded_instr instr.entry)) result self.old self.new }
    {
        match instr {
            Decoded::Jump(target) => write!(self, "Jump {target}"),
            Decoded::JumpIfTrue(target) => write!(self, "JumpIfTrue {target}"),
            Decoded::JumpIfFalse(target) => write!(self, "JumpIfFalse {target}"),
            Decoded::Emit => self.put(b"Emit"),
            Decoded::EmitRaw(span) => {
                self.put(b"EmitRaw ")?;
                self.put_quoted(text_under(source, span))
            }
            Decoded::EmitWith(name, arity, _) => {
                self.put(b"EmitWith ")?;
                self.put_applied(source, name, arity)
            }
            Decoded::LoopStart(vars, _) => {
                self.put(b"LoopStart ")?;
                self.put_loop_names(source, vars)
            }
            Decoded::LoopNext(target) => write!(self, "LoopNext {target}"),
            Decoded::WithStart(name) => {
                self.put(b"WithStart ")?;
                self.put_name(source, name)
            }
            Decoded::WithEnd => self.put(b"WithEnd"),
            Decoded::Include(name) => {
                self.put(b"Include ")?;
                self.put_quoted(name.text)
            }
            Decoded::IncludeWith(name) => {
                self.put(b"IncludeWith ")?;
                self.put_quoted(name.text)
            }
            Decoded::ExprStartVar(members) => self.put_variable(source, members),
            Decoded::ExprStartLiteral(_, value) => {
                self.put(b"ExprStartLiteral ")?;
                self.put_value(value)
            }
            Decoded::ExprStartList(_) => self.put(b"ExprStartList"),
            Decoded::ExprStartMap(_) => self.put(b"ExprStartMap"),
            Decoded::ExprListPush => self.put(b"ExprListPush"),
            Decoded::ExprMapInsert(key) => {
                self.put(b"ExprMapInsert ")?;
                self.put_quoted(key.text)
            }
            Decoded::Apply(name, arity, _) => {
                self.put(b"Apply ")?;
                self.put_applied(source, name, arity)
            }
        }
    }

    /// A line of an instruction.
    fn put_instr_line(
        &mut self,
        source: &[u8],
        tree: &[u8],
        number: usize,
        instr: Instr,
    ) -> Result<(), AllocError>
        requires { Meant tree.now instr }
        ensures { Wrote (record_line source.now tree.now number instr) result self.old self.new }
    {
        let Some(decoded) = decode(tree, instr) else {
            unreachable()
        };
        write!(self, "    {number} ")?;
        self.put_instr(source, decoded)?;
        self.put(b"\n")
    }

    /// How many instructions there are, and a line of each.
    fn put_program(
        &mut self,
        source: &[u8],
        tree: &[u8],
        instrs: &[Instr],
    ) -> Result<(), AllocError>
        requires { MeanProgram tree.now instrs.now }
        ensures { Wrote (record_program source.now tree.now instrs.now) result self.old self.new }
    {
        let count = instrs.len();
        writeln!(self, "  program of {count} instructions")?;
        for (number, instr) in instrs.iter().enumerate() {
            self.put_instr_line(source, tree, number, *instr)?;
        }
        Ok(())
    }

    /// That a template has too many instructions.
    fn put_too_many(&mut self, count: usize) -> Result<(), AllocError>
        ensures { Wrote (too_many_line count) result self.old self.new }
    {
        self.put(b"  ")?;
        self.put_cause(Cause::TooManyInstructions)?;
        writeln!(self, ": {count}")
    }

    /// The listing of a template's program, or why it has none.
    pub(crate) fn put_listing(&mut self, template: &Template) -> Result<(), AllocError>
        ensures { (scope : Scope) → unpack (source_of template.now) (tree_of template.now) ≡ gives scope → Wrote (listing (source_of template.now) scope) result self.old self.new }
    {
        let mut instrs = [UNWRITTEN; MOST_INSTRUCTIONS];
        match compile(template, &mut instrs) {
            Ok(count) => self.put_program(template.source(), template.tree(), &instrs[..count]),
            Err(CompileError::Fault(fault)) => self.put_too_many(fault.detail),
            Err(CompileError::Short(_)) => unreachable(),
        }
    }
}
