//! The program of a template.

ghost use Rattle.std.specs.Prelude.{◌≡◌};
ghost use Rattle.meaning.specs.Or.{gives};
ghost use Rattle.meaning.specs.Tree.{Scope};
ghost use Rattle.packing.specs.Unpacking.{unpack};
ghost use Rattle.checker.specs.Templates.{source_of, tree_of};
ghost use Rattle.compiler.specs.Answers.{Answers};
ghost use Rattle.program.specs.Program as program;

use crate::instr::Instr;
use crate::writing::Compiler;
use checker::template::Template;
use meaning::fault::{Cause, Fault};

/// The most instructions of a program.
const MOST_INSTRUCTIONS: usize = 1024;

/// Why a template is not compiled.
#[derive(Clone, Copy)]
pub enum CompileError {
    /// It has more instructions than a program may have.
    Fault(Fault),
    /// The slice is shorter than its program, which has so many instructions.
    Short(usize),
}

/// Writes the template's program to the front of the slice, and answers the number of its instructions. On an error
/// the slice is as it was.
#[tactic(auto, using(crate::proofs::Wholes::whole_over, crate::proofs::Wholes::whole_room))]
pub fn compile(template: &Template, instrs: &mut [Instr]) -> Result<usize, CompileError>
    ensures { (scope : Scope) → unpack (source_of template.now) (tree_of template.now) ≡ gives scope → Answers (tree_of template.now) (program.compile scope) instrs.old instrs.new result }
{
    let tree = template.tree();
    // an empty slice takes nothing, and the instructions are counted all the same
    let mut counted = Compiler::new(&mut []);
    counted.compile_scope(tree, 0);
    let count = counted.len;
    if count > MOST_INSTRUCTIONS {
        return Err(CompileError::Fault(Fault::of_call(Cause::TooManyInstructions, count)));
    }
    if count > instrs.len() {
        return Err(CompileError::Short(count));
    }
    let mut written = Compiler::new(instrs);
    written.compile_scope(tree, 0);
    Ok(written.len)
}
