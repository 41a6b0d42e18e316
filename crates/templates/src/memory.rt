//! Bytes and programs written into supplied memory.

ghost use Rattle.std.specs.Prelude.{◌≡◌, ◌+◌, ◌<◌, ◌≤◌, length, vec_len};
ghost use Rattle.meaning.specs.Or.{gives};
ghost use Rattle.meaning.specs.Tree.{Scope};
ghost use Rattle.packing.specs.Unpacking.{unpack};
ghost use Rattle.program.specs.Program as program;
ghost use Rattle.checker.specs.Templates.{source_of, tree_of};
ghost use Rattle.templates.specs.Writing.{Counted, Placed, Programmed, written};

use crate::entry::{Entry, PLACE_BYTES, PLACE_INSTRS, SOURCE_BYTES};
use checker::template::Template;
use compiler::instr::Instr;
use compiler::programs::{CompileError, compile};
use meaning::fault::Fault;
use meaning::name::Name;

/// Writes the piece over what stands from `at` on.
#[tactic(auto, using(crate::proofs::Written::written_part, crate::proofs::Written::length_written))]
pub(crate) fn write_bytes(memory: &mut Vec<u8>, at: usize, piece: &[u8])
    requires { at + length piece.now ≤ vec_len memory.old }
    ensures items { memory.new.items ≡ written memory.old.items at piece.now }
    ensures len { vec_len memory.new ≡ vec_len memory.old }
{
    let end = at + piece.len();
    memory.as_mut_slice()[at..end].copy_from_slice(piece);
}

/// Refuses a template whose program has too many instructions.
pub(crate) fn check_program(template: &Template) -> Result<(), Fault>
    ensures { (scope : Scope) → unpack (source_of template.now) (tree_of template.now) ≡ gives scope → Counted (program.compile scope) result }
{
    // an empty slice takes nothing, and the instructions are counted all the same
    let mut nothing: [Instr; 0] = [];
    match compile(template, &mut nothing) {
        Ok(_) | Err(CompileError::Short(_)) => Ok(()),
        Err(CompileError::Fault(fault)) => Err(fault),
    }
}

/// Writes the template's program from `at` on, and answers the number of its instructions.
pub(crate) fn write_program(template: &Template, memory: &mut Vec<Instr>, at: usize) -> usize
    requires room { at + 1024 ≤ vec_len memory.old }
    requires short { (scope : Scope) → unpack (source_of template.now) (tree_of template.now) ≡ gives scope → length (program.compile scope) ≤ 1024 }
    ensures program { (scope : Scope) → unpack (source_of template.now) (tree_of template.now) ≡ gives scope → Programmed (tree_of template.now) (program.compile scope) at result memory.old.items memory.new.items }
    ensures len { vec_len memory.new ≡ vec_len memory.old }
{
    compile(template, &mut memory.as_mut_slice()[at..at + PLACE_INSTRS]).unwrap()
}

/// Writes the template to the place, and answers its entry.
pub(crate) fn write_template(
    bytes: &mut Vec<u8>,
    instrs: &mut Vec<Instr>,
    place: usize,
    name: Name,
    template: &Template,
) -> Entry
    requires within { place < 16 }
    requires room { 262144 ≤ vec_len bytes.old }
    requires space { 16384 ≤ vec_len instrs.old }
    requires short { (scope : Scope) → unpack (source_of template.now) (tree_of template.now) ≡ gives scope → length (program.compile scope) ≤ 1024 }
    ensures named { result.name ≡ name }
    ensures there { result.place ≡ place }
    ensures placed { Placed (source_of template.now) (tree_of template.now) result bytes.old.items bytes.new.items instrs.old.items instrs.new.items }
    ensures bytes_len { vec_len bytes.new ≡ vec_len bytes.old }
    ensures instrs_len { vec_len instrs.new ≡ vec_len instrs.old }
{
    let source = template.source();
    let tree = template.tree();
    write_bytes(bytes, place * PLACE_BYTES, source);
    write_bytes(bytes, place * PLACE_BYTES + SOURCE_BYTES, tree);
    let len = write_program(template, instrs, place * PLACE_INSTRS);
    Entry {
        name,
        place,
        source_len: source.len(),
        tree_len: tree.len(),
        len,
    }
}
