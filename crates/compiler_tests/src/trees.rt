//! Packed trees over the source `ab`, and what the compiler says of them.

use checker::template::Template;
use compiler::instr::{Instr, Op};
use compiler::programs::{CompileError, compile};
use meaning::fault::Cause;
use std::alloc::{AllocError, Global};

/// The span of `a`.
const SPAN: [u8; 4] = [0, 0, 1, 0];

/// A literal none.
const LITERAL: [u8; 6] = [0x11, 0, 0, 1, 0, 0x20];

/// How compiling a tree ends, each with its number.
#[derive(Clone, Copy, PartialEq, Eq, Debug)]
pub enum Ended {
    /// With a program of so many instructions.
    Written(usize),
    /// With a fault of that cause, and its detail.
    Fault(Cause, usize),
    /// With a slice that is shorter than that.
    Short(usize),
    /// With no template: the detail of why not.
    NoTemplate(usize),
}

/// How compiling a tree ends.
pub fn said(tree: &[u8], instrs: &mut [Instr]) -> Ended {
    let mut template = Template::empty();
    if let Err(fault) = template.set(b"ab", tree) {
        return Ended::NoTemplate(fault.detail);
    }
    match compile(&template, instrs) {
        Ok(len) => Ended::Written(len),
        Err(CompileError::Fault(fault)) => Ended::Fault(fault.cause, fault.detail),
        Err(CompileError::Short(len)) => Ended::Short(len),
    }
}

/// A record that the compiler never writes.
pub fn unwritten() -> Instr {
    Instr {
        op: Op::Emit,
        at: 9,
        arity: 9,
        target: 9,
    }
}

/// So many raws.
pub fn raws(heap: Global, count: usize) -> Result<Vec<u8>, AllocError> {
    let mut tree = Vec::new(heap);
    for _ in 0..count {
        tree.push(0x01)?;
        tree.extend_from_slice(&SPAN)?;
    }
    tree.push(0x0A)?;
    Ok(tree)
}

/// So many loops of 12 bytes and 4 instructions, and an inline literal of 7 bytes and 2 instructions.
pub fn loops(heap: Global, count: usize) -> Result<Vec<u8>, AllocError> {
    let mut tree = Vec::new(heap);
    for _ in 0..count {
        tree.push(0x07)?;
        tree.extend_from_slice(&SPAN)?;
        tree.extend_from_slice(&LITERAL)?;
        tree.push(0x0A)?;
    }
    tree.push(0x02)?;
    tree.extend_from_slice(&LITERAL)?;
    tree.push(0x0A)?;
    Ok(tree)
}
