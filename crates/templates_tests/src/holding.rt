//! Templates in memory from the heap, and what is held in them.

use compiler::instr::{Instr, Op};
use meaning::fault::{Cause, Fault};
use std::alloc::{AllocError, Global};
use templates::table::Templates;

/// A raw of one byte, and two of them.
pub const ONE_RAW: [u8; 6] = [0x01, 0, 0, 1, 0, 0x0A];

pub const TWO_RAWS: [u8; 11] = [0x01, 0, 0, 1, 0, 0x01, 0, 0, 1, 0, 0x0A];

/// A template that is held: the first byte of its source, how long its tree and its program are, and where the operands
/// of the last instruction stand.
#[derive(Clone, Copy, PartialEq, Eq, Debug)]
pub struct Held {
    pub source: Option<u8>,
    pub tree: usize,
    pub instrs: usize,
    pub last: Option<usize>,
}

impl Held {
    /// Of a tree of raws, each of 5 bytes, and the byte that ends it.
    pub fn new(source: u8, raws: u16) -> Held {
        let instrs = usize::from(raws);
        Held {
            source: Some(source),
            tree: 5 * instrs + 1,
            instrs,
            last: if instrs == 0 {
                None
            } else {
                Some(5 * instrs - 4)
            },
        }
    }
}

/// Templates in so much memory, or the cause why not.
pub fn opened(
    heap: Global,
    bytes: usize,
    instrs: usize,
) -> Result<Result<Templates, Cause>, AllocError> {
    let unwritten = Instr {
        op: Op::Emit,
        at: 0,
        arity: 0,
        target: 0,
    };
    let bytes = vec![in heap; 0u8; bytes]?;
    let instrs = vec![in heap; unwritten; instrs]?;
    match Templates::new(bytes, instrs) {
        Ok(templates) => Ok(Ok(templates)),
        Err(fault) => Ok(Err(fault.cause)),
    }
}

/// The fault of an answer, if any.
pub fn fault(answer: Result<(), Fault>) -> Option<(Cause, usize)> {
    match answer {
        Ok(()) => None,
        Err(fault) => Some((fault.cause, fault.detail)),
    }
}

/// What is held under the name.
pub fn found(templates: &Templates, name: &[u8]) -> Option<Held> {
    let at = templates.find(name)?;
    let source = templates.source(at).first().copied();
    let tree = templates.tree(at).len();
    let mut last = None;
    for instrs in 0..2000 {
        let Some(instr) = templates.instr(at, instrs) else {
            return Some(Held {
                source,
                tree,
                instrs,
                last,
            });
        };
        last = Some(instr.at);
    }
    None
}

/// The names of all, one behind the other.
pub fn names(heap: Global, templates: &Templates) -> Result<Vec<u8>, AllocError> {
    let mut names = Vec::new(heap);
    for i in 0..templates.len() {
        names.extend_from_slice(templates.name(i).as_bytes())?;
    }
    Ok(names)
}
