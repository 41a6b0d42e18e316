//! The templates: supplied memory that they own, with what always holds of it.

ghost use Rattle.std.specs.Prelude.{◌≡◌, ◌≤◌, true, length, take, vec_len};
ghost use Rattle.templates.specs.Entries.{Apart, all_sound};

use crate::entry::{Entry, PLACES};
use compiler::instr::Instr;

pub mod changing;
pub mod reading;

/// At most 16 templates under their names. Those in use come first, in the order in which their names were added.
// No heap; and the entries behind `count` hold the free places, which a list of those in use alone would lose.
#[derive(Drop)]
pub struct Templates {
    bytes: Vec<u8>,
    instrs: Vec<Instr>,
    entries: [Entry; PLACES],
    count: usize,
    ghost table: { length entries ≡ 16 },
    ghost few: { count ≤ 16 },
    ghost room: { 262144 ≤ vec_len bytes },
    ghost space: { 16384 ≤ vec_len instrs },
    ghost apart: { Apart entries },
    ghost sound: { all_sound bytes.items instrs.items (take count entries) ≡ true },
}
