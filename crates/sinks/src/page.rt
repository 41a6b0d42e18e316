ghost use Rattle.std.specs.Prelude.{◌≡◌, ◌≤◌, length};
ghost use Rattle.sinks.specs.Sinks.{page as page_sink};
ghost use Rattle.sinks.specs.SinkLaws.{page_is_lawful};
ghost use Rattle.sinks.specs.States.{written};

use crate::sink::Sink;

/// Keeps what it takes, in lent memory.
// No heap: the memory is lent, so that a slice and a count stand in the place of a `Vec`.
#[derive(Drop)]
pub struct Page<'a> {
    memory: &'a mut [u8],
    used: usize,
    ghost inside: { used ≤ length memory.now },
}

impl<'a> Page<'a> {
    /// An empty page of the memory's size.
    pub fn new(memory: &'a mut [u8]) -> Page<'a>
        ensures empty { written result.memory.now result.used ≡ written memory.old 0 }
        ensures lender { result.memory.ghost_name ≡ memory.entry.ghost_name }
    {
        Page { memory, used: 0 }
    }

    /// The bytes so far.
    pub fn bytes(&self) -> &[u8]
        ensures { result.now ≡ (written self.now.memory.now self.now.used).bytes }
    {
        &self.memory[0..self.used]
    }
}

impl Sink for Page<'_> {
    ghost sink = { page_sink };

    ghost state = { λ p. written p.memory.now p.used };

    ghost lawful = { page_is_lawful };

    fn offer(&mut self, piece: &[u8]) -> Result<(), u16> {
        let start = self.used;
        if piece.len() > self.memory.len() - start {
            return Err(0);
        }
        let end = start + piece.len();
        self.memory[start..end].copy_from_slice(piece);
        self.used = end;
        Ok(())
    }

    fn highest(&self) -> u16 {
        0
    }
}
