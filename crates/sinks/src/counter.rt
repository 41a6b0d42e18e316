ghost use Rattle.std.specs.Prelude.{◌≡◌, ◌≤◌};
ghost use Rattle.meaning.specs.Sinks.{counter as counter_sink};
ghost use Rattle.meaning.proofs.SinkLaws.{counter_is_lawful};
ghost use Rattle.sinks.specs.States.{counts};

use crate::measure::count_lines;
use crate::sink::Sink;

/// Counts what it takes, and keeps nothing else of it.
#[derive(Drop)]
pub struct Counter {
    bytes: u32,
    lines: u32,
    ghost fewer: { lines ≤ bytes },
}

impl Counter {
    pub fn new() -> Counter
        ensures { counts result.bytes result.lines ≡ counts 0 0 }
    {
        Counter { bytes: 0, lines: 0 }
    }

    pub fn bytes(&self) -> u32
        ensures { result ≡ self.now.bytes }
    {
        self.bytes
    }

    /// The number of line feeds.
    pub fn lines(&self) -> u32
        ensures { result ≡ self.now.lines }
    {
        self.lines
    }
}

impl Sink for Counter {
    ghost sink = { counter_sink };

    ghost state = { λ c. counts c.bytes c.lines };

    ghost lawful = { counter_is_lawful };

    fn offer(&mut self, piece: &[u8]) -> Result<(), u16> {
        let size = u32::try_from(piece.len()).map_err(|_| 0u16)?;
        let bytes = self.bytes.checked_add(size).ok_or(0u16)?;
        let lines = count_lines(piece);
        self.bytes = bytes;
        self.lines += lines as u32;
        Ok(())
    }

    fn highest(&self) -> u16 {
        0
    }
}
