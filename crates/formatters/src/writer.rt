//! Text in lent memory.

ghost use Rattle.std.specs.Prelude.{◌≡◌, ◌≤◌, [], length};
ghost use Rattle.meaning.specs.Formatters.{digits_of};

use hosts::answer::Unwritten;

/// Writes to the front of a buffer.
#[derive(Drop)]
pub struct Writer<'b> {
    buffer: &'b mut [u8],
    len: usize,
    ghost inside: { len ≤ length buffer.now },
}

impl<'b> Writer<'b> {
    ghost use Rattle.formatters.specs.Writing.{Wrote, text_of};

    pub fn new(buffer: &'b mut [u8]) -> Writer<'b>
        ensures text { text_of result ≡ [] }
        ensures lender { result.buffer.ghost_name ≡ buffer.entry.ghost_name }
        ensures room { result.buffer.now ≡ buffer.old }
    {
        Writer { buffer, len: 0 }
    }

    /// How long the text is.
    pub fn len(&self) -> usize
        ensures { result ≡ self.now.len }
    {
        self.len
    }

    /// Writes all of it, or finds it too long.
    pub fn put(&mut self, more: &[u8]) -> Result<(), Unwritten>
        ensures { Wrote more.now result self.old self.new }
    {
        let start = self.len;
        if more.len() > self.buffer.len() - start {
            return Err(Unwritten::TooLong);
        }
        let end = start + more.len();
        self.buffer[start..end].copy_from_slice(more);
        self.len = end;
        Ok(())
    }

    /// Writes the last digits of a number, so many.
    #[tactic(auto, using(crate::proofs::Written::digit_more))]
    pub fn put_digits(&mut self, width: u8, n: u64) -> Result<(), Unwritten>
        ensures { Wrote (digits_of width n) result self.old self.new }
    {
        if width == 0 {
            return Ok(());
        }
        self.put_digits(width - 1, n / 10)?;
        self.put(&[b'0' + (n % 10) as u8])
    }
}
