ghost use Rattle.std.specs.Prelude.{◌≡◌};
ghost use Rattle.example_host.specs.Vowels.{a_vowel, vowel_counter, vowels};
ghost use Rattle.example_host.specs.VowelLaws.{vowel_counter_is_lawful};

use sinks::sink::Sink;

/// Counts the vowels of what it takes, and keeps nothing else of it.
#[derive(Drop)]
pub struct VowelCounter {
    count: u32,
}

impl VowelCounter {
    pub fn new() -> VowelCounter
        ensures { result.count ≡ 0 }
    {
        VowelCounter { count: 0 }
    }

    pub fn count(&self) -> u32
        ensures { result ≡ self.now.count }
    {
        self.count
    }
}

impl Sink for VowelCounter {
    ghost sink = { vowel_counter };

    ghost state = { λ c. c.count };

    ghost lawful = { vowel_counter_is_lawful };

    fn offer(&mut self, piece: &[u8]) -> Result<(), u16> {
        let more = u32::try_from(count_vowels(piece)).map_err(|_| 0u16)?;
        self.count = self.count.checked_add(more).ok_or(0u16)?;
        Ok(())
    }

    fn highest(&self) -> u16 {
        0
    }
}

/// The number of vowels.
pub fn count_vowels(piece: &[u8]) -> usize
    ensures { result ≡ vowels piece.now }
{
    piece.iter().filter(|b| is_vowel(**b)).count()
}

fn is_vowel(b: u8) -> bool
    ensures { result ≡ a_vowel b }
{
    matches!(b, b'a' | b'e' | b'i' | b'o' | b'u')
}
