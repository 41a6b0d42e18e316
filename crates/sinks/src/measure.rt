ghost use Rattle.std.specs.Prelude.{◌≡◌, ℕ, ◌≤◌, List, length};
ghost use Rattle.meaning.specs.Sinks.{line_feeds};
ghost use Rattle.sinks.specs.Sinks.{Additive};
ghost use Rattle.sinks.specs.SinkLaws.{lines_are_additive, bytes_are_additive};

/// How much of a limit a piece uses up.
pub trait Measure {
    ghost measure: { List ℕ → ℕ };

    ghost additive: { Additive measure };

    fn count(piece: &[u8]) -> usize
        ensures { result ≡ measure piece.now };
}

/// By its line feeds.
#[derive(Clone, Copy)]
pub enum Lines {}

impl Measure for Lines {
    ghost measure = { line_feeds };

    ghost additive = { lines_are_additive };

    fn count(piece: &[u8]) -> usize {
        count_lines(piece)
    }
}

/// By its bytes.
#[derive(Clone, Copy)]
pub enum Bytes {}

impl Measure for Bytes {
    ghost measure = { λ piece. length piece };

    ghost additive = { bytes_are_additive };

    fn count(piece: &[u8]) -> usize {
        piece.len()
    }
}

/// The number of line feeds.
pub fn count_lines(piece: &[u8]) -> usize
    ensures counts { result ≡ line_feeds piece.now }
    ensures within { result ≤ length piece.now }
{
    piece.iter().fold(
        0usize,
        |lines, byte| lines.wrapping_add(usize::from(*byte == b'\n')),
    )
}
