//! Text by RFC 3629, in slices of bytes.

ghost use Rattle.std.specs.Prelude.{◌≡◌};
ghost use Rattle.meaning.specs.Spans.{text_at};
ghost use Rattle.packing.specs.Rfc3629.{between_characters, well_formed};

use meaning::tree::Span;
use std::str::from_utf8;

/// Whether the bytes are well-formed text.
pub fn is_text(bytes: &[u8]) -> bool
    ensures { result ≡ well_formed bytes.now }
{
    from_utf8(bytes).is_ok()
}

/// Whether a place of a text is where a character begins, or the text's end.
pub fn is_between_characters(text: &[u8], place: usize) -> bool
    ensures { result ≡ between_characters text.now place }
{
    match text.get(place) {
        Some(byte) => *byte < 0x80 || *byte > 0xBF,
        None => place == text.len(),
    }
}

/// The text under a span; what lies past the source's end is left out.
#[tactic(auto, using(crate::proofs::Clips::cut))]
pub fn text_under<'s>(source: &'s [u8], span: Span) -> &'s [u8]
    ensures { result.now ≡ text_at source.now span }
{
    let start = source.len().min(span.start as usize);
    let end = source.len().min(span.end as usize).max(start);
    &source[start..end]
}
