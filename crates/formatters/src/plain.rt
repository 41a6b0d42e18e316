//! The plain formatter.

ghost use Rattle.std.specs.Prelude.{◌≡◌, ◌≤◌};
ghost use Rattle.meaning.specs.Formatters.{plain};
ghost use Rattle.packing.proofs.Texts.{formatters_write_text};

use crate::reasons::{NO_FLOATS, WRONG_KIND};
use crate::writer::Writer;
use hosts::answer::Unwritten;
use hosts::formatter::Formatter;
use itoa::Buffer;
use store::cell::Ref;
use store::kinds::Kind;
use store::memory::Store;

/// None is empty, booleans are words, integers decimal, and strings stand as they are. It refuses lists, maps and floats.
#[derive(Clone, Copy)]
pub struct Plain;

impl Formatter for Plain {
    ghost formatted = { λ _. plain };

    ghost texts = { λ _. formatters_write_text.0 };

    fn format(&self, store: &Store, value: Ref, buffer: &mut [u8]) -> Result<usize, Unwritten> {
        let mut out = Writer::new(buffer);
        match store.kind(value) {
            Kind::None => (),
            Kind::Boolean if store.boolean(value) => out.put(b"true")?,
            Kind::Boolean => out.put(b"false")?,
            Kind::Integer => out.put(Buffer::new().format(store.integer(value)).as_bytes())?,
            Kind::Float => return Err(Unwritten::Refused(NO_FLOATS)),
            Kind::String => out.put(store.text(value))?,
            Kind::List | Kind::Map => return Err(Unwritten::Refused(WRONG_KIND)),
        }
        Ok(out.len())
    }
}
