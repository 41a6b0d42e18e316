//! No callables at all.

ghost use Rattle.meaning.specs.Formatters.{no_callables};

use crate::reasons::{NO_FORMATTER, NO_FUNCTION};
use hosts::answer::{Argument, CallableKind, Refusal, Unmade, Unwritten};
use hosts::callables::Callables;
use store::cell::Ref;
use store::memory::Store;

/// No name stands for anything.
#[derive(Clone, Copy)]
pub struct NoCallables;

impl Callables for NoCallables {
    ghost named = { λ _ name. no_callables name };

    ghost texts = { λ _ _. tt };

    fn kind(&self, _name: &[u8]) -> Option<CallableKind> {
        None
    }

    fn format(
        &self,
        _name: &[u8],
        _store: &Store,
        _value: Ref,
        _buffer: &mut [u8],
    ) -> Result<usize, Unwritten> {
        Err(Unwritten::Refused(NO_FORMATTER))
    }

    fn call(
        &self,
        _name: &[u8],
        _args: &[Argument],
        _store: &mut Store,
    ) -> Result<Ref, Unmade<Refusal>> {
        Err(Unmade::Refused(NO_FUNCTION))
    }
}
