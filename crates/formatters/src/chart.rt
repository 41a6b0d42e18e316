//! The chart set.

ghost use Rattle.std.specs.Prelude.{◌≡◌, [], ◌∷◌, length};
ghost use Rattle.meaning.specs.Formatters.{chart_set, len, of_integer, position, size};
ghost use Rattle.store.specs.Stores.{Known, value as value_in};
ghost use Rattle.hosts.specs.Answers.{AllKnown, Answers, Within, blame_of, fitted, values_in, written};
ghost use Rattle.formatters.specs.ChartTexts.{chart_texts};

use crate::position::{Axis, LAT, LON};
use crate::reasons::{NO_FORMATTER, NO_FUNCTION, WRONG_COUNT, WRONG_KIND};
use hosts::answer::{Argument, CallableKind, Refusal, Unmade, Unwritten};
use hosts::callables::Callables;
use store::cell::Ref;
use store::kinds::Kind;
use store::memory::Store;

/// The function `len`, and the formatters `lat` and `lon`.
#[derive(Clone, Copy)]
pub struct ChartSet;

impl Callables for ChartSet {
    ghost named = { λ _ name. chart_set name };

    ghost texts = { λ _ name. chart_texts name };

    fn kind(&self, name: &[u8]) -> Option<CallableKind> {
        match name {
            b"len" => Some(CallableKind::Function),
            b"lat" | b"lon" => Some(CallableKind::Formatter),
            _ => None,
        }
    }

    fn format(
        &self,
        name: &[u8],
        store: &Store,
        value: Ref,
        buffer: &mut [u8],
    ) -> Result<usize, Unwritten> {
        match name {
            b"lat" => write_position(LAT, store, value, buffer),
            b"lon" => write_position(LON, store, value, buffer),
            _ => Err(Unwritten::Refused(NO_FORMATTER)),
        }
    }

    fn call(
        &self,
        name: &[u8],
        args: &[Argument],
        store: &mut Store,
    ) -> Result<Ref, Unmade<Refusal>> {
        match name {
            b"len" => make_len(args, store),
            _ => Err(Unmade::Refused(NO_FUNCTION)),
        }
    }
}

/// Writes an integer as a position along the axis. Another kind of value is none.
fn write_position(
    axis: Axis,
    store: &Store,
    value: Ref,
    buffer: &mut [u8],
) -> Result<usize, Unwritten>
    requires { Known store.now value }
    ensures answers { written result buffer.new ≡ fitted (length buffer.old) (of_integer (position axis.width axis.limit (axis.positive ∷ []) (axis.negative ∷ [])) (value_in store.now value)) }
    ensures within { Within result buffer.old }
{
    if store.kind(value) != Kind::Integer {
        return Err(Unwritten::Refused(WRONG_KIND));
    }
    axis.write(store.integer(value), buffer)
}

/// The function `len`.
fn make_len(args: &[Argument], store: &mut Store) -> Result<Ref, Unmade<Refusal>>
    requires { AllKnown store.old args.now }
    ensures { Answers blame_of store.old store.new (len (values_in store.old args.now)) result }
{
    let [argument] = args else {
        return Err(Unmade::Refused(Refusal {
            reason: WRONG_COUNT,
            argument: None,
        }));
    };
    make_size(argument.value, store)
}

/// The number of bytes of a string, or of parts of a list or map, as a value in the store. Another kind of value is to blame.
#[tactic(auto, using(crate::proofs::Made::size_made))]
fn make_size(value: Ref, store: &mut Store) -> Result<Ref, Unmade<Refusal>>
    requires { Known store.old value }
    ensures { Answers blame_of store.old store.new (size (value_in store.old value)) result }
{
    match store.kind(value) {
        Kind::String | Kind::List | Kind::Map => {
            let size = store.size(value);
            store.make_integer(size as i64).or(Err(Unmade::Full))
        }
        _ => Err(Unmade::Refused(Refusal {
            reason: WRONG_KIND,
            argument: Some(0),
        })),
    }
}
