//! Callables: formatters and functions by name.

ghost use Rattle.std.specs.Prelude.{◌≡◌, length, Some};
ghost use Rattle.meaning.specs.Hosts.{Callable};
ghost use Rattle.meaning.specs.Value.{Text};
ghost use Rattle.store.specs.Stores.{Known, value as value_in};
ghost use Rattle.hosts.specs.Answers.{AllKnown, Answers, CallableTexts, Within, blame_of, fitted, formatter_of, function_of, kind_of, values_in, written};

use crate::answer::{Argument, CallableKind, Refusal, Unmade, Unwritten};
use store::cell::Ref;
use store::memory::Store;

/// What names stand for. Being asked changes nothing.
pub trait Callables {
    ghost named: { Self → Text → Callable };

    /// Texts and values are well-formed, if those given are.
    ghost texts: { (self : Self) (name : Text) → CallableTexts (named self name) };

    fn kind(&self, name: &[u8]) -> Option<CallableKind>
        ensures { result ≡ kind_of (named self.now name.now) };

    /// The formatter of that name: it writes the text to the front of the buffer and answers its length. Where the name stands
    /// for none it refuses with reason 0.
    fn format(
        &self,
        name: &[u8],
        store: &Store,
        value: Ref,
        buffer: &mut [u8],
    ) -> Result<usize, Unwritten>
        requires known { Known store.now value }
        ensures answers { written result buffer.new ≡ fitted (length buffer.old) (formatter_of (named self.now name.now) (value_in store.now value)) }
        ensures within { Within result buffer.old };

    /// The function of that name: its answer is made in the store, and charged whole. Where the name stands for none it
    /// refuses with reason 0 and blames no argument.
    fn call(
        &self,
        name: &[u8],
        args: &[Argument],
        store: &mut Store,
    ) -> Result<Ref, Unmade<Refusal>>
        requires known { AllKnown store.old args.now }
        ensures { Answers blame_of store.old store.new (function_of (named self.now name.now) (values_in store.old args.now)) result };
}
