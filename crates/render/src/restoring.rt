//! The tally of the values in use, put back when a rendering is over.

ghost use Rattle.std.specs.Prelude.{◌≡◌};

use store::memory::Tally;

/// A tally that is lent to a rendering. However that ends, it stands where it did before.
pub struct Restore<'m> {
    pub tally: &'m mut Tally,
    at: Tally,
}

impl<'m> Restore<'m> {
    pub fn new(tally: &'m mut Tally) -> Restore<'m>
        ensures same { result.tally.ghost_name ≡ tally.entry.ghost_name }
        ensures lent { result.tally.now ≡ tally.old }
        ensures at { result.at ≡ tally.old }
    {
        let at = *tally;
        Restore { tally, at }
    }
}

impl Drop for Restore<'_> {
    fn drop(self)
        ensures { self.exit.0.now ≡ self.entry.at }
    {
        let Restore { tally, at } = self;
        *tally = at;
    }
}
