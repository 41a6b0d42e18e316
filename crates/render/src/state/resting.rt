//! Between statements nothing stands on the values, and the tally is at the floor of the top scope.

ghost use Rattle.std.specs.Prelude.{◌≡◌, ◌<◌, [], length};
ghost use Rattle.stack.specs.Entries.{entries};
ghost use Rattle.render.specs.Keeping.{Keeps};
ghost use Rattle.render.specs.States.{Rests, Same, Sound};

use super::RenderState;

impl<K> RenderState<'_, K> {
    /// Frees what the statement that ends here has used.

    pub(crate) fn end_statement(&mut self)
        requires sound { Sound self.old }
        requires scoped { 0 < length (entries self.old.scopes) }
        requires clear { entries self.old.values ≡ [] }
        ensures sound { Sound self.new }
        ensures same { Same self.old self.new }
        ensures keeps { Keeps self.old self.new }
        ensures rests { Rests self.old self.new }
    {
        let Some(top) = self.scopes.top() else {
            unreachable()
        };
        self.store.free_to(top.floor);
    }
}
