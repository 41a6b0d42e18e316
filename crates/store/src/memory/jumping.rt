//! The jumps of lists, and of maps whose keys went in ascending: each leads to a beginning of the list or map further down.

ghost use Rattle.std.specs.Prelude.{◌≡◌, ◌<◌, ◌≤◌, true, slice_index_or};
ghost use Rattle.meaning.specs.Value.{none};
ghost use Rattle.store.specs.Jumps.{jump_at, jumps_from};
ghost use Rattle.store.specs.Kinds.{size_of};
ghost use Rattle.store.specs.Stores.{cells_of, used, values_of};

use super::Store;
use crate::cell::Cell;

impl Store<'_> {
    /// Where a cell jumps to. One that has no jump stays where it is.
    fn jump_at(&self, at: u16) -> u16
        requires { at < (used self.now).cells }
        ensures same { result ≡ jump_at (cells_of self.now) at }
        ensures low { result ≤ at }
        ensures fewer { size_of (slice_index_or (values_of self.now) result none) ≤ size_of (slice_index_or (values_of self.now) at none) }
    {
        match self.cell(at) {
            Cell::Push { jump, .. }
            | Cell::Insert {
                jump,
                sorted: true,
                ..
            } => jump,
            _ => at,
        }
    }

    /// Where a cell jumps to that comes on that one. It takes two jumps where both are as long, and else goes to `front`
    /// alone: so any part is reached in as many steps as the count has binary digits, or a few times that.
    pub(super) fn jump_over(&self, front: u16) -> u16
        requires { front < (used self.now).cells }
        ensures from { jumps_from (cells_of self.now) front result ≡ true }
        ensures low { result ≤ front }
    {
        let near = self.jump_at(front);
        let far = self.jump_at(near);
        let first = self.size_at(front) - self.size_at(near);
        let second = self.size_at(near) - self.size_at(far);
        if first == second { far } else { front }
    }
}
