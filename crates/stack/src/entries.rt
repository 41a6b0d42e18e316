ghost use Rattle.std.specs.Prelude.{◌≡◌, ◌-◌, ◌<◌, [], length, drop, slice_index_or};
ghost use Rattle.stack.specs.Entries.{entries, room, Kept, Pushed, Popped, Replaced, At, Newest};

use crate::{Full, Stack};
use std::mem::replace;

// `Kept` ties what a call leaves to what it found, which no field of one stack can say: each call that changes a stack names it.
impl<'m, T: Copy> Stack<'m, T> {
    /// An empty stack with room for as many entries as there are slots.
    #[tactic(auto, unfolding(crate::specs::Entries::newest_first))]
    pub fn new(slots: &'m mut [T]) -> Stack<'m, T>
        ensures empty { entries result ≡ [] }
        ensures room { room result ≡ length slots.old }
        ensures lender { result.slots.ghost_name ≡ slots.entry.ghost_name }
    {
        Stack { slots, len: 0 }
    }

    #[tactic(auto, using(crate::proofs::Newest::length_newest))]
    pub fn len(&self) -> usize
        ensures { result ≡ length (entries self.now) }
    {
        self.len
    }

    /// Puts an entry on top, unless every slot is taken.
    #[tactic(auto, using(crate::proofs::Newest::has_room, crate::proofs::Newest::no_room, crate::proofs::Newest::one_more))]
    pub fn push(&mut self, entry: T) -> Result<(), Full>
        ensures kept { Kept self.old self.new }
        ensures pushed { Pushed (room self.old) entry result (entries self.old) (entries self.new) }
    {
        // a test and not `get_mut`: of a write through that, a proof knows only the slice's length
        if self.len >= self.slots.len() {
            return Err(Full);
        }
        self.slots[self.len] = entry;
        self.len += 1;
        Ok(())
    }

    /// Takes the entry on top.
    #[tactic(auto, using(crate::proofs::Newest::none, crate::proofs::Newest::newest_and_rest))]
    pub fn pop(&mut self) -> Option<T>
        ensures kept { Kept self.old self.new }
        ensures popped { Popped result (entries self.old) (entries self.new) }
    {
        self.len = self.len.checked_sub(1)?;
        Some(self.slots[self.len])
    }

    /// The entry on top.
    pub fn top(&self) -> Option<T>
        ensures { At 0 result (entries self.now) }
    {
        self.get(0)
    }

    /// The entry under `i` newer ones.
    #[tactic(auto, using(crate::proofs::Newest::length_newest, crate::proofs::Newest::past, crate::proofs::Newest::at))]
    pub fn get(&self, i: usize) -> Option<T>
        ensures { At i result (entries self.now) }
    {
        let at = self.len.checked_sub(1)?.checked_sub(i)?;
        Some(self.slots[at])
    }

    /// Puts another entry in the place of the one on top, which is answered.
    #[tactic(auto, using(crate::proofs::Newest::none, crate::proofs::Newest::newest_and_others, crate::proofs::Newest::newest_replaced))]
    pub fn replace(&mut self, entry: T) -> Option<T>
        ensures kept { Kept self.old self.new }
        ensures replaced { Replaced entry result (entries self.old) (entries self.new) }
    {
        let at = self.len.checked_sub(1)?;
        let slots = &mut *self.slots;
        Some(replace(&mut slots[at], entry))
    }

    /// The newest `n` entries in the order in which they came.
    #[tactic(auto, using(crate::proofs::Newest::length_newest, crate::proofs::Newest::newest_part))]
    pub fn newest(&self, n: usize) -> Option<&[T]>
        ensures { Newest n result (entries self.now) }
    {
        let start = self.len.checked_sub(n)?;
        Some(&self.slots[start..self.len])
    }

    /// Takes the newest `n` entries off, or all if there are fewer.
    #[tactic(auto, using(crate::proofs::Newest::without, crate::proofs::Newest::none))]
    pub fn discard(&mut self, n: usize)
        ensures kept { Kept self.old self.new }
        ensures left { entries self.new ≡ drop n (entries self.old) }
    {
        self.len = self.len.saturating_sub(n);
    }

    /// Takes entries off until there are at most `len`.
    #[tactic(auto, using(crate::proofs::Newest::length_newest))]
    pub fn truncate(&mut self, len: usize)
        ensures kept { Kept self.old self.new }
        ensures left { entries self.new ≡ drop (length (entries self.old) - len) (entries self.old) }
    {
        self.discard(self.len.saturating_sub(len));
    }

    #[tactic(auto, unfolding(crate::specs::Entries::newest_first))]
    pub fn clear(&mut self)
        ensures kept { Kept self.old self.new }
        ensures empty { entries self.new ≡ [] }
    {
        self.len = 0;
    }
}
