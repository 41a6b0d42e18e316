//! A bounded stack over lent memory, one text for every kind of entry.

#![tactic(auto)]

ghost use Rattle.std.specs.Prelude.{◌≤◌, length};

pub mod entries;

/// The first `len` slots hold the entries, the newest last.
// No heap: the slots are lent, so that a slice and a count stand in the place of a `Vec`.
#[derive(Drop)]
pub struct Stack<'m, T> {
    slots: &'m mut [T],
    len: usize,
    ghost inside: { len ≤ length slots.now },
}

/// Every slot is taken.
#[derive(Clone, Copy, PartialEq, Debug)]
pub struct Full;

#[cfg(test)]
mod tests {
    use super::*;
    use std::test::Fail;

    #[test]
    fn entries_come_off_newest_first(rt: HostRuntime) {
        let mut slots = [0u8; 3];
        let mut stack = Stack::new(&mut slots);
        assert_eq!(rt; stack.pop(), None);
        assert_eq!(rt; stack.push(1), Ok(()));
        assert_eq!(rt; stack.push(2), Ok(()));
        assert_eq!(rt; stack.push(3), Ok(()));
        assert_eq!(rt; stack.push(4), Err(Full));
        assert_eq!(rt; stack.len(), 3);
        assert_eq!(rt; stack.top(), Some(3));
        assert_eq!(rt; stack.get(2), Some(1));
        assert_eq!(rt; stack.get(3), None);
        assert_eq!(rt; stack.replace(5), Some(3));
        assert_eq!(rt; stack.pop(), Some(5));
        assert_eq!(rt; stack.pop(), Some(2));
    }

    #[test]
    fn the_newest_keep_their_order(rt: HostRuntime) -> Result<(), Fail> {
        let mut slots = [0u8; 4];
        let mut stack = Stack::new(&mut slots);
        for entry in 1..5 {
            assert_eq!(rt; stack.push(entry), Ok(()));
        }
        assert!(rt; stack.newest(5).is_none());
        assert!(rt; stack.newest(0).ok_or("none")?.is_empty());
        assert!(rt; stack.newest(2).ok_or("too few")? == [3, 4].as_slice());
        stack.discard(2);
        assert_eq!(rt; stack.top(), Some(2));
        stack.truncate(1);
        assert_eq!(rt; stack.top(), Some(1));
        stack.clear();
        assert_eq!(rt; stack.len(), 0);
        Ok(())
    }
}
