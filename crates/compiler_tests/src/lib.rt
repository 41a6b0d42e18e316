//! Tests of the compiler on whole trees.

#![tactic(auto)]

#[cfg(test)]
mod trees;

#[cfg(test)]
mod tests {
    use super::trees::{Ended, loops, raws, said, unwritten};
    use meaning::fault::Cause;
    use std::test::Fail;

    // A raw has 5 bytes and one instruction, whose operand stands behind the first of them.
    #[test]
    fn programs_have_1024_instructions(rt: HostRuntime) -> Result<(), Fail> {
        let heap = rt.alloc();
        let mut instrs = vec![in heap; unwritten(); 1025]?;
        let longest = raws(heap, 1024)?;
        assert_eq!(rt;
            said(longest.as_slice(), instrs.as_mut_slice()),
            Ended::Written(1024)
        );
        assert_eq!(rt; instrs[1023].at, 1023 * 5 + 1);
        assert_eq!(rt; instrs[1024].at, 9);
        let longer = raws(heap, 1025)?;
        assert_eq!(rt;
            said(longer.as_slice(), instrs.as_mut_slice()),
            Ended::Fault(Cause::TooManyInstructions, 1025)
        );
        Ok(())
    }

    #[test]
    fn a_short_slice_stays_as_it_was(rt: HostRuntime) -> Result<(), Fail> {
        let heap = rt.alloc();
        let mut instrs = vec![in heap; unwritten(); 2]?;
        let tree = raws(heap, 3)?;
        assert_eq!(rt;
            said(tree.as_slice(), instrs.as_mut_slice()),
            Ended::Short(3)
        );
        assert_eq!(rt; instrs[0].at, 9);
        assert_eq!(rt; instrs[1].at, 9);
        Ok(())
    }

    // 682 loops and the literal fill the 8,192 bytes of a tree.
    #[test]
    fn the_longest_program_is_counted_to_its_end(rt: HostRuntime) -> Result<(), Fail> {
        let heap = rt.alloc();
        let mut instrs = vec![in heap; unwritten(); 2]?;
        let tree = loops(heap, 682)?;
        assert_eq!(rt; tree.len(), 8192);
        assert_eq!(rt;
            said(tree.as_slice(), instrs.as_mut_slice()),
            Ended::Fault(Cause::TooManyInstructions, 682 * 4 + 2)
        );
        Ok(())
    }

    // The literal, LoopStart, LoopNext and the jump back to it; then the literal and its Emit.
    #[test]
    fn a_loop_is_left_behind_its_back_jump(rt: HostRuntime) -> Result<(), Fail> {
        let heap = rt.alloc();
        let mut instrs = vec![in heap; unwritten(); 6]?;
        let tree = loops(heap, 1)?;
        assert_eq!(rt;
            said(tree.as_slice(), instrs.as_mut_slice()),
            Ended::Written(6)
        );
        assert_eq!(rt; instrs[2].target, 4);
        assert_eq!(rt; instrs[3].target, 2);
        Ok(())
    }
}
