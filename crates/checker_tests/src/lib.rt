//! Tests of the checker on whole trees.

#![tactic(auto)]

#[cfg(test)]
mod trees;

#[cfg(test)]
mod tests {
    use super::trees::{all_commands, nested_ifs, of_length, said};
    use meaning::fault::Cause;
    use std::test::Fail;

    // The innermost of 15 ifs stands behind 14 others of 14 bytes each.
    #[test]
    fn ifs_nest_fourteen_deep(rt: HostRuntime) -> Result<(), Fail> {
        let heap = rt.alloc();
        assert_eq!(rt; said(b"ab", nested_ifs(heap, 14)?.as_slice()), None);
        assert_eq!(rt;
            said(b"ab", nested_ifs(heap, 15)?.as_slice()),
            Some((Cause::TooDeep, 14 * 14))
        );
        Ok(())
    }

    #[test]
    fn trees_have_8192_bytes(rt: HostRuntime) -> Result<(), Fail> {
        let heap = rt.alloc();
        let longest = of_length(heap, 8192)?;
        assert_eq!(rt; longest.len(), 8192);
        assert_eq!(rt; said(b"ab", longest.as_slice()), None);
        let longer = of_length(heap, 8193)?;
        assert_eq!(rt; longer.len(), 8193);
        assert_eq!(rt; said(b"ab", longer.as_slice()), Some((Cause::Malformed, 0)));
        Ok(())
    }

    #[test]
    fn sources_have_8192_bytes(rt: HostRuntime) -> Result<(), Fail> {
        let heap = rt.alloc();
        let longest = vec![in heap; b'a'; 8192]?;
        assert_eq!(rt; said(longest.as_slice(), b"\x0A"), None);
        let longer = vec![in heap; b'a'; 8193]?;
        assert_eq!(rt;
            said(longer.as_slice(), b"\x0A"),
            Some((Cause::BadSource, 0))
        );
        Ok(())
    }

    // The tree has every command once.
    #[test]
    fn every_command_is_taken(rt: HostRuntime) -> Result<(), Fail> {
        let tree = all_commands(rt.alloc())?;
        assert_eq!(rt; said(b"ab", tree.as_slice()), None);
        Ok(())
    }

    #[test]
    fn every_cut_is_refused(rt: HostRuntime) -> Result<(), Fail> {
        let tree = all_commands(rt.alloc())?;
        for len in 0..tree.len() {
            let (front, _) = tree.as_slice().split_at(len);
            let (cause, offset) = said(b"ab", front).ok_or_else(|| Fail::new(
                "a cut tree was taken",
            ))?;
            assert_eq!(rt; cause, Cause::Malformed);
            assert!(rt; offset <= len);
        }
        Ok(())
    }

    // Only the end of statements is a tree of one byte.
    #[test]
    fn one_byte_is_no_tree_but_0a(rt: HostRuntime) -> Result<(), Fail> {
        for byte in 0..=255u8 {
            let expected = match byte {
                0x0A => None,
                0x02 => Some((Cause::Malformed, 1)),
                _ => Some((Cause::Malformed, 0)),
            };
            assert_eq!(rt; said(b"ab", &[byte]), expected);
        }
        Ok(())
    }
}
