//! Tests of the templates that an engine holds.

#![tactic(auto)]

#[cfg(test)]
mod holding;

#[cfg(test)]
mod tests {
    use super::holding::{Held, ONE_RAW, TWO_RAWS, fault, found, names, opened};
    use meaning::fault::Cause;
    use std::test::Fail;

    // A full table refuses another name and replaces an equal one; and a removal makes room.
    #[test]
    fn sixteen_templates_are_held(rt: HostRuntime) -> Result<(), Fail> {
        let heap = rt.alloc();
        let mut templates = opened(heap, 262144, 16384)?.expect(&rt, "enough memory");
        for letter in b'a'..b'q' {
            assert_eq!(rt; fault(templates.add(&[letter], &[letter], &ONE_RAW)), None);
        }
        assert_eq!(rt;
            fault(templates.add(b"q", b"q", &TWO_RAWS)),
            Some((Cause::TemplatesFull, 0))
        );
        assert_eq!(rt; fault(templates.add(b"b", b"B", &TWO_RAWS)), None);
        assert!(rt; names(heap, &templates)?.as_slice() == b"abcdefghijklmnop".as_slice());
        assert_eq!(rt; fault(templates.remove(b"a")), None);
        assert_eq!(rt; fault(templates.add(b"q", b"Q", &TWO_RAWS)), None);
        assert!(rt; names(heap, &templates)?.as_slice() == b"bcdefghijklmnopq".as_slice());
        for letter in b'c'..b'q' {
            assert_eq!(rt; found(&templates, &[letter]), Some(Held::new(letter, 1)));
        }
        assert_eq!(rt; found(&templates, b"b"), Some(Held::new(b'B', 2)));
        assert_eq!(rt; found(&templates, b"q"), Some(Held::new(b'Q', 2)));
        assert_eq!(rt; found(&templates, b"a"), None);
        Ok(())
    }

    // A raw has 5 bytes; and 1,024 of them, the most instructions of a program, leave room in the tree.
    #[test]
    fn the_largest_template_stays_in_its_place(rt: HostRuntime) -> Result<(), Fail> {
        let heap = rt.alloc();
        let mut templates = opened(heap, 262144, 16384)?.expect(&rt, "enough memory");
        let source = vec![in heap; b's'; 8192]?;
        let mut tree = Vec::new(heap);
        for _ in 0..1024 {
            tree.extend_from_slice(&[0x01, 0, 0, 1, 0])?;
        }
        tree.push(0x0A)?;
        for (name, source, tree) in [
            (b"first".as_slice(), b"f".as_slice(), ONE_RAW.as_slice()),
            (b"large", source.as_slice(), tree.as_slice()),
            (b"last", b"l", &TWO_RAWS),
        ] {
            assert_eq!(rt; fault(templates.add(name, source, tree)), None);
        }
        for (name, source, raws) in [
            (b"first".as_slice(), b'f', 1),
            (b"large", b's', 1024),
            (b"last", b'l', 2),
        ] {
            assert_eq!(rt; found(&templates, name), Some(Held::new(source, raws)));
        }
        Ok(())
    }

    // The tree comes first, then the name, then the room or the search.
    #[test]
    fn refusals_come_in_order(rt: HostRuntime) -> Result<(), Fail> {
        let heap = rt.alloc();
        let mut templates = opened(heap, 262144, 16384)?.expect(&rt, "enough memory");
        let longest = [b'n'; 32];
        let longer = [b'n'; 33];
        for (name, tree, want) in [
            (
                b"".as_slice(),
                b"\x0A\x0A".as_slice(),
                Some((Cause::Malformed, 1)),
            ),
            (&longer, b"\x0A", Some((Cause::BadName, 0))),
            (&longest, b"\x0A", None),
        ] {
            assert_eq!(rt; fault(templates.add(name, b"a", tree)), want);
        }
        for (name, want) in [
            (longer.as_slice(), Some((Cause::BadName, 0))),
            (b"n", Some((Cause::UnknownName, 0))),
            (&longest, None),
            (&longest, Some((Cause::UnknownName, 0))),
        ] {
            assert_eq!(rt; fault(templates.remove(name)), want);
        }
        assert_eq!(rt; templates.len(), 0);
        Ok(())
    }

    #[test]
    fn memory_may_be_too_little(rt: HostRuntime) -> Result<(), Fail> {
        let heap = rt.alloc();
        assert!(rt; matches!(opened(heap, 262143, 16384)?, Err(Cause::StoreFull)));
        assert!(rt; matches!(opened(heap, 262144, 16383)?, Err(Cause::StoreFull)));
        assert!(rt; opened(heap, 262145, 16385)?.is_ok());
        Ok(())
    }
}
