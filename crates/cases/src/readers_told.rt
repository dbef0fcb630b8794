// What the three readers tell: the published clauses, clauses worked out independently, and refusals.
ghost use Rattle.std.specs.Prelude.{◌≡◌};

#[cfg(test)]
mod tests {
    use crate::given::{CAT, DOG, FISH, HORSE, shape};
    use readers::clause::Clause;
    use readers::fold::Fold;
    use readers::reader::Reader;
    use readers::split::Split;
    use readers::stream::Stream;
    use shapes::fault::Refusal;
    use std::process::Abort;
    use std::test::Fail;

    // The clause that is told must have this block, these cells and this check.
    fn tells(
        rt: &impl Abort,
        told: Result<Clause, Refusal>,
        block: u16,
        cells: [u64; 4],
        check: u32,
    ) -> Result<(), Fail> {
        let clause = told?;
        assert_eq!(rt; clause.block, block);
        assert_eq!(rt; clause.cells.words(), cells);
        for c in 0..256 {
            assert_eq!(rt;
                clause.cells.contains(c),
                (cells[c / 64] >> (c % 64)) % 2 == 1
            );
        }
        assert_eq!(rt; clause.check, check);
        Ok(())
    }

    fn refuses(rt: &impl Abort, told: Result<Clause, Refusal>, reason: u16, place: u32, depth: u8) {
        let refusal = Refusal {
            reason,
            place,
            depth,
        };
        assert_eq!(rt; told.err(), Some(refusal));
    }

    #[test]
    fn published_clauses(rt: HostRuntime) -> Result<(), Fail> {
        let small = shape([4, 3, 3, 2, 1])?;
        tells(&rt, Split.read(&small, &CAT), 0, [0b1011, 0, 0, 0], 4)?;
        tells(&rt, Split.read(&small, &FISH), 0, [0b1000, 0, 0, 0], 2)?;
        tells(&rt, Split.read(&small, &DOG), 0, [0b0100, 0, 0, 0], 6)?;
        tells(&rt, Split.read(&small, &HORSE), 0, [0b1000, 0, 0, 0], 7)
    }

    #[test]
    fn split_admits(rt: HostRuntime) -> Result<(), Fail> {
        assert!(rt; Split.admits(&shape([16, 6, 4, 32, 16])?));
        assert!(rt; !Split.admits(&shape([17, 6, 4, 32, 16])?));
        assert!(rt; !Split.admits(&shape([16, 7, 4, 32, 16])?));
        assert!(rt; !Split.admits(&shape([16, 6, 5, 32, 16])?));
        assert!(rt; !Split.admits(&shape([16, 6, 4, 32, 17])?));
        Ok(())
    }

    #[test]
    fn split_refuses(rt: HostRuntime) -> Result<(), Fail> {
        let small = shape([4, 3, 3, 2, 1])?;
        refuses(&rt, Split.read(&small, b""), 1, 0, 0);
        refuses(&rt, Split.read(&small, b"cat"), 1, 3, 0);
        refuses(&rt, Split.read(&small, &[0; 64]), 1, 64, 0);
        refuses(&rt, Split.read(&small, &[0; 65]), 0, 0, 0);
        refuses(&rt, Split.read(&shape([4, 7, 3, 2, 1])?, b"cat!"), 0, 0, 0);
        Ok(())
    }

    #[test]
    fn stream_clauses(rt: HostRuntime) -> Result<(), Fail> {
        let large = shape([256, 8, 32, 32, 64])?;
        let salted = Stream {
            salt: 0x0123456789abcdef,
        };
        tells(
            &rt,
            salted.read(&large, b"SN-2026-000417"),
            9,
            [576460752307617792, 1130299027095616, 32, 562949953421312],
            743651644,
        )?;
        tells(
            &rt,
            Stream { salt: 0 }.read(&shape([100, 5, 16, 16, 7])?, b""),
            0,
            [34366030084, 0, 0, 0],
            4527,
        )?;
        refuses(&rt, salted.read(&large, &[0x41; 65]), 0, 0, 0);
        Ok(())
    }

    #[test]
    fn fold_drops_and_raises(rt: HostRuntime) -> Result<(), Fail> {
        let large = shape([256, 8, 32, 32, 64])?;
        let salted = Stream {
            salt: 0x0123456789abcdef,
        };
        let cells = [17592186044672, 130, 262144, 141012366786560];
        tells(
            &rt,
            Fold(salted).read(&large, b"SN-2026-000417"),
            24,
            cells,
            3911399352,
        )?;
        tells(
            &rt,
            Fold(Fold(salted)).read(&large, b" sn 2026--000417 "),
            24,
            cells,
            3911399352,
        )
    }

    #[test]
    fn fold_refuses(rt: HostRuntime) -> Result<(), Fail> {
        let small = shape([4, 3, 3, 2, 1])?;
        let pile = Fold(Fold(Split));
        refuses(&rt, pile.read(&small, &[0x41, 0x1f, 0x7f]), 2, 1, 0);
        refuses(&rt, pile.read(&small, &[0x20, 0x7e, 0x7f]), 2, 2, 0);
        refuses(&rt, pile.read(&small, b"a b-c"), 1, 3, 2);
        refuses(&rt, pile.read(&small, &[0x41; 65]), 0, 0, 0);
        refuses(&rt, pile.read(&shape([17, 3, 3, 2, 1])?, b"cat!"), 0, 0, 0);
        Ok(())
    }
}
