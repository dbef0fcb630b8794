// The published example by elimination, lean and full, and memory that is too short.
#[cfg(test)]
mod tests {
    use gf2::kinds::{Pair, Word};
    use gf2::marked::Marked;
    use gf2::row::{Block, Row};
    use gf2::rows::Rows;
    use gf2::sets::CellSet;
    use gf2::sizes::RowSize;
    use std::process::Abort;
    use std::test::Fail;

    // The cells of "cat", "fish", "dog" and 01200000, and check × 4 + notice of the first three.
    const CAT: [usize; 3] = [0, 1, 3];

    const FISH: [usize; 1] = [3];

    const DOG: [usize; 1] = [2];

    const DEPENDENT: [usize; 3] = [0, 1, 2];

    fn set(cells: &[usize]) -> CellSet {
        cells
            .iter()
            .fold(CellSet::empty(), |set, cell| set.toggled(*cell))
    }

    fn block(bound: CellSet) -> Block {
        Block {
            start: 0,
            n: 4,
            bound,
        }
    }

    // What is left of an entry.
    fn left<K: Marked>(
        records: &mut [Row<K>],
        bound: CellSet,
        cells: &[usize],
        word: u64,
    ) -> Option<Row<K>> {
        let row = Row {
            cells: set(cells),
            answer: K::of_word(word),
        };
        Rows::over(records).reduce(block(bound), row)
    }

    // The bound set after an entry that takes the slot.
    fn entered<K: Marked>(
        records: &mut [Row<K>],
        bound: CellSet,
        cells: &[usize],
        word: u64,
        slot: usize,
    ) -> CellSet {
        match left(records, bound, cells, word) {
            Some(row) => Rows::over(records).bind(
                block(bound),
                Row {
                    cells: row.cells,
                    answer: row.answer.marked(slot),
                },
            ),
            None => bound,
        }
    }

    // The bound set after the three entries, in records that held something else before.
    fn published<K: Marked>(records: &mut [Row<K>]) -> CellSet {
        let bound = entered(records, CellSet::empty(), &CAT, 16, 0);
        let bound = entered(records, bound, &FISH, 9, 1);
        entered(records, bound, &DOG, 26, 2)
    }

    // A record as it may be found in lent memory.
    fn old<K: Marked>() -> Row<K> {
        Row {
            cells: set(&DEPENDENT),
            answer: K::of_word(77),
        }
    }

    // The words of the block after the three entries, and whether cell 1 is bound.
    fn table<K: Marked>(rt: &impl Abort, records: &mut [Row<K>]) {
        let bound = published(records);
        let mut words = [7; 4];
        assert!(rt; Rows::over(records).fill(block(bound), &mut words).is_ok());
        assert_eq!(rt; words, [25, 0, 26, 9]);
        assert!(rt; !bound.contains(1));
    }

    #[test]
    fn table_of_a_lean_block(rt: HostRuntime) {
        table(&rt, &mut [old::<Word>(); 4]);
    }

    #[test]
    fn table_of_a_full_block(rt: HostRuntime) {
        table(&rt, &mut [old::<Pair<Word, CellSet>>(); 4]);
    }

    // 01200000 has check 0. With notice 3 it follows from the three; with notice 0 it contradicts them, all three to blame.
    #[test]
    fn dependent_and_conflict(rt: HostRuntime) -> Result<(), Fail> {
        let mut records = [old::<Pair<Word, CellSet>>(); 4];
        let bound = published(&mut records);
        let Some(follows) = left(&mut records, bound, &DEPENDENT, 3) else {
            return Err(Fail::new("rows"));
        };
        assert!(rt; follows.cells.is_empty());
        assert_eq!(rt; follows.answer.word(), 0);
        let Some(contradicts) = left(&mut records, bound, &DEPENDENT, 0) else {
            return Err(Fail::new("rows"));
        };
        assert!(rt; contradicts.cells.is_empty());
        assert_eq!(rt; contradicts.answer.word(), 3);
        let slots = contradicts.answer.slots();
        assert!(rt; slots.contains(0) && slots.contains(1) && slots.contains(2));
        assert_eq!(rt; slots, set(&DEPENDENT));
        assert!(rt; slots.symmetric_difference(set(&DEPENDENT)).is_empty());
        Ok(())
    }

    #[test]
    fn too_few_records(rt: HostRuntime) {
        let mut records = [old::<Word>(); 3];
        assert!(rt; left(&mut records, CellSet::empty(), &CAT, 16).is_none());
        let mut words = [7; 4];
        assert!(rt;
            Rows::over(&mut records)
                .fill(block(CellSet::empty()), &mut words)
                .is_err()
        );
        assert_eq!(rt; words, [7; 4]);
    }

    #[test]
    fn bytes_of_a_row(rt: HostRuntime) {
        assert_eq!(rt; Word::row_size(), 40);
        assert_eq!(rt; Pair::<Word, CellSet>::row_size(), 72);
    }
}
