// Drafts: the published example with lean and full rows, faults in their order, and several blocks.
#[cfg(test)]
mod tests {
    use crate::given::{CAT, DOG, FISH, HORSE, IMAGE, shape};
    use drafts::{DEPENDENT, Draft};
    use gf2::kinds::{Pair, Word};
    use gf2::marked::Marked;
    use gf2::row::Row;
    use gf2::sets::CellSet;
    use readers::split::Split;
    use readers::stream::{Stream, fnv1a};
    use shapes::fault::{Caller, Fault, Refusal};
    use std::process::Abort;
    use std::test::Fail;
    use table::{Reply, ask_image};

    // A word with a slot set: what a full row carries.
    type Full = Pair<Word, CellSet>;

    // A row as it may be found in lent memory.
    fn old<K: Marked>() -> Row<K> {
        Row {
            cells: CellSet::empty().toggled(1).toggled(3).toggled(200),
            answer: K::of_word(77).marked(5),
        }
    }

    // The key must take this slot of the block, or be dependent.
    fn takes<K: Marked>(
        rt: &impl Abort,
        draft: &mut Draft<'_, K>,
        key: [u8; 4],
        notice: u32,
        answer: (u16, u16),
    ) -> Result<(), Fail> {
        assert_eq!(rt; draft.enter(&Split, &key, notice)?, answer);
        Ok(())
    }

    // What the key is refused with.
    fn refusal<K: Marked>(draft: &mut Draft<'_, K>, key: &[u8], notice: u32) -> Option<Fault> {
        draft.enter(&Split, key, notice).err()
    }

    // The image of a draft of the published shape.
    fn image<K: Marked>(rt: &impl Abort, draft: &Draft<'_, K>) -> Result<[u8; 12], Fail> {
        let mut buffer = [0xAA; 12];
        assert_eq!(rt; draft.write(&mut buffer)?, 12);
        Ok(buffer)
    }

    // The three keys of the published example, with their notices.
    fn publish<K: Marked>(rt: &impl Abort, draft: &mut Draft<'_, K>) -> Result<(), Fail> {
        takes(rt, draft, CAT, 0, (0, 0))?;
        takes(rt, draft, FISH, 1, (0, 1))?;
        takes(rt, draft, DOG, 2, (0, 2))
    }

    // Which of the block's first four cells are bound, and how many of all.
    fn bound<K: Marked>(draft: &Draft<'_, K>, block: u16) -> Result<([bool; 4], u16), Fail> {
        let cells = [
            draft.is_bound(block, 0)?,
            draft.is_bound(block, 1)?,
            draft.is_bound(block, 2)?,
            draft.is_bound(block, 3)?,
        ];
        Ok((cells, draft.count_bound(block)?))
    }

    #[test]
    fn published_image_in_two_orders(rt: HostRuntime) -> Result<(), Fail> {
        let mut rows = [old::<Full>(); 4];
        let mut draft = Draft::open(shape([4, 3, 3, 2, 1])?, &mut rows);
        assert_eq!(rt; bound(&draft, 0)?, ([false; 4], 0));
        publish(&rt, &mut draft)?;
        assert_eq!(rt; bound(&draft, 0)?, ([true, false, true, true], 3));
        assert_eq!(rt; image(&rt, &draft)?, IMAGE);
        let mut others = [old::<Full>(); 4];
        let mut turned = Draft::open(shape([4, 3, 3, 2, 1])?, &mut others);
        takes(&rt, &mut turned, DOG, 2, (0, 0))?;
        takes(&rt, &mut turned, FISH, 1, (0, 1))?;
        takes(&rt, &mut turned, CAT, 0, (0, 2))?;
        assert_eq!(rt; bound(&turned, 0)?, ([true, false, true, true], 3));
        assert_eq!(rt; image(&rt, &turned)?, IMAGE);
        Ok(())
    }

    // A key after the published three with its notice; the slot that it takes, or the slots that it is in conflict with; and the cells then.
    type Next = ([u8; 4], u32, Result<u16, u64>, [u8; 4]);

    const HELD: [u8; 4] = [25, 0, 26, 9];

    const NEXT: [Next; 9] = [
        ([0x01, 0x20, 0, 0], 3, Ok(DEPENDENT), HELD),
        ([0x01, 0x20, 0, 0], 0, Err(7), HELD),
        ([0x01, 0x21, 0, 0], 0, Err(7), HELD),
        ([0x01, 0x21, 0, 0], 1, Err(7), HELD),
        ([0x01, 0x21, 0, 0], 2, Err(7), HELD),
        ([0x01, 0x21, 0, 0], 3, Err(7), HELD),
        (FISH, 2, Err(2), HELD),
        (FISH, 1, Ok(DEPENDENT), HELD),
        ([0x11, 0x10, 0, 0], 1, Ok(3), [24, 1, 26, 9]),
    ];

    // Each time from the published three. Lean rows name no slots.
    fn comes_next<K: Marked>(
        rt: &impl Abort,
        rows: &mut [Row<K>],
        case: Next,
        named: bool,
    ) -> Result<(), Fail> {
        let (key, notice, answer, cells) = case;
        let mut draft = Draft::open(shape([4, 3, 3, 2, 1])?, rows);
        publish(rt, &mut draft)?;
        let told = draft.enter(&Split, &key, notice);
        let expected = match answer {
            Ok(slot) => Ok((0, slot)),
            Err(slots) => Err(Fault::Conflict(0, [if named { slots } else { 0 }, 0, 0, 0])),
        };
        assert!(rt; told == expected);
        let written = image(rt, &draft)?;
        assert_eq!(rt; &written[..8], &IMAGE[..8]);
        assert_eq!(rt; &written[8..], &cells[..]);
        Ok(())
    }

    // Each case from rows of old memory, and then from those that the case before left: what rows hold when a draft opens does not matter.
    fn each_comes_next<K: Marked>(
        rt: &impl Abort,
        rows: &mut [Row<K>],
        named: bool,
    ) -> Result<(), Fail> {
        for case in NEXT {
            for row in rows.iter_mut() {
                *row = old();
            }
            comes_next(rt, rows, case, named)?;
        }
        for case in NEXT {
            comes_next(rt, rows, case, named)?;
        }
        Ok(())
    }

    #[test]
    fn full_rows_name_the_slots(rt: HostRuntime) -> Result<(), Fail> {
        each_comes_next(&rt, &mut [old::<Full>(); 4], true)
    }

    #[test]
    fn lean_rows_name_none(rt: HostRuntime) -> Result<(), Fail> {
        each_comes_next(&rt, &mut [old::<Word>(); 4], false)
    }

    // Both draws fall on the only cell, so that no cell is left.
    #[test]
    fn no_cells_left(rt: HostRuntime) -> Result<(), Fail> {
        let mut rows = [old::<Full>(); 1];
        let mut draft = Draft::open(shape([1, 2, 1, 0, 1])?, &mut rows);
        takes(&rt, &mut draft, [0, 0, 0, 0], 0, (0, DEPENDENT))?;
        let conflict = refusal(&mut draft, &[0x00, 0x10, 0, 0], 0);
        assert!(rt; conflict == Some(Fault::Conflict(0, [0; 4])));
        assert_eq!(rt; draft.count_bound(0)?, 0);
        Ok(())
    }

    // The fault's number and place.
    fn named(fault: Option<Fault>) -> Option<(u8, u64)> {
        let fault = fault?;
        Some((fault.number(), fault.place()))
    }

    // Before everything else: the reader does not admit the shape, the key is too long, the notice too large, and so on.
    #[test]
    fn too_few_rows(rt: HostRuntime) -> Result<(), Fail> {
        let mut rows = [old::<Word>(); 3];
        let mut draft = Draft::open(shape([4, 7, 3, 2, 1])?, &mut rows);
        let mut buffer = [0xAA; 11];
        assert_eq!(rt; named(refusal(&mut draft, &[0; 65], 4)), Some((2, 4)));
        assert_eq!(rt; named(draft.is_bound(1, 4).err()), Some((2, 4)));
        assert_eq!(rt; named(draft.count_bound(1).err()), Some((2, 4)));
        assert_eq!(rt; named(draft.write(&mut buffer).err()), Some((2, 4)));
        assert_eq!(rt; buffer, [0xAA; 11]);
        Ok(())
    }

    #[test]
    fn faults_of_entering(rt: HostRuntime) -> Result<(), Fail> {
        let mut others = [old::<Word>(); 4];
        let mut draft = Draft::open(shape([4, 7, 3, 2, 1])?, &mut others);
        let apart = refusal(&mut draft, &[0; 65], 4);
        assert!(rt; apart == Some(Fault::NotAdmitted(Caller::Draft)));
        assert_eq!(rt; named(apart), Some((3, 0)));
        let mut rows = [old::<Word>(); 4];
        let mut draft = Draft::open(shape([4, 3, 3, 2, 1])?, &mut rows);
        let long = refusal(&mut draft, &[0; 65], 4);
        assert!(rt; long == Some(Fault::LongKey(Caller::Draft, 65)));
        assert_eq!(rt; named(long), Some((4, 65)));
        let short = Refusal {
            reason: 1,
            place: 3,
            depth: 0,
        };
        assert!(rt; refusal(&mut draft, b"cat", 4) == Some(Fault::TurnedDown(short)));
        assert_eq!(rt; named(refusal(&mut draft, &[0; 64], 4)), Some((5, 64)));
        assert_eq!(rt; named(refusal(&mut draft, &CAT, 4)), Some((6, 2)));
        assert_eq!(rt; image(&rt, &draft)?, [1, 3, 0, 4, 3, 2, 0, 1, 0, 0, 0, 0]);
        takes(&rt, &mut draft, CAT, 3, (0, 0))
    }

    #[test]
    fn faults_of_questions(rt: HostRuntime) -> Result<(), Fail> {
        let mut rows = [old::<Word>(); 4];
        let draft = Draft::open(shape([4, 3, 3, 2, 1])?, &mut rows);
        assert_eq!(rt; named(draft.is_bound(1, 4).err()), Some((8, 1)));
        assert_eq!(rt; named(draft.count_bound(1).err()), Some((8, 1)));
        assert_eq!(rt; named(draft.is_bound(0, 4).err()), Some((8, 2)));
        assert_eq!(rt; draft.is_bound(0, 3)?, false);
        Ok(())
    }

    #[test]
    fn buffers_of_other_lengths(rt: HostRuntime) -> Result<(), Fail> {
        let mut rows = [old::<Full>(); 4];
        let mut draft = Draft::open(shape([4, 3, 3, 2, 1])?, &mut rows);
        publish(&rt, &mut draft)?;
        let mut short = [0xAA; 11];
        assert_eq!(rt; named(draft.write(&mut short).err()), Some((9, 12)));
        assert_eq!(rt; short, [0xAA; 11]);
        let mut long = [0xAA; 14];
        assert_eq!(rt; draft.write(&mut long)?, 12);
        assert_eq!(rt; &long[..12], &IMAGE[..]);
        assert_eq!(rt; &long[12..], &[0xAA; 2][..]);
        Ok(())
    }

    // The fifth digit gives the block. Cell 3 of block 0 is bound to 9; in block 1 it takes another word.
    #[test]
    fn blocks_stay_apart(rt: HostRuntime) -> Result<(), Fail> {
        let mut rows = [old::<Full>(); 9];
        let mut draft = Draft::open(shape([4, 3, 3, 2, 2])?, &mut rows);
        takes(&rt, &mut draft, FISH, 1, (0, 0))?;
        takes(&rt, &mut draft, CAT, 0, (1, 0))?;
        takes(&rt, &mut draft, DOG, 2, (1, 1))?;
        assert!(rt; refusal(&mut draft, &HORSE, 0) == Some(Fault::Conflict(0, [1, 0, 0, 0])));
        takes(&rt, &mut draft, [0x30, 0x07, 0x10, 0], 0, (1, 2))?;
        assert_eq!(rt; bound(&draft, 0)?, ([false, false, false, true], 1));
        assert_eq!(rt; bound(&draft, 1)?, ([true, false, true, true], 3));
        takes(&rt, &mut draft, [0x01, 0x20, 0, 0], 3, (0, 1))?;
        let conflict = refusal(&mut draft, &[0x01, 0x20, 0x10, 0], 3);
        assert!(rt; conflict == Some(Fault::Conflict(1, [7, 0, 0, 0])));
        let mut buffer = [0xAA; 16];
        assert_eq!(rt; draft.write(&mut buffer)?, 16);
        assert_eq!(rt; buffer, [1, 3, 0, 4, 3, 2, 0, 2, 3, 0, 0, 9, 12, 0, 26, 28]);
        assert_eq!(rt; rows[8].cells.words(), old::<Full>().cells.words());
        Ok(())
    }

    const SALTED: Stream = Stream { salt: 7 };

    // How many keys are entered, and those that are refused: bit i for the key 4B, i.
    const KEYS: u8 = 40;

    const REFUSED: u64 = 0xe7d8040000;

    // Enters each key with its number as the notice, and tells which are refused as conflicts.
    fn enter_all(draft: &mut Draft<'_, Word>) -> Result<u64, Fail> {
        let mut refused = 0;
        for i in 0..KEYS {
            match draft.enter(&SALTED, &[0x4B, i], i as u32) {
                Ok(_) => (),
                Err(Fault::Conflict(_, _)) => refused |= 1 << i,
                Err(_) => return Err(Fail::new("another fault")),
            }
        }
        Ok(refused)
    }

    // Every key that was taken gets its notice from the image.
    fn answers_all(rt: &impl Abort, image: &[u8]) -> Result<(), Fail> {
        for i in 0..KEYS {
            if (REFUSED >> i) % 2 == 0 {
                assert_eq!(rt;
                    ask_image(image, &SALTED, &[0x4B, i])?,
                    Reply::Maybe(i as u32)
                );
            }
        }
        Ok(())
    }

    // What is bound when all keys are entered, and the image, by its FNV-1a hash.
    fn image_of_all(rt: &impl Abort, draft: &mut Draft<'_, Word>) -> Result<[u8; 80], Fail> {
        assert_eq!(rt; enter_all(draft)?, REFUSED);
        assert_eq!(rt; draft.count_bound(0)?, 8);
        assert_eq!(rt; draft.count_bound(1)?, 9);
        assert_eq!(rt; draft.count_bound(2)?, 12);
        let mut image = [0xAA; 80];
        assert_eq!(rt; draft.write(&mut image)?, 80);
        assert_eq!(rt; fnv1a(&image), 0xe090c5d288ae207a);
        Ok(image)
    }

    // Entered a second time, no key alters anything.
    #[test]
    fn forty_keys_in_three_blocks(rt: HostRuntime) -> Result<(), Fail> {
        let mut rows = [old::<Word>(); 36];
        let mut draft = Draft::open(shape([12, 3, 8, 8, 3])?, &mut rows);
        answers_all(&rt, &image_of_all(&rt, &mut draft)?)?;
        answers_all(&rt, &image_of_all(&rt, &mut draft)?)
    }
}
