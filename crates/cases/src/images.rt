// Images: the published one, the replies to its serials, and damaged ones.
#[cfg(test)]
mod tests {
    use crate::given::IMAGE;
    use readers::fold::Fold;
    use readers::split::Split;
    use readers::stream::Stream;
    use shapes::fault::{Caller, Fault, Refusal};
    use std::test::Fail;
    use table::{Reply, Table, ask_image};

    // What opening refuses with, or nothing where the bytes open.
    fn refused(image: &[u8]) -> Option<Fault> {
        Table::open(image).err()
    }

    // The place of the number of the header's shape that is outside its limits.
    fn outside(image: &[u8]) -> Option<u64> {
        match refused(image)? {
            Fault::HeaderLimit(limit) => Some(u64::from(limit)),
            _ => None,
        }
    }

    #[test]
    fn published_replies(rt: HostRuntime) -> Result<(), Fail> {
        let table = Table::open(&IMAGE)?;
        assert_eq!(rt;
            table.ask(&Split, &[0xb8, 0x5c, 0x34, 0x1a])?,
            Reply::Maybe(0)
        );
        assert_eq!(rt;
            table.ask(&Split, &[0x87, 0x02, 0x4b, 0xb7])?,
            Reply::Maybe(1)
        );
        assert_eq!(rt;
            table.ask(&Split, &[0x3f, 0xa6, 0xd2, 0xdf])?,
            Reply::Maybe(2)
        );
        assert_eq!(rt; table.ask(&Split, &[0x3f, 0x37, 0xa1, 0xa7])?, Reply::No);
        assert_eq!(rt; table.ask(&Split, &[0x01, 0x20, 0, 0])?, Reply::Maybe(3));
        assert_eq!(rt; table.ask(&Split, &[0x01, 0x21, 0, 0])?, Reply::No);
        Ok(())
    }

    // Two blocks of three cells of two bytes: each question must come to its own block.
    #[test]
    fn the_keys_block_is_asked(rt: HostRuntime) {
        let image = [
            1, 1, 0, 3, 4, 8, 0, 2, 0x01, 0x11, 0x02, 0x22, 0x03, 0x33, 0x0A, 0xAA, 0x0B, 0xBB,
            0x0C, 0xCC,
        ];
        assert_eq!(rt;
            ask_image(&image, &Split, &[0x11, 0x00, 0, 0]).ok(),
            Some(Reply::No)
        );
        assert_eq!(rt;
            ask_image(&image, &Split, &[0x12, 0x00, 0, 0]).ok(),
            Some(Reply::Maybe(0x22))
        );
        assert_eq!(rt;
            ask_image(&image, &Split, &[0x1B, 0x10, 0, 0]).ok(),
            Some(Reply::Maybe(0xBB))
        );
        assert_eq!(rt;
            ask_image(&image, &Split, &[0x2C, 0x30, 0, 0]).ok(),
            Some(Reply::Maybe(0xCC))
        );
    }

    #[test]
    fn faults_of_a_question(rt: HostRuntime) -> Result<(), Fail> {
        let table = Table::open(&IMAGE)?;
        assert!(rt; table.ask(&Split, &[0; 65]).err() == Some(Fault::LongKey(Caller::Table, 65)));
        assert!(rt;
            table.ask(&Fold(Split), b"cat").err()
                == Some(Fault::TurnedDown(Refusal {
                    reason: 1,
                    place: 3,
                    depth: 1,
                }))
        );
        assert!(rt; table.ask(&Stream { salt: 7 }, &[0; 64]).is_ok());
        assert!(rt;
            ask_image(&[1, 7, 0, 1, 1, 0, 0, 1, 0], &Split, &[0; 65]).err()
                == Some(Fault::NotAdmitted(Caller::Table))
        );
        Ok(())
    }

    #[test]
    fn no_header(rt: HostRuntime) {
        assert!(rt; refused(&[]) == Some(Fault::NoHeader));
        assert!(rt; refused(&IMAGE[0..7]) == Some(Fault::NoHeader));
        assert!(rt; refused(&[0, 3, 0, 4, 3, 2, 0, 1, 25, 0, 26, 9]) == Some(Fault::NoHeader));
        assert!(rt; refused(&[2, 3, 0, 4, 3, 2, 0, 1, 25, 0, 26, 9]) == Some(Fault::NoHeader));
    }

    #[test]
    fn header_outside_limits(rt: HostRuntime) {
        assert_eq!(rt; outside(&[1, 3, 0, 0, 3, 2, 0, 1]), Some(1));
        assert_eq!(rt; outside(&[1, 3, 1, 1, 3, 2, 0, 1]), Some(1));
        assert_eq!(rt; outside(&[1, 9, 1, 0, 3, 2, 0, 1]), Some(2));
        assert_eq!(rt; outside(&[1, 3, 0, 4, 33, 2, 0, 1]), Some(3));
        assert_eq!(rt; outside(&[1, 3, 0, 4, 0, 0, 0, 1]), Some(4));
        assert_eq!(rt; outside(&[1, 3, 0, 4, 3, 2, 0, 65]), Some(5));
        assert_eq!(rt; outside(&[1, 3, 0, 4, 3, 2, 1, 1]), Some(5));
    }

    #[test]
    fn other_lengths(rt: HostRuntime) {
        assert!(rt; refused(&IMAGE[0..8]) == Some(Fault::ImageLength(12)));
        assert!(rt; refused(&IMAGE[0..11]) == Some(Fault::ImageLength(12)));
        assert!(rt;
            refused(&[1, 3, 0, 4, 3, 2, 0, 1, 25, 0, 26, 9, 0]) == Some(Fault::ImageLength(12))
        );
        assert!(rt; refused(&[1, 3, 1, 0, 32, 32, 0, 64]) == Some(Fault::ImageLength(131080)));
    }

    #[test]
    fn large_cells(rt: HostRuntime) {
        assert!(rt; refused(&[1, 3, 0, 4, 3, 2, 0, 1, 31, 31, 31, 31]).is_none());
        assert!(rt;
            refused(&[1, 3, 0, 4, 3, 2, 0, 1, 31, 31, 31, 32]) == Some(Fault::LargeCell(3))
        );
        assert!(rt;
            refused(&[1, 3, 0, 4, 3, 2, 0, 1, 25, 32, 255, 9]) == Some(Fault::LargeCell(1))
        );
        assert!(rt; refused(&[1, 1, 0, 1, 0, 9, 0, 2, 1, 255, 2, 0]) == Some(Fault::LargeCell(1)));
    }
}
