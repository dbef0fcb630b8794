// How many bytes a row takes, which is what is lent for each cell.
ghost use Rattle.std.specs.Prelude.{◌≡◌, ℕ, ◌+◌, ◌/◌};
ghost use Rattle.gf2.specs.Masks.{width};

use crate::kinds::{Pair, Word};
use crate::row::Row;
use crate::sets::CellSet;
use std::mem::size_of;

// What a row carries beside its cells, with the size of such a row. Each impl has a body of its own, since the check
// doesn't cover the size of a type that is a parameter.
pub trait RowSize {
    ghost row_size: { ℕ };

    fn row_size() -> usize
        ensures { result ≡ row_size };
}

// Its cells and eight bytes.
impl RowSize for Word {
    ghost row_size = { width / 8 + 8 };

    fn row_size() -> usize {
        size_of::<Row<Word>>()
    }
}

// The same, and a slot set.
impl RowSize for Pair<Word, CellSet> {
    ghost row_size = { width / 8 + 8 + width / 8 };

    fn row_size() -> usize {
        size_of::<Row<Pair<Word, CellSet>>>()
    }
}
