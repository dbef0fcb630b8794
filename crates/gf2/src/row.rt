// One row, and where the rows of a block stand.
ghost use Rattle.std.specs.Prelude.{◌≡◌};
ghost use Rattle.span.specs.Echelon.{rows};
ghost use Rattle.gf2.specs.Rows.{row_of};

use crate::kinds::Answer;
use crate::sets::CellSet;

// A cell set with an answer. Not a `Pair` of the two, so that each part has its name.
#[derive(Clone, Copy, PartialEq, Eq, Debug)]
pub struct Row<K> {
    pub cells: CellSet,
    pub answer: K,
}

impl<K: Answer> Row<K> {
    // The sum of two rows: of their cell sets, and of their answers.
    pub fn plus(self, other: Row<K>) -> Row<K>
        ensures { row_of K.Answer.mean result ≡ (rows K.Answer.kind).sum (row_of K.Answer.mean self) (row_of K.Answer.mean other) }
    {
        Row {
            cells: self.cells.symmetric_difference(other.cells),
            answer: self.answer.sum(other.answer),
        }
    }
}

// One block among the records: the rows of its n cells stand one after another, from `start` on; those of the bound cells count.
#[derive(Clone, Copy, PartialEq, Eq, Debug)]
pub struct Block {
    pub start: usize,
    pub n: usize,
    pub bound: CellSet,
}

// Refused: the block's rows are not all there, or there are not as many words as cells.
#[derive(Clone, Copy, PartialEq, Eq, Debug)]
pub struct Misfit;
