// What a key asks of a table.
use gf2::sets::CellSet;

// An equation over the cells of a block: the words in these cells XOR to the answer, the check above the notice number.
// Not a clause with its check changed: a clause has no notice, and an answer is wider.
#[derive(Clone, Copy)]
pub struct Entry {
    pub block: u16,
    pub cells: CellSet,
    pub answer: u64,
}
