// The rows of all blocks, in memory that is lent.
ghost use Rattle.std.specs.Prelude.{◌≡◌, length, MatchOption};
ghost use Rattle.gf2.specs.Fills.{NoCell, SubstitutionIn, FillingIn};
ghost use Rattle.gf2.specs.Masks.{mask};
ghost use Rattle.gf2.specs.Rows.{Missing, Reduction, BindingIn};

use crate::elimination;
use crate::kinds::{Answer, Word};
use crate::marked::Marked;
use crate::row::{Block, Misfit, Row};
use crate::sets::CellSet;

// A slice of rows, for one kind of answer. Each call works on one block of it.
#[derive(Drop)]
pub struct Rows<'a, K> {
    records: &'a mut [Row<K>],
}

impl<'a, K: Answer> Rows<'a, K> {
    // The rows that are lent. They are the lender's own (`lent`), so what is done to them it finds done.
    pub fn over(records: &'a mut [Row<K>]) -> Rows<'a, K>
        ensures held { result.records.now ≡ records.old }
        ensures lent { result.records.ghost_name ≡ records.entry.ghost_name }
    {
        Rows { records }
    }

    // How many records there are.
    pub fn len(&self) -> usize
        ensures { result ≡ length self.now.records.now }
    {
        self.records.len()
    }

    // The row reduced by the bound rows of the block; none where the block's rows are not all there.
    pub fn reduce(&self, block: Block, row: Row<K>) -> Option<Row<K>>
        ensures { MatchOption result (Missing self.now.records.now block) (Reduction K.Answer.mean K.Answer.kind self.now.records.now block row) }
    {
        elimination::reduce(self.records, block, row)
    }

    // Puts the row at its lead cell, and gives the block's bound set with that cell.
    // Nothing is altered where the block has no such cell, or its rows are not all there.
    pub fn bind(&mut self, block: Block, row: Row<K>) -> CellSet
        ensures lent { self.new.records.ghost_name ≡ self.old.records.ghost_name }
        ensures bound { BindingIn K.Answer.mean K.Answer.kind self.old.records.now block row self.new.records.now (mask result) }
    {
        elimination::bind(self.records, block, row)
    }
}

impl<'a, K: Marked> Rows<'a, K> {
    // What the word of a cell is made of: the other cells of its row, and its row's word; nothing where the cell is free.
    pub fn substitute(&self, block: Block, cell: usize) -> Option<Row<Word>>
        ensures { MatchOption result (NoCell self.now.records.now block cell) (SubstitutionIn K.Marked.view K.Marked.marks self.now.records.now block cell) }
    {
        elimination::substitute(self.records, block, cell)
    }

    // Writes a word for each cell of the block: those that satisfy every bound row, with zero in the free cells.
    // Where it is refused, nothing is written.
    pub fn fill(&self, block: Block, words: &mut [u64]) -> Result<(), Misfit>
        ensures { FillingIn K.Marked.view K.Marked.marks self.now.records.now block words.old result words.new }
    {
        elimination::fill(self.records, block, words)
    }
}
