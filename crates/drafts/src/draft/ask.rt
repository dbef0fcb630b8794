// Questions about bound cells.
ghost use Rattle.std.specs.Prelude.{◌≡◌, IfOk};
ghost use Rattle.std.specs.Result.{result_map_both};
ghost use Rattle.drafts.specs.Questions.{block_in, cell_of_block, Tells};
ghost use Rattle.drafts.specs.Asking.{BoundInDraft, CountInDraft, AskedCell, AskedCount};
ghost use Rattle.drafts.specs.Standing.{dims_of, row_count, noted_at};

use crate::draft::{Draft, OwnBlock};
use crate::tally::Noted;
use gf2::marked::Marked;
use shapes::fault::Fault;

impl<'a, K: Marked> Draft<'a, K> {
    // Whether a cell of a block is bound.
    pub fn is_bound(&self, block: u16, cell: u16) -> Result<bool, Fault>
        ensures { AskedCell K.Marked.view K.Marked.marks self.now block cell result }
    {
        self.asked(block)?.is_bound(cell)
    }

    // How many cells of a block are bound.
    pub fn count_bound(&self, block: u16) -> Result<u16, Fault>
        ensures { AskedCount K.Marked.view K.Marked.marks self.now block result }
    {
        Ok(self.asked(block)?.slots())
    }

    // The block, or the fault of a draft that has too few rows or no such block.
    fn asked<'d>(&'d self, block: u16) -> Result<OwnBlock<'d, 'a, K>, Fault>
        ensures checks { result_map_both (λ _. block) (λ e. e) result ≡ block_in (dims_of self.now) (row_count self.now) block }
        ensures is { IfOk result (λ own. (own.draft.now ≡ self.now) × (own.at ≡ block)) }
    {
        self.check_rows()?;
        if block >= self.shape.dims().b {
            return Err(Fault::NoBlock);
        }
        Ok(OwnBlock {
            draft: self,
            at: block as usize,
        })
    }
}

impl<K: Marked> OwnBlock<'_, '_, K> {
    // Whether a cell is noted as bound.
    #[tactic(auto, using(crate::proofs::Bound::tells_bound))]
    fn is_bound(&self, cell: u16) -> Result<bool, Fault>
        ensures { Tells (cell_of_block (dims_of self.now.draft.now) cell) (BoundInDraft K.Marked.view K.Marked.marks self.now.draft.now self.now.at cell) result }
    {
        if cell >= self.draft.shape.dims().n {
            return Err(Fault::NoCell);
        }
        Ok(self.noted().bound.contains(cell as usize))
    }

    // The block's slots: it has as many as bound cells.
    fn slots(&self) -> u16
        ensures { CountInDraft K.Marked.view K.Marked.marks self.now.draft.now self.now.at result }
    {
        self.noted().slots
    }

    // What is noted of the block. The draft is named first, since it holds a `&mut`, and the checker has no rule for `self.draft.tally.blocks[..]`.
    fn noted(&self) -> Noted
        ensures { result ≡ noted_at self.now.draft.now.tally self.now.at }
    {
        let draft = self.draft;
        draft.tally.blocks[self.at]
    }
}
