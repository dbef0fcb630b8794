// A draft, over rows that are lent.
ghost use Rattle.std.specs.Prelude.{◌≡◌, ◌<◌};
ghost use Rattle.std.specs.Result.{result_map_both};
ghost use Rattle.drafts.specs.Entries.{with_rows};
ghost use Rattle.drafts.specs.Standing.{dims_of, row_count, block_at};
ghost use Rattle.drafts.specs.Steps.{Enough};

use crate::tally::Tally;
use gf2::marked::Marked;
use gf2::row::Block;
use gf2::rows::Rows;
use shapes::fault::Fault;
use shapes::shape::Shape;
use table::sizes;

mod ask;
mod enter;
mod open;
mod write;

pub use enter::DEPENDENT;

// One row for each cell, block after block, and what is noted of each block.
#[derive(Drop)]
pub struct Draft<'a, K> {
    shape: Shape,
    rows: Rows<'a, K>,
    tally: Tally,
}

// A block that the draft has, with a row for each of its cells.
#[derive(Drop)]
struct OwnBlock<'d, 'a, K> {
    draft: &'d Draft<'a, K>,
    at: usize,
    ghost within: { at < (dims_of draft.now).b },
    ghost enough: { Enough draft.now },
}

impl<K: Marked> Draft<'_, K> {
    // Refuses a draft that has not a row for each cell.
    fn check_rows(&self) -> Result<(), Fault>
        ensures { result_map_both (λ _. dims_of self.now) (λ e. e) result ≡ with_rows (dims_of self.now) (row_count self.now) }
    {
        let needed = sizes::cell_count(&self.shape);
        if self.rows.len() < needed {
            return Err(Fault::FewRows(needed as u32));
        }
        Ok(())
    }

    // Where the rows of a block stand, and its bound cells. That the draft has the block is asked here and in `bind`:
    // an `OwnBlock` borrows the draft, which `bind` alters.
    fn block(&self, at: usize) -> Block
        requires { at < (dims_of self.now).b }
        ensures { result ≡ block_at self.now at }
    {
        let n = self.shape.dims().n as usize;
        Block {
            start: at * n,
            n,
            bound: self.tally.blocks[at].bound,
        }
    }
}
