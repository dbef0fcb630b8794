// What every run goes by: the rows that its draft uses, and one work on that draft.
ghost use Rattle.std.specs.Prelude.{◌≡◌};
ghost use Rattle.runs.specs.Lending.{used_rows};
ghost use Rattle.runs.specs.Runs.{deed};
ghost use Rattle.runs.specs.Steps.{Performs};

use crate::works::{Outcome, Work};
use drafts::Draft;
use gf2::marked::Marked;
use readers::reader::Reader;
use shapes::shape::Shape;
use table::sizes;

// The rows that a draft uses: one for each cell, or none where there are too few.
pub(crate) fn used_rows(shape: &Shape, rows: usize) -> usize
    ensures { result ≡ used_rows shape.now.dims rows }
{
    let needed = sizes::cell_count(shape);
    if needed <= rows { needed } else { 0 }
}

// Does one work. Works are data and no closures, since the law speaks of every list of them.
pub(crate) fn perform<R: Reader, K: Marked>(
    draft: &mut Draft<'_, K>,
    reader: &R,
    work: &Work,
    buffer: &mut [u8],
) -> Outcome
    ensures { Performs K.Marked.view K.Marked.marks K.Marked.blame (R.Reader.meaning reader.now) draft.old (deed work.now) buffer.old result draft.new buffer.new }
{
    match *work {
        Work::Enter(key, notice) => Outcome::Entered(draft.enter(reader, key, notice)),
        Work::Write => Outcome::Wrote(draft.write(buffer)),
        Work::Bound(block, cell) => Outcome::Bound(draft.is_bound(block, cell)),
        Work::Count(block) => Outcome::Counted(draft.count_bound(block)),
    }
}
