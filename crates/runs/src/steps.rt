// A run whose works bring the room for their outcomes.
ghost use Rattle.std.specs.Prelude.{length};
ghost use Rattle.runs.specs.Lending.{RowsKept, RanSteps};
ghost use Rattle.runs.specs.Runs.{setting};
ghost use Rattle.runs.specs.Steps.{Turns};

use crate::run::{perform, used_rows};
use crate::works::Step;
use drafts::Draft;
use gf2::marked::Marked;
use gf2::row::Row;
use readers::reader::Reader;
use shapes::fault::Fault;
use shapes::shape::Shape;

// Does the works of the steps on a fresh draft, one after another, notes in each step what its work answered, and then writes the table.
// Only the rows that the draft uses are lent to it.
pub fn replay_steps<R: Reader, K: Marked>(
    reader: &R,
    shape: Shape,
    rows: &mut [Row<K>],
    steps: &mut [Step],
    buffer: &mut [u8],
) -> Result<usize, Fault>
    ensures ran { RanSteps K.Marked.blame (setting (R.Reader.meaning reader.now) shape.dims (length rows.old) (length buffer.old)) steps.old steps.new result buffer.old buffer.new }
    ensures rows { RowsKept shape.dims rows.old rows.new }
{
    let used = used_rows(&shape, rows.len());
    let mut draft = Draft::open(shape, &mut rows[..used]);
    in_turn(&mut draft, reader, steps, buffer)
}

// The steps and the writing, on a draft that holds nothing yet.
fn in_turn<R: Reader, K: Marked>(
    draft: &mut Draft<'_, K>,
    reader: &R,
    steps: &mut [Step],
    buffer: &mut [u8],
) -> Result<usize, Fault>
    ensures { Turns K.Marked.view K.Marked.marks K.Marked.blame (R.Reader.meaning reader.now) draft.old steps.old buffer.old result steps.new buffer.new }
{
    for step in steps.iter_mut() {
        step.outcome = Some(perform(draft, reader, &step.work, buffer));
    }
    draft.write(buffer)
}
