// A run whose works are read alone, with the outcomes apart from them.
ghost use Rattle.std.specs.Prelude.{◌≤◌, map, length, MatchOption};
ghost use Rattle.runs.specs.Lending.{lent, NoRoom, Ran};
ghost use Rattle.runs.specs.Runs.{deed};
ghost use Rattle.runs.specs.Steps.{TurnsApart};

use crate::run::{perform, used_rows};
use crate::works::{Outcome, Work};
use drafts::Draft;
use gf2::marked::Marked;
use gf2::row::Row;
use readers::reader::Reader;
use shapes::fault::Fault;
use shapes::shape::Shape;

// Does the works on a fresh draft, one after another, notes what each answered, and then writes the table.
// Where the outcomes have no room, nothing is done. Only the rows that the draft uses are lent to it.
pub fn replay<R: Reader, K: Marked>(
    reader: &R,
    shape: Shape,
    rows: &mut [Row<K>],
    works: &[Work],
    outcomes: &mut [Outcome],
    buffer: &mut [u8],
) -> Option<Result<usize, Fault>>
    ensures { MatchOption result (NoRoom (length works.now) (lent rows.old outcomes.old buffer.old) (lent rows.new outcomes.new buffer.new)) (λ w. Ran K.Marked.blame (R.Reader.meaning reader.now) shape.dims (map deed works.now) (lent rows.old outcomes.old buffer.old) w (lent rows.new outcomes.new buffer.new)) }
{
    if outcomes.len() < works.len() {
        return None;
    }
    let used = used_rows(&shape, rows.len());
    let mut draft = Draft::open(shape, &mut rows[..used]);
    Some(in_turn(&mut draft, reader, works, outcomes, buffer))
}

// The works and the writing, on a draft that holds nothing yet, where the outcomes have room.
fn in_turn<R: Reader, K: Marked>(
    draft: &mut Draft<'_, K>,
    reader: &R,
    works: &[Work],
    outcomes: &mut [Outcome],
    buffer: &mut [u8],
) -> Result<usize, Fault>
    requires { length works.now ≤ length outcomes.old }
    ensures { TurnsApart K.Marked.view K.Marked.marks K.Marked.blame (R.Reader.meaning reader.now) draft.old (map deed works.now) outcomes.old buffer.old result outcomes.new buffer.new }
{
    for (i, work) in works.iter().enumerate() {
        outcomes[i] = perform(draft, reader, work, buffer);
    }
    draft.write(buffer)
}
