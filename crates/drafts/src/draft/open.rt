// Opening a draft.
ghost use Rattle.std.specs.Prelude.{◌≡◌, []};
ghost use Rattle.drafts.specs.Standing.{records_of, Stands};

use crate::draft::Draft;
use crate::tally::Tally;
use gf2::marked::Marked;
use gf2::row::Row;
use gf2::rows::Rows;
use shapes::shape::Shape;

impl<'a, K: Marked> Draft<'a, K> {
    // An empty draft over the rows that are lent: none of them is touched, and what they hold does not matter.
    pub fn open(shape: Shape, rows: &'a mut [Row<K>]) -> Draft<'a, K>
        ensures shape { result.shape ≡ shape }
        ensures rows { records_of result ≡ rows.old }
        ensures lent { result.rows.records.ghost_name ≡ rows.entry.ghost_name }
        ensures empty { Stands K.Marked.view K.Marked.marks result [] }
    {
        Draft::blank(shape, Rows::over(rows))
    }

    // A draft that has noted nothing yet.
    fn blank(shape: Shape, rows: Rows<'a, K>) -> Draft<'a, K>
        ensures shape { result.shape ≡ shape }
        ensures rows { result.rows ≡ rows.entry }
        ensures empty { Stands K.Marked.view K.Marked.marks result [] }
    {
        Draft {
            shape,
            rows,
            tally: Tally::empty(),
        }
    }
}
