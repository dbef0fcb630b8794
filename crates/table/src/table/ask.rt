// Asking a table about a key.
ghost use Rattle.std.specs.Prelude.{◌≡◌, ◌<◌};
ghost use Rattle.span.specs.Fillings.{xor_over};
ghost use Rattle.gf2.specs.Masks.{mask};
ghost use Rattle.table.specs.Questions.{word_at, reply_of, asking, asking_image};
ghost use Rattle.table.specs.Tables.{content};

use crate::reply::Reply;
use crate::table::Table;
use crate::{cells, sizes};
use gf2::sets::CellSet;
use readers::reader::{Reader, clause_for};
use shapes::fault::{Caller, Fault};
use shapes::shape::Shape;

impl Table<'_> {
    // The reply to a key, read by the reader that the table was made with.
    pub fn ask<R: Reader>(&self, reader: &R, key: &[u8]) -> Result<Reply, Fault>
        ensures { result ≡ asking (R.Reader.meaning reader.now) (content self.now) key.now }
    {
        let clause = clause_for(reader, &self.shape, key, Caller::Table)?;
        let word = self.xor(clause.block as usize, clause.cells);
        Ok(reply(&self.shape, clause.check, word))
    }

    // The XOR of the words in these cells of a block. Only the block's own part of the bytes is handed on, so no other block's can be read.
    fn xor(&self, block: usize, cells: CellSet) -> u64
        requires { block < self.now.shape.dims.b }
        ensures { result ≡ xor_over (word_at (content self.now) block) self.now.shape.dims.n (mask cells) }
    {
        let width = sizes::cell_width(&self.shape);
        let size = self.shape.dims().n as usize * width;
        cells::xor_cells(
            &self.cells[block * size..(block + 1) * size],
            &self.shape,
            cells,
        )
    }
}

// The reply by the XOR of the words in a key's cells, which has the check above the notice.
fn reply(shape: &Shape, check: u32, word: u64) -> Reply
    ensures { result ≡ reply_of shape.now.dims.r check word }
{
    let r = shape.dims().r;
    if word >> r == check as u64 {
        Reply::Maybe((word % (1 << r)) as u32)
    } else {
        Reply::No
    }
}

// The reply to a key, straight from an image.
pub fn ask_image<R: Reader>(image: &[u8], reader: &R, key: &[u8]) -> Result<Reply, Fault>
    ensures { result ≡ asking_image (R.Reader.meaning reader.now) image.now key.now }
{
    Table::open(image)?.ask(reader, key)
}
