// Writing the table of a draft as an image.
ghost use Rattle.std.specs.Prelude.{◌≡◌, ◌*◌, length};
ghost use Rattle.table.specs.Sizes.{width, cells_length, image_length};
ghost use Rattle.drafts.specs.Written.{ImageOf, WritesInto};
ghost use Rattle.drafts.specs.Steps.{WordsOf, BlockWords, Enough};
ghost use Rattle.drafts.specs.Standing.{dims_of};

use crate::draft::{Draft, OwnBlock};
use gf2::marked::Marked;
use shapes::fault::Fault;
use table::{sizes, store};

// Room for the words of the largest block: an array, since what is flashed has no heap.
const CELLS: usize = 256;

impl<K: Marked> Draft<'_, K> {
    // Writes the image of the table, and answers its length. The rest of the buffer stays as it is.
    pub fn write(&self, buffer: &mut [u8]) -> Result<usize, Fault>
        ensures { WritesInto K.Marked.view K.Marked.marks self.now buffer.old result buffer.new }
    {
        self.check_rows()?;
        let length = sizes::image_length(&self.shape);
        if buffer.len() < length {
            return Err(Fault::ShortBuffer(length as u32));
        }
        self.write_image(&mut buffer[..length]);
        Ok(length)
    }

    // Writes the header, and then the cells.
    fn write_image(&self, image: &mut [u8])
        requires rows { Enough self.now }
        requires size { length image.old ≡ image_length (dims_of self.now) }
        ensures { ImageOf K.Marked.view K.Marked.marks self.now image.new }
    {
        let mut words = [0; CELLS];
        let n = self.shape.dims().n as usize;
        store::put_header(&self.shape, &mut image[..sizes::HEADER]).unwrap();
        self.write_cells(&mut words[..n], &mut image[sizes::HEADER..]);
    }

    // Writes the cells of one block after another.
    fn write_cells(&self, words: &mut [u64], cells: &mut [u8])
        requires rows { Enough self.now }
        requires block { length words.old ≡ (dims_of self.now).n }
        requires size { length cells.old ≡ cells_length (dims_of self.now) }
        ensures { WordsOf K.Marked.view K.Marked.marks self.now (dims_of self.now).b cells.new }
    {
        let size = words.len() * sizes::cell_width(&self.shape);
        // By number: after a loop over `chunks_exact_mut` nothing is known of the bytes, and the goal `returns` stays open.
        for b in 0..self.shape.dims().b as usize {
            let block = OwnBlock { draft: self, at: b };
            block.write(words, &mut cells[b * size..(b + 1) * size]);
        }
    }
}

impl<K: Marked> OwnBlock<'_, '_, K> {
    // Reads out the words of the block, and writes them as its cells.
    fn write(&self, words: &mut [u64], cells: &mut [u8])
        requires block { length words.old ≡ (dims_of self.now.draft.now).n }
        requires size { length cells.old ≡ (dims_of self.now.draft.now).n * width (dims_of self.now.draft.now) }
        ensures { BlockWords K.Marked.view K.Marked.marks self.now.draft.now self.now.at cells.new }
    {
        let place = self.draft.block(self.at);
        self.draft.rows.fill(place, words).unwrap();
        store::put_words(&self.draft.shape, words, cells).unwrap();
    }
}
