// Opening an image.
ghost use Rattle.std.specs.Prelude.{◌≡◌, ◌+◌, ◌*◌, drop, IfOk};
ghost use Rattle.std.specs.Result.{result_map_both};
ghost use Rattle.table.specs.Sizes.{header_length};
ghost use Rattle.table.specs.Images.{heading, sizing, fitting, opening};
ghost use Rattle.table.specs.Tables.{content, content_in, dims_of};

use crate::table::{Table, VERSION};
use crate::{cells, sizes};
use shapes::fault::Fault;
use shapes::shape::{Dims, Shape};

// The numbers in the header, and the bytes after it.
fn head(image: &[u8]) -> Result<(Dims, &[u8]), Fault>
    ensures numbers { result_map_both (λ p. p.0) (λ e. e) result ≡ heading image.now }
    ensures rest { IfOk result (λ p. p.1.now ≡ drop header_length image.now) }
{
    let [version, k, n_high, n_low, s, r, b_high, b_low, cells @ ..] = image else {
        return Err(Fault::NoHeader);
    };
    if *version != VERSION {
        return Err(Fault::NoHeader);
    }
    let dims = Dims {
        n: u16::from_be_bytes([*n_high, *n_low]),
        k: u16::from(*k),
        s: u16::from(*s),
        r: u16::from(*r),
        b: u16::from_be_bytes([*b_high, *b_low]),
    };
    Ok((dims, cells))
}

impl<'a> Table<'a> {
    // The table of an image, which it borrows.
    pub fn open(image: &'a [u8]) -> Result<Table<'a>, Fault>
        ensures { content_in result ≡ opening image.now }
    {
        let (dims, cells) = head(image)?;
        let table = Table::sized(dims, cells)?;
        table.check_words()?;
        Ok(table)
    }

    // The table of these numbers and cells, whatever the cells hold.
    fn sized(dims: Dims, cells: &'a [u8]) -> Result<Table<'a>, Fault>
        ensures sizes { result_map_both dims_of (λ e. e) result ≡ sizing dims cells.now }
        ensures cells { IfOk result (λ t. t.cells.now ≡ cells.now) }
    {
        let shape = Shape::try_from(dims).map_err(Fault::HeaderLimit)?;
        let length = sizes::image_length(&shape);
        if cells.len() + sizes::HEADER != length {
            return Err(Fault::ImageLength(length as u32));
        }
        Ok(Table { shape, cells })
    }

    // The shape that the table was made with.
    pub fn shape(&self) -> Shape
        ensures { result ≡ self.now.shape }
    {
        self.shape
    }

    // Refuses the first cell that holds a word of too many bits.
    fn check_words(&self) -> Result<(), Fault>
        ensures { result_map_both (λ _. content self.now) (λ e. e) result ≡ fitting (content self.now) }
    {
        match cells::first_large(self.cells, &self.shape) {
            Some(cell) => Err(Fault::LargeCell(cell as u32)),
            None => Ok(()),
        }
    }
}
