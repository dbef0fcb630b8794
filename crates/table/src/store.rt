// Writing the bytes of an image: its header, and its cells.
ghost use Rattle.std.specs.Prelude.{◌≡◌, ◌*◌, length};
ghost use Rattle.std.specs.List.{flat_map};
ghost use Rattle.table.specs.Sizes.{width};
ghost use Rattle.table.specs.Images.{bytes_of, header, Stored};

use crate::sizes;
use crate::table::VERSION;
use shapes::shape::Shape;

// There is more or less room than what is to be written needs. Nothing was altered.
#[derive(Clone, Copy, PartialEq, Eq, Debug)]
pub struct WrongLength;

// Writes each word in as many bytes as a cell has, one word after another.
fn put_each(shape: &Shape, words: &[u64], cells: &mut [u8])
    requires { length cells.old ≡ length words.now * width shape.now.dims }
    ensures { cells.new ≡ flat_map (bytes_of (width shape.now.dims)) words.now }
{
    let width = sizes::cell_width(shape);
    // By index: what is written through `chunks_exact_mut` or `split_at_mut` is not known after the loop.
    for (i, word) in words.iter().enumerate() {
        cells[i * width..(i + 1) * width].copy_from_slice(&word.to_be_bytes()[8 - width..]);
    }
}

// Writes the eight bytes of the header, where there is room for exactly them.
pub fn put_header(shape: &Shape, bytes: &mut [u8]) -> Result<(), WrongLength>
    ensures { Stored (header shape.now.dims) bytes.old result bytes.new }
{
    let dims = shape.dims();
    let [n_high, n_low] = dims.n.to_be_bytes();
    let [b_high, b_low] = dims.b.to_be_bytes();
    let header = [
        VERSION,
        dims.k as u8,
        n_high,
        n_low,
        dims.s as u8,
        dims.r as u8,
        b_high,
        b_low,
    ];
    if bytes.len() != header.len() {
        return Err(WrongLength);
    }
    bytes.copy_from_slice(&header);
    Ok(())
}

// Writes each word in as many bytes as a cell has, the high byte first, where there is room for exactly all of them.
#[tactic(auto, using(crate::proofs::Bytes::length_joined))]
pub fn put_words(shape: &Shape, words: &[u64], cells: &mut [u8]) -> Result<(), WrongLength>
    ensures { Stored (flat_map (bytes_of (width shape.now.dims)) words.now) cells.old result cells.new }
{
    // The number of bytes may be past what a usize holds.
    if words.len().checked_mul(sizes::cell_width(shape)) != Some(cells.len()) {
        return Err(WrongLength);
    }
    put_each(shape, words, cells);
    Ok(())
}
