// Cells as bytes, the high byte of a word first.
ghost use Rattle.std.specs.Prelude.{◌≡◌, ◌+◌, ◌^◌, ◌≤◌, length, nat_lt};
ghost use Rattle.std.specs.Int.Digits.{number_from_digits};
ghost use Rattle.gf2.specs.Masks.{mask};
ghost use Rattle.table.specs.Images.{First, words_in};
ghost use Rattle.table.specs.Questions.{xor_in};
ghost use Rattle.table.specs.Sizes.{width};

use crate::sizes;
use gf2::sets::CellSet;
use shapes::shape::Shape;

// The word in the bytes of a cell.
fn word(cell: &[u8]) -> u64
    requires { length cell.now ≤ 8 }
    ensures { result ≡ number_from_digits 256 cell.now }
{
    cell.iter().fold(0, |word, byte| word << 8 | *byte as u64)
}

// The largest word of so many bits.
fn largest(bits: u32) -> u64
    requires { (1 ≤ bits) × (bits ≤ 64) }
    ensures { result + 1 ≡ 2 ^ bits }
{
    u64::MAX >> (64 - bits)
}

// Whether the word has no more bits than a cell of this shape: s + r.
fn fits(word: u64, shape: &Shape) -> bool
    ensures { result ≡ nat_lt word (2 ^ (shape.now.dims.s + shape.now.dims.r)) }
{
    let dims = shape.dims();
    word <= largest(dims.s as u32 + dims.r as u32)
}

// The first cell whose word has more than s + r bits, if there is one.
pub fn first_large(cells: &[u8], shape: &Shape) -> Option<usize>
    ensures { First (2 ^ (shape.now.dims.s + shape.now.dims.r)) (words_in (width shape.now.dims) cells.now) result }
{
    cells
        .chunks_exact(sizes::cell_width(shape))
        .position(|cell| !fits(word(cell), shape))
}

// The XOR of the words in cells of these many bytes that are in the set. Its items are records of bytes, each read once and where it lies;
// those of crate gf2's XOR are words in memory, so the two loops stay apart.
fn xor_records(block: &[u8], width: usize, cells: CellSet) -> u64
    requires { (1 ≤ width) × (width ≤ 8) }
    ensures { result ≡ xor_in width block.now (mask cells) }
{
    let mut v = 0;
    for (c, cell) in block.chunks_exact(width).enumerate() {
        if cells.contains(c) {
            v ^= word(cell);
        }
    }
    v
}

// The XOR of the words of a block whose cells are in the set.
pub fn xor_cells(block: &[u8], shape: &Shape, cells: CellSet) -> u64
    ensures { result ≡ xor_in (width shape.now.dims) block.now (mask cells) }
{
    xor_records(block, sizes::cell_width(shape), cells)
}
