// What several of the tests are given.
ghost use Rattle.std.specs.Prelude.{◌≡◌, slice_index};
ghost use Rattle.shapes.specs.Limits.{limited, dims_in};
ghost use Rattle.shapes.specs.declared.fault.Fault.TheVariants.{ShapeLimit};

use shapes::fault::Fault;
use shapes::shape::{Dims, Shape};

// The published example: three serials on the list, one that is not, and the image.
pub const CAT: [u8; 4] = [0xb8, 0x5c, 0x34, 0x1a];

pub const FISH: [u8; 4] = [0x87, 0x02, 0x4b, 0xb7];

pub const DOG: [u8; 4] = [0x3f, 0xa6, 0xd2, 0xdf];

pub const HORSE: [u8; 4] = [0x3f, 0x37, 0xa1, 0xa7];

pub const IMAGE: [u8; 12] = [1, 3, 0, 4, 3, 2, 0, 1, 25, 0, 26, 9];

// The shape of n, k, s, r and b.
pub(crate) fn shape(numbers: [u16; 5]) -> Result<Shape, Fault>
    ensures { dims_in result ≡ limited ShapeLimit (record { n = slice_index numbers 0; k = slice_index numbers 1; s = slice_index numbers 2; r = slice_index numbers 3; b = slice_index numbers 4 }) }
{
    let [n, k, s, r, b] = numbers;
    Shape::check(Dims { n, k, s, r, b })
}
