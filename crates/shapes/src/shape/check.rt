// The one way to make a shape, and its numbers.
ghost use Rattle.std.specs.Prelude.{◌≡◌};
ghost use Rattle.shapes.specs.Limits.{InLimits, limited, limited_by, dims_in};
ghost use Rattle.shapes.specs.declared.fault.Fault.TheVariants.{ShapeLimit};

use crate::fault::Fault;
use crate::limit::Limit;
use crate::shape::{Dims, Shape};

// The largest cells in a block, draws, bits of a check or of a notice, and blocks.
const MOST_CELLS: u16 = 256;

const MOST_DRAWS: u16 = 8;

const MOST_BITS: u16 = 32;

const MOST_BLOCKS: u16 = 64;

// The shape of these five numbers, or the first that is outside its limits.
impl TryFrom<Dims> for Shape {
    type Error = Limit;

    ghost try_from_gives = { λ dims r. dims_in r ≡ limited_by (λ limit. limit) dims };

    fn try_from(dims: Dims) -> Result<Shape, Limit> {
        let Dims { n, k, s, r, b } = dims;
        if n < 1 || n > MOST_CELLS {
            return Err(Limit::Cells);
        }
        if k < 1 || k > MOST_DRAWS {
            return Err(Limit::Draws);
        }
        if s > MOST_BITS {
            return Err(Limit::CheckBits);
        }
        if r > MOST_BITS || s + r < 1 {
            return Err(Limit::NoticeBits);
        }
        if b < 1 || b > MOST_BLOCKS {
            return Err(Limit::Blocks);
        }
        Ok(Shape { dims })
    }
}

impl Shape {
    // The shape of these five numbers, or the fault.
    pub fn check(dims: Dims) -> Result<Shape, Fault>
        ensures { dims_in result ≡ limited ShapeLimit dims }
    {
        Shape::try_from(dims).map_err(Fault::ShapeLimit)
    }

    // Its five numbers, which are within their limits.
    pub fn dims(&self) -> Dims
        ensures same { result ≡ self.now.dims }
        ensures limits { InLimits result }
    {
        self.dims
    }
}
