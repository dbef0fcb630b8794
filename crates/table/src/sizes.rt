// The sizes that follow from a shape.
ghost use Rattle.std.specs.Prelude.{◌≡◌, ◌+◌, ◌*◌, ◌≤◌};
ghost use Rattle.shapes.specs.Limits.{most_cells, most_blocks};
ghost use Rattle.table.specs.Sizes.{width, cell_count, cells_length, header_length, image_length};

use shapes::shape::Shape;

// The bytes before the cells.
pub const HEADER: usize = 8;

// The bytes of a cell: s + r bits, in whole bytes.
pub fn cell_width(shape: &Shape) -> usize
    ensures { result ≡ width shape.now.dims }
{
    let dims = shape.dims();
    (dims.s + dims.r).div_ceil(8) as usize
}

// The cells of all blocks.
pub fn cell_count(shape: &Shape) -> usize
    ensures { result ≡ cell_count shape.now.dims }
{
    let dims = shape.dims();
    dims.b as usize * dims.n as usize
}

// The bytes of all cells.
fn cells_length(shape: &Shape) -> usize
    ensures is { result ≡ cells_length shape.now.dims }
    ensures most { result ≤ most_blocks * most_cells * 8 }
{
    cell_count(shape) * cell_width(shape)
}

// The bytes of an image.
pub fn image_length(shape: &Shape) -> usize
    ensures is { result ≡ image_length shape.now.dims }
    ensures most { result ≤ header_length + most_blocks * most_cells * 8 }
{
    HEADER + cells_length(shape)
}
