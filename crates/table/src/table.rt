// A table that borrows its cells from an image. It is made only by opening one.
ghost use Rattle.std.specs.Prelude.{◌≡◌, length};
ghost use Rattle.table.specs.Sizes.{cells_length};

use shapes::shape::Shape;

mod ask;
mod open;

pub use ask::ask_image;

// The version of the images that are read and written.
pub const VERSION: u8 = 1;

// A checked shape, and the bytes of all its cells.
#[derive(Clone, Copy)]
pub struct Table<'a> {
    shape: Shape,
    cells: &'a [u8],
    ghost whole: { length cells.now ≡ cells_length shape.dims },
}
