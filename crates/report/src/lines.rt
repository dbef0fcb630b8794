// What was asked of an image, and what came of it.
ghost use Rattle.std.specs.Prelude.{◌≡◌, IfOk, string_bytes};
ghost use Rattle.table.specs.Images.{opening};
ghost use Rattle.table.specs.Questions.{asking_image};
ghost use Rattle.report.specs.Texts.{opened_line, asked_line};

use crate::answer::OrFault;
use crate::hex::Hex;
use readers::reader::Reader;
use std::alloc::{AllocError, Global};
use table::{Table, ask_image};

// The image in hexadecimal, and what came of opening it.
pub fn opened(heap: Global, image: &[u8]) -> Result<String, AllocError>
    ensures { IfOk result (λ s. string_bytes s ≡ opened_line image.now (opening image.now)) }
{
    let bytes = Hex(image);
    let outcome = OrFault(Table::open(image).map(|_| "opened"));
    format!(in heap; "image {bytes}: {outcome}")
}

// The key in hexadecimal, and the image's reply to it through the reader.
pub fn asked<R: Reader>(
    heap: Global,
    image: &[u8],
    reader: &R,
    key: &[u8],
) -> Result<String, AllocError>
    ensures { IfOk result (λ s. string_bytes s ≡ asked_line key.now (asking_image (R.Reader.meaning reader.now) image.now key.now)) }
{
    let serial = Hex(key);
    let answer = OrFault(ask_image(image, reader, key));
    format!(in heap; "serial {serial}: {answer}")
}
