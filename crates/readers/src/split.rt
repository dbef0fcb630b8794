// The split reader: keys of eight digits of four bits, as in the published example.
ghost use Rattle.std.specs.Prelude.{◌≡◌, [], ◌∷◌, ◌++◌};
ghost use Rattle.readers.specs.Meaning.{clause_meant};
ghost use Rattle.readers.specs.Draws.{clause_of};
ghost use Rattle.readers.specs.Split.{digits, digit, split_meaning};

use crate::clause::Clause;
use crate::draws;
use crate::draws::ROW;
use crate::reader::{Reader, Reason};
use shapes::fault::Refusal;
use shapes::shape::Shape;

// The largest cells in a block, draws, check bits and blocks that eight digits serve.
const MOST_CELLS: u16 = 16;

const MOST_DRAWS: u16 = 6;

const MOST_CHECK_BITS: u16 = 4;

const MOST_BLOCKS: u16 = 16;

#[derive(Clone, Copy)]
pub struct Split;

// The eight digits of four bytes, the high digit of each first, in a row that has room for two numbers more.
fn digit_row(bytes: &[u8; 4]) -> [u64; ROW]
    ensures { result ≡ digits bytes.now ++ 0 ∷ 0 ∷ [] }
{
    let [a, b, c, d] = *bytes;
    [
        a / 16,
        a % 16,
        b / 16,
        b % 16,
        c / 16,
        c % 16,
        d / 16,
        d % 16,
        0,
        0,
    ]
    .map(u64::from)
}

// The clause of four bytes.
fn clause_of_digits(shape: &Shape, bytes: &[u8; 4]) -> Clause
    ensures { clause_meant result ≡ clause_of shape.now.dims (digit bytes.now) }
{
    draws::clause_of(shape, &digit_row(bytes))
}

impl Reader for Split {
    ghost meaning = { λ _. split_meaning };

    fn admits(&self, shape: &Shape) -> bool {
        let dims = shape.dims();
        dims.n <= MOST_CELLS
            && dims.k <= MOST_DRAWS
            && dims.s <= MOST_CHECK_BITS
            && dims.b <= MOST_BLOCKS
    }

    fn read(&self, shape: &Shape, key: &[u8]) -> Result<Clause, Refusal> {
        self.may_read(shape, key)?;
        let Ok(bytes) = <&[u8; 4]>::try_from(key) else {
            return Err(Reason::WrongLength.at(key.len() as u32));
        };
        Ok(clause_of_digits(shape, bytes))
    }
}
