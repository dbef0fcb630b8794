// From a row of numbers to a clause: k draws of cells, then the check, then the block.
ghost use Rattle.std.specs.Prelude.{◌≡◌, ◌%◌, slice_index};
ghost use Rattle.gf2.specs.Masks.{mask};
ghost use Rattle.readers.specs.Meaning.{clause_meant};
ghost use Rattle.readers.specs.Draws.{drawn, clause_of, OddDraws};

use crate::clause::Clause;
use gf2::sets::CellSet;
use shapes::shape::Shape;

// The numbers in a row: at most eight draws, the check and the block.
pub const ROW: usize = 10;

// The set of cells that the first k numbers of a row draw. A cell drawn twice cancels out.
fn drawn(shape: &Shape, words: &[u64; ROW]) -> CellSet
    ensures { mask result ≡ drawn (λ i. slice_index words.now i % shape.now.dims.n) shape.now.dims.k }
{
    let dims = shape.dims();
    let n = dims.n as u64;
    words[..dims.k as usize]
        .iter()
        .fold(CellSet::empty(), |cells, word| {
            cells.toggled((*word % n) as usize)
        })
}

// The clause of a row of numbers.
pub fn clause_of(shape: &Shape, words: &[u64; ROW]) -> Clause
    ensures { clause_meant result ≡ clause_of shape.now.dims (λ i. slice_index words.now i) }
{
    let dims = shape.dims();
    let k = dims.k as usize;
    Clause {
        block: (words[k + 1] % dims.b as u64) as u16,
        cells: drawn(shape, words),
        check: (words[k] % (1 << dims.s)) as u32,
    }
}

// A cell is in a drawn set exactly where it was drawn an odd number of times.
pub fn odd_draws()
    ensures { OddDraws }
{}
