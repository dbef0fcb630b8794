// The shape of a table. The checked shape stands alone here, since its ghost fields import nothing that names it.
ghost use Rattle.std.specs.Prelude.{◌+◌, ◌≤◌};

pub mod check;

// The five numbers of a shape, whatever they are.
#[derive(Clone, Copy, PartialEq, Eq, Debug)]
pub struct Dims {
    // The cells in a block.
    pub n: u16,
    // The draws for a key.
    pub k: u16,
    // The check bits.
    pub s: u16,
    // The notice bits.
    pub r: u16,
    // The blocks.
    pub b: u16,
}

// Five numbers within their limits.
#[derive(Clone, Copy)]
pub struct Shape {
    dims: Dims,
    ghost cells: { (1 ≤ dims.n) × (dims.n ≤ 256) },
    ghost draws: { (1 ≤ dims.k) × (dims.k ≤ 8) },
    ghost bits: { (dims.s ≤ 32) × (dims.r ≤ 32) × (1 ≤ dims.s + dims.r) },
    ghost count: { (1 ≤ dims.b) × (dims.b ≤ 64) },
}
