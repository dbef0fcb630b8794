// Which number of a shape is outside its limits.
ghost use Rattle.std.specs.Prelude.{◌≡◌};
ghost use Rattle.shapes.specs.Limits.{place_of};

// The five, in the order in which they are checked.
#[derive(Clone, Copy, PartialEq, Eq, Debug)]
pub enum Limit {
    // n, the cells in a block.
    Cells,
    // k, the draws for a key.
    Draws,
    // s, the check bits.
    CheckBits,
    // r, the notice bits.
    NoticeBits,
    // B, the blocks.
    Blocks,
}

// The place of a fault that names it, 1 to 5.
impl From<Limit> for u64 {
    ghost from_gives = { λ limit place. place ≡ place_of limit };

    fn from(limit: Limit) -> u64 {
        match limit {
            Limit::Cells => 1,
            Limit::Draws => 2,
            Limit::CheckBits => 3,
            Limit::NoticeBits => 4,
            Limit::Blocks => 5,
        }
    }
}
