// What a reader makes of a key.
use gf2::sets::CellSet;

// A block, the cells drawn in it, and a check.
#[derive(Clone, Copy)]
pub struct Clause {
    pub block: u16,
    pub cells: CellSet,
    pub check: u32,
}
