// What a draft notes of its blocks.
ghost use Rattle.drafts.specs.Standing.{Blank};

use gf2::sets::CellSet;

// Room for the most blocks that a shape can have.
const BLOCKS: usize = 64;

// What is noted of one block: the number of slots taken, and the bound cells.
#[derive(Clone, Copy)]
pub struct Noted {
    pub slots: u16,
    pub bound: CellSet,
}

// What is noted of each block.
#[derive(Clone, Copy)]
pub struct Tally {
    pub blocks: [Noted; BLOCKS],
}

impl Tally {
    // Nothing is bound, and no slot is taken.
    pub fn empty() -> Tally
        ensures { Blank result }
    {
        let none = Noted {
            slots: 0,
            bound: CellSet::empty(),
        };
        Tally {
            blocks: [none; BLOCKS],
        }
    }
}
