// What is done on a draft, and what comes of it.
use shapes::fault::Fault;

// One call on a draft.
#[derive(Clone, Copy)]
pub enum Work<'w> {
    // To enter a key with a notice number.
    Enter(&'w [u8], u32),
    // To write the table.
    Write,
    // To ask whether a cell of a block is bound.
    Bound(u16, u16),
    // To ask how many cells of a block are bound.
    Count(u16),
}

// What the call answered.
#[derive(Clone, Copy)]
pub enum Outcome {
    Entered(Result<(u16, u16), Fault>),
    Wrote(Result<usize, Fault>),
    Bound(Result<bool, Fault>),
    Counted(Result<u16, Fault>),
}

// A work of a run, with room for its outcome.
#[derive(Clone, Copy)]
pub struct Step<'w> {
    pub work: Work<'w>,
    pub outcome: Option<Outcome>,
}
