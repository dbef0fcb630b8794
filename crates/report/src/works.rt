// What was done on a draft, and what came of it.
ghost use Rattle.std.specs.Prelude.{◌≡◌, Some, IfOk, string_bytes};
ghost use Rattle.runs.specs.Runs.{deed};
ghost use Rattle.report.specs.Texts.{deed_text, slot_text, outcome_text, done_line};

use crate::detail::InFull;
use crate::hex::Hex;
use drafts::DEPENDENT;
use runs::{Outcome, Work};
use std::alloc::{AllocError, Global};
use std::fmt;

// A call on a draft, and what it answered.
pub fn done(heap: Global, work: &Work, outcome: &Outcome) -> Result<String, AllocError>
    ensures { IfOk result (λ s. string_bytes s ≡ done_line (deed work.now) outcome.now) }
{
    let call = Call(work);
    let answer = Answer(outcome);
    format!(in heap; "{call}: {answer}")
}

// A call on a draft.
#[derive(Clone, Copy)]
struct Call<'a>(&'a Work<'a>);

impl fmt::Display for Call<'_> {
    ghost output = { λ call. Some (deed_text (deed call.0.now)) };

    fn fmt<W: fmt::Write>(&self, f: &mut fmt::Formatter<W>) -> fmt::Result {
        match self.0 {
            Work::Enter(key, notice) => write!(f, "enter {}, notice {notice}", Hex(key)),
            Work::Write => f.write_str("write"),
            Work::Bound(block, cell) => write!(f, "cell {cell} of block {block}"),
            Work::Count(block) => write!(f, "block {block}"),
        }
    }
}

// What a call on a draft answered.
#[derive(Clone, Copy)]
struct Answer<'a>(&'a Outcome);

impl fmt::Display for Answer<'_> {
    ghost output = { λ a. Some (outcome_text a.0.now) };

    fn fmt<W: fmt::Write>(&self, f: &mut fmt::Formatter<W>) -> fmt::Result {
        match self.0 {
            Outcome::Entered(Ok((block, slot))) => write!(f, "block {block}, {}", Slot(*slot)),
            Outcome::Wrote(Ok(len)) => write!(f, "length {len}"),
            Outcome::Bound(Ok(true)) => f.write_str("bound"),
            Outcome::Bound(Ok(false)) => f.write_str("free"),
            Outcome::Counted(Ok(count)) => write!(f, "bound {count}"),
            Outcome::Entered(Err(fault))
            | Outcome::Wrote(Err(fault))
            | Outcome::Bound(Err(fault))
            | Outcome::Counted(Err(fault)) => write!(f, "{}", InFull(fault)),
        }
    }
}

// The slot that an entry takes, if it takes one.
#[derive(Clone, Copy)]
struct Slot(u16);

impl fmt::Display for Slot {
    ghost output = { λ s. Some (slot_text s.0) };

    fn fmt<W: fmt::Write>(&self, f: &mut fmt::Formatter<W>) -> fmt::Result {
        let slot = self.0;
        if slot == DEPENDENT {
            f.write_str("dependent")
        } else {
            write!(f, "slot {slot}")
        }
    }
}
