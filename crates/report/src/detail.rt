// Faults with what only some of them tell.
ghost use Rattle.std.specs.Prelude.{Some};
ghost use Rattle.gf2.specs.Masks.{mask};
ghost use Rattle.report.specs.Texts.{slots_text, full_fault_text};

use gf2::sets::{CellSet, WORDS};
use shapes::fault::Fault;
use std::fmt;

// A fault's number, place and layer, and its detail.
#[derive(Clone, Copy)]
pub struct InFull<'a>(pub &'a Fault);

impl fmt::Display for InFull<'_> {
    ghost output = { λ x. Some (full_fault_text x.0.now) };

    fn fmt<W: fmt::Write>(&self, f: &mut fmt::Formatter<W>) -> fmt::Result {
        let fault = self.0;
        match fault {
            Fault::TurnedDown(refusal) => {
                let reason = refusal.reason;
                let depth = refusal.depth;
                write!(f, "{fault}, reason {reason}, depth {depth}")
            }
            Fault::Conflict(_, slots) => write!(f, "{fault}{}", Slots(CellSet::from(*slots))),
            _ => write!(f, "{fault}"),
        }
    }
}

// As many slots as a set can have.
const SLOTS: usize = 64 * WORDS;

// The slots of a conflict.
#[derive(Clone, Copy)]
struct Slots(CellSet);

impl fmt::Display for Slots {
    ghost output = { λ x. Some (slots_text (mask x.0)) };

    fn fmt<W: fmt::Write>(&self, f: &mut fmt::Formatter<W>) -> fmt::Result {
        let slots = self.0;
        if slots.is_empty() {
            return f.write_str(", no slots");
        }
        f.write_str(", slots")?;
        // With a `filter` over the numbers this generic function does not check (`iterator-loop-slot`).
        for slot in 0..SLOTS {
            if slots.contains(slot) {
                write!(f, " {slot}")?;
            }
        }
        Ok(())
    }
}
