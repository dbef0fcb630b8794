// Answer kinds that have a word, and in which the slot of an entry can be marked.
ghost use Rattle.std.specs.Prelude.{◌≡◌, ℕ, List, if◌then◌else◌, nat_lt, refl};
ghost use Rattle.span.specs.Echelon.{Row as SpanRow};
ghost use Rattle.span.specs.Marked.{Full, fulls, Marks, full_marks, lean_marks, Blames, NoSlots};
ghost use Rattle.span.specs.Slots.{ConflictSet};
ghost use Rattle.gf2.specs.Kinds.{Seen};
ghost use Rattle.gf2.specs.Masks.{width, mask};
ghost use Rattle.span.proofs.Marked.{lean_blames, full_blames};

use crate::kinds::{Answer, Pair, Word};
use crate::sets::CellSet;

// A value is seen as a word with a slot set (`view`), by a map that keeps sums (`seen`). `marks` says how its word is read and a slot marked,
// and `blame` what the slots say that are left of an entry in conflict.
pub trait Marked: Answer {
    ghost view: { Self → Full };

    ghost marks: { Marks fulls };

    ghost blame: { List (SpanRow ℕ) → SpanRow ℕ → ℕ → Type 0 };

    // The answer with this word and no slot marked.
    fn of_word(word: u64) -> Self
        ensures { view result ≡ marks.answer word };

    fn word(self) -> u64
        ensures { result ≡ marks.word (view self) };

    // The answer with the mark of one slot added; a slot past the width of a set has no mark.
    fn marked(self, slot: usize) -> Self
        ensures { view result ≡ (if nat_lt slot width then fulls.sum (marks.mark slot) (view self) else view self) };

    fn slots(self) -> CellSet
        ensures { mask result ≡ marks.slots (view self) };

    ghost seen: { Seen Self.Answer.mean Self.Answer.kind view };

    ghost blames: { Blames marks blame };
}

// Words alone: a slot leaves no mark.
impl Marked for Word {
    ghost view = { λ w. (w.0, 0) };

    ghost marks = { lean_marks };

    ghost blame = { NoSlots };

    ghost seen = { record { through = λ w. (w, 0); of_mean = λ _. refl; of_none = refl; of_sum = λ _ _. refl } };

    ghost blames = { lean_blames };

    fn of_word(word: u64) -> Word {
        Word(word)
    }

    fn word(self) -> u64 {
        self.0
    }

    fn marked(self, _slot: usize) -> Word {
        self
    }

    fn slots(self) -> CellSet {
        CellSet::empty()
    }
}

// Words with slot sets.
impl Marked for Pair<Word, CellSet> {
    ghost view = { λ p. (p.left.0, mask p.right) };

    ghost marks = { full_marks };

    ghost blame = { ConflictSet };

    ghost seen = { record { through = λ p. p; of_mean = λ _. refl; of_none = refl; of_sum = λ _ _. refl } };

    ghost blames = { full_blames };

    fn of_word(word: u64) -> Pair<Word, CellSet> {
        Pair {
            left: Word::of_word(word),
            right: CellSet::zero(),
        }
    }

    fn word(self) -> u64 {
        self.left.0
    }

    #[tactic(auto, using(std::proofs::lemmas::Nat::xor_comm))]
    fn marked(self, slot: usize) -> Pair<Word, CellSet> {
        Pair {
            left: self.left,
            right: self.right.toggled(slot),
        }
    }

    fn slots(self) -> CellSet {
        self.right
    }
}
