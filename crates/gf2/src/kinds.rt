// What a row can carry beside its cells.
ghost use Rattle.std.specs.Prelude.{◌≡◌, ℕ, true};
ghost use Rattle.span.specs.Kinds.{Kind, numbers, both};
ghost use Rattle.gf2.specs.Masks.{mask};

use crate::sets::CellSet;

// An answer kind. What a value stands for has a sum whose order and grouping do not matter, with a zero,
// where a value plus itself is zero: these laws are fields of `kind`, so an impl that broke one would have none to give.
pub trait Answer: Copy {
    ghost Mean: { Type 0 };

    ghost mean: { Self → Mean };

    ghost kind: { Kind Mean };

    fn zero() -> Self
        ensures { mean result ≡ kind.none };

    fn sum(self, other: Self) -> Self
        ensures { mean result ≡ kind.sum (mean self) (mean other) };

    // Yes to zero alone.
    fn is_zero(self) -> bool
        ensures yes { result ≡ true → mean self ≡ kind.none }
        ensures only { mean self ≡ kind.none → result ≡ true };
}

// A word under XOR.
#[derive(Clone, Copy, PartialEq, Eq, Debug)]
pub struct Word(pub u64);

impl Answer for Word {
    ghost Mean = { ℕ };

    ghost mean = { λ w. w.0 };

    ghost kind = { numbers };

    fn zero() -> Word {
        Word(0)
    }

    fn sum(self, other: Word) -> Word {
        Word(self.0 ^ other.0)
    }

    fn is_zero(self) -> bool {
        self.0 == 0
    }
}

// A set of slots under symmetric difference.
impl Answer for CellSet {
    ghost Mean = { ℕ };

    ghost mean = { mask };

    ghost kind = { numbers };

    fn zero() -> CellSet {
        CellSet::empty()
    }

    fn sum(self, other: CellSet) -> CellSet {
        self.symmetric_difference(other)
    }

    fn is_zero(self) -> bool {
        self.is_empty()
    }
}

// Two kinds side by side.
#[derive(Clone, Copy, PartialEq, Eq, Debug)]
pub struct Pair<L, R> {
    pub left: L,
    pub right: R,
}

impl<L: Answer, R: Answer> Answer for Pair<L, R> {
    ghost Mean = { L.Answer.Mean × R.Answer.Mean };

    ghost mean = { λ p. (L.Answer.mean p.left, R.Answer.mean p.right) };

    ghost kind = { both L.Answer.kind R.Answer.kind };

    fn zero() -> Pair<L, R> {
        Pair {
            left: L::zero(),
            right: R::zero(),
        }
    }

    fn sum(self, other: Pair<L, R>) -> Pair<L, R> {
        Pair {
            left: self.left.sum(other.left),
            right: self.right.sum(other.right),
        }
    }

    fn is_zero(self) -> bool {
        self.left.is_zero() && self.right.is_zero()
    }
}
