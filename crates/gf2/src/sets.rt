// Sets of cells, or of slots.
ghost use Rattle.std.specs.Prelude.{◌≡◌, ◌*◌, true, length, MatchOption, bit_xor};
ghost use Rattle.span.specs.Lead.{Lead};
ghost use Rattle.span.specs.Sets.{has, Lowest};
ghost use Rattle.gf2.specs.Masks.{width, value, mask, toggled_in, NoneCommon, FirstCommon};

use std::array;

// The words of a set: the one place that says how wide a set is.
pub const WORDS: usize = 4;

// A set of cells below 64 × WORDS: cell c is bit c mod 64, from the low end, of word c div 64.
#[derive(Clone, Copy, PartialEq, Eq, Debug)]
pub struct CellSet {
    words: [u64; WORDS],
}

impl CellSet {
    // The set with no cell.
    #[tactic(auto, unfolding(crate::specs::Masks::value))]
    pub fn empty() -> CellSet
        ensures { mask result ≡ 0 }
    {
        CellSet { words: [0; WORDS] }
    }

    // The set with the cell put in, or taken out where it was in; a cell past the last changes nothing.
    pub fn toggled(self, cell: usize) -> CellSet
        ensures { mask result ≡ toggled_in width (mask self) cell }
    {
        let mut words = self.words;
        toggle(&mut words, cell);
        CellSet { words }
    }

    // The set's words, the low word first.
    pub fn words(self) -> [u64; WORDS]
        ensures { value result ≡ mask self }
    {
        self.words
    }

    // Whether the cell is in the set.
    pub fn contains(self, cell: usize) -> bool
        ensures { result ≡ has (mask self) cell }
    {
        contains(&self.words, cell)
    }

    // Whether the set has no cell.
    pub fn is_empty(self) -> bool
        ensures yes { result ≡ true → mask self ≡ 0 }
        ensures only { mask self ≡ 0 → result ≡ true }
    {
        is_zero(&self.words)
    }

    // The lowest cell of the set, if it has a cell.
    pub fn lowest(self) -> Option<usize>
        ensures { MatchOption result (mask self ≡ 0) (Lowest (mask self)) }
    {
        lowest(&self.words)
    }

    // The lead cell of the set, if it has a cell: here the code says which end leads.
    #[tactic(auto, using(span::proofs::Lead::lead_of_lowest))]
    pub fn lead(self) -> Option<usize>
        ensures { MatchOption result (mask self ≡ 0) (Lead (mask self)) }
    {
        self.lowest()
    }

    // The first cell from `from` on that is in both sets.
    pub fn first_common(self, other: CellSet, from: usize) -> Option<usize>
        ensures { MatchOption result (NoneCommon (mask self) (mask other) from) (FirstCommon width (mask self) (mask other) from) }
    {
        first_common(&self.words, &other.words, from)
    }

    // The cells that are in exactly one of the two sets.
    pub fn symmetric_difference(self, other: CellSet) -> CellSet
        ensures { mask result ≡ bit_xor (mask self) (mask other) }
    {
        CellSet {
            words: xor(&self.words, &other.words),
        }
    }
}

// The set of these words, the low word first.
impl From<[u64; WORDS]> for CellSet {
    ghost from_gives = { λ words set. mask set ≡ value words };

    fn from(bits: [u64; WORDS]) -> CellSet {
        CellSet { words: bits }
    }
}

// ---- bits in a run of words, the low word first

// The bits of a word.
const BITS: usize = 64;

// Turns bit c over; a bit past the last word changes nothing.
fn toggle(words: &mut [u64], c: usize)
    ensures { value words.new ≡ toggled_in (64 * length words.old) (value words.old) c }
{
    if c / BITS < words.len() {
        words[c / BITS] ^= 1 << (c % BITS);
    }
}

// Whether bit c is 1.
fn contains(words: &[u64], c: usize) -> bool
    ensures { result ≡ has (value words.now) c }
{
    c / BITS < words.len() && (words[c / BITS] >> (c % BITS)) % 2 == 1
}

// The lowest bit that is 1.
fn lowest(words: &[u64; WORDS]) -> Option<usize>
    ensures { MatchOption result (value words.now ≡ 0) (Lowest (value words.now)) }
{
    let i = words.iter().position(|word| *word != 0)?;
    Some(BITS * i + words[i].trailing_zeros() as usize)
}

// Whether no bit is 1.
fn is_zero(words: &[u64]) -> bool
    ensures yes { result ≡ true → value words.now ≡ 0 }
    ensures only { value words.now ≡ 0 → result ≡ true }
{
    words.iter().all(|word| *word == 0)
}

// The first bit from c on that is 1 in both, found word by word.
fn first_common(words: &[u64; WORDS], others: &[u64; WORDS], c: usize) -> Option<usize>
    ensures { MatchOption result (NoneCommon (value words.now) (value others.now) c) (FirstCommon width (value words.now) (value others.now) c) }
{
    for (i, (word, other)) in words.iter().zip(others).enumerate().skip(c / BITS) {
        // Bits below c are shifted out.
        let from = c.saturating_sub(BITS * i);
        let common = (word & other) >> from;
        if common != 0 {
            return Some(BITS * i + from + common.trailing_zeros() as usize);
        }
    }
    None
}

// The words of the bits that are 1 in exactly one of the two.
fn xor(words: &[u64; WORDS], others: &[u64; WORDS]) -> [u64; WORDS]
    ensures { value result ≡ bit_xor (value words.now) (value others.now) }
{
    array::from_fn(|i| words[i] ^ others[i])
}
