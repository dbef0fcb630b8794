// The stream reader: a key's FNV-1a hash seeds SplitMix64, whose words are the draws, the check and the block.
ghost use Rattle.std.specs.Prelude.{◌≡◌, ℕ, ◌<◌, slice_index};
ghost use Rattle.readers.specs.Meaning.{clause_meant};
ghost use Rattle.readers.specs.Draws.{clause_of};
ghost use Rattle.readers.specs.Stream.{fnv_step, fnv_from, fnv, FnvRule, advance, mix, word, stream_meaning};

use crate::clause::Clause;
use crate::draws;
use crate::draws::ROW;
use crate::reader::Reader;
use shapes::fault::Refusal;
use shapes::shape::Shape;
use std::array;

// FNV-1a, 64 bits: the hash of the empty key, and the factor.
const OFFSET_BASIS: u64 = 14695981039346656037;

const PRIME: u64 = 1099511628211;

// SplitMix64: the step of its state, and the factors of its mix.
const STEP: u64 = 0x9E3779B97F4A7C15;

const FIRST_FACTOR: u64 = 0xBF58476D1CE4E5B9;

const SECOND_FACTOR: u64 = 0x94D049BB133111EB;

// The FNV-1a hash of a key.
pub fn fnv1a(key: &[u8]) -> u64
    ensures { result ≡ fnv key.now }
{
    hash(OFFSET_BASIS, key)
}

// The hash of a key from a basis, by that of the key without its last byte, as the published rule has it: so the two can be read side by side.
fn hash(basis: u64, key: &[u8]) -> u64
    ensures { result ≡ fnv_from basis key.now }
{
    match key {
        [] => basis,
        [front @ .., last] => hash_byte(hash(basis, front), *last),
    }
}

// One byte more.
fn hash_byte(hash: u64, byte: u8) -> u64
    ensures { result ≡ fnv_step hash byte }
{
    (hash ^ byte as u64).wrapping_mul(PRIME)
}

// The hash of a longer key goes by the hash of the key without its last byte.
pub fn fnv_rule()
    ensures { FnvRule }
{}

// The generator SplitMix64.
#[derive(Clone, Copy)]
pub struct SplitMix {
    state: u64,
}

impl SplitMix {
    // The generator seeded with a number.
    pub fn new(seed: u64) -> SplitMix
        ensures { result.state ≡ seed }
    {
        SplitMix { state: seed }
    }

    // The next word.
    pub fn next_word(&mut self) -> u64
        ensures moved { self.new.state ≡ advance self.old.state }
        ensures word { result ≡ mix (advance self.old.state) }
    {
        self.state = self.state.wrapping_add(STEP);
        mixed(self.state)
    }
}

// The word that a state gives.
fn mixed(state: u64) -> u64
    ensures { result ≡ mix state }
{
    let z = (state ^ (state >> 30)).wrapping_mul(FIRST_FACTOR);
    let z = (z ^ (z >> 27)).wrapping_mul(SECOND_FACTOR);
    z ^ (z >> 31)
}

// The first words from a seed.
fn first_words(seed: u64) -> [u64; ROW]
    ensures { (i : ℕ) → i < 10 → slice_index result i ≡ word seed i }
{
    let mut source = SplitMix::new(seed);
    array::from_fn(|_| source.next_word())
}

// The clause that the words from a seed give.
fn clause_from(shape: &Shape, seed: u64) -> Clause
    ensures { clause_meant result ≡ clause_of shape.now.dims (word seed) }
{
    let words = first_words(seed);
    draws::clause_of(shape, &words)
}

// The salt sets one maker's tables apart from another's.
#[derive(Clone, Copy)]
pub struct Stream {
    pub salt: u64,
}

impl Reader for Stream {
    ghost meaning = { λ s. stream_meaning s.salt };

    fn admits(&self, _shape: &Shape) -> bool {
        true
    }

    fn read(&self, shape: &Shape, key: &[u8]) -> Result<Clause, Refusal> {
        self.may_read(shape, key)?;
        Ok(clause_from(shape, fnv1a(key).wrapping_add(self.salt)))
    }
}
