// The fold layer: drops spaces and hyphens and turns letters into capitals, and hands the rest to the reader below.
ghost use Rattle.std.specs.Prelude.{◌≡◌, ◌≤◌, length, not, position, take};
ghost use Rattle.readers.specs.Meaning.{most_key};
ghost use Rattle.readers.specs.Fold.{printable, folded, capital, deeper, fold_meaning};

use crate::clause::Clause;
use crate::reader::{MOST_KEY, Reader, Reason};
use shapes::fault::Refusal;
use shapes::shape::Shape;

// The layer over a reader.
#[derive(Clone, Copy)]
pub struct Fold<R>(pub R);

// The position of the first byte that is not printable, if there is one.
fn unprintable(key: &[u8]) -> Option<usize>
    ensures { result ≡ position (λ b. not (printable b)) key.now }
{
    key.iter().position(|b| !matches!(*b, b' '..=b'~'))
}

// The byte as the reader below gets it.
fn capital(b: u8) -> u8
    ensures { result ≡ capital b }
{
    b.to_ascii_uppercase()
}

// Writes the key as the reader below gets it, and answers how many bytes it has.
// An array with its length, and no vector of another crate: what is flashed stands on std alone.
fn fold_into(key: &[u8], room: &mut [u8; MOST_KEY]) -> usize
    requires { length key.now ≤ most_key }
    ensures within { result ≤ most_key }
    ensures folds { take result room.new ≡ folded key.now }
{
    let mut length = 0;
    for b in key {
        if !matches!(*b, b' ' | b'-') {
            room[length] = capital(*b);
            length += 1;
        }
    }
    length
}

// A refusal from below, one layer further up.
fn deeper(e: Refusal) -> Refusal
    ensures { result ≡ deeper e }
{
    Refusal {
        depth: e.depth.saturating_add(1),
        ..e
    }
}

impl<R: Reader> Reader for Fold<R> {
    ghost meaning = { λ f. fold_meaning (R.Reader.meaning f.0) };

    fn admits(&self, shape: &Shape) -> bool {
        self.0.admits(shape)
    }

    fn read(&self, shape: &Shape, key: &[u8]) -> Result<Clause, Refusal> {
        self.may_read(shape, key)?;
        if let Some(place) = unprintable(key) {
            return Err(Reason::Unprintable.at(place as u32));
        }
        let mut room = [0; MOST_KEY];
        let length = fold_into(key, &mut room);
        self.0.read(shape, &room[..length]).map_err(deeper)
    }
}
