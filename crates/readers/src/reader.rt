// The interface of readers, and the one way in which drafts and tables use one.
ghost use Rattle.std.specs.Prelude.{◌≡◌, cond, IfOk};
ghost use Rattle.readers.specs.Meaning.{Meaning, Formed, refusal, reason_number, readable, reply, clause_in, read_for, clause_meant};

use crate::clause::Clause;
use shapes::fault::{Caller, Fault, Refusal};
use shapes::shape::Shape;

// A key has at most this many bytes.
pub const MOST_KEY: usize = 64;

// Why the library's own readers turn a key down. A refusal's reason is a number, since other readers have reasons of their own.
#[derive(Clone, Copy, PartialEq, Eq, Debug)]
pub enum Reason {
    // The reader does not admit the shape, or the key is too long.
    NotRead = 0,
    // The key has another length than the reader wants.
    WrongLength = 1,
    // The key has a byte that is not printable.
    Unprintable = 2,
}

impl Reason {
    // The refusal for this reason by the reader that was asked, at a place in the key.
    pub fn at(self, place: u32) -> Refusal
        ensures { result ≡ refusal (reason_number self) place 0 }
    {
        Refusal {
            reason: self as u16,
            place,
            depth: 0,
        }
    }
}

// A reader turns keys into clauses. Whoever adds one gives its meaning, and shows that it tells exactly that.
pub trait Reader {
    ghost meaning: { Self → Meaning };

    // Whether the reader can be used with the shape.
    fn admits(&self, shape: &Shape) -> bool
        ensures { result ≡ (meaning self.now).admits shape.now.dims };

    // The clause of a key, or why there is none.
    fn read(&self, shape: &Shape, key: &[u8]) -> Result<Clause, Refusal>
        ensures { clause_in result ≡ reply (meaning self.now) shape.now.dims key.now };

    // What each `read` begins with: a key is looked at only at a shape that the reader admits, and only if it is not too long.
    fn may_read(&self, shape: &Shape, key: &[u8]) -> Result<(), Refusal>
        ensures { result ≡ cond (readable (meaning self.now) shape.now.dims key.now) (Ok tt) (Err (refusal 0 0 0)) }
    {
        if self.admits(shape) && key.len() <= MOST_KEY {
            Ok(())
        } else {
            Err(Reason::NotRead.at(0))
        }
    }
}

// The clause of a key for a draft or a table, with the faults that come before it, in their order.
pub fn clause_for<R: Reader>(
    reader: &R,
    shape: &Shape,
    key: &[u8],
    caller: Caller,
) -> Result<Clause, Fault>
    ensures reads { clause_in result ≡ read_for (R.Reader.meaning reader.now) caller shape.now.dims key.now }
    ensures formed { IfOk result (λ c. Formed shape.now.dims (clause_meant c)) }
{
    if !reader.admits(shape) {
        return Err(Fault::NotAdmitted(caller));
    }
    if key.len() > MOST_KEY {
        return Err(Fault::LongKey(caller, key.len()));
    }
    Ok(reader.read(shape, key)?)
}
