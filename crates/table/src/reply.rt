// What a table says of a key.
ghost use Rattle.std.specs.Prelude.{Some};
ghost use Rattle.table.specs.Texts.{reply_text};

use std::fmt;

// Not an Option: that the key only may be on the list is what a reader of the code has to see.
#[derive(Clone, Copy, PartialEq, Eq, Debug)]
pub enum Reply {
    // The key is not on the list.
    No,
    // The key may be on the list, and then with this notice number.
    Maybe(u32),
}

impl fmt::Display for Reply {
    ghost output = { λ reply. Some (reply_text reply) };

    fn fmt<W: fmt::Write>(&self, f: &mut fmt::Formatter<W>) -> fmt::Result {
        match self {
            Reply::No => f.write_str("No"),
            Reply::Maybe(notice) => write!(f, "Maybe {notice}"),
        }
    }
}
