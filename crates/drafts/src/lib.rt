// A draft: entries collected in lent rows, until their table is written.
#![tactic(auto)]

mod draft;
mod entry;
mod tally;

pub use draft::{DEPENDENT, Draft};
