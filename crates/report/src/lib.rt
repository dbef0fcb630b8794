// The lines that the program prints, each promised byte for byte.
#![tactic(auto)]

mod answer;
mod detail;
mod hex;
mod lines;
mod works;

pub use lines::{asked, opened};
pub use works::done;
