// Readers: from a key to a clause.
#![tactic(auto)]

pub mod clause;
pub mod draws;
pub mod fold;
pub mod reader;
pub mod split;
pub mod stream;
