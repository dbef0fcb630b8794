// Shapes and faults: what every layer above the elimination shares.
#![tactic(auto)]

pub mod fault;
pub mod limit;
pub mod shape;
