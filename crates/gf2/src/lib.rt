// Elimination over GF(2). It knows nothing of keys: below it are sets of cells and the rows over them.
#![tactic(auto)]

mod elimination;
pub mod kinds;
pub mod marked;
pub mod row;
pub mod sets;
pub mod sizes;
pub mod theorems;

pub use elimination::rows;
