// Tables as images: opening one, and asking it about a key.
#![tactic(auto)]

mod cells;
mod laws;
mod reply;
pub mod sizes;
pub mod store;
mod table;

pub use laws::{image_opens_as_its_table, one_image_for_each_table};
pub use reply::Reply;
pub use table::{Table, ask_image};
