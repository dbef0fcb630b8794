// Whole runs on a draft, and the law over them.
#![tactic(auto)]

mod apart;
mod run;
mod steps;
mod works;

// For works that are only read, as constant ones: the outcomes lie apart, and where they have no room it answers none.
pub use apart::replay;
// For works that are made for the run: each brings the room for its outcome, so there always is room.
pub use steps::replay_steps;
pub use works::{Outcome, Step, Work};
