//! A record is explained: a search chooses, and the run says what is legal.
#![tactic(auto)]

mod play;
mod player;
mod runs;
mod search;
mod taken;

pub use player::Player;
pub use runs::{lines_decide, only_lines_come_next};
pub use search::{ProbeLine, Search, Step};
