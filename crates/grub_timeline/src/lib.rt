//! Event files on one time line: one book and one thread play the lines of all files in the order of their moments.
#![tactic(auto)]

mod armers;
mod book_steps;
mod closing;
mod due;
mod fault;
mod line;
mod lines;
mod log;
mod opening;
mod order;
mod own;
mod player;
mod playing;
mod said;
mod told;
mod view_fault;
mod whole;

pub use book_steps::{Change, Step, fill_steps, played_steps, replay, step_after};
pub use fault::PlayFault;
pub use order::PlacedLine;
pub use own::steps_of_task;
pub use playing::Playing;
pub use said::{
    charge_in, is_asleep, is_joined, is_kept, is_left, is_refused, is_retired, is_waiting,
    is_woken, lateness_in, least_after, recharges_in, run_of, server_before,
};
pub use told::{TimeLine, ToldEntry};
pub use view_fault::ViewFault;
pub use whole::play;
