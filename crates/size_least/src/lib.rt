//! Sizing: the least runtime of a reservation with which the jobs of a record are in time.
#![tactic(auto)]

mod closed;
mod heights;
mod job;
mod late;
mod laws;
mod least;
mod needs;
mod plays;
mod renewal;
mod step;
mod witness;

pub use closed::need;
pub use heights::{STEPS, heights_of};
pub use job::Job;
pub use late::{late_count, lates_of};
pub use laws::{jobs_are_in_time_as_told, more_runtime_is_never_later};
pub use least::least_runtime;
pub use needs::needs_are_the_curve_of_late_jobs;
pub use plays::{in_time_whatever_else_runs, late_in_some_play};
pub use witness::{Late, first_late};
