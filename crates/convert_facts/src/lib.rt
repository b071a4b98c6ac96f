//! What the text of a kernel trace tells of SCHED_DEADLINE tasks.
#![tactic(auto)]

mod census;
mod counted;
mod fact;
mod fact_lines;
mod fault;
mod given;
mod keeper;
mod report;
mod sighting;
mod tasks;

pub use census::Census;
pub use counted::{Counted, Reserved, ShownTasks};
pub use fact::{Fact, Facts, Found, What};
pub use fact_lines::FactLines;
pub use fault::{LineFault, Wrong};
pub use trace_fields::CPUS_MAX;
