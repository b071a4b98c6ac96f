//! The jobs of the tasks of a kernel trace, whatever their class.
#![tactic(auto)]

mod lines;
mod task;
mod tasks;
mod watch;

pub use lines::{JobFault, JobLines, JobRecord};
pub use task::JobTask;
pub use tasks::JobTasks;
pub use watch::{Phase, Seen};
