//! Lines of tasks: what each shows of its task, and what its function does with it.
//!
//! A task is admitted, enqueued, charged, dequeued, moves, or leaves the class.
#![tactic(auto)]

mod admissions;
mod choice;
mod costs;
mod enqueues;
mod exits;
mod expected;
mod runs;
mod tasks;

pub use admissions::admitted;
pub use choice::{AS_SHOWN, LineChoice};
pub use costs::law_shown;
pub use enqueues::enqueued;
pub use exits::left_class;
pub use runs::updated;
pub use tasks::{dequeued, migrating};
