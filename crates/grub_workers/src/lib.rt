//! A thread for each file of a plan, over one shared table, and what the reports of a run tell.
#![tactic(auto)]

mod asking;
mod attempts;
mod desk;
mod due;
mod gate;
mod outcome;
mod scoped;
mod script;
mod work;
mod worker;

pub use attempts::Attempts;
pub use gate::{Gate, NoGate};
pub use outcome::{Outcome, RunFault, run};
