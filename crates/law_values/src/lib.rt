//! Values of the laws run, server, pick and total: who is charged, who waits at a switch, and what was admitted.
#![tactic(auto)]

mod admissions;
mod extra;
mod leaving;
mod lower;
mod pick;
mod run;
mod server;
mod shares;

pub use admissions::is_of_reservation;
pub use lower::{LowerTask, Ready, ReadyTasks};
pub use pick::Picks;
pub use run::Runs;
pub use server::Servers;
pub use shares::Total;
