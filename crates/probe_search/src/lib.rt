//! Which moves explain a record: a strategy. It bears on no answer, since a run makes legal moves alone and compares each value.
//!
//! Effects settle as late as they may: when a value shows them, or at the end of their window.
#![tactic(auto)]

mod charges;
mod dequeues;
mod effects;
mod handlers;
mod locks;
mod readings;
mod reclaiming;
mod shown;
mod speeds;
mod strategy;
mod witness;

pub use strategy::ProbeSearch;
pub use witness::Witness;
