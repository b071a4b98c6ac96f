//! A run of the rules over a record of probes: what they have come to, and what of the calls that have begun is not done yet.
//!
//! Its fields are private. A line is played by the crate above; a search sees the run, and chooses among legal moves.
#![tactic(auto)]

mod actor;
mod begin;
mod counting;
mod entities;
mod handlers;
mod moves;
mod notes;
mod readings;
mod resting;
mod rules;
mod run;
mod sharing;
mod sums;
mod waiting;

pub use actor::{Actor, is_special, reserve, server_parameters};
pub use counting::ComparedValue;
pub use handlers::{admit_while, dequeue_while, leave_while};
pub use moves::{RunMove, is_known_as};
pub use notes::{Counted, EntityNotes, FirstNotes, LastCharge, SumNotes};
pub use resting::{BlockedEntity, why};
pub use rules::{PlayRules, Processor, RunStart, StartBw};
pub use run::Run;
pub use sums::{RootDomain, Runqueue};
pub use waiting::{
    Awaits, Claim, Effect, OlderDequeue, OpenDequeue, PendingEffect, TimerToArm, UnlockedSum,
    moves_offline,
};
