//! One rule changed at a time: what a record would show if the kernel had that rule in place of its own.
//!
//! Each function is a rule of one entity or an event, and takes the change. With none it is the rule itself, and so where the
//! change is about another function.
#![tactic(auto)]

mod change;
mod charges;
mod departures;
mod enqueues;
mod refills;
mod replenishments;

pub use change::{ALL, CHANGES, RuleChange};
pub use charges::{charging_by, cost_by};
pub use departures::{admit_by, dequeue_by, fired_by, leave_by, lock_by, spend_by};
pub use enqueues::enqueue_by;
pub use replenishments::replenish_fired_by;
