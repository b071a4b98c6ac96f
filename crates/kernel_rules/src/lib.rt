//! The rules of kernel/sched/deadline.c: the equations of one entity, the functions that use them, and what differs between releases.
//!
//! Each rule is a function on values, named after what it gives; its `///` line names the kernel's function. Spans and
//! moments are nanoseconds, bandwidths are units of 2^-20 of a processor. Numbers are the kernel's u64 and s64, and wrap.
//! Each event of a task takes its moment, and guesses nothing: whoever plays a kernel holds the entities and the runqueues.
#![tactic(auto)]

mod activity;
mod admissions;
mod budget;
mod charge;
mod clock;
mod delays;
mod dequeues;
mod enqueues;
mod entity;
mod exits;
mod flags;
mod release;
mod reservation;
mod runs;
mod sums;
mod table;
mod timers;

pub use activity::{
    Block, Contention, blocked, blocking, blocking_change, contended, contending,
    contending_change, zero_lag,
};
pub use admissions::{Admission, Admitting, admit, wanted};
pub use budget::{
    Wake, charged, has_timer_ahead, overflows, recharges, renewed, replenished,
    replenished_blocked, waking, woken,
};
pub use charge::{Charge, ChargeLaw, ChargedRunqueue, charging, cost};
pub use clock::{is_before, quotient, ratio};
pub use delays::{Delayed, Locked, after_delayed, delayed_change, lock};
pub use dequeues::{Dequeuing, dequeue};
pub use enqueues::{Arrival, Boost, Enqueuing, Refill, enqueue};
pub use entity::{Entity, fresh};
pub use exits::{Leaving, leave};
pub use flags::{
    BW_UNIT, DEADLINE_POLICY, KEPT_FLAGS, MIGRATED, MOVING, QUEUED, RECLAIM, REPLENISH, RESTORE,
    WAKEUP, has,
};
pub use release::{
    charge_law, has_servers, is_judged_by_probes, is_judged_by_timers, release_of, tried_by_probes,
    tried_by_timers, wants_sums,
};
pub use reservation::{cleared, reserved, served_by};
pub use runs::{Spending, Spent, spend};
pub use sums::{SumsChange, changed, share, unchanged};
pub use table::{OLDEST, RELEASES, Release, Servers, UpdateFunction};
pub use timers::{Fired, replenish_fired, zero_lag_fired};
