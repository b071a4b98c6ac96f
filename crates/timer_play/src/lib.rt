//! The timers that a kernel's accounting comes to, beside those that it armed.
//!
//! A record's lines are played by the rules of kernel/sched/deadline.c. At each block of a task, and at each start of a replenishment
//! timer, the moment that the rules give stands beside the kernel's. Moments and spans are nanoseconds on the record's clock,
//! bandwidths are units of 2^-20 of a processor; numbers are the kernel's u64 and s64, and wrap.
#![tactic(auto)]

mod counting;
mod counts;
mod events;
mod machine;
mod opening;
mod place;
mod playing;
mod setup;
mod steps;
mod telling;
mod terms;
mod timers;
mod turns;

pub use counts::{TimerRule, TimerRuleCounts};
pub use machine::{Charged, Owner, RecordOutcome, TimedMachine, Watch};
pub use playing::{play, tell_until};
pub use setup::{
    FairServer, KernelSettings, Limits, NoSums, RecordSetup, RecordStart, RunqueueSums, setup_of,
};
pub use terms::PlayTerms;
