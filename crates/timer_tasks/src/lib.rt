//! What a line of a record does to a task and to a fair server, and what its timers show.
//!
//! Each rule is a function on values, which restates what kernel/sched/deadline.c does as far as the lines that every kernel writes can
//! show it; its `///` line names the kernel's function. Spans and moments are nanoseconds, bandwidths units of 2^-20 of a processor;
//! numbers are the kernel's u64 and s64, and wrap.
#![tactic(auto)]

mod activity;
mod effect;
mod note;
mod observation;
mod runqueue;
mod server;
mod task;
mod throttle;
mod wake;

pub use activity::{Activity, Knowledge, is_awake};
pub use effect::{BandwidthShare, server_effect, task_effect, task_share};
pub use note::{NoteStep, admitted, changed, left, sighted, step_of, was_there};
pub use observation::{
    Moments, Observation, ObservedAnswer, TimerKind, answer_of, block_answer, block_moments,
    next_period, replenish_moments, zero_lag_moment,
};
pub use runqueue::{Runqueue, served, with, without};
pub use server::{
    ServerState, after_cancel, after_fire, after_idle, after_lag, after_wake, is_stopped,
};
pub use task::{
    DeadlineTask, StartedTimer, blocked, charged_at, ends, lag_fired, lag_started, moved, ran,
    refilled, refills, replenished, seen_running, stays_ready, switched, throttled, unseen, woken,
};
pub use throttle::{Throttling, throttling_of};
pub use wake::{Waking, is_edge, is_tested, waking_of};
