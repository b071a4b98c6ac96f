//! The states of a record's tasks and runqueues over time, as the rules of kernel/sched/deadline.c give them.
//!
//! Each state, each budget and each reading of the sums stands beside the span in which it held. Moments are nanoseconds on the record's
//! clock, bandwidths units of 2^-20 of a processor.
#![tactic(auto)]

mod document;
mod event;
mod history;
mod member;
mod playing;
mod probed;
mod scene;
mod span;
mod state;

pub use document::put_document;
pub use event::{
    budget_event, deviation_event, extra_event, micros, running_event, runqueue_event, slice_event,
    task_event, tasks_event, this_event, timer_event,
};
pub use history::{BudgetSlice, History, Slice, SumsSlice};
pub use playing::{see_task, states_of};
pub use probed::{ProbeLine, ProbedStates};
pub use scene::{RecordScene, TaskName, is_within, marked_at};
pub use span::{Span, common};
pub use state::{TaskState, is_on_cpu, state_of};
