//! What is shown of a record.

use crate::history::History;
use crate::span::Span;
use timer_tasks::Observation;

/// A task's pid, and its comm.
#[derive(Drop)]
pub struct TaskName {
    pub pid: u64,
    pub comm: String,
}

/// What is shown of a record: the states of its tasks and runqueues, its timers, and the first that differs.
#[derive(Clone, Copy)]
pub struct RecordScene<'a> {
    pub history: &'a History,

    /// By the numbers of the tasks.
    pub tasks: &'a [TaskName],
    pub observations: &'a [Observation],

    /// The first that differs.
    pub first: Option<&'a Observation>,
    pub span: Span,

    /// `max_bw` of each runqueue, by its CPU.
    pub limits: &'a [u64],
}

/// Where a timer is shown: at the moment for which the kernel set it, or at the block at which it set none.
pub fn marked_at(observation: &Observation) -> u64 {
    observation.kernel.unwrap_or(observation.at)
}

/// Whether a moment is in a span.
pub fn is_within(span: Span, at: u64) -> bool {
    span.from <= at && at <= span.to
}

impl<'a> RecordScene<'a> {
    /// The first observation that differs, where it is in the span.
    pub fn deviation(&self) -> Option<&'a Observation> {
        let observation = self.first?;
        if is_within(self.span, observation.at) {
            Some(observation)
        } else {
            None
        }
    }
}
