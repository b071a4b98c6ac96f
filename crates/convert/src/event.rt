//! What a line of an event file says.

/// What a task does.
#[derive(Clone, Copy, Debug, PartialEq, Eq)]
pub enum TaskAct {
    /// It wakes, and was not seen before.
    Join,
    Wake,
    Block,
    /// It ran for so many microseconds.
    Run { micros: u64 },
}

/// Where an event comes from.
#[derive(Clone, Copy, Debug, PartialEq, Eq)]
pub enum EventSource {
    /// A line of the trace says it: a wake, a run, or a switch away from a task that sleeps.
    Told,
    /// A switch away from a task that ends.
    Ending,
    /// A task that is first seen as it blocks: it was there from the beginning.
    Opening,
    /// A ready task is moved to another runqueue.
    Moving,
}

/// An event of a task on a runqueue, before its moment is known.
#[derive(Clone, Copy, Debug, PartialEq, Eq)]
pub struct TaskEvent {
    /// The line of the trace that it comes from, from 1.
    pub line: u64,

    /// The moment of that line, in nanoseconds of the trace's clock.
    pub at: u64,

    /// The number of the task.
    pub task: usize,
    pub runqueue: u32,
    pub act: TaskAct,
    pub source: EventSource,
}

/// An event at its moment.
#[derive(Clone, Copy, Debug, PartialEq, Eq)]
pub struct TimedEvent {
    /// In microseconds, of which the first wake is at `FIRST_WAKE`.
    pub moment: u32,
    pub event: TaskEvent,
}
