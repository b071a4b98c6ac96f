//! The memory of a book.

/// The most runqueues.
pub const FLAT_QUEUES_MAX: usize = 65536;

/// The most tasks.
pub const FLAT_TASKS_MAX: usize = 1048576;

/// What is kept of a task. Before the opening its runtime and period alone count.
#[repr(C)]
#[derive(Clone, Copy, Debug, PartialEq, Eq)]
pub struct NdTask {
    /// The runtime in each period, which is the full budget.
    pub runtime: u32,

    /// The period, which is the relative deadline too.
    pub period: u32,

    /// What is left of the runtime.
    pub budget: u32,

    /// The deadline, a moment.
    pub deadline: u32,

    /// How many of its blocks have waited: the ticket of the latest.
    pub count: u32,

    /// 0 away, 1 contending, 2 non-contending, 3 inactive, 4 gone for good.
    pub state: u32,

    /// Its runqueue, where its state is 1, 2 or 3.
    pub queue: u32,
}

/// A runqueue: its constants, and the bandwidths of its tasks, in 1/2^20. Before the opening its constants alone count.
#[repr(C)]
#[derive(Clone, Copy, Debug, PartialEq, Eq)]
pub struct NdRunqueue {
    /// The most bandwidth that is admitted.
    pub umax: u32,

    /// The bandwidth that running tasks may reclaim at all times.
    pub uextra: u32,

    /// Of its active tasks, contending or not.
    pub running_bw: u32,

    /// Of all its tasks.
    pub this_bw: u32,
}
