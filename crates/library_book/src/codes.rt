//! The numbers of faults. Those of the book's own refusals are 9 to 21.

/// All is well.
pub const DONE: u32 = 0;

/// The period is not 1 to 16777216.
pub const PERIOD_OUT_OF_RANGE: u32 = 1;

/// The runtime is not 1 to the period.
pub const RUNTIME_OUT_OF_RANGE: u32 = 2;

/// The bandwidth is rounded down to 0.
pub const TOO_SMALL: u32 = 3;

/// The most bandwidth is not 1 to 1048576.
pub const UMAX_OUT_OF_RANGE: u32 = 4;

/// The extra bandwidth is more than the most.
pub const UEXTRA_OUT_OF_RANGE: u32 = 5;

/// There are more than 65536 runqueues.
pub const TOO_MANY_QUEUES: u32 = 6;

/// There are more than 1048576 tasks.
pub const TOO_MANY_TASKS: u32 = 7;

/// There is no runqueue.
pub const NO_QUEUE: u32 = 8;

/// The deadline would be after 4294967295.
pub const DEADLINE_OVERFLOW: u32 = 21;

/// The budget is not 1 to the runtime.
pub const BUDGET_OUT_OF_RANGE: u32 = 60;

/// The moment is more than 2147483647.
pub const MOMENT_OUT_OF_RANGE: u32 = 61;

/// The active bandwidth is more than that of all tasks.
pub const RUNNING_OUT_OF_RANGE: u32 = 62;

/// The count of blocks is more than 16777215.
pub const COUNT_OUT_OF_RANGE: u32 = 63;

/// The task is on a runqueue that is not there.
pub const QUEUE_OUT_OF_RANGE: u32 = 64;

/// The active bandwidth is not that of the active tasks.
pub const WRONG_RUNNING_BW: u32 = 65;

/// The bandwidth is not that of all tasks.
pub const WRONG_THIS_BW: u32 = 66;

/// The tasks have more bandwidth than the runqueue admits.
pub const OVERFULL: u32 = 67;

/// The state of a task is none: 5 or more.
pub const STATE_OUT_OF_RANGE: u32 = 68;

/// No task of the runqueue contends, or waits for its 0-lag time.
pub const NOBODY: u32 = 73;

/// There is no task of this number.
pub const NO_TASK: u32 = 70;

/// No such op may be asked: its kind, runqueue, moment, run or reservation is out of range.
pub const NO_OP: u32 = 71;

/// The memory is no book.
pub const DAMAGED: u32 = 72;

/// A contending task's deadline, or a waiting task's 0-lag time, is before the new origin.
pub const TOO_FAR: u32 = 74;
