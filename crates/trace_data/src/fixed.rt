//! Lines of the events that each kernel has: sched and timer.

/// The state in which a task stops to run, by the first letter of the trace's `prev_state`.
#[derive(Clone, Copy, Debug, PartialEq, Eq)]
pub enum Stop {
    /// R or P: it is ready, and another task runs in its place.
    Ready,

    /// It sleeps, or waits for something.
    Blocks,

    /// X or Z: it has ended.
    Ends,
}

/// The function that a timer calls.
#[derive(Clone, Copy)]
pub enum TimerFunction {
    /// `inactive_task_timer`: the 0-lag time of a task or of a fair server.
    ZeroLag,

    /// `dl_task_timer`: the replenishment of a task, or a timer of a fair server.
    Replenish,
    Other,
}

/// What a line of these events says. Moments and spans are nanoseconds; a priority of -1 is SCHED_DEADLINE.
#[derive(Clone, Copy)]
pub enum Fixed {
    /// sched_wakeup, sched_wakeup_new.
    Woken {
        pid: u64,
        is_deadline: bool,
        cpu: u32,
    },

    /// sched_migrate_task.
    Migrated {
        pid: u64,
        is_deadline: bool,
        cpu: u32,
    },

    /// sched_stat_runtime.
    Ran {
        pid: u64,
        nanos: u64,
    },

    /// sched_switch: `pid` stops to run, and `next_pid` runs.
    Switched {
        pid: u64,
        is_deadline: bool,
        stop: Stop,
        next_pid: u64,
        next_is_deadline: bool,
    },

    /// hrtimer_start, in the context of the task that runs.
    TimerStarted {
        timer: u64,
        function: TimerFunction,
        expires: u64,
    },

    /// hrtimer_cancel.
    TimerCancelled {
        timer: u64,
    },

    /// hrtimer_expire_entry; whether it is the CPU's tick.
    TimerFired {
        timer: u64,
        function: TimerFunction,
        is_tick: bool,
        now: u64,
    },

    /// sys_enter_sched_setattr or sys_enter_sched_setscheduler, by the task that runs.
    PolicyCalled,

    /// sys_exit of them.
    PolicyReturned,
}
