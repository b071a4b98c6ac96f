//! Lines as they are kept.

use trace_data::Stop;

/// What a kept line says.
#[derive(Clone, Copy)]
pub enum KeptEvent {
    /// No more than which CPU idles.
    Idles,

    /// A task of the class wakes on this CPU, when its runqueue's clock is so.
    Woken {
        task: u32,
        cpu: u32,
        clock: u64,
    },

    /// A task of another class wakes on this CPU.
    OtherWoken {
        cpu: u32,
    },

    /// A task of the class is moved to this CPU.
    Migrated {
        task: u32,
        cpu: u32,
    },

    /// sched_stat_runtime of a task.
    Ran {
        task: u32,
        nanos: u64,
    },

    /// A task stops to run; none where it has no reservation.
    Switched {
        task: Option<u32>,
        is_deadline: bool,
        stop: Stop,
        is_next_idle: bool,
    },

    /// `inactive_task_timer` is started, while this task runs; none where it has no reservation.
    ZeroLagStarted {
        timer: u32,
        task: Option<u32>,
        expires: u64,
    },

    /// `dl_task_timer` is started.
    ReplenishStarted {
        timer: u32,
        expires: u64,
    },

    /// A timer is cancelled.
    Cancelled {
        timer: u32,
    },

    /// `inactive_task_timer` fires.
    ZeroLagFired {
        timer: u32,
    },

    /// `dl_task_timer` fires.
    ReplenishFired {
        timer: u32,
    },
}

/// A line that is kept.
#[derive(Clone, Copy)]
pub struct KeptLine {
    /// Its number in the text.
    pub line: u64,
    pub at: u64,

    /// The CPU that wrote it.
    pub cpu: u32,

    /// The CPU idles, or stops to do so.
    pub is_idle: bool,
    pub event: KeptEvent,
}
