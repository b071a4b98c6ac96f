//! Lines of probes at the entries of functions of kernel/sched/deadline.c: each shows the state before the function.

use crate::fixed::TimerFunction;
use crate::quantities::{Budget, Donor, Parameters, Sums};

/// `enqueue_task_dl`.
#[derive(Clone, Copy)]
pub struct Enqueued {
    pub pid: u64,
    pub cpu: u32,

    /// ENQUEUE_ flags: 1 WAKEUP, 2 RESTORE, 0x20 REPLENISH, 0x40 MIGRATED.
    pub flags: u64,

    /// `rq->clock`.
    pub clock: u64,
    pub budget: Budget,
    pub is_non_contending: bool,
    pub parameters: Parameters,

    /// `on_rq`: 0 blocked, 1 queued, 2 moving.
    pub on_rq: u64,

    /// `normal_prio`, below 0 for a task of the class.
    pub normal_prio: i64,

    /// Its own `sched_dl_entity`, and the one that it is served by: boosted where they differ.
    pub entity: u64,
    pub served_by: u64,
    pub donor: Donor,
    pub sums: Sums,
}

/// What a run of the task comes to: 6.12 shows it, 6.1 shows the clock and the start.
#[derive(Clone, Copy)]
pub enum Ran {
    /// `delta_exec`, and the runqueue's `max_bw`.
    Span {
        delta: i64,
        max_bw: u64,
    },

    /// `clock_task` and `exec_start`, and the task's own `sched_dl_entity`, or where its node points to; the runqueue's
    /// `max_bw`, where the kernel has it (6.5 and later).
    Clocks {
        now: u64,
        start: u64,
        entity: u64,
        max_bw: Option<u64>,
    },
}

/// How fast a CPU runs, in 1024ths (`SCHED_CAPACITY_SCALE`): what a charge without SCHED_FLAG_RECLAIM is scaled by.
#[derive(Clone, Copy)]
pub struct CpuSpeed {
    /// `arch_freq_scale`: its frequency, of its greatest. None in a record that does not show it.
    pub frequency: Option<u64>,

    /// `cpu_scale`: its capacity, of that of the fastest CPU. None in a record that does not show it.
    pub capacity: Option<u64>,
}

/// `update_curr_dl_se`, and `update_curr_dl` of older kernels.
#[derive(Clone, Copy)]
pub struct Updated {
    /// Whether a fair server is charged, and no task: then `pid` is the fair task that runs for it.
    pub is_server: bool,
    pub pid: u64,
    pub cpu: u32,
    pub clock: u64,
    pub ran: Ran,
    pub budget: Budget,
    pub sums: Sums,

    /// `bw_ratio`, in units of 2^-8.
    pub bw_ratio: u64,
    pub speed: CpuSpeed,
}

/// `dequeue_task_dl`.
#[derive(Clone, Copy)]
pub struct Dequeued {
    pub pid: u64,
    pub cpu: u32,

    /// DEQUEUE_ flags: 1 SLEEP, 2 SAVE.
    pub flags: u64,
    pub clock: u64,
    pub budget: Budget,
    pub is_non_contending: bool,
    pub on_rq: u64,

    /// `__state`: 0x80 dead.
    pub state: u64,

    /// The pid of the task that runs on `cpu`.
    pub current: u64,
    pub sums: Sums,
}

/// `migrate_task_rq_dl`.
#[derive(Clone, Copy)]
pub struct Migrating {
    pub pid: u64,

    /// `__state`: 0x200 waking.
    pub state: u64,
}

/// `switched_from_dl`: a task leaves the class.
#[derive(Clone, Copy)]
pub struct LeftClass {
    pub pid: u64,
    pub cpu: u32,
    pub clock: u64,
    pub runtime: i64,
    pub deadline: u64,
    pub is_non_contending: bool,
    pub on_rq: u64,
    pub sums: Sums,
}

/// `sched_dl_overflow`: the admission test of sched_setattr(2).
#[derive(Clone, Copy)]
pub struct Admitted {
    pub pid: u64,
    pub cpu: u32,

    /// The policies before and wanted: 6 is SCHED_DEADLINE.
    pub policy_before: u64,
    pub policy: u64,

    /// Those that are wanted; a period of 0 stands for the deadline.
    pub parameters: Parameters,
    pub on_rq: u64,

    /// `sched_delayed`: a fair task that is blocked though `on_rq` is 1; false where the kernel has no such field.
    pub is_delayed: bool,

    /// `total_bw` and `bw` of the root domain's `dl_bw`.
    pub total_bw: u64,
    pub limit: u64,
}

/// When a timer is to fire.
#[derive(Clone, Copy)]
pub enum Expiry {
    /// So many nanoseconds from now.
    After(i64),

    /// At this moment of the clock that hrtimer_start reads.
    At(i64),
}

/// `hrtimer_start_range_ns`.
#[derive(Clone, Copy)]
pub struct Armed {
    pub timer: u64,
    pub function: TimerFunction,
    pub expiry: Expiry,
}

/// `enqueue_dl_entity` of a fair server that starts.
#[derive(Clone, Copy)]
pub struct ServerStarted {
    /// Whether the entity is a server at all.
    pub is_server: bool,
    pub cpu: u32,
    pub flags: u64,
    pub clock: u64,
    pub dl_runtime: u64,
    pub dl_period: u64,
    pub is_non_contending: bool,
    pub sums: Sums,
}

/// `pick_task_dl`, where a server is the first of the tree.
#[derive(Clone, Copy)]
pub struct Picked {
    pub cpu: u32,
    pub clock: u64,

    /// How many fair tasks are runnable.
    pub fair_tasks: u64,

    /// The deadline of the first entity in the tree.
    pub earliest: u64,

    /// `dl_server_active`.
    pub is_active: bool,
    pub is_throttled: bool,
    pub runtime: i64,
    pub deadline: u64,
    pub dl_runtime: u64,
    pub dl_period: u64,
    pub is_non_contending: bool,
    pub sums: Sums,
}

/// `dl_server_stop`.
#[derive(Clone, Copy)]
pub struct ServerStopped {
    pub cpu: u32,
    pub clock: u64,

    /// `dl_server_active`: where it is not set, the function does nothing.
    pub is_active: bool,
    pub runtime: i64,
    pub deadline: u64,
    pub dl_runtime: u64,
    pub dl_period: u64,
    pub is_non_contending: bool,
    pub sums: Sums,
}

/// Which function charges a fair server for idle time.
#[derive(Clone, Copy)]
pub enum IdleCharge {
    /// `dl_server_update_idle_time`.
    Update,

    /// `put_prev_task_idle`: another task is to run.
    EndOfIdle,
}

/// A fair server is charged for the time in which its CPU was idle.
#[derive(Clone, Copy)]
pub struct ServerIdled {
    pub charge: IdleCharge,
    pub cpu: u32,
    pub clock: u64,

    /// `clock_task`, and `exec_start` of the idle task.
    pub now: u64,
    pub start: u64,
    pub runtime: i64,
    pub deadline: u64,
    pub is_throttled: bool,
    pub is_active: bool,
}

/// A function that changes sums by no rule of a task: what it does there is not followed.
#[derive(Clone, Copy)]
pub enum Mark {
    /// `rq_attach_root`: the CPU's runqueue comes into this root domain.
    DomainAttached {
        cpu: u32,
        domain: u64,
    },

    /// `dl_bw_alloc`, `dl_bw_free`: bandwidth is taken or given back in the CPU's root domain.
    BandwidthTaken {
        cpu: u32,
    },
    BandwidthFreed {
        cpu: u32,
    },

    /// `sched_rt_handler`: sched_rt_runtime_us or sched_rt_period_us is written, or read.
    LimitHandled {
        is_write: bool,
    },

    /// `dl_add_task_root_domain`: root domains are rebuilt, and a task of this policy is counted again.
    TaskRebuilt {
        pid: u64,
        policy: u64,
    },

    /// `set_cpus_allowed_dl`: where a task may run.
    AffinitySet {
        pid: u64,
        cpu: u32,
    },

    /// `dl_server_apply_params`: the CPU's fair server gets this runtime and period, in nanoseconds.
    ServerChanged {
        cpu: u32,
        dl_runtime: u64,
        dl_period: u64,
    },

    /// `sched_cpu_deactivate`, `sched_cpu_activate`: the CPU goes, or comes.
    CpuDeactivated {
        cpu: u32,
    },
    CpuActivated {
        cpu: u32,
    },
}

/// A line of a probe.
#[derive(Clone, Copy)]
pub enum Probe {
    Enqueued(Enqueued),
    Updated(Updated),
    Dequeued(Dequeued),
    Migrating(Migrating),
    LeftClass(LeftClass),
    Admitted(Admitted),

    /// `inactive_task_timer`: this timer fired.
    ZeroLagFired { timer: u64 },

    /// `dl_task_timer`: this timer fired; and `pi_se` of its entity, where the record shows it: boosted where that is not the
    /// entity itself.
    ReplenishFired { timer: u64, served_by: Option<u64> },
    Armed(Armed),
    ServerStarted(ServerStarted),
    Picked(Picked),
    ServerStopped(ServerStopped),
    ServerIdled(ServerIdled),
    Mark(Mark),
}
