//! Notes at the head of a record: what the kernel knew of its tasks, as sched_getattr(2) and debugfs tell it.

use crate::quantities::{Parameters, Sums};

/// A version of Linux.
#[derive(Clone, Copy)]
pub struct Kernel {
    pub major: u32,
    pub minor: u32,
    pub patch: u32,
}

/// How much of each processor SCHED_DEADLINE may have.
#[derive(Clone, Copy)]
pub enum Limit {
    /// `dl_bw->bw`, in units of 2^-20; 2^64 - 1 is no limit.
    MaxBw(u64),

    /// sched_rt_runtime_us and sched_rt_period_us, in microseconds; a runtime of -1 is no limit.
    Runtime { runtime: i64, period: u64 },
}

/// What a call of sched_setattr(2) or sched_setscheduler(2) left a task with.
#[derive(Clone, Copy)]
pub enum Policy {
    Deadline(Parameters),

    /// Another class.
    Other,
}

/// A fair server's runtime and period in nanoseconds; a runtime of 0 is no server.
#[derive(Clone, Copy)]
pub struct ServerReservation {
    pub dl_runtime: u64,
    pub dl_period: u64,
}

/// A note; the CPUs of the root domain and a task's comm stand beside it, as a list and a text.
#[derive(Clone, Copy)]
pub enum TraceNote {
    /// `notes 1 kernel=.. domain=.. max-bw=.. total-bw=..`
    Head {
        kernel: Option<Kernel>,
        limit: Option<Limit>,

        /// `dl_bw->total_bw`, which wraps at 2^64.
        total_bw: Option<u64>,
    },

    /// `cpu N this=.. running=.. extra=.. rd=.. server=RUNTIME/PERIOD`
    Runqueue {
        cpu: u32,
        sums: Sums,

        /// Its root domain, by a number; none in older records.
        domain: Option<u64>,

        /// Its fair server; none where the kernel has none, and in older records.
        server: Option<ServerReservation>,
    },

    /// `capacity cpu=N of=..`: what the CPU can do, in 1024ths of the fastest.
    Capacity {
        cpu: u32,
        capacity: u64,
    },

    /// `task pid=.. at=.. by=.. cpu=.. ..`: `at` is none for a task that was there at the start.
    Task {
        pid: u64,
        at: Option<u64>,
        by: Option<u64>,
        cpu: u32,
        policy: Policy,
    },

    /// `end max-bw=.. total-bw=..`
    End {
        limit: Option<Limit>,
        total_bw: Option<u64>,
    },
}
