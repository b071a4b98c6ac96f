//! The table of releases.

use trace_data::Kernel;

/// The function that charges (kernel/sched/deadline.c).
#[derive(Clone, Copy, PartialEq, Eq)]
pub enum UpdateFunction {
    /// `update_curr_dl`, of the task that runs; it is also called where nothing is charged.
    UpdateCurrDl,

    /// `update_curr_dl_se`, of a task or of a fair server.
    UpdateCurrDlSe,
}

/// The fair server of a runqueue (`dl_server`), and how it stops.
#[derive(Clone, Copy, PartialEq, Eq)]
pub enum Servers {
    /// There are none, or none runs.
    Absent,

    /// With its last fair task, whose sleep cancels its timer (`dequeue_entities`).
    StopWithTimer,

    /// When it is picked and has no task, after its timer fired (`pick_task_dl`).
    StopAtPick,

    /// At the first switch from a deadline task to idle, after its timer fired.
    StopAtIdle,
}

/// Releases that have the same rules.
#[derive(Clone, Copy)]
pub struct Release {
    /// The first of them; the last is before the first of the next row.
    pub from: Kernel,
    pub update: UpdateFunction,

    /// Whether a runqueue has `max_bw`, by which `grub_reclaim` charges.
    pub has_max_bw: bool,
    pub servers: Servers,

    /// Whether a kernel of these was held to the check by probes, and to that by timers.
    pub is_tried_by_probes: bool,
    pub is_tried_by_timers: bool,
}

/// Releases before 6.1.
pub const OLDEST: Release = Release {
    from: Kernel {
        major: 0,
        minor: 0,
        patch: 0,
    },
    update: UpdateFunction::UpdateCurrDl,
    has_max_bw: false,
    servers: Servers::Absent,
    is_tried_by_probes: false,
    is_tried_by_timers: false,
};

/// The releases from 6.1 on. Those of a row up to the next one have the same rules.
pub const RELEASES: [Release; 10] = [
    Release {
        from: Kernel {
            major: 6,
            minor: 1,
            patch: 0,
        },
        update: UpdateFunction::UpdateCurrDl,
        has_max_bw: false,
        servers: Servers::Absent,
        is_tried_by_probes: true,
        is_tried_by_timers: true,
    },
    Release {
        from: Kernel {
            major: 6,
            minor: 2,
            patch: 0,
        },
        update: UpdateFunction::UpdateCurrDl,
        has_max_bw: false,
        servers: Servers::Absent,
        is_tried_by_probes: false,
        is_tried_by_timers: false,
    },
    Release {
        from: Kernel {
            major: 6,
            minor: 5,
            patch: 0,
        },
        update: UpdateFunction::UpdateCurrDl,
        has_max_bw: true,
        servers: Servers::Absent,
        is_tried_by_probes: false,
        is_tried_by_timers: false,
    },
    Release {
        from: Kernel {
            major: 6,
            minor: 8,
            patch: 0,
        },
        update: UpdateFunction::UpdateCurrDlSe,
        has_max_bw: true,
        servers: Servers::Absent,
        is_tried_by_probes: false,
        is_tried_by_timers: false,
    },
    Release {
        from: Kernel {
            major: 6,
            minor: 12,
            patch: 0,
        },
        update: UpdateFunction::UpdateCurrDlSe,
        has_max_bw: true,
        servers: Servers::StopWithTimer,
        is_tried_by_probes: false,
        is_tried_by_timers: false,
    },
    Release {
        from: Kernel {
            major: 6,
            minor: 12,
            patch: 92,
        },
        update: UpdateFunction::UpdateCurrDlSe,
        has_max_bw: true,
        servers: Servers::StopAtPick,
        is_tried_by_probes: true,
        is_tried_by_timers: true,
    },
    Release {
        from: Kernel {
            major: 6,
            minor: 13,
            patch: 0,
        },
        update: UpdateFunction::UpdateCurrDlSe,
        has_max_bw: true,
        servers: Servers::StopWithTimer,
        is_tried_by_probes: false,
        is_tried_by_timers: false,
    },
    Release {
        from: Kernel {
            major: 6,
            minor: 17,
            patch: 0,
        },
        update: UpdateFunction::UpdateCurrDlSe,
        has_max_bw: true,
        servers: Servers::StopAtIdle,
        is_tried_by_probes: false,
        is_tried_by_timers: false,
    },
    Release {
        from: Kernel {
            major: 6,
            minor: 18,
            patch: 0,
        },
        update: UpdateFunction::UpdateCurrDlSe,
        has_max_bw: true,
        servers: Servers::StopAtIdle,
        is_tried_by_probes: false,
        is_tried_by_timers: true,
    },
    Release {
        from: Kernel {
            major: 6,
            minor: 19,
            patch: 0,
        },
        update: UpdateFunction::UpdateCurrDlSe,
        has_max_bw: true,
        servers: Servers::StopAtIdle,
        is_tried_by_probes: false,
        is_tried_by_timers: false,
    },
];
