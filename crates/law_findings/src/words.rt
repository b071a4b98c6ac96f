//! The words of the laws.

use crate::known::Sign;

/// A law that the lines of a record are held to.
#[derive(Clone, Copy, PartialEq, Eq)]
pub enum Law {
    /// A throttled task has its replenishment timer armed.
    Progress,

    /// That timer is armed for the begin of the task's next period.
    Expiry,

    /// No timer fires early, and what is armed fires.
    Firing,

    /// A task that blocks stays active up to its 0-lag time, in exact numbers.
    ZeroLag,

    /// A task that runs or wakes has a budget above 0, and at most its runtime.
    Budget,

    /// total_bw is the sum of what was admitted, and extra_bw is not below 0.
    Total,

    /// The task that is put on has the earliest deadline, and no lower class runs while it waits.
    Pick,

    /// Each moment of a CPU is charged once.
    Run,

    /// A fair server has at most its runtime, and its deadline is near.
    Server,
}

/// All laws, in the order in which they are told.
pub const LAWS: [Law; 9] = [
    Law::Progress,
    Law::Expiry,
    Law::Firing,
    Law::ZeroLag,
    Law::Budget,
    Law::Total,
    Law::Pick,
    Law::Run,
    Law::Server,
];

/// What kind of line shows a value: one of a probe, or of a fixed event.
#[derive(Clone, Copy, PartialEq, Eq)]
pub enum LineKind {
    Enqueue,
    Update,
    Dequeue,
    Leave,
    Admit,
    ZeroLagFires,
    ReplenishFires,
    Arm,
    Switch,
    ServerStart,
    ServerPick,
    ServerStop,
    ServerIdle,
    TimerStarts,
    TimerExpires,
}

/// A line: its number, its moment in nanoseconds, and the CPU that wrote it.
#[derive(Clone, Copy)]
pub struct LawLine {
    pub line: u64,
    pub at: u64,
    pub cpu: u32,
    pub kind: LineKind,
}

/// Whom a value is about.
#[derive(Clone, Copy)]
pub enum Whose {
    Task { pid: u64 },
    Server { cpu: u32 },
    Cpu { cpu: u32 },
    Domain,

    /// A timer of which no line shows whose it is.
    Timer { timer: u64 },
}

/// A timer of an entity.
#[derive(Clone, Copy, PartialEq, Eq)]
pub enum TimerKind {
    /// `inactive_timer`: the 0-lag time.
    ZeroLag,

    /// `dl_timer`: the next period.
    Replenish,
}

/// Where a task stood as its timer fired.
#[derive(Clone, Copy, PartialEq, Eq)]
pub enum Standing {
    /// Out of the class.
    Away,

    /// In the class, and blocked.
    Blocked,

    /// On a runqueue.
    Queued,
}

/// A replenishment timer that fired.
#[derive(Clone, Copy)]
pub struct FiredTimer {
    pub line: u64,
    pub standing: Standing,
}

/// What breaks a law, with the values that show it. Moments are nanoseconds.
#[derive(Clone, Copy)]
pub enum Finding {
    /// The task is queued and throttled, and no replenishment timer is armed; when the last one fired.
    NoTimer {
        fired: Option<FiredTimer>,
    },

    /// The charge throttled the task, and neither armed its timer nor replenished it.
    NotArmed,

    /// The timer is armed for another moment than the begin of the next period, both on the runqueue's clock.
    OtherMoment {
        period: u64,
        moment: u64,
    },

    /// The timer fires before its expiry.
    Early {
        timer: TimerKind,
        expiry: u64,
        fired: u64,
    },

    /// The 0-lag timer fires though the task woke at that line.
    Awake {
        woke: u64,
    },

    /// What was armed has not fired, and nothing stopped it; armed again at that line, or up to the end of the record.
    NeverFired {
        timer: TimerKind,
        expiry: u64,
        again: Option<u64>,
    },

    /// The 0-lag timer is armed for another span, in nanoseconds, than the exact one.
    OtherZeroLag {
        exact: i64,
        armed: i64,
    },

    /// The 0-lag time is so far ahead, and no timer is armed for it.
    NotAwaited {
        ahead: i64,
    },

    /// The task runs, or wakes, without a budget.
    NoBudget {
        budget: i64,
    },

    /// It has more budget than its runtime.
    TooMuchBudget {
        budget: i64,
        dl_runtime: u64,
    },

    /// The task is put on though it is throttled.
    PutOnThrottled,

    /// The task is put on before that one, whose deadline is earlier.
    LaterDeadline {
        earlier: u64,
        deadline: u64,
        picked: u64,
    },

    /// That task of a lower class ran for so long while the task could run.
    LowerRuns {
        pid: u64,
        nanos: u64,
        ticks: u64,
    },

    /// Time was charged before, from the first of these moments on.
    ChargedTwice {
        ends: u64,
        begins: u64,
    },

    /// Between two charges of a run time is not charged.
    NotCharged {
        ends: u64,
        begins: u64,
    },

    /// The first charge of a run begins elsewhere than at the switch to it.
    NotAtSwitch {
        switch: u64,
        begins: u64,
    },

    /// total_bw is not what was admitted, in units of 2^-20.
    OtherTotal {
        admitted: u64,
        total_bw: u64,
    },

    /// extra_bw is below 0, in units of 2^-20.
    NegativeExtra {
        extra_bw: i64,
    },

    /// A charge of a server takes another amount than its span.
    OtherCharge {
        nanos: i64,
        before: i64,
        after: i64,
    },

    /// A server's deadline is too far ahead.
    FarDeadline {
        ahead: u64,
    },
}

/// A law that is broken at a line.
#[derive(Clone, Copy)]
pub struct Breach {
    pub law: Law,
    pub place: LawLine,
    pub whose: Whose,
    pub finding: Finding,

    /// What it has in common with a known fault of its kernel.
    pub sign: Option<Sign>,
}

/// How far values spread, in nanoseconds.
#[derive(Clone, Copy)]
pub struct Spread {
    pub count: u64,
    pub median: u64,
    pub most: u64,
}

/// What is told beside the laws: by how much timers fired late.
#[derive(Clone, Copy)]
pub struct LawFigures {
    pub late: Option<Spread>,
}
