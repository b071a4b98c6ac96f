//! What has begun and is not done.

ghost use Rattle.std.specs.Prelude.{◌≡◌};
ghost use Rattle.probe_run.specs.Begin.{moves_offline};
ghost use Rattle.probe_run.specs.State.{same_sum};

use kernel_rules::Delayed;
use probe_findings::ProbedLine;
use trace_data::TimerFunction;

/// A sum that functions change and read without its lock.
#[derive(Clone, Copy)]
pub enum UnlockedSum {
    /// `extra_bw` of the runqueue of a CPU.
    ExtraBw(u32),

    /// `total_bw` of a root domain.
    TotalBw(u64),
}

/// What a call does at a point of its own.
#[derive(Clone, Copy)]
pub enum Effect {
    /// Adds to a sum, modulo 2^64.
    Adds {
        sum: UnlockedSum,
        amount: u64,
    },

    /// Takes the lock of the runqueue of this CPU, and does what is to be done with the entity of this number.
    Locks {
        cpu: u32,
        entity: usize,
        delayed: Delayed,
    },

    /// The handler of the inactive timer of the entity of this number returns: till then `hrtimer_active` is true of the timer.
    Returns {
        entity: usize,
    },

    /// `dl_task_timer` may find that the CPU of its task went. Then it gives the task's bandwidth back and takes it again
    /// (`dl_task_offline_migration`), and `extra_bw` and `total_bw` are meanwhile what no line shows. Till the next line of its CPU.
    MovesOffline,
}

/// An effect whose line is played, and whose point is still to come.
#[derive(Clone, Copy)]
pub struct PendingEffect {
    /// The line of its call; `place.cpu` runs it.
    pub place: ProbedLine,
    pub effect: Effect,
}

/// A value of a sum that a call has read, at a point still to come.
#[derive(Clone, Copy)]
pub struct Claim {
    pub place: ProbedLine,
    pub sum: UnlockedSum,
    pub value: u64,
}

/// The line within a dequeue for which its rest waits.
#[derive(Clone, Copy)]
pub enum Awaits {
    /// The charge of the task that runs.
    Charge,

    /// The enqueue of that task, which is replenished at once.
    Enqueue,

    /// None more.
    Nothing,
}

/// A dequeue whose rest is to come.
#[derive(Clone, Copy)]
pub struct OpenDequeue {
    pub place: ProbedLine,

    /// The number of the entity that is dequeued.
    pub entity: usize,

    /// Of whose runqueue.
    pub cpu: u32,
    pub flags: u64,
    pub on_rq: u64,
    pub clock: u64,

    /// The pid of the task that runs there.
    pub current: u64,
    pub awaits: Awaits,
}

/// A timer that a CPU must arm now.
#[derive(Clone, Copy)]
pub struct TimerToArm {
    pub place: ProbedLine,

    /// The number of the entity whose timer it is.
    pub entity: usize,
    pub function: TimerFunction,

    /// The 0-lag time, and the moment of the line after which it was due.
    pub zero_lag: Option<i64>,
    pub at: u64,
}

/// A CPU that dequeues a task of before the record, whose timer it may arm.
#[derive(Clone, Copy)]
pub struct OlderDequeue {
    pub by: u32,

    /// The number of that task.
    pub entity: usize,
}

/// Whether a task whose CPU went may be moved: that comes at a point of its own, or never.
pub fn moves_offline(effect: Effect) -> bool
    ensures { result ≡ moves_offline effect }
{
    match effect {
        Effect::Adds { .. } | Effect::Locks { .. } | Effect::Returns { .. } => false,
        Effect::MovesOffline => true,
    }
}

/// Whether these are the same sum.
pub(crate) fn is_same_sum(one: UnlockedSum, other: UnlockedSum) -> bool
    ensures { result ≡ same_sum one other }
{
    match one {
        UnlockedSum::ExtraBw(cpu) => match other {
            UnlockedSum::ExtraBw(of) => cpu == of,
            UnlockedSum::TotalBw(_) => false,
        },
        UnlockedSum::TotalBw(domain) => match other {
            UnlockedSum::ExtraBw(_) => false,
            UnlockedSum::TotalBw(of) => domain == of,
        },
    }
}
