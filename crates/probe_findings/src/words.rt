//! What is compared, where, and what of.

ghost use Rattle.std.specs.Prelude.{◌≡◌};
ghost use Rattle.probe_findings.specs.Kinds.{kind_by};

use trace_data::TimerFunction;

/// The function whose entry a line shows.
#[derive(Clone, Copy)]
pub enum ProbedFunction {
    Enqueue,
    Update,
    Dequeue,
    Migrate,
    Leave,
    Admit,
    ZeroLagFires,
    ReplenishFires,
    TimerStarts,
    ServerStarts,
    Pick,
    ServerStops,
    ServerIdles,
    IdleEnds,
    AttachDomain,
    TakeBandwidth,
    FreeBandwidth,
    HandleLimit,
    RebuildTask,
    SetAffinity,
    ChangeServer,
    DeactivateCpu,
    ActivateCpu,
}

/// A line of a record.
#[derive(Clone, Copy)]
pub struct ProbedLine {
    /// Its number, from 1.
    pub line: u64,

    /// Its moment, in nanoseconds.
    pub at: u64,

    /// The CPU that wrote it.
    pub cpu: u32,

    /// The task that ran there.
    pub pid: u64,
    pub event: ProbedFunction,
}

/// Whose entity it is.
#[derive(Clone, Copy, PartialEq, Eq, Hash)]
pub enum Whose {
    /// A task; `life` counts the tasks of that pid that have ended before it.
    Task { pid: u64, life: u32 },

    /// The fair server of a CPU.
    Server { cpu: u32 },
}

/// What a compared value is of.
#[derive(Clone, Copy)]
pub enum Subject {
    Entity(Whose),

    /// The runqueue of a CPU.
    Runqueue(u32),

    /// The root domain of this number.
    RootDomain(u64),

    /// A timer that is nobody's.
    Nobody,
}

/// A value that is compared.
#[derive(Clone, Copy)]
pub enum Quantity {
    Runtime,
    Deadline,
    Throttled,
    Yielded,
    NonContending,
    DlRuntime,
    DlDeadline,
    DlPeriod,
    SchedFlags,
    ThisBw,
    RunningBw,
    ExtraBw,

    /// The 0-lag time from the clock of its runqueue on.
    ZeroLag,

    /// The same, where only the moment of the expiry is known, to a microsecond.
    ZeroLagMoment,

    /// `total_bw` of a root domain.
    TotalBw,

    /// The capacity of a CPU, in units of 2^-10 of the fastest.
    Capacity,

    /// Whether, and whose, a timer is armed.
    Timer,

    /// Where an entity or its timer lies.
    Address,

    /// A choice of a search that no run has.
    Choice,

    /// A law: `bw_ratio` is that of `max_bw`.
    BwRatio,

    /// A law: `max_bw` is the limit of the admission test.
    MaxBw,

    /// A law: how far the clock of a wake is behind.
    ClockLag,
}

/// A kind of value: each has its counts.
#[derive(Clone, Copy)]
pub enum QuantityKind {
    Budget,
    Deadline,
    Flags,
    Parameters,
    ThisBw,
    RunningBw,
    ExtraBw,
    TotalBw,
    ZeroLag,
    ZeroLagMoment,
    Timers,
    Capacities,
    Addresses,
    Choices,
    Laws,
}

/// The kind of a value.
pub fn kind_of(quantity: Quantity) -> QuantityKind
    ensures { result ≡ kind_by quantity }
{
    match quantity {
        Quantity::Runtime => QuantityKind::Budget,
        Quantity::Deadline => QuantityKind::Deadline,
        Quantity::Throttled | Quantity::Yielded | Quantity::NonContending => QuantityKind::Flags,
        Quantity::DlRuntime | Quantity::DlDeadline | Quantity::DlPeriod | Quantity::SchedFlags => {
            QuantityKind::Parameters
        }
        Quantity::ThisBw => QuantityKind::ThisBw,
        Quantity::RunningBw => QuantityKind::RunningBw,
        Quantity::ExtraBw => QuantityKind::ExtraBw,
        Quantity::TotalBw => QuantityKind::TotalBw,
        Quantity::ZeroLag => QuantityKind::ZeroLag,
        Quantity::ZeroLagMoment => QuantityKind::ZeroLagMoment,
        Quantity::Timer => QuantityKind::Timers,
        Quantity::Capacity => QuantityKind::Capacities,
        Quantity::Address => QuantityKind::Addresses,
        Quantity::Choice => QuantityKind::Choices,
        Quantity::BwRatio | Quantity::MaxBw | Quantity::ClockLag => QuantityKind::Laws,
    }
}

/// A value, by the rules or of the kernel.
#[derive(Clone, Copy)]
pub enum ExactValue {
    Unsigned(u64),
    Signed(i64),
    Flag(bool),

    /// A number that is not greater.
    AtMost(u64),

    /// This timer is armed.
    Armed(TimerFunction),

    /// This timer is not armed.
    NotArmed(TimerFunction),

    /// The timer is of this entity.
    Owner(Whose),
}

/// A rule that a record can put to the test.
#[derive(Clone, Copy)]
pub enum ExactRule {
    ChargeInFull,
    ChargeByItsBandwidth,
    ChargeByWhatIsLeft,
    Throttled,
    Yielded,
    ReplenishedAtOnce,
    Replenished,
    ReplenishedBlocked,
    ReplenishedBlockedLate,
    WakeKept,
    WakeRevised,
    WakeNewPeriod,
    WakeThrottled,
    WakeBeforeZeroLag,
    WakeAfterZeroLag,
    Constrained,
    Boosted,
    BoostEnds,
    MovedIn,
    MovedOut,
    MovedAtWake,
    Restored,
    RestoredNewPeriod,
    Saved,
    ZeroLagArmed,
    ZeroLagPast,
    ZeroLagFired,
    Admitted,
    Refused,
    BandwidthChanged,
    BackBeforeZeroLag,
    LeftClass,
    ServerStarted,
    ServerStopped,
    BeforeItsLock,
    ExtraReadLater,
    ChargeReadLater,
    SpeedUnknown,
    ExtraUnknown,
}

/// How many rules there are.
pub const RULES: usize = 39;

/// What changed a value last.
#[derive(Clone, Copy)]
pub struct Why {
    pub line: u64,
    pub event: ProbedFunction,

    /// None where the value was only seen.
    pub rule: Option<ExactRule>,
}

/// A value that was only seen.
pub const FIRST_SEEN: Why = Why {
    line: 0,
    event: ProbedFunction::Enqueue,
    rule: None,
};

/// A comparison of one value.
#[derive(Clone, Copy)]
pub struct Comparison {
    pub place: ProbedLine,
    pub subject: Subject,
    pub quantity: Quantity,
    pub rules: ExactValue,
    pub kernel: ExactValue,
    pub is_equal: bool,
}

/// A comparison that differs.
#[derive(Clone, Copy)]
pub struct Deviation {
    pub comparison: Comparison,

    /// What changed the rules' value last.
    pub since: Why,
}
