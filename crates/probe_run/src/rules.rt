//! By which rules a record is played, and what is known before its first line.

use kernel_changes::RuleChange;
use kernel_rules::ChargeLaw;

/// By which rules a record is played.
#[derive(Clone, Copy)]
pub struct PlayRules {
    pub law: ChargeLaw,

    /// The one rule that is changed, if one is.
    pub change: Option<RuleChange>,

    /// Whether the record has lines of dequeues: without them the sums are taken from each line, and not compared.
    pub has_dequeues: bool,

    /// Whether it has lines of timers that are started.
    pub has_timers: bool,

    /// Whether a task is older than the record.
    pub begins_amid: bool,
}

/// A CPU: its root domain, none where no note tells it; whether it is active; its capacity, in units of 2^-10 of the fastest, as a
/// note tells it.
#[derive(Clone, Copy)]
pub struct Processor {
    pub cpu: u32,
    pub domain: Option<u64>,
    pub is_active: bool,
    pub capacity: Option<u64>,
}

/// `this_bw` with which the runqueue of a CPU begins.
#[derive(Clone, Copy)]
pub struct StartBw {
    pub cpu: u32,
    pub this_bw: u64,
}

/// What is known before the first line.
#[derive(Drop)]
pub struct RunStart {
    pub processors: Vec<Processor>,

    /// Where no task is older than the record: what each runqueue begins with.
    pub starts: Vec<StartBw>,

    /// Where a task is: until this moment all sums are open; else 0.
    pub amid_until: u64,
}
