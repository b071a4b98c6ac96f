//! What the report tells beside the numbers: it bears on no answer.

use probe_findings::{FIRST_SEEN, ProbedFunction, Whose, Why};

/// What a compared value is of.
#[derive(Clone, Copy)]
pub enum Counted {
    /// The entity of this number.
    Entity(usize),

    /// `this_bw` or `running_bw` of the runqueue of this CPU, or another value of it.
    Runqueue(u32),
    ExtraBw(u32),
    TotalBw(u64),
    Nobody,
}

/// The numbers that went into a charge.
#[derive(Clone, Copy)]
pub struct LastCharge {
    pub line: u64,

    /// `delta_exec`, in nanoseconds, and what it took from the budget.
    pub nanos: u64,
    pub cost: u64,
    pub this_bw: u64,
    pub running_bw: u64,
    pub extra_bw: u64,
    pub max_bw: u64,
    pub bw_ratio: u64,

    /// The bandwidth of the entity.
    pub dl_bw: u64,
}

/// Of an entity: what changed it last, where it was last right, and its last charge.
#[derive(Clone, Copy)]
pub struct EntityNotes {
    pub why: Why,
    pub rights: Rights,
    pub charge: Option<LastCharge>,
}

/// Of a runqueue or a root domain: what changed its sums last, and where they were last right.
#[derive(Clone, Copy)]
pub struct SumNotes {
    /// A CPU, or the number of a root domain.
    pub of: u64,
    pub is_domain: bool,

    /// Of `this_bw` and `running_bw`, and of `extra_bw` or `total_bw`.
    pub why: Why,
    pub why_unlocked: Why,
    pub rights: Rights,
    pub unlocked_rights: Rights,
}

impl SumNotes {
    /// Of a runqueue or a root domain of which nothing was seen.
    pub(crate) fn new(of: u64, is_domain: bool) -> SumNotes {
        SumNotes {
            of,
            is_domain,
            why: FIRST_SEEN,
            why_unlocked: FIRST_SEEN,
            rights: NO_RIGHTS,
            unlocked_rights: NO_RIGHTS,
        }
    }

    /// Sums were right at this line: `extra_bw` or `total_bw`, or those with a lock.
    pub(crate) fn see_right(&mut self, is_unlocked: bool, line: u64) {
        if is_unlocked {
            self.unlocked_rights.add(line);
        } else {
            self.rights.add(line);
        }
    }

    /// Whether root domains were rebuilt since `extra_bw` or `total_bw` was right.
    fn is_rebuilt(&self) -> bool {
        matches!(self.why_unlocked.event, ProbedFunction::RebuildTask)
            && self.unlocked_rights.last < self.why_unlocked.line
    }

    /// What changed sums last: `extra_bw` or `total_bw`, or those with a lock. A rebuild of root domains may make anything of the first
    /// two, so it stays noted until they were right.
    pub(crate) fn note(&mut self, is_unlocked: bool, why: Why) {
        if !is_unlocked {
            self.why = why;
        } else if !self.is_rebuilt() || matches!(why.event, ProbedFunction::RebuildTask) {
            self.why_unlocked = why;
        }
    }
}

/// What is told of the first value that differs.
#[derive(Clone, Copy)]
pub struct FirstNotes {
    /// The last line before it at which this was right; 0: none.
    pub right: u64,

    /// Of an entity: its number, and its last charge.
    pub number: Option<usize>,
    pub charge: Option<LastCharge>,
}

/// The last two lines at which compared values were right; 0: none.
#[derive(Clone, Copy)]
pub struct Rights {
    pub last: u64,
    pub before: u64,
}

impl Rights {
    /// A value was right at this line.
    pub(crate) fn add(&mut self, line: u64) {
        if self.last != line {
            self.before = self.last;
            self.last = line;
        }
    }

    /// The last line before this one at which a value was right; 0: none.
    pub fn before(&self, line: u64) -> u64 {
        if self.last == line {
            self.before
        } else {
            self.last
        }
    }
}

pub(crate) const NO_RIGHTS: Rights = Rights { last: 0, before: 0 };

pub(crate) const NO_NOTES: EntityNotes = EntityNotes {
    why: FIRST_SEEN,
    rights: NO_RIGHTS,
    charge: None,
};

/// Whose entity a number is, where it is unknown.
pub(crate) const UNKNOWN: Whose = Whose::Task { pid: 0, life: 0 };
