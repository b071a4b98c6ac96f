//! What a line leaves open.

/// What a search may choose where a line leaves it open.
#[derive(Clone, Copy)]
pub struct LineChoice {
    /// The `extra_bw` by which a charge is reckoned, where it is another than its line shows: it was read later, or while a function
    /// changed it by no rule of a task.
    pub extra_bw: Option<u64>,

    /// The clock of a replenishment of a blocked task that came after the period it gave.
    pub late: Option<u64>,

    /// What a charge without SCHED_FLAG_RECLAIM took, in nanoseconds, where its line does not show the CPU's speed.
    pub cost: Option<u64>,
}

/// Nothing is chosen.
pub const AS_SHOWN: LineChoice = LineChoice {
    extra_bw: None,
    late: None,
    cost: None,
};
