//! Quantities of SCHED_DEADLINE as a kernel holds them.

/// The three sums of a runqueue (`struct dl_rq`), in units of 2^-20 of a processor and modulo 2^64.
#[derive(Clone, Copy)]
pub struct Sums {
    pub this_bw: u64,
    pub running_bw: u64,
    pub extra_bw: u64,
}

/// A reservation (`struct sched_dl_entity`): spans in nanoseconds, and the SCHED_FLAG bits of sched_setattr(2).
#[derive(Clone, Copy)]
pub struct Parameters {
    pub dl_runtime: u64,
    pub dl_deadline: u64,
    pub dl_period: u64,
    pub flags: u64,
}

/// What is left of a budget, in nanoseconds, and the absolute deadline on the kernel's runqueue clock.
#[derive(Clone, Copy)]
pub struct Budget {
    pub runtime: i64,
    pub deadline: u64,
    pub is_throttled: bool,
    pub is_yielded: bool,
}

/// The reservation by which a boosted task is served (`pi_of`).
#[derive(Clone, Copy)]
pub struct Donor {
    pub dl_runtime: u64,
    pub dl_deadline: u64,
    pub dl_period: u64,
}
