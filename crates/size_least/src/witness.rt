//! Which jobs may be late.

ghost use Rattle.std.specs.Prelude.{◌≡◌, ◌≤◌, ◌<◌, ◌++◌, ◌∷◌, [], IfOk, IfSome, IsNone, List, length, replicate, ℕ};
ghost use Rattle.size_least.specs.Jobs.{late_of, lates_after};

use crate::job::Job;
use crate::renewal::Renewals;
use crate::step::{are_done_by, step};
use std::alloc::{AllocError, Global};

/// A job that may be late.
#[derive(Clone, Copy, Debug, PartialEq, Eq)]
pub struct Late {
    /// Its index.
    pub job: usize,

    /// The index of the job from which on the work up to it is done latest.
    pub from: usize,

    /// The moment by which it is done then, in microseconds.
    pub finish: u64,
}

/// The longest that work takes from a renewal on, in microseconds.
fn longest(work: u64, runtime: u32, period: u32) -> u64
    requires some { 0 < runtime }
    requires room { runtime ≤ period }
{
    work.div_ceil(u64::from(runtime))
        .saturating_mul(u64::from(period - runtime))
        .saturating_add(work)
}

/// From which job on the work up to the job at an index is done latest.
fn late_at(jobs: &[Job], at: usize, runtime: u32, period: u32) -> Late
    requires some { 0 < runtime }
    requires room { runtime ≤ period }
    requires within { at < length jobs.now }
    ensures job { result.job ≡ at }
    ensures from { result.from ≤ at }
{
    let mut late = Late {
        job: at,
        from: at,
        finish: 0,
    };
    let mut work = 0u64;
    for back in 0..at + 1 {
        let i = at - back;
        work = work.saturating_add(jobs[i].work);
        let finish = jobs[i]
            .release
            .saturating_add(longest(work, runtime, period));
        if finish > late.finish {
            late.from = i;
            late.finish = finish;
        }
    }
    late
}

/// The first job that may be late with the runtime in each period; none where no job may.
pub fn first_late(
    alloc: Global,
    jobs: &[Job],
    runtime: u32,
    period: u32,
) -> Result<Option<Late>, AllocError>
    requires some { 0 < runtime }
    requires room { runtime ≤ period }
    ensures within { IfOk result
        (λ o. IfSome o (λ late. (late.job < length jobs.now) × (late.from ≤ late.job))) }
    ensures first { IfOk result (λ o. IfSome o (λ late. (rest : List ℕ)
        × (lates_after runtime period [] jobs.now ≡ replicate late.job 0 ++ 1 ∷ rest))) }
    ensures none { IfOk result (λ o. IsNone o → late_of runtime period jobs.now ≡ 0) }
{
    let mut renewals = Renewals::new(alloc);
    for (i, job) in jobs.iter().enumerate() {
        step(&mut renewals, job, runtime, period)?;
        if !are_done_by(&renewals, job.due) {
            return Ok(Some(late_at(jobs, i, runtime, period)));
        }
    }
    Ok(None)
}
