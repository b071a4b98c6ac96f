//! How many jobs may be late.

ghost use Rattle.std.specs.Prelude.{◌≡◌, ◌≤◌, ◌<◌, IfOk, IsTrue, ◌↔◌, [], cond, nat_le};
ghost use Rattle.size_least.specs.inside.Queue.{latest_of};
ghost use Rattle.size_least.specs.Jobs.{late_of, lates_after};
ghost use Rattle.size_least.specs.inside.Counting.{IsUpTo};

use crate::job::Job;
use crate::renewal::Renewals;
use crate::step::{are_done_by, step};
use std::alloc::{AllocError, Global};

/// How many of the jobs may be late with the runtime in each period, in microseconds: not done by their due moment
/// from whichever job of the record on it is played. A period is at least the runtime.
pub fn late_count(
    alloc: Global,
    jobs: &[Job],
    runtime: u32,
    period: u32,
) -> Result<usize, AllocError>
    requires some { 0 < runtime }
    requires room { runtime ≤ period }
    ensures { IfOk result (λ n. n ≡ late_of runtime period jobs.now) }
{
    let count = count_up_to(alloc, jobs, runtime, period, usize::MAX)?;
    Ok(count)
}

/// Whether more of the jobs than that may be late.
pub(crate) fn is_above(
    alloc: Global,
    jobs: &[Job],
    runtime: u32,
    period: u32,
    allowed: usize,
) -> Result<bool, AllocError>
    requires some { 0 < runtime }
    requires room { runtime ≤ period }
    ensures { IfOk result (λ b. IsTrue b ↔ (allowed < late_of runtime period jobs.now)) }
{
    Ok(count_up_to(alloc, jobs, runtime, period, allowed)? > allowed)
}

/// The count of late jobs, where it is at most that, else a greater number.
fn count_up_to(
    alloc: Global,
    jobs: &[Job],
    runtime: u32,
    period: u32,
    most: usize,
) -> Result<usize, AllocError>
    requires some { 0 < runtime }
    requires room { runtime ≤ period }
    ensures { IfOk result (λ n. IsUpTo most n (late_of runtime period jobs.now)) }
{
    let mut renewals = Renewals::new(alloc);
    let mut count = 0;
    for job in jobs {
        step(&mut renewals, job, runtime, period)?;
        if !are_done_by(&renewals, job.due) {
            count += 1;
            if count > most {
                return Ok(count);
            }
        }
    }
    Ok(count)
}

/// For each of the jobs 1 where it may be late with the runtime in each period, else 0.
pub fn lates_of(
    alloc: Global,
    jobs: &[Job],
    runtime: u32,
    period: u32,
) -> Result<Vec<u32>, AllocError>
    requires some { 0 < runtime }
    requires room { runtime ≤ period }
    ensures { IfOk result (λ v. v.items ≡ lates_after runtime period [] jobs.now) }
{
    let mut renewals = Renewals::new(alloc);
    let mut lates = Vec::new(alloc);
    for job in jobs {
        step(&mut renewals, job, runtime, period)?;
        lates.push(late_by(&renewals, job.due))?;
    }
    Ok(lates)
}

/// 1 where from one of the renewals the work until now is not done by the moment.
fn late_by(renewals: &Renewals, due: u64) -> u32
    ensures { result ≡ cond (nat_le (latest_of renewals.now) due) 0 1 }
{
    if are_done_by(renewals, due) { 0 } else { 1 }
}
