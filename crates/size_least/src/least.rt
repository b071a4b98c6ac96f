//! The least runtime.

ghost use Rattle.std.specs.Prelude.{◌≡◌, ◌≤◌, ◌<◌, ◌↔◌, IfOk, IfSome, IsNone};
ghost use Rattle.size_least.specs.Jobs.{late_of};
ghost use Rattle.size_least.specs.Least.{IsLeast};

use crate::job::Job;
use crate::late::is_above;
use std::alloc::{AllocError, Global};

/// The least runtime in each period, in microseconds, with which at most `allowed` of the jobs may be late; none where
/// more are even with the whole period.
pub fn least_runtime(
    alloc: Global,
    jobs: &[Job],
    period: u32,
    allowed: usize,
) -> Result<Option<u32>, AllocError>
    requires { 1 ≤ period }
    ensures least { IfOk result (λ o. IfSome o (IsLeast jobs.now period allowed)) }
    ensures none { IfOk result (λ o. IsNone o ↔ (allowed < late_of period period jobs.now)) }
{
    if is_above(alloc, jobs, period, period, allowed)? {
        return Ok(None);
    }
    let mut low = 0;
    let mut high = period;
    while high - low > 1 {
        let middle = low + (high - low) / 2;
        if is_above(alloc, jobs, middle, period, allowed)? {
            low = middle;
        } else {
            high = middle;
        }
    }
    Ok(Some(high))
}
