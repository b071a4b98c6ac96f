//! How high the needs of jobs are on a scale.

ghost use Rattle.std.specs.Prelude.{◌≡◌, ◌≤◌, ◌<◌, ◌+◌, ◌-◌, ◌*◌, IfOk, map, [], get_or};
ghost use Rattle.size_least.specs.Span.{budgets_of};
ghost use Rattle.size_least.specs.Needs.{AllWork, needs_after};
ghost use Rattle.size_least.specs.Heights.{height_in};
ghost use Rattle.size_least.specs.inside.Rising.{flag, summed};

use crate::{Job, lates_of};
use std::alloc::{AllocError, Global};

/// How many steps a scale has.
pub const STEPS: u32 = 150;

/// How high the need of each job is on a scale of 150 steps that ends at the runtime `top`, from 1 to one more than the period:
/// `need * 150 / top`, where the need of a job with which no runtime is enough is one more than the period.
pub fn heights_of(
    alloc: Global,
    jobs: &[Job],
    period: u32,
    top: u32,
) -> Result<Vec<u32>, AllocError>
    requires some { 1 ≤ top }
    requires room { top ≤ period + 1 }
    ensures { AllWork jobs.now → IfOk result
        (λ v. v.items ≡ map (height_in 150 top) (needs_after period [] jobs.now)) }
{
    let mut heights = each(alloc, jobs, 0)?;
    for step in 0..STEPS {
        let more = flags_of(alloc, jobs, period, below_of(top, step))?;
        heights = sums_of(alloc, &heights, &more)?;
    }
    Ok(heights)
}

/// More than this is needed where a need is more than so many steps high.
fn below_of(top: u32, step: u32) -> u32
    requires some { 1 ≤ top }
    requires within { step < 150 }
    ensures value { result ≡ budgets_of (top * (step + 1)) 150 - 1 }
    ensures most { result < top }
{
    let steps = u64::from(top) * (u64::from(step) + 1);
    steps.div_ceil(150).saturating_sub(1) as u32
}

/// The same number for each job.
fn each(alloc: Global, jobs: &[Job], n: u32) -> Result<Vec<u32>, AllocError>
    ensures { IfOk result (λ v. v.items ≡ map (λ job. n) jobs.now) }
{
    let mut all = Vec::new(alloc);
    for job in jobs {
        let _ = job;
        all.push(n)?;
    }
    Ok(all)
}

/// 1 for each job that needs more than a runtime.
fn flags_of(alloc: Global, jobs: &[Job], period: u32, below: u32) -> Result<Vec<u32>, AllocError>
    requires { below ≤ period }
    ensures { AllWork jobs.now → IfOk result
        (λ v. v.items ≡ map (flag below) (needs_after period [] jobs.now)) }
{
    if below == 0 {
        return each(alloc, jobs, 1);
    }
    lates_of(alloc, jobs, below, period)
}

fn sums_of(alloc: Global, heights: &[u32], more: &[u32]) -> Result<Vec<u32>, AllocError>
    ensures { IfOk result (λ v. v.items ≡ summed heights.now more.now) }
{
    let mut sums = Vec::new(alloc);
    let count = heights.len().min(more.len());
    for i in 0..count {
        sums.push(heights[i].saturating_add(more[i]))?;
    }
    Ok(sums)
}
