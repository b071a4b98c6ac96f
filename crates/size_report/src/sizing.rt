//! The reservation of a task: the least runtime, and what others cost.

ghost use Rattle.std.specs.Prelude.{◌≡◌, ◌≤◌, ◌<◌, ◌↔◌, All, IfOk, IfSome, IsNone, OnOk};
ghost use Rattle.size_least.specs.Jobs.{late_of};
ghost use Rattle.size_report.specs.Answers.{AreJobs};
ghost use Rattle.size_report.specs.Needs.{IsCounted, IsNeeded, IsPriced, less_of, proposed_of};

use size_jobs::Seen;
use size_least::{Job, Late, first_late, late_count, least_runtime};
use std::alloc::{AllocError, Global};

/// A runtime, and how many jobs may be late with it.
#[derive(Clone, Copy)]
pub(crate) struct Choice {
    pub runtime: u32,
    pub late: usize,
}

/// What is asked of a task.
#[derive(Clone, Copy)]
pub(crate) struct SizeRequest {
    pub period: u32,
    pub allowed: usize,
    pub margin: u32,
    pub given: Option<u32>,
}

/// What a task needs.
#[derive(Drop)]
pub(crate) struct Needed {
    pub least: u32,
    pub proposed: u32,

    /// Fifteen percent less than the least.
    pub less: u32,

    /// The least runtimes with which so many percent of the jobs may be late.
    pub percents: Vec<(u32, u32)>,

    /// By runtime, the greatest first.
    pub choices: Vec<Choice>,

    /// The first job that may be late with a microsecond less.
    pub witness: Option<Late>,

    /// Other periods, each with the least runtime in it.
    pub others: Vec<(u32, Option<u32>)>,
}

/// The jobs that are to be done in so many microseconds after their wakes.
pub(crate) fn jobs_of(alloc: Global, seen: &[Seen], within: u32) -> Result<Vec<Job>, AllocError>
    ensures { IfOk result (λ v. AreJobs within seen.now v.items) }
{
    let mut jobs = Vec::new(alloc);
    for one in seen {
        jobs.push(Job::new(one.release, one.work, within))?;
    }
    Ok(jobs)
}

/// So many percent more than a runtime, rounded up, at least 2 and at most the period.
fn with_margin(runtime: u32, margin: u32, period: u32) -> u32
    ensures { result ≡ proposed_of runtime margin period }
{
    let more = u128::from(runtime) * (100 + u128::from(margin));
    more.div_ceil(100).max(2).min(u128::from(period)) as u32
}

/// Fifteen percent less than a runtime, rounded up.
fn less_of(runtime: u32) -> u32
    ensures { result ≡ less_of runtime }
{
    (u64::from(runtime) * 85).div_ceil(100) as u32
}

/// The least runtime with which so many jobs may be late, where that is asked.
fn least_with(
    alloc: Global,
    jobs: &[Job],
    period: u32,
    allowed: usize,
) -> Result<Option<u32>, AllocError>
    requires { 1 ≤ period }
{
    if allowed == 0 || allowed >= jobs.len() {
        return Ok(None);
    }
    least_runtime(alloc, jobs, period, allowed)
}

/// For 1, 5 and 10 percent the least runtime with which so many of the jobs may be late.
fn percents_of(alloc: Global, jobs: &[Job], period: u32) -> Result<Vec<(u32, u32)>, AllocError>
    requires { 1 ≤ period }
{
    let mut percents = Vec::new(alloc);
    for percent in [1u32, 5, 10] {
        let allowed = jobs.len().saturating_mul(percent as usize) / 100;
        if let Some(runtime) = least_with(alloc, jobs, period, allowed)? {
            percents.push((percent, runtime))?;
        }
    }
    Ok(percents)
}

/// Adds a runtime, where it is not there.
fn add_runtime(runtimes: &mut Vec<u32>, runtime: u32) -> Result<(), AllocError> {
    if runtimes.contains(&runtime) {
        return Ok(());
    }
    runtimes.push(runtime)?;
    Ok(())
}

/// The runtimes that are told, the greatest first.
fn runtimes_of(
    alloc: Global,
    jobs: &[Job],
    period: u32,
    named: &[u32],
    percents: &[(u32, u32)],
) -> Result<Vec<u32>, AllocError>
    requires { 1 ≤ period }
{
    let mut runtimes = Vec::new(alloc);
    for runtime in named {
        add_runtime(&mut runtimes, *runtime)?;
    }
    for allowed in [1, 2] {
        if let Some(runtime) = least_with(alloc, jobs, period, allowed)? {
            add_runtime(&mut runtimes, runtime)?;
        }
    }
    for (_, runtime) in percents {
        add_runtime(&mut runtimes, *runtime)?;
    }
    runtimes.sort_by_key(|runtime: &u32| u32::MAX - *runtime)?;
    Ok(runtimes)
}

/// How many jobs may be late with each of the runtimes that the period has room for.
fn counted(
    alloc: Global,
    jobs: &[Job],
    runtimes: &[u32],
    period: u32,
) -> Result<Vec<Choice>, AllocError>
    ensures { IfOk result (λ v. All (IsCounted jobs.now period) v.items) }
{
    let mut choices = Vec::new(alloc);
    for runtime in runtimes {
        if *runtime > 0 && *runtime <= period {
            let late = late_count(alloc, jobs, *runtime, period)?;
            choices.push(Choice {
                runtime: *runtime,
                late,
            })?;
        }
    }
    Ok(choices)
}

/// The shortest period that the kernel admits, in microseconds.
pub(crate) const PERIOD_LEAST: u32 = 100;

/// The longest one.
pub(crate) const PERIOD_MOST: u32 = 4194304;

/// Adds the price of a period that the kernel admits.
fn add_other(
    alloc: Global,
    others: &mut Vec<(u32, Option<u32>)>,
    jobs: &[Job],
    period: u32,
    allowed: usize,
) -> Result<(), AllocError>
    ensures { OnOk result (All (IsPriced jobs.now allowed) others.old.items
        → All (IsPriced jobs.now allowed) others.new.items) }
{
    if period >= PERIOD_LEAST && period <= PERIOD_MOST {
        let least = least_runtime(alloc, jobs, period, allowed)?;
        others.push((period, least))?;
    }
    Ok(())
}

/// A period and a quarter.
fn longer_of(period: u32) -> u32 {
    period.saturating_add(period / 4)
}

fn others_of(
    alloc: Global,
    jobs: &[Job],
    period: u32,
    allowed: usize,
) -> Result<Vec<(u32, Option<u32>)>, AllocError>
    ensures { IfOk result (λ v. All (IsPriced jobs.now allowed) v.items) }
{
    let mut others = Vec::new(alloc);
    for parts in [2u32, 3, 4, 5, 8, 10] {
        add_other(alloc, &mut others, jobs, period / parts.max(1), allowed)?;
    }
    add_other(alloc, &mut others, jobs, longer_of(period), allowed)?;
    Ok(others)
}

/// The first job that may be late with a microsecond less; none where no runtime is less, or some jobs may be late.
fn witness_of(
    alloc: Global,
    jobs: &[Job],
    wanted: SizeRequest,
    least: u32,
) -> Result<Option<Late>, AllocError> {
    if least < 2 || least > wanted.period || wanted.allowed > 0 {
        return Ok(None);
    }
    first_late(alloc, jobs, least - 1, wanted.period)
}

/// The table of what a task needs.
fn needed_with(
    alloc: Global,
    jobs: &[Job],
    wanted: SizeRequest,
    least: u32,
) -> Result<Needed, AllocError>
    requires { 1 ≤ wanted.period }
    ensures least { IfOk result (λ n. n.least ≡ least) }
    ensures proposed { IfOk result
        (λ n. n.proposed ≡ proposed_of least wanted.margin wanted.period) }
    ensures less { IfOk result (λ n. n.less ≡ less_of least) }
    ensures choices { IfOk result (λ n. All (IsCounted jobs.now wanted.period) n.choices.items) }
    ensures others { IfOk result (λ n. All (IsPriced jobs.now wanted.allowed) n.others.items) }
{
    let proposed = with_margin(least, wanted.margin, wanted.period);
    let less = less_of(least);
    let percents = percents_of(alloc, jobs, wanted.period)?;
    let named = [wanted.given.unwrap_or(least), proposed, least, less];
    let runtimes = runtimes_of(alloc, jobs, wanted.period, &named, &percents)?;
    let choices = counted(alloc, jobs, &runtimes, wanted.period)?;
    let witness = witness_of(alloc, jobs, wanted, least)?;
    let others = others_of(alloc, jobs, wanted.period, wanted.allowed)?;
    Ok(Needed {
        least,
        proposed,
        less,
        percents,
        choices,
        witness,
        others,
    })
}

/// What a task needs; none where no runtime is enough.
pub(crate) fn needed_of(
    alloc: Global,
    jobs: &[Job],
    wanted: SizeRequest,
) -> Result<Option<Needed>, AllocError>
    requires { 1 ≤ wanted.period }
    ensures needed { IfOk result (λ o. IfSome o (IsNeeded jobs.now wanted)) }
    ensures none { IfOk result (λ o. IsNone o
        ↔ (wanted.allowed < late_of wanted.period wanted.period jobs.now)) }
{
    let Some(least) = least_runtime(alloc, jobs, wanted.period, wanted.allowed)? else {
        return Ok(None);
    };
    Ok(Some(needed_with(alloc, jobs, wanted, least)?))
}
