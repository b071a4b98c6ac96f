//! What the jobs of a task come to.

ghost use Rattle.std.specs.Prelude.{◌≡◌, ◌≤◌, IfOk};
ghost use Rattle.size_report.specs.Periods.{AreSorted, at, between_after, between_of, is_far, is_regular, regular, rounded, rounded_by};

use size_jobs::Seen;
use std::alloc::{AllocError, Global};

/// The sorted durations of a task's jobs, in microseconds.
#[derive(Drop)]
pub(crate) struct Figures {
    /// Between the releases of a job and the next.
    pub between: Vec<u64>,

    /// For how long the jobs ran.
    pub ran: Vec<u64>,

    /// From a wake to its block.
    pub done: Vec<u64>,
}

fn ran_of(alloc: Global, jobs: &[Seen]) -> Result<Vec<u64>, AllocError> {
    let mut ran: Vec<u64> = jobs.iter().map(|job| job.work).collect(alloc)?;
    ran.sort_unstable();
    Ok(ran)
}

fn done_of(alloc: Global, jobs: &[Seen]) -> Result<Vec<u64>, AllocError> {
    let mut done: Vec<u64> = jobs
        .iter()
        .map(|job| job.end.saturating_sub(job.release))
        .collect(alloc)?;
    done.sort_unstable();
    Ok(done)
}

/// The times between the releases of each job and the next.
fn intervals(alloc: Global, jobs: &[Seen]) -> Result<Vec<u64>, AllocError>
    ensures { IfOk result (λ v. v.items ≡ between_of jobs.now) }
{
    match jobs {
        [] => Ok(Vec::new(alloc)),
        [first, rest @ ..] => intervals_after(alloc, first.release, rest),
    }
}

/// The same, of jobs behind one of this release.
fn intervals_after(alloc: Global, first: u64, jobs: &[Seen]) -> Result<Vec<u64>, AllocError>
    ensures { IfOk result (λ v. v.items ≡ between_after first jobs.now) }
{
    let mut between = Vec::new(alloc);
    let mut last = first;
    for job in jobs {
        between.push(job.release.saturating_sub(last))?;
        last = job.release;
    }
    Ok(between)
}

fn sorted(mut numbers: Vec<u64>) -> Vec<u64>
    ensures { AreSorted numbers.items result.items }
{
    numbers.sort_unstable();
    numbers
}

impl Figures {
    pub(crate) fn new(alloc: Global, jobs: &[Seen]) -> Result<Figures, AllocError>
        ensures { IfOk result (λ f. AreSorted (between_of jobs.now) f.between.items) }
    {
        let between = sorted(intervals(alloc, jobs)?);
        let ran = ran_of(alloc, jobs)?;
        let done = done_of(alloc, jobs)?;
        Ok(Figures { between, ran, done })
    }
}

/// Of sorted numbers the one that so many of a hundred are before; 0 where there is none.
pub(crate) fn at(sorted: &[u64], percent: usize) -> u64
    ensures { result ≡ at percent sorted.now }
{
    let place = sorted.len().saturating_mul(percent) / 100;
    let last = sorted.len().saturating_sub(1);
    sorted.get(place.min(last)).copied().unwrap_or(0)
}

/// The greatest of sorted numbers; 0 where there is none.
pub(crate) fn most(sorted: &[u64]) -> u64 {
    at(sorted, 100)
}

/// Rounded down to three digits, where it has at most so many more.
fn rounded_by(more: u32, n: u64) -> u64
    ensures value { result ≡ rounded_by more n }
    ensures bound { result ≤ n }
{
    if more == 0 || n < 1000 {
        return n;
    }
    rounded_by(more - 1, n / 10) * 10
}

/// Rounded down to three digits.
pub(crate) fn rounded(n: u64) -> u64
    ensures { result ≡ rounded n }
{
    rounded_by(17, n)
}

/// The least number of intervals of a regular task.
const INTERVALS_MIN: usize = 8;

/// Whether a number is more than a tenth away.
fn is_far(median: u64, n: u64) -> bool
    ensures { result ≡ is_far median n }
{
    n.abs_diff(median) > median / 10
}

fn is_regular(between: &[u64]) -> bool
    ensures { result ≡ is_regular between.now }
{
    let median = at(between, 50);
    let far = between.iter().filter(|n| is_far(median, **n)).count();
    between.len() >= INTERVALS_MIN && far <= between.len() / 10
}

/// The period of a task whose wakes are regular, by the sorted intervals between them: nine of ten lie within a tenth of the median.
#[tactic(auto, unfolding(crate::specs::Periods::regular))]
pub(crate) fn regular_period(between: &[u64]) -> Option<u64>
    ensures { result ≡ regular between.now }
{
    if is_regular(between) {
        Some(rounded(at(between, 50)))
    } else {
        None
    }
}

/// The sum of these numbers, where it is below 2^64.
pub(crate) fn total(numbers: &[u64]) -> u64 {
    numbers.iter().fold(0, |sum: u64, n| sum.saturating_add(*n))
}

/// How many hundredths of a percent a part is of a whole, rounded to the nearest.
pub(crate) fn share(part: u64, whole: u64) -> u64 {
    let whole = whole.max(1);
    let twice = part.saturating_mul(20000).saturating_add(whole);
    twice / whole / 2
}
