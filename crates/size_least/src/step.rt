//! How the renewals that count go from job to job.

ghost use Rattle.std.specs.Prelude.{◌≡◌, ◌≤◌, ◌<◌, ◌+◌, ◌-◌, ◌*◌, min, length, nat_le, List, OnOk, ◌∷◌};
ghost use Rattle.size_least.specs.inside.Walk.{Answers, IsKept, WillAnswer, covers, has_less, is_over, joined, remembered};
ghost use Rattle.size_least.specs.inside.Queue.{latest_of};
ghost use Rattle.size_least.specs.declared.job.Job.{Job};

use crate::job::Job;
use crate::renewal::{Renewal, Renewals};
use std::alloc::AllocError;

/// Whether the first is done by a release.
fn is_over(renewals: &Renewals, release: u64) -> bool
    ensures { result ≡ is_over release renewals.now }
{
    match renewals.first() {
        Some(first) => first.finish <= release,
        None => false,
    }
}

/// Keeps the renewals whose work until now may take beyond a release.
fn forget(renewals: &mut Renewals, release: u64)
    ensures { renewals.new ≡ remembered release renewals.old }
{
    while is_over(renewals, release) {
        renewals.drop_first();
    }
}

/// Whether one of the renewals takes as long as one at the release or longer, whatever follows.
fn is_covered(renewals: &Renewals, release: u64, gap: u64) -> bool
    ensures { result ≡ covers gap release renewals.now }
{
    match renewals.first() {
        Some(first) => first.left == 0 && release <= first.finish
            || release.saturating_add(gap) <= renewals.latest(),
        None => false,
    }
}

/// Adds a renewal at the release, where none of those before it takes as long.
fn join(renewals: &mut Renewals, release: u64, gap: u64) -> Result<(), AllocError>
    ensures { OnOk result (renewals.new ≡ joined gap release renewals.old) }
{
    if is_covered(renewals, release, gap) {
        return Ok(());
    }
    renewals.push_first(Renewal {
        finish: release,
        left: 0,
    })?;
    Ok(())
}

/// Whether less than that is left of the first.
fn has_less(renewals: &Renewals, part: u64) -> bool
    ensures { result ≡ has_less part renewals.now }
{
    match renewals.first() {
        Some(first) => first.left < part,
        None => false,
    }
}

/// How long work takes beyond what is left of budgets: so many whole ones, with their gaps. It stops at the greatest number.
fn time_of(work: u64, whole: u64, gap: u64) -> u64
    ensures { result ≡ min (whole * gap + work) 18446744073709551615 }
{
    whole.saturating_mul(gap).saturating_add(work)
}

/// Whether so much later the last may be done beyond all moments.
fn is_beyond(renewals: &Renewals, gap: u64, time: u64) -> bool
    ensures { result ≡ nat_le 18446744073709551615 (latest_of renewals.now + gap + time) }
{
    renewals.latest().saturating_add(gap).saturating_add(time) == u64::MAX
}

/// Lets the work of a job be done. Where it may take beyond all moments, only that is kept.
fn advance(renewals: &mut Renewals, work: u64, runtime: u32, period: u32) -> Result<(), AllocError>
    requires some { 0 < runtime }
    requires room { runtime ≤ period }
    requires one { 0 < length renewals.old }
    requires kept { IsKept (period - runtime) runtime renewals.old }
    ensures kept { OnOk result (IsKept (period - runtime) runtime renewals.new) }
    ensures answers { OnOk result ((past : List Job)
        → WillAnswer runtime period work renewals.old past
        → Answers runtime period renewals.new past) }
{
    let budget = u64::from(runtime);
    let gap = u64::from(period - runtime);
    let used = work % budget;
    let time = time_of(work, work / budget, gap);
    if is_beyond(renewals, gap, time) {
        renewals.replace_all(Renewal {
            finish: u64::MAX,
            left: 0,
        })?;
        return Ok(());
    }
    while has_less(renewals, used) {
        renewals.turn(gap, budget)?;
    }
    renewals.pass(time, used);
    Ok(())
}

/// Goes from the renewals that stand before a job to those that stand after it.
pub(crate) fn step(
    renewals: &mut Renewals,
    job: &Job,
    runtime: u32,
    period: u32,
) -> Result<(), AllocError>
    requires some { 0 < runtime }
    requires room { runtime ≤ period }
    requires kept { IsKept (period - runtime) runtime renewals.old }
    ensures kept { OnOk result (IsKept (period - runtime) runtime renewals.new) }
    ensures answers { OnOk result ((past : List Job) → Answers runtime period renewals.old past
        → Answers runtime period renewals.new (job.now ∷ past)) }
{
    forget(renewals, job.release);
    join(renewals, job.release, u64::from(period - runtime))?;
    advance(renewals, job.work, runtime, period)?;
    Ok(())
}

/// Whether from each of the renewals the work until now is done by the moment.
pub(crate) fn are_done_by(renewals: &Renewals, due: u64) -> bool
    ensures { result ≡ nat_le (latest_of renewals.now) due }
{
    renewals.latest() <= due
}
