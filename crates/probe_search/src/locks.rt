//! Functions whose line comes before the lock of a runqueue: when each has it.

use crate::effects::{Candidates, is_gone, lock_amount};
use crate::shown::{ShownEntity, shown_entity, shown_sums};
use kernel_rules::{Delayed, REPLENISH, WAKEUP, has};
use probe_explain::ProbeLine;
use probe_findings::Amount;
use probe_run::{Effect, PendingEffect, PlayRules, Run, RunMove};
use std::alloc::AllocError;
use trace_data::{Mark, Probe};

/// Whose function it is, and which.
fn lock_of(pending: &PendingEffect) -> Option<(usize, Delayed)> {
    match pending.effect {
        Effect::Locks {
            entity,
            delayed,
            ..
        } => Some((entity, delayed)),
        Effect::Adds { .. } | Effect::Returns { .. } | Effect::MovesOffline => None,
    }
}

/// The first pending lock for which this holds.
fn first_lock<F: Fn(usize, Delayed) -> bool>(run: &Run, holds: F) -> Option<RunMove>
    requires { F.IsAlwaysCallable holds }
{
    for (place, pending) in run.pending().iter().enumerate() {
        if let Some((entity, delayed)) = lock_of(pending)
            && holds(entity, delayed)
        {
            return Some(RunMove::Settle(place));
        }
    }
    None
}

fn is_zero_lag(delayed: Delayed) -> bool {
    delayed == Delayed::ZeroLag
}

/// An `inactive_task_timer` that finds nothing to do has its lock at once: the task wakes, and may block again.
pub(crate) fn idle_lock(run: &Run) -> Option<RunMove> {
    first_lock(run, |entity, delayed| {
        let actor = run.actor(entity);
        is_zero_lag(delayed) && actor.knows_contending && !actor.entity.is_non_contending
    })
}

/// A lock that the next line of the entity itself shows to be done: a move always, its 0-lag timer where it no longer counts.
fn own_lock(run: &Run, shown: ShownEntity) -> Option<RunMove> {
    first_lock(run, |entity, delayed| {
        let actor = run.actor(entity);
        let was_waiting = actor.knows_contending && actor.entity.is_non_contending;
        entity == shown.number
            && (delayed == Delayed::Moved || was_waiting && !shown.is_non_contending)
    })
}

/// A 0-lag timer of a task that left or ended, which comes back: what it gives back is taken anew.
fn gone_lock(run: &Run, of: Option<usize>) -> Option<RunMove> {
    first_lock(run, |entity, delayed| {
        let is_asked = match of {
            Some(number) => number == entity,
            None => true,
        };
        is_asked && is_zero_lag(delayed) && is_gone(run.actor(entity).entity)
    })
}

/// Whether root domains change with this line: what is given back before goes to the domain as it was.
fn changes_domains(probe: &Probe) -> bool {
    matches!(
        probe,
        Probe::Mark(
            Mark::DomainAttached { .. } | Mark::CpuDeactivated { .. } | Mark::CpuActivated { .. }
        )
    )
}

/// Locks that come before the function of this line.
pub(crate) fn earlier_lock(run: &Run, next: &ProbeLine) -> Option<RunMove> {
    if changes_domains(&next.probe) {
        return gone_lock(run, None);
    }
    let of_returning = match &next.probe {
        Probe::Enqueued(line) => run.task_number(line.pid),
        Probe::Admitted(line) => run.task_number(line.pid),
        _ => None,
    };
    if of_returning.is_some() {
        let settled = gone_lock(run, of_returning);
        if settled.is_some() {
            return settled;
        }
    }
    match shown_entity(run, &next.probe) {
        Some(shown) => own_lock(run, shown),
        None => None,
    }
}

/// The pending locks of a runqueue.
fn gather(
    run: &Run,
    rules: PlayRules,
    candidates: &mut Candidates,
    cpu: u32,
) -> Result<(), AllocError> {
    candidates.clear();
    for (place, pending) in run.pending().iter().enumerate() {
        if let Effect::Locks {
            cpu: of,
            entity,
            delayed,
        } = pending.effect
            && of == cpu
            && let Some(amount) = lock_amount(run, rules, entity, delayed)
        {
            candidates.add(place, amount)?;
        }
    }
    Ok(())
}

/// A lock by which a runqueue's sums are those that the next line shows: the smallest set of them is made.
pub(crate) fn lock_for_sums(
    run: &Run,
    rules: PlayRules,
    candidates: &mut Candidates,
    next: &ProbeLine,
) -> Result<Option<RunMove>, AllocError> {
    let Some(shown) = shown_sums(run, &next.probe) else {
        return Ok(None);
    };
    if !rules.has_dequeues || run.pending().is_empty() {
        return Ok(None);
    }
    let runqueue = run.runqueue(shown.cpu);
    if next.place.at <= runqueue.open_until {
        return Ok(None);
    }
    gather(run, rules, candidates, shown.cpu)?;
    let brought = brought_along(run, &next.probe);
    let place = match (runqueue.this_bw, runqueue.running_bw) {
        (Some(this_bw), Some(running_bw)) => candidates.first_of(Amount {
            this_bw: left_of(shown.sums.this_bw, this_bw, brought.this_bw),
            running_bw: left_of(shown.sums.running_bw, running_bw, brought.running_bw),
        }),
        // What is pending on unknown sums is taken to be done before they are shown.
        _ => candidates.first_with_amount(),
    };
    Ok(place.map(|place| RunMove::Settle(place)))
}

/// What of a shown sum neither the runqueue had nor the task brings along.
fn left_of(shown: u64, known: u64, brought: u64) -> u64 {
    shown.wrapping_sub(known).wrapping_sub(brought)
}

/// What a task brings to the runqueue before its enqueue shows the sums: from a CPU that went (`dl_task_offline_migration`), or back
/// into the class by a boost (`switched_to_dl`).
fn brought_along(run: &Run, probe: &Probe) -> Amount {
    let nothing = Amount {
        this_bw: 0,
        running_bw: 0,
    };
    let Probe::Enqueued(line) = probe else {
        return nothing;
    };
    let Some(number) = run.task_number(line.pid) else {
        return nothing;
    };
    let actor = run.actor(number);
    let entity = actor.entity;
    if !actor.knows_parameters || entity.parameters.dl_runtime == 0 {
        return nothing;
    }
    let is_throttled = entity.budget.is_throttled && entity.is_queued;
    if has(line.flags, REPLENISH) && is_throttled && actor.cpu != line.cpu {
        return Amount {
            this_bw: entity.dl_bw,
            running_bw: entity.dl_bw,
        };
    }
    let is_boosted = line.normal_prio >= 0 && line.entity != line.served_by;
    if is_boosted && !entity.is_in_class && has(line.flags, WAKEUP) {
        return Amount {
            this_bw: entity.dl_bw,
            running_bw: 0,
        };
    }
    nothing
}
