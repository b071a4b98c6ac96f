//! When the handler of an inactive timer returns: before a block that arms the timer, and behind one that does not.

use crate::shown::stops;
use kernel_rules::{DEADLINE_POLICY, Delayed};
use probe_explain::ProbeLine;
use probe_run::{Effect, OpenDequeue, PlayRules, Run, RunMove};
use std::collections::VecDeque;
use trace_data::{Armed, Probe, TimerFunction};

/// `on_rq` of a task that is on a runqueue.
const QUEUED: u64 = 1;

/// Whether this line of a CPU says that it arms a 0-lag timer, or that it does not; none where it may do so later.
fn arms(cpu: u32, line: &ProbeLine) -> Option<bool> {
    if line.place.cpu != cpu {
        return None;
    }
    match &line.probe {
        Probe::Armed(
            Armed {
                function: TimerFunction::ZeroLag,
                ..
            },
        ) => Some(true),
        Probe::Armed(_) | Probe::Mark(_) | Probe::ServerStopped(_) | Probe::ServerIdled(_) => None,
        Probe::Updated(updated) if updated.is_server => None,
        _ => Some(false),
    }
}

/// Whether these lines show no block of this CPU that arms no timer.
fn may_arm(rules: PlayRules, cpu: u32, ahead: &VecDeque<ProbeLine>) -> bool {
    !rules.has_timers
        || ahead
            .iter()
            .find_map(|line| arms(cpu, line))
            .unwrap_or(true)
}

/// What is pending of the handler of the inactive timer of this entity.
fn pending_handler(run: &Run, number: usize) -> Option<RunMove> {
    let place = run.pending().iter().position(|one| match one.effect {
        Effect::Adds { .. } | Effect::MovesOffline => false,
        Effect::Locks {
            entity,
            delayed,
            ..
        } => entity == number && delayed == Delayed::ZeroLag,
        Effect::Returns { entity } => entity == number,
    });
    place.map(|place| RunMove::Settle(place))
}

/// The rest of a dequeue, or what of the handler of its entity's timer comes before.
pub(crate) fn rest_move(
    run: &Run,
    rules: PlayRules,
    rest: &OpenDequeue,
    next: &ProbeLine,
    ahead: &VecDeque<ProbeLine>,
) -> RunMove {
    let cpu = rest.place.cpu;
    let has_returned = match arms(cpu, next) {
        Some(arms) => arms || !rules.has_timers,
        None => may_arm(rules, cpu, ahead),
    };
    let pending = if has_returned {
        pending_handler(run, rest.entity)
    } else {
        None
    };
    pending.unwrap_or(RunMove::OpenDequeue(cpu))
}

/// The entity that blocks with this line.
fn blocks(run: &Run, probe: &Probe) -> Option<usize> {
    match probe {
        Probe::LeftClass(line) if line.on_rq == QUEUED => run.task_number(line.pid),
        Probe::Picked(line) if stops(line) => run.server_number(line.cpu),
        Probe::ServerStopped(line) => run.server_number(line.cpu),
        _ => None,
    }
}

/// What of the handler of an entity's timer comes before the function of this line.
pub(crate) fn handler_before(
    run: &Run,
    rules: PlayRules,
    next: &ProbeLine,
    ahead: &VecDeque<ProbeLine>,
) -> Option<RunMove> {
    if let Probe::Admitted(line) = &next.probe {
        if line.policy_before == DEADLINE_POLICY {
            return None;
        }
        return pending_handler(run, run.task_number(line.pid)?);
    }
    let number = blocks(run, &next.probe)?;
    if may_arm(rules, next.place.cpu, ahead) {
        pending_handler(run, number)
    } else {
        None
    }
}
