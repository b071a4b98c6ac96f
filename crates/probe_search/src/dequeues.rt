//! The rest of a dequeue: it comes after the charge within it.

use crate::handlers::rest_move;
use crate::shown::is_passed_over;
use kernel_rules::{REPLENISH, has};
use probe_explain::ProbeLine;
use probe_run::{Awaits, OpenDequeue, PlayRules, Run, RunMove};
use std::collections::VecDeque;
use trace_data::Probe;

/// Whether a line is the charge of a dequeue, of the task that runs there.
fn is_charge(rest: &OpenDequeue, line: &ProbeLine) -> bool {
    match &line.probe {
        Probe::Updated(updated) => {
            !updated.is_server && updated.pid == rest.current && updated.cpu == rest.cpu
        }
        _ => false,
    }
}

/// Whether a line is the enqueue of the task that a dequeue has charged.
fn is_enqueue(rest: &OpenDequeue, line: &ProbeLine) -> bool {
    match &line.probe {
        Probe::Enqueued(enqueued) => {
            enqueued.pid == rest.current && has(enqueued.flags, REPLENISH)
        }
        _ => false,
    }
}

/// Whether a line is what the rest of a dequeue waits for.
fn is_awaited(rest: &OpenDequeue, line: &ProbeLine) -> bool {
    match rest.awaits {
        Awaits::Charge => is_charge(rest, line),
        Awaits::Enqueue => is_enqueue(rest, line),
        Awaits::Nothing => false,
    }
}

/// The next line of the CPU of a dequeue, as far as it is seen.
fn next_by<'a>(
    cpu: u32,
    next: &'a ProbeLine,
    ahead: &'a VecDeque<ProbeLine>,
) -> Option<&'a ProbeLine> {
    if next.place.cpu == cpu {
        return Some(next);
    }
    for line in ahead.iter() {
        if line.place.cpu == cpu && !is_passed_over(&line.probe) {
            return Some(line);
        }
    }
    None
}

/// Whether the task that runs would be charged, by what is known of it; none where nothing is.
fn would_be_charged(run: &Run, rest: &OpenDequeue) -> Option<bool> {
    let number = run.task_number(rest.current)?;
    let actor = run.actor(number);
    if actor.knows_parameters && actor.knows_budget {
        Some(actor.entity.is_in_tree && actor.cpu == rest.cpu)
    } else {
        None
    }
}

/// Whether a charge comes within a dequeue: a kernel with `update_curr_dl` writes a line always, one with `update_curr_dl_se` where
/// there is something to charge.
fn is_charged(
    run: &Run,
    rest: &OpenDequeue,
    shows_spans: bool,
    next: &ProbeLine,
    ahead: &VecDeque<ProbeLine>,
) -> bool {
    if !shows_spans {
        return true;
    }
    if let Some(is_charged) = would_be_charged(run, rest) {
        return is_charged;
    }
    match next_by(rest.place.cpu, next, ahead) {
        Some(line) => is_charge(rest, line),
        None => false,
    }
}

/// The rest of a dequeue in which no charge comes, or whose charge has come.
pub(crate) fn rest_at_once(
    run: &Run,
    rules: PlayRules,
    shows_spans: bool,
    next: &ProbeLine,
    ahead: &VecDeque<ProbeLine>,
) -> Option<RunMove> {
    for rest in run.open_dequeues() {
        let comes = match rest.awaits {
            Awaits::Nothing => true,
            Awaits::Enqueue => false,
            Awaits::Charge => !is_charged(run, rest, shows_spans, next, ahead),
        };
        if comes {
            return Some(rest_move(run, rules, rest, next, ahead));
        }
    }
    None
}

/// The rest of a dequeue whose CPU writes another line than it waits for.
pub(crate) fn rest_before(
    run: &Run,
    rules: PlayRules,
    next: &ProbeLine,
    ahead: &VecDeque<ProbeLine>,
) -> Option<RunMove> {
    for rest in run.open_dequeues() {
        if rest.place.cpu == next.place.cpu && !is_awaited(rest, next) {
            return Some(rest_move(run, rules, rest, next, ahead));
        }
    }
    None
}
