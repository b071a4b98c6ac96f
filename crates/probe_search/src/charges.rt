//! What a line leaves open: the `extra_bw` of a charge, its speed, the clock of a late replenishment.

use crate::reclaiming::{ReclaimingCharge, has_effect_on, is_open_at, later_extra};
use crate::shown::ChargedTask;
use crate::speeds::{UnknownSpeed, cost_told};
use kernel_rules::{Entity, RECLAIM, has};
use probe_explain::ProbeLine;
use probe_run::{PlayRules, Run, is_special};
use probe_tasks::{AS_SHOWN, LineChoice};
use std::collections::VecDeque;
use trace_data::{Enqueued, Probe, Ran, Updated};

/// How long the task has run since it was last charged, in nanoseconds; none where it has not.
fn span_of(line: &Updated) -> Option<u64> {
    let delta = match line.ran {
        Ran::Span { delta, .. } => delta,
        Ran::Clocks { now, start, .. } => now.wrapping_sub(start).cast_signed(),
    };
    if delta > 0 {
        Some(delta.cast_unsigned())
    } else {
        None
    }
}

fn updated_choice(
    run: &Run,
    rules: PlayRules,
    next: &ProbeLine,
    line: &Updated,
    ahead: &VecDeque<ProbeLine>,
) -> LineChoice {
    let Some(number) = run.task_number(line.pid) else {
        return AS_SHOWN;
    };
    let actor = run.actor(number);
    let Some(nanos) = span_of(line) else {
        return AS_SHOWN;
    };
    let is_charged = actor.entity.is_in_tree && actor.knows_budget && actor.knows_parameters;
    if line.is_server || !is_charged || is_special(actor.entity) {
        return AS_SHOWN;
    }
    let task = ChargedTask {
        number,
        pid: line.pid,
        by: next.place.cpu,
    };
    if has(actor.entity.parameters.flags, RECLAIM) {
        let is_open = is_open_at(run, next, ahead);
        if !is_open && !has_effect_on(run, line.cpu) {
            return AS_SHOWN;
        }
        let charge = ReclaimingCharge {
            rules,
            task,
            entity: Entity {
                budget: line.budget,
                ..actor.entity
            },
            line: *line,
            nanos,
            is_open,
        };
        return LineChoice {
            extra_bw: later_extra(run, &charge, ahead),
            ..AS_SHOWN
        };
    }
    if line.speed.frequency.is_some() {
        return AS_SHOWN;
    }
    let unknown = UnknownSpeed {
        task,
        dl_runtime: actor.entity.parameters.dl_runtime,
        nanos,
    };
    LineChoice {
        cost: cost_told(run, line, unknown, ahead),
        ..AS_SHOWN
    }
}

/// The clock of a replenishment of a blocked task that came after the period it gave.
fn enqueued_choice(run: &Run, line: &Enqueued) -> LineChoice {
    let Some(number) = run.task_number(line.pid) else {
        return AS_SHOWN;
    };
    let actor = run.actor(number);
    let own = actor.entity.parameters;
    if !actor.entity.is_late
        || !actor.knows_budget
        || line.budget.runtime != own.dl_runtime.cast_signed()
    {
        return AS_SHOWN;
    }
    let clock = line.budget.deadline.wrapping_sub(own.dl_deadline);
    if actor.entity.budget.deadline < clock && clock <= line.clock {
        LineChoice {
            late: Some(clock),
            ..AS_SHOWN
        }
    } else {
        AS_SHOWN
    }
}

/// What is chosen for a line.
pub(crate) fn line_choice(
    run: &Run,
    rules: PlayRules,
    next: &ProbeLine,
    ahead: &VecDeque<ProbeLine>,
) -> LineChoice {
    match &next.probe {
        Probe::Updated(line) => updated_choice(run, rules, next, line, ahead),
        Probe::Enqueued(line) => enqueued_choice(run, line),
        _ => AS_SHOWN,
    }
}
