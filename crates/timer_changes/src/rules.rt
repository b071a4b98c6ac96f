//! What a line of a record does to a task, with one rule changed.

use kernel_changes::{RuleChange, cost_by, enqueue_by};
use kernel_rules::{
    ChargeLaw, ChargedRunqueue, Entity, QUEUED, REPLENISH, WAKEUP, charged, replenished, waking,
    woken, zero_lag,
};
use timer_tasks::{
    DeadlineTask, ObservedAnswer, Throttling, Waking, answer_of, block_moments, is_awake,
    is_tested, refills, replenish_moments, throttled,
};
use trace_data::{Budget, Donor, Enqueued, Parameters, Sums};

/// A number that stands for an entity's address.
const OWN: u64 = 1;

/// The entity is enqueued by itself with these ENQUEUE_ flags.
fn line_of(entity: Entity, flags: u64, clock: u64) -> Enqueued {
    Enqueued {
        pid: 0,
        cpu: 0,
        flags,
        clock,
        budget: entity.budget,
        is_non_contending: false,
        parameters: entity.parameters,
        on_rq: QUEUED,
        normal_prio: -1,
        entity: OWN,
        served_by: OWN,
        donor: Donor {
            dl_runtime: 0,
            dl_deadline: 0,
            dl_period: 0,
        },
        sums: Sums {
            this_bw: 0,
            running_bw: 0,
            extra_bw: 0,
        },
    }
}

/// The entity with another budget, after an enqueue with these flags.
fn enqueued(change: RuleChange, law: ChargeLaw, entity: Entity, flags: u64, clock: u64) -> Entity {
    let done = enqueue_by(Some(change), law, entity, line_of(entity, flags, clock));
    Entity {
        budget: done.entity.budget,
        ..entity
    }
}

/// The task after a wake, whose state before was this one: where the kernel's test was made, by the changed rule.
pub(crate) fn woken_by(
    change: RuleChange,
    law: ChargeLaw,
    before: DeadlineTask,
    after: DeadlineTask,
    did: Waking,
    clock: u64,
) -> DeadlineTask {
    if is_tested(did) {
        DeadlineTask {
            entity: enqueued(change, law, before.entity, WAKEUP, clock),
            ..after
        }
    } else {
        after
    }
}

/// The task after a move to another CPU, which is a wake.
pub(crate) fn moved_by(law: ChargeLaw, task: DeadlineTask, at: u64) -> DeadlineTask {
    if task.entity.is_in_class && is_awake(task.activity) && !task.entity.budget.is_throttled {
        let wake = waking(law, task.entity, at);
        DeadlineTask {
            entity: woken(task.entity, at, wake),
            ..task
        }
    } else {
        task
    }
}

/// The entity after a replenishment at this moment.
fn replenished_by(change: RuleChange, law: ChargeLaw, entity: Entity, at: u64) -> Entity {
    match change {
        RuleChange::BudgetSet => enqueued(RuleChange::BudgetSet, law, entity, REPLENISH, at),
        RuleChange::OnePeriod => enqueued(RuleChange::OnePeriod, law, entity, REPLENISH, at),
        RuleChange::YieldKeeps => enqueued(RuleChange::YieldKeeps, law, entity, REPLENISH, at),
        _ => replenished(entity, at),
    }
}

/// The task after its `dl_task_timer` fires at this moment.
pub(crate) fn fired_by(
    change: RuleChange,
    law: ChargeLaw,
    task: DeadlineTask,
    at: u64,
) -> DeadlineTask {
    DeadlineTask {
        entity: if task.entity.budget.is_throttled {
            replenished_by(change, law, task.entity, at)
        } else {
            task.entity
        },
        ..task
    }
}

/// The task after a budget that was used up is filled at once, since no timer was started for it.
pub(crate) fn refilled_by(change: RuleChange, law: ChargeLaw, task: DeadlineTask) -> DeadlineTask {
    DeadlineTask {
        entity: if refills(task) {
            replenished_by(change, law, task.entity, task.exceeded.unwrap_or(0))
        } else {
            task.entity
        },
        exceeded: None,
        ..task
    }
}

/// The task after a charge at this moment that takes this from its budget.
fn spent(task: DeadlineTask, at: u64, cost: u64) -> DeadlineTask {
    let after = DeadlineTask {
        entity: charged(task.entity, cost),
        ..task
    };
    if after.entity.budget.runtime > 0 {
        after
    } else {
        DeadlineTask {
            exceeded: Some(at),
            ..throttled(after, Throttling::UsedUp)
        }
    }
}

/// The task after a charge at this moment, by the changed rule.
pub(crate) fn ran_by(
    change: RuleChange,
    law: ChargeLaw,
    task: DeadlineTask,
    at: u64,
    nanos: u64,
    runqueue: ChargedRunqueue,
) -> DeadlineTask {
    spent(
        task,
        at,
        cost_by(Some(change), law, task.entity, runqueue, nanos),
    )
}

fn with_period(task: DeadlineTask, dl_period: u64) -> DeadlineTask {
    DeadlineTask {
        entity: Entity {
            parameters: Parameters {
                dl_period,
                ..task.entity.parameters
            },
            ..task.entity
        },
        ..task
    }
}

/// The task whose 0-lag time, from its last charge on, is so many hundredths of what it is; at a block of this moment.
fn with_wait(task: DeadlineTask, at: u64, hundredths: i64) -> DeadlineTask {
    let wait = zero_lag(task.entity, task.charged.unwrap_or(at));
    let other = wait.wrapping_mul(hundredths).div_euclid(100);
    let deadline = task
        .entity
        .budget
        .deadline
        .wrapping_sub(wait.wrapping_sub(other).cast_unsigned());
    DeadlineTask {
        entity: Entity {
            budget: Budget {
                deadline,
                ..task.entity.budget
            },
            ..task.entity
        },
        ..task
    }
}

/// The task by which the 0-lag time of a block at this moment is reckoned; none where the rule of blocks is not changed.
fn blocks_as(change: RuleChange, task: DeadlineTask, at: u64) -> Option<DeadlineTask> {
    match change {
        RuleChange::ZeroLagByDeadline => {
            Some(with_period(task, task.entity.parameters.dl_deadline))
        }
        RuleChange::ZeroLagShorter => Some(with_wait(task, at, 95)),
        RuleChange::ZeroLagLonger => Some(with_wait(task, at, 101)),
        _ => None,
    }
}

/// How far the 0-lag time of a block at this moment is from the kernel's, where the changed rule gives it.
pub(crate) fn block_difference(change: RuleChange, task: DeadlineTask, at: u64) -> Option<i64> {
    if change == RuleChange::ZeroLagNever {
        return Some(if task.armed.is_some() { i64::MAX } else { 0 });
    }
    let other = blocks_as(change, task, at)?;
    Some(block_moments(other, at).difference)
}

/// What a replenishment timer comes to that is started at this moment, where the changed rule gives its own.
pub(crate) fn start_answer(
    change: RuleChange,
    task: DeadlineTask,
    at: u64,
    expires: u64,
    within: u64,
) -> Option<ObservedAnswer> {
    if change != RuleChange::UntilDeadline {
        return None;
    }
    let other = with_period(task, task.entity.parameters.dl_deadline);
    let moments = replenish_moments(other, at, expires);
    Some(answer_of(task.knowledge, moments.difference, within))
}
