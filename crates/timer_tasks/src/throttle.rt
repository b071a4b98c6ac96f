//! Why a task waits for its next period.

ghost use Rattle.std.specs.Prelude.{◌≡◌};
ghost use Rattle.timer_tasks.specs.Throttle.{has_budget_of, held_back_by, held_of, is_constrained_of, throttling_by, waiting_of, yielded_of};

use crate::activity::is_awake;
use crate::task::DeadlineTask;
use kernel_rules::{Entity, is_before};
use trace_data::Budget;

/// Why a replenishment timer is started.
#[derive(Clone, Copy)]
pub enum Throttling {
    /// The budget is used up.
    UsedUp,

    /// The deadline is over before the next period begins (`dl_check_constrained_dl`).
    Waits,

    /// sched_yield(2).
    Yields,

    /// The record does not tell.
    Untold,
}

/// Whether a budget is above 0.
pub(crate) fn has_budget(entity: Entity) -> bool
    ensures { result ≡ has_budget_of entity }
{
    entity.budget.runtime > 0
}

/// Whether a deadline is not the end of its period.
pub(crate) fn is_constrained(entity: Entity) -> bool
    ensures { result ≡ is_constrained_of entity }
{
    entity.parameters.dl_deadline != entity.parameters.dl_period
}

/// Why a task's replenishment timer is started at this moment.
pub fn throttling_of(task: DeadlineTask, at: u64) -> Throttling
    ensures { result ≡ throttling_by task at }
{
    if !has_budget(task.entity) {
        Throttling::UsedUp
    } else if is_constrained(task.entity) && is_before(task.entity.budget.deadline, at) {
        Throttling::Waits
    } else if is_awake(task.activity) {
        Throttling::Yields
    } else {
        Throttling::Untold
    }
}

/// The entity, throttled.
pub(crate) fn held(entity: Entity) -> Entity
    ensures { result ≡ held_of entity }
{
    Entity {
        budget: Budget {
            is_throttled: true,
            ..entity.budget
        },
        ..entity
    }
}

/// The entity as it waits for its next period, without what was left of its budget.
pub(crate) fn waiting(entity: Entity) -> Entity
    ensures { result ≡ waiting_of entity }
{
    Entity {
        budget: Budget {
            runtime: entity.budget.runtime.min(0),
            is_throttled: true,
            ..entity.budget
        },
        ..entity
    }
}

/// The entity after sched_yield(2).
fn yielded(entity: Entity) -> Entity
    ensures { result ≡ yielded_of entity }
{
    Entity {
        budget: Budget {
            is_throttled: true,
            is_yielded: true,
            ..entity.budget
        },
        ..entity
    }
}

/// The entity that waits for its next period for this reason.
pub(crate) fn held_back(entity: Entity, throttling: Throttling) -> Entity
    ensures { result ≡ held_back_by entity throttling }
{
    match throttling {
        Throttling::UsedUp => held(entity),
        Throttling::Waits => waiting(entity),
        Throttling::Yields => yielded(entity),
        Throttling::Untold => entity,
    }
}
