//! A replenishment, with one rule changed.

ghost use Rattle.std.specs.Prelude.{◌≡◌, None};
ghost use Rattle.kernel_rules.specs.Timer.{replenish_fired_of};

use crate::change::RuleChange;
use kernel_rules::{Entity, is_before, recharges, renewed, replenish_fired, served_by};
use trace_data::Budget;

/// The entity with another budget and deadline.
pub(crate) fn with_budget(entity: Entity, runtime: i64, deadline: u64) -> Entity {
    Entity {
        budget: Budget {
            runtime,
            deadline,
            ..entity.budget
        },
        ..entity
    }
}

/// The entity with this taken for what is left of its budget.
pub(crate) fn with_left(change: RuleChange, entity: Entity) -> Entity {
    let budget = entity.budget;
    match change {
        RuleChange::BudgetSet => {
            if budget.runtime < 0 {
                with_budget(entity, 0, budget.deadline)
            } else {
                entity
            }
        }
        RuleChange::YieldKeeps => {
            if budget.runtime > 0 {
                Entity {
                    budget: Budget {
                        is_yielded: false,
                        ..budget
                    },
                    ..entity
                }
            } else {
                entity
            }
        }
        _ => entity,
    }
}

/// What of the budget is left: a yield gives up all of it.
fn left(entity: Entity) -> i64 {
    if entity.budget.is_yielded && entity.budget.runtime > 0 {
        0
    } else {
        entity.budget.runtime
    }
}

/// The entity with one runtime and one period more, where its budget is used up or given up.
pub(crate) fn recharged_once(entity: Entity) -> Entity {
    let serving = served_by(entity);
    let budget = left(entity);
    let times = recharges(budget, serving.dl_runtime).min(1);
    let more = times.wrapping_mul(serving.dl_runtime);
    Entity {
        budget: Budget {
            runtime: budget.wrapping_add(more.cast_signed()),
            deadline: entity
                .budget
                .deadline
                .wrapping_add(times.wrapping_mul(serving.dl_period)),
            ..entity.budget
        },
        ..entity
    }
}

/// The entity neither throttled nor yielded.
fn ready(entity: Entity) -> Entity {
    Entity {
        budget: Budget {
            is_throttled: false,
            is_yielded: false,
            ..entity.budget
        },
        ..entity
    }
}

/// The entity after a replenishment of one period at this clock.
pub(crate) fn replenished_once(entity: Entity, clock: u64) -> Entity {
    let recharged = recharged_once(entity);
    if is_before(recharged.budget.deadline, clock) {
        ready(renewed(recharged, clock))
    } else {
        ready(recharged)
    }
}

/// Whether the timer of the replenishment finds it blocked.
fn is_blocked(entity: Entity) -> bool {
    entity.is_in_class && entity.budget.is_throttled && !entity.is_queued && entity.donor.is_none()
}

/// The entity whose timer of the replenishment is no more armed.
fn disarmed(entity: Entity) -> Entity {
    Entity {
        has_deadline_timer: false,
        ..entity
    }
}

/// What the timer of a replenishment finds.
fn found(change: RuleChange, entity: Entity) -> Entity {
    if is_blocked(entity) {
        with_left(change, entity)
    } else {
        entity
    }
}

fn changed_fired(change: RuleChange, entity: Entity) -> Entity {
    match change {
        RuleChange::BudgetSet => replenish_fired(found(RuleChange::BudgetSet, entity)),
        RuleChange::YieldKeeps => replenish_fired(found(RuleChange::YieldKeeps, entity)),
        RuleChange::BlockedStays => {
            if is_blocked(entity) {
                Entity {
                    is_late: true,
                    ..disarmed(entity)
                }
            } else {
                replenish_fired(entity)
            }
        }
        RuleChange::OnePeriod => {
            if is_blocked(entity) {
                Entity {
                    is_late: true,
                    ..ready(recharged_once(disarmed(entity)))
                }
            } else {
                replenish_fired(entity)
            }
        }
        _ => replenish_fired(entity),
    }
}

/// The entity after its timer of the replenishment fired.
pub fn replenish_fired_by(change: Option<RuleChange>, entity: Entity) -> Entity
    ensures unchanged { change ≡ None → result ≡ replenish_fired_of entity }
{
    match change {
        None => replenish_fired(entity),
        Some(change) => changed_fired(change, entity),
    }
}
