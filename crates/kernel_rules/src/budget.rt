//! Budget and deadline: at a wake, at a replenishment, at a charge.

ghost use Rattle.std.specs.Prelude.{◌≡◌};
ghost use Rattle.kernel_rules.specs.Budget.{renewed_of, overflows_of, waking_of, woken_of, recharges_of, left_of, recharged_of, ready_of, replenished_of, replenished_blocked_of, timer_is_ahead, charged_of};

use crate::charge::ChargeLaw;
use crate::clock::{is_before, ratio};
use crate::entity::Entity;
use crate::reservation::served_by;
use trace_data::Budget;

/// What a wake does to budget and deadline.
#[derive(Clone, Copy, PartialEq, Eq)]
pub enum Wake {
    /// Both are kept.
    Kept,

    /// The budget is what the reservation gives until the deadline.
    Revised,

    /// A new period begins.
    Renewed,
}

/// The entity at the begin of a new period (`replenish_dl_new_period`).
#[tactic(auto, unfolding(crate::specs::Budget::renewed_of))]
pub fn renewed(entity: Entity, clock: u64) -> Entity
    ensures { result ≡ renewed_of entity clock }
{
    let serving = served_by(entity);
    Entity {
        budget: Budget {
            runtime: serving.dl_runtime.cast_signed(),
            deadline: clock.wrapping_add(serving.dl_deadline),
            ..entity.budget
        },
        ..entity
    }
}

/// Whether the budget until the deadline is more than the reservation gives (`dl_entity_overflow`).
#[tactic(auto, unfolding(crate::specs::Budget::overflows_of))]
pub fn overflows(law: ChargeLaw, entity: Entity, clock: u64) -> bool
    ensures { result ≡ overflows_of law entity clock }
{
    let serving = served_by(entity);
    let budget = entity.budget.runtime;
    let span = entity.budget.deadline.wrapping_sub(clock);
    match law {
        ChargeLaw::LinuxBefore65 | ChargeLaw::LinuxFrom65 => {
            let left = (serving.dl_deadline >> 10).wrapping_mul((budget >> 10).cast_unsigned());
            let right = (span >> 10).wrapping_mul(serving.dl_runtime >> 10);
            is_before(right, left)
        }
        ChargeLaw::Documentation => {
            budget > 0
                && u128::from(span) * u128::from(serving.dl_runtime)
                    < u128::from(budget.cast_unsigned()) * u128::from(serving.dl_deadline)
        }
    }
}

/// What a wake at this clock does (`update_dl_entity`).
#[tactic(auto, unfolding(crate::specs::Budget::waking_of))]
pub fn waking(law: ChargeLaw, entity: Entity, clock: u64) -> Wake
    ensures { result ≡ waking_of law entity clock }
{
    if is_before(entity.budget.deadline, clock) {
        return Wake::Renewed;
    }
    if !overflows(law, entity, clock) {
        return Wake::Kept;
    }
    let is_constrained = entity.parameters.dl_deadline != entity.parameters.dl_period;
    if is_constrained && entity.donor.is_none() {
        Wake::Revised
    } else {
        Wake::Renewed
    }
}

/// The entity after such a wake (`update_dl_entity`, `update_dl_revised_wakeup`).
#[tactic(auto, unfolding(crate::specs::Budget::revised_of))]
pub fn woken(entity: Entity, clock: u64, wake: Wake) -> Entity
    ensures { result ≡ woken_of entity clock wake }
{
    match wake {
        Wake::Kept => entity,
        Wake::Revised => {
            let parameters = entity.parameters;
            let density = ratio(parameters.dl_runtime, parameters.dl_deadline);
            let laxity = entity.budget.deadline.wrapping_sub(clock);
            Entity {
                budget: Budget {
                    runtime: (density.wrapping_mul(laxity) >> 20).cast_signed(),
                    ..entity.budget
                },
                ..entity
            }
        }
        Wake::Renewed => renewed(entity, clock),
    }
}

/// How many runtimes bring a budget above 0, at least; none where the runtime is 0.
pub fn recharges(budget: i64, runtime: u64) -> u64
    ensures { result ≡ recharges_of budget runtime }
{
    if budget > 0 || runtime == 0 {
        0
    } else {
        budget.unsigned_abs() / runtime + 1
    }
}

/// What of the budget is left: a yield gives up all of it.
fn left(entity: Entity) -> i64
    ensures { result ≡ left_of entity }
{
    if entity.budget.is_yielded && entity.budget.runtime > 0 {
        0
    } else {
        entity.budget.runtime
    }
}

/// The entity with as many runtimes more as bring its budget above 0, and as many periods; a yield has first given up what was left.
#[tactic(auto, unfolding(crate::specs::Budget::recharged_of))]
pub fn recharged(entity: Entity) -> Entity
    ensures { result ≡ recharged_of entity }
{
    let serving = served_by(entity);
    let budget = left(entity);
    let times = recharges(budget, serving.dl_runtime);
    let more = times.wrapping_mul(serving.dl_runtime);
    Entity {
        budget: Budget {
            runtime: budget.wrapping_add(more.cast_signed()),
            deadline: entity
                .budget
                .deadline
                .wrapping_add(times.wrapping_mul(serving.dl_period)),
            ..entity.budget
        },
        ..entity
    }
}

/// The entity neither throttled nor yielded.
fn ready(entity: Entity) -> Entity
    ensures { result ≡ ready_of entity }
{
    Entity {
        budget: Budget {
            is_throttled: false,
            is_yielded: false,
            ..entity.budget
        },
        ..entity
    }
}

/// The entity after a replenishment (`replenish_dl_entity`).
#[tactic(auto, unfolding(crate::specs::Budget::replenished_of))]
pub fn replenished(entity: Entity, clock: u64) -> Entity
    ensures { result ≡ replenished_of entity clock }
{
    let begun = if entity.parameters.dl_deadline == 0 {
        renewed(entity, clock)
    } else {
        entity
    };
    let recharged = recharged(begun);
    let punctual = if is_before(recharged.budget.deadline, clock) {
        renewed(recharged, clock)
    } else {
        recharged
    };
    ready(punctual)
}

/// The entity after a replenishment whose clock is not known, and which is taken to be in time.
#[tactic(auto, unfolding(crate::specs::Budget::replenished_blocked_of))]
pub fn replenished_blocked(entity: Entity) -> Entity
    ensures { result ≡ replenished_blocked_of entity }
{
    ready(recharged(entity))
}

/// Whether the next period is still to come, so that a timer can wait for it (`start_dl_timer`): it may be a microsecond past.
pub fn has_timer_ahead(entity: Entity, clock: u64) -> bool
    ensures { result ≡ timer_is_ahead entity clock }
{
    let parameters = entity.parameters;
    let next = entity
        .budget
        .deadline
        .wrapping_sub(parameters.dl_deadline)
        .wrapping_add(parameters.dl_period);
    next.wrapping_sub(clock).cast_signed() > -1000
}

/// The entity after a charge (`update_curr_dl_se`).
#[tactic(auto, unfolding(crate::specs::Budget::charged_of))]
pub fn charged(entity: Entity, cost: u64) -> Entity
    ensures { result ≡ charged_of entity cost }
{
    Entity {
        budget: Budget {
            runtime: entity.budget.runtime.wrapping_sub(cost.cast_signed()),
            ..entity.budget
        },
        ..entity
    }
}
