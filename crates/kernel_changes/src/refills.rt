//! What a wake does to budget and deadline, with one rule changed.

use crate::change::RuleChange;
use crate::replenishments::with_budget;
use kernel_rules::{ChargeLaw, Entity, Wake, is_before, overflows, served_by, waking, woken};
use trace_data::{Donor, Parameters};

/// A millisecond, as the kernel's shifts have it.
const EARLY: u64 = 1 << 20;

/// The entity with the period in place of the deadline, its own and its donor's.
fn with_deadline_as_period(entity: Entity) -> Entity {
    Entity {
        parameters: Parameters {
            dl_deadline: entity.parameters.dl_period,
            ..entity.parameters
        },
        donor: match entity.donor {
            Some(donor) => Some(Donor {
                dl_deadline: donor.dl_period,
                ..donor
            }),
            None => None,
        },
        ..entity
    }
}

/// Whether the budget until the deadline is less than the reservation gives.
fn underflows(entity: Entity, clock: u64) -> bool {
    let serving = served_by(entity);
    let budget = entity.budget.runtime;
    let span = entity.budget.deadline.wrapping_sub(clock);
    let left = (serving.dl_deadline >> 10).wrapping_mul((budget >> 10).cast_unsigned());
    let right = (span >> 10).wrapping_mul(serving.dl_runtime >> 10);
    is_before(left, right)
}

/// The answer of a wake whose test says that there is too much, or not.
fn wake_for(entity: Entity, clock: u64, is_too_much: bool) -> Wake {
    if is_before(entity.budget.deadline, clock) {
        return Wake::Renewed;
    }
    if !is_too_much {
        return Wake::Kept;
    }
    let is_constrained = entity.parameters.dl_deadline != entity.parameters.dl_period;
    if is_constrained && entity.donor.is_none() {
        Wake::Revised
    } else {
        Wake::Renewed
    }
}

fn not_revised(wake: Wake) -> Wake {
    match wake {
        Wake::Revised => Wake::Renewed,
        Wake::Kept => Wake::Kept,
        Wake::Renewed => Wake::Renewed,
    }
}

/// What a wake does to this entity.
pub(crate) fn changed_waking(
    change: RuleChange,
    law: ChargeLaw,
    entity: Entity,
    clock: u64,
) -> Wake {
    match change {
        RuleChange::WakeTurned => wake_for(entity, clock, underflows(entity, clock)),
        RuleChange::WakeByPeriod => wake_for(
            entity,
            clock,
            overflows(law, with_deadline_as_period(entity), clock),
        ),
        RuleChange::WakeNotRevised => not_revised(waking(law, entity, clock)),
        RuleChange::WakeRenews => wake_for(entity, clock, true),
        RuleChange::WakeEarly => {
            let is_early = is_before(entity.budget.deadline, clock.wrapping_add(EARLY));
            wake_for(entity, clock, is_early || overflows(law, entity, clock))
        }
        _ => waking(law, entity, clock),
    }
}

/// The entity after a wake that revises its budget by the bandwidth.
fn revised_by_bandwidth(entity: Entity, clock: u64) -> Entity {
    let by = woken(with_deadline_as_period(entity), clock, Wake::Revised);
    with_budget(entity, by.budget.runtime, by.budget.deadline)
}

/// The entity after such a wake.
pub(crate) fn changed_woken(change: RuleChange, entity: Entity, clock: u64, wake: Wake) -> Entity {
    match change {
        RuleChange::WakeByBandwidth => match wake {
            Wake::Revised => revised_by_bandwidth(entity, clock),
            Wake::Kept => woken(entity, clock, Wake::Kept),
            Wake::Renewed => woken(entity, clock, Wake::Renewed),
        },
        _ => woken(entity, clock, wake),
    }
}
