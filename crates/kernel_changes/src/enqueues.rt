//! A task is enqueued, with one rule changed.

ghost use Rattle.std.specs.Prelude.{◌≡◌, None};
ghost use Rattle.kernel_rules.specs.Enqueue.{enqueuing_of};

use crate::change::RuleChange;
use crate::departures::{moves, with_period};
use crate::refills::{changed_waking, changed_woken};
use crate::replenishments::{replenished_once, with_budget, with_left};
use kernel_rules::{
    ChargeLaw, Contention, Enqueuing, Entity, MIGRATED, REPLENISH, Refill, SumsChange, enqueue, has,
};
use trace_data::Enqueued;

/// The entity that it leaves, with the budget that it had.
fn before_refill(entity: Entity, done: Enqueuing) -> Entity {
    with_budget(done.entity, entity.budget.runtime, entity.budget.deadline)
}

/// An enqueue that never throttles a constrained task.
fn never_constrained(law: ChargeLaw, entity: Entity, line: Enqueued) -> Enqueuing {
    let by = with_period(entity, entity.parameters.dl_deadline);
    let done = enqueue(law, by, line);
    Enqueuing {
        entity: Entity {
            parameters: entity.parameters,
            ..done.entity
        },
        ..done
    }
}

/// The same enqueue, where it is a wake by the changed rule.
fn rewoken(
    change: RuleChange,
    law: ChargeLaw,
    entity: Entity,
    clock: u64,
    done: Enqueuing,
) -> Enqueuing {
    let before = before_refill(entity, done);
    let wake = changed_waking(change, law, before, clock);
    Enqueuing {
        entity: changed_woken(change, before, clock, wake),
        refill: Refill::Wakes(wake),
        ..done
    }
}

fn waking_by(
    change: RuleChange,
    law: ChargeLaw,
    entity: Entity,
    line: Enqueued,
    done: Enqueuing,
) -> Enqueuing {
    if matches!(done.refill, Refill::Wakes(_)) {
        rewoken(change, law, entity, line.clock, done)
    } else {
        done
    }
}

/// A replenishment of one period, by the donor that serves it now.
fn of_one_period(entity: Entity, line: Enqueued, done: Enqueuing) -> Enqueuing {
    let served = Entity {
        donor: done.entity.donor,
        ..entity
    };
    let by = replenished_once(served, line.clock);
    if matches!(done.refill, Refill::Replenishes) && entity.parameters.dl_deadline != 0 {
        Enqueuing {
            entity: with_budget(done.entity, by.budget.runtime, by.budget.deadline),
            ..done
        }
    } else {
        done
    }
}

/// What an enqueue finds that may replenish.
fn found(change: RuleChange, entity: Entity, line: Enqueued) -> Entity {
    if has(line.flags, REPLENISH) {
        with_left(change, entity)
    } else {
        entity
    }
}

/// What is another after the kernel's enqueue.
fn after_enqueue(
    change: RuleChange,
    law: ChargeLaw,
    entity: Entity,
    line: Enqueued,
    done: Enqueuing,
) -> Enqueuing {
    match change {
        RuleChange::NotConstrained => {
            if done.is_constrained {
                never_constrained(law, entity, line)
            } else {
                done
            }
        }
        RuleChange::UntilDeadline => {
            let late = line.clock.wrapping_sub(entity.budget.deadline);
            if done.is_constrained && late.cast_signed() >= 1000 {
                never_constrained(law, entity, line)
            } else {
                done
            }
        }
        RuleChange::WakeTurned => waking_by(RuleChange::WakeTurned, law, entity, line, done),
        RuleChange::WakeByPeriod => waking_by(RuleChange::WakeByPeriod, law, entity, line, done),
        RuleChange::WakeNotRevised => {
            waking_by(RuleChange::WakeNotRevised, law, entity, line, done)
        }
        RuleChange::WakeByBandwidth => {
            waking_by(RuleChange::WakeByBandwidth, law, entity, line, done)
        }
        RuleChange::WakeRenews => waking_by(RuleChange::WakeRenews, law, entity, line, done),
        RuleChange::WakeEarly => waking_by(RuleChange::WakeEarly, law, entity, line, done),
        RuleChange::MoveWakes => {
            if moves(done.arrival) && !matches!(done.refill, Refill::Wakes(_) | Refill::Waits) {
                rewoken(RuleChange::MoveWakes, law, entity, line.clock, done)
            } else {
                done
            }
        }
        RuleChange::RestoreStays => {
            if matches!(done.refill, Refill::Restarts) {
                Enqueuing {
                    entity: before_refill(entity, done),
                    refill: Refill::Stays,
                    ..done
                }
            } else {
                done
            }
        }
        RuleChange::TimerStays => {
            if matches!(done.contention, Some(Contention::StillRuns)) {
                Enqueuing {
                    entity: Entity {
                        has_inactive_timer: entity.has_inactive_timer,
                        ..done.entity
                    },
                    ..done
                }
            } else {
                done
            }
        }
        RuleChange::WakeElsewhereAddsNothing => {
            if matches!(
                done.contention,
                Some(Contention::StillRuns | Contention::RunsAgain)
            ) && has(line.flags, MIGRATED)
            {
                Enqueuing {
                    change: SumsChange {
                        this_bw: done.change.this_bw.wrapping_sub(entity.dl_bw),
                        ..done.change
                    },
                    ..done
                }
            } else {
                done
            }
        }
        RuleChange::OnePeriod => of_one_period(entity, line, done),
        _ => done,
    }
}

fn changed_enqueue(
    change: RuleChange,
    law: ChargeLaw,
    entity: Entity,
    line: Enqueued,
) -> Enqueuing {
    let done = enqueue(law, found(change, entity, line), line);
    after_enqueue(change, law, entity, line, done)
}

/// What an enqueue does to an entity that has the values of the line.
pub fn enqueue_by(
    change: Option<RuleChange>,
    law: ChargeLaw,
    entity: Entity,
    line: Enqueued,
) -> Enqueuing
    ensures unchanged { change ≡ None → result ≡ enqueuing_of law entity line }
{
    match change {
        None => enqueue(law, entity, line),
        Some(change) => changed_enqueue(change, law, entity, line),
    }
}
