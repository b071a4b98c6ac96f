//! A task has run, is dequeued, leaves the class, ends, or asks for another reservation, with one rule changed.

ghost use Rattle.std.specs.Prelude.{◌≡◌, None};
ghost use Rattle.kernel_rules.specs.Spend.{spending_of};
ghost use Rattle.kernel_rules.specs.Dequeue.{dequeuing_of};
ghost use Rattle.kernel_rules.specs.Leave.{leaving_of};
ghost use Rattle.kernel_rules.specs.Timer.{fired_of};
ghost use Rattle.kernel_rules.specs.Admit.{admitting_of};
ghost use Rattle.kernel_rules.specs.Later.{locked_of};

use crate::change::RuleChange;
use kernel_rules::{
    Admission, Admitting, Arrival, Block, Delayed, Dequeuing, Entity, Fired, Leaving, Locked,
    Spending, SumsChange, admit, dequeue, leave, lock, spend, unchanged, zero_lag, zero_lag_fired,
};
use trace_data::{Admitted, Parameters};

pub(crate) fn with_period(entity: Entity, dl_period: u64) -> Entity {
    Entity {
        parameters: Parameters {
            dl_period,
            ..entity.parameters
        },
        ..entity
    }
}

fn changed_spend(change: RuleChange, entity: Entity, clock: u64, has_run: bool) -> Spending {
    match change {
        RuleChange::UntilDeadline => {
            let by = with_period(entity, entity.parameters.dl_deadline);
            let done = spend(by, clock, has_run);
            Spending {
                entity: with_period(done.entity, entity.parameters.dl_period),
                ..done
            }
        }
        _ => spend(entity, clock, has_run),
    }
}

/// What becomes of an entity that was charged at this clock.
pub fn spend_by(change: Option<RuleChange>, entity: Entity, clock: u64, has_run: bool) -> Spending
    ensures unchanged { change ≡ None → result ≡ spending_of entity clock has_run }
{
    match change {
        None => spend(entity, clock, has_run),
        Some(change) => changed_spend(change, entity, clock, has_run),
    }
}

/// The clock by which the wait for the 0-lag time is so many hundredths of what it is.
fn later(entity: Entity, clock: u64, hundredths: i64) -> u64 {
    let wait = zero_lag(entity, clock);
    let other = wait.wrapping_mul(hundredths).div_euclid(100);
    clock.wrapping_add(wait.wrapping_sub(other).cast_unsigned())
}

/// The entity by which a block reckons, and its clock.
fn blocks_by(change: RuleChange, entity: Entity) -> Entity {
    match change {
        RuleChange::ZeroLagByDeadline => with_period(entity, entity.parameters.dl_deadline),
        RuleChange::ZeroLagNever => Entity {
            has_inactive_timer: true,
            ..entity
        },
        _ => entity,
    }
}

fn blocks_at(change: RuleChange, entity: Entity, clock: u64) -> u64 {
    match change {
        RuleChange::ZeroLagShorter => later(entity, clock, 95),
        RuleChange::ZeroLagLonger => later(entity, clock, 101),
        _ => clock,
    }
}

/// The entity after such a block, with what it had itself.
fn own_again(change: RuleChange, before: Entity, after: Entity) -> Entity {
    match change {
        RuleChange::ZeroLagByDeadline => {
            if after.parameters.dl_runtime == 0 {
                after
            } else {
                with_period(after, before.parameters.dl_period)
            }
        }
        RuleChange::ZeroLagNever => Entity {
            has_inactive_timer: before.has_inactive_timer,
            ..after
        },
        _ => after,
    }
}

fn with_running(sums: SumsChange, bw: u64) -> SumsChange {
    SumsChange {
        running_bw: sums.running_bw.wrapping_add(bw),
        ..sums
    }
}

fn frees_nothing(sums: SumsChange) -> SumsChange {
    SumsChange {
        freed: None,
        ..sums
    }
}

pub(crate) fn moves(arrival: Arrival) -> bool {
    match arrival {
        Arrival::Moves => true,
        Arrival::Stays | Arrival::Restores => false,
    }
}

/// What a dequeue takes from the sums, where it leaves something in them.
fn left_in_sums(change: RuleChange, entity: Entity, done: Dequeuing) -> SumsChange {
    match change {
        RuleChange::MoveLeavesThis => {
            if moves(done.departure) {
                SumsChange {
                    this_bw: done.change.this_bw.wrapping_add(entity.dl_bw),
                    ..done.change
                }
            } else {
                done.change
            }
        }
        RuleChange::MoveLeavesRunning => {
            if moves(done.departure) {
                with_running(done.change, entity.dl_bw)
            } else {
                done.change
            }
        }
        RuleChange::PastRunsOn => {
            if matches!(done.block, Some(Block::Past)) && (entity.is_server || entity.is_in_class) {
                with_running(done.change, entity.dl_bw)
            } else {
                done.change
            }
        }
        _ => done.change,
    }
}

fn changed_dequeue(
    change: RuleChange,
    entity: Entity,
    flags: u64,
    on_rq: u64,
    clock: u64,
) -> Dequeuing {
    let by = blocks_by(change, entity);
    let done = dequeue(by, flags, on_rq, blocks_at(change, entity, clock));
    Dequeuing {
        entity: own_again(change, entity, done.entity),
        change: left_in_sums(change, entity, done),
        ..done
    }
}

/// What a dequeue with these DEQUEUE_ flags does, after the charge in it.
pub fn dequeue_by(
    change: Option<RuleChange>,
    entity: Entity,
    flags: u64,
    on_rq: u64,
    clock: u64,
) -> Dequeuing
    ensures unchanged { change ≡ None → result ≡ dequeuing_of entity flags on_rq clock }
{
    match change {
        None => dequeue(entity, flags, on_rq, clock),
        Some(change) => changed_dequeue(change, entity, flags, on_rq, clock),
    }
}

/// Leaving the class with no block.
fn left_at_once(entity: Entity) -> Leaving {
    Leaving {
        entity: Entity {
            is_in_class: false,
            is_queued: false,
            is_non_contending: false,
            ..entity
        },
        change: unchanged(),
        block: None,
    }
}

fn changed_leave(change: RuleChange, entity: Entity, on_rq: u64, clock: u64) -> Leaving {
    let by = blocks_by(change, entity);
    let done = leave(by, on_rq, blocks_at(change, entity, clock));
    match change {
        RuleChange::LeavesAtOnce => {
            if done.block.is_some() {
                left_at_once(entity)
            } else {
                done
            }
        }
        RuleChange::LeavingFreesNothing => {
            if entity.is_dead {
                done
            } else {
                Leaving {
                    change: frees_nothing(done.change),
                    ..done
                }
            }
        }
        _ => Leaving {
            entity: own_again(change, entity, done.entity),
            ..done
        },
    }
}

/// What leaving the class at this clock does.
pub fn leave_by(change: Option<RuleChange>, entity: Entity, on_rq: u64, clock: u64) -> Leaving
    ensures unchanged { change ≡ None → result ≡ leaving_of entity on_rq clock }
{
    match change {
        None => leave(entity, on_rq, clock),
        Some(change) => changed_leave(change, entity, on_rq, clock),
    }
}

fn changed_fired(change: RuleChange, entity: Entity) -> Fired {
    let done = zero_lag_fired(entity);
    match change {
        RuleChange::EndFreesNothing => Fired {
            freed: None,
            ..done
        },
        RuleChange::LeavingFreesNothing => {
            if entity.is_dead {
                done
            } else {
                Fired {
                    freed: None,
                    ..done
                }
            }
        }
        RuleChange::ServerRunsOn => {
            if entity.is_server {
                Fired {
                    stops: false,
                    ..done
                }
            } else {
                done
            }
        }
        _ => done,
    }
}

/// What the timer of the 0-lag time does.
pub fn fired_by(change: Option<RuleChange>, entity: Entity) -> Fired
    ensures unchanged { change ≡ None → result ≡ fired_of entity }
{
    match change {
        None => zero_lag_fired(entity),
        Some(change) => changed_fired(change, entity),
    }
}

fn changed_admit(change: RuleChange, entity: Entity, line: Admitted, room: u64) -> Admitting {
    let done = admit(entity, line, room);
    match change {
        RuleChange::AdmissionTakesNothing => {
            if matches!(done.admission, Admission::New | Admission::Back) {
                Admitting {
                    change: SumsChange {
                        taken: None,
                        ..done.change
                    },
                    ..done
                }
            } else {
                done
            }
        }
        RuleChange::ChangeFreesNothing => {
            if matches!(done.admission, Admission::Changed | Admission::Back) {
                Admitting {
                    change: frees_nothing(done.change),
                    ..done
                }
            } else {
                done
            }
        }
        _ => done,
    }
}

/// What a call does that asks for a reservation in a root domain with room for so much bandwidth.
pub fn admit_by(change: Option<RuleChange>, entity: Entity, line: Admitted, room: u64) -> Admitting
    ensures unchanged { change ≡ None → result ≡ admitting_of entity line room }
{
    match change {
        None => admit(entity, line, room),
        Some(change) => changed_admit(change, entity, line, room),
    }
}

/// What `inactive_task_timer` does once it has its lock.
fn changed_lock_at(change: RuleChange, entity: Entity) -> Locked {
    let done = lock(entity, Delayed::ZeroLag);
    match change {
        RuleChange::EndFreesNothing => Locked {
            change: frees_nothing(done.change),
            ..done
        },
        RuleChange::LeavingFreesNothing => {
            if entity.is_dead {
                done
            } else {
                Locked {
                    change: frees_nothing(done.change),
                    ..done
                }
            }
        }
        RuleChange::ServerRunsOn => {
            if entity.is_server {
                Locked {
                    entity,
                    change: unchanged(),
                }
            } else {
                done
            }
        }
        _ => done,
    }
}

fn changed_lock(change: RuleChange, entity: Entity, delayed: Delayed) -> Locked {
    match delayed {
        Delayed::Moved => lock(entity, Delayed::Moved),
        Delayed::ZeroLag => changed_lock_at(change, entity),
    }
}

/// What a function does once it has its lock.
pub fn lock_by(change: Option<RuleChange>, entity: Entity, delayed: Delayed) -> Locked
    ensures unchanged { change ≡ None → result ≡ locked_of entity delayed }
{
    match change {
        None => lock(entity, delayed),
        Some(change) => changed_lock(change, entity, delayed),
    }
}
