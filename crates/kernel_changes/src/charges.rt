//! What a run takes from a budget, with one rule changed.

ghost use Rattle.std.specs.Prelude.{◌≡◌, None};
ghost use Rattle.kernel_rules.specs.Charge.{charging_of, cost_of};

use crate::change::RuleChange;
use kernel_rules::{BW_UNIT, Charge, ChargeLaw, ChargedRunqueue, Entity, RECLAIM, charging, cost};
use trace_data::{Parameters, Sums};

/// `max_bw` where a line of an older kernel has none: 95 % of a processor.
const USUAL_MAX_BW: u64 = 996_147;

/// What a charge is reckoned from.
#[derive(Clone, Copy)]
struct Reckoned {
    law: ChargeLaw,
    entity: Entity,
    runqueue: ChargedRunqueue,
}

fn with_sums(runqueue: ChargedRunqueue, this_bw: u64, extra_bw: u64) -> ChargedRunqueue {
    ChargedRunqueue {
        sums: Sums {
            this_bw,
            extra_bw,
            ..runqueue.sums
        },
        ..runqueue
    }
}

fn with_flags(entity: Entity, flags: u64) -> Entity {
    Entity {
        parameters: Parameters {
            flags,
            ..entity.parameters
        },
        ..entity
    }
}

fn top(law: ChargeLaw, runqueue: ChargedRunqueue) -> u64 {
    match law {
        ChargeLaw::LinuxBefore65 => BW_UNIT,
        ChargeLaw::LinuxFrom65 | ChargeLaw::Documentation => runqueue.max_bw,
    }
}

/// The runqueue with no more inactive bandwidth than what `extra_bw` leaves.
fn left_alone(law: ChargeLaw, entity: Entity, runqueue: ChargedRunqueue) -> ChargedRunqueue {
    let sums = runqueue.sums;
    let inactive = sums.this_bw.wrapping_sub(sums.running_bw);
    let most = top(law, runqueue).saturating_sub(sums.extra_bw);
    with_sums(
        runqueue,
        sums.running_bw.wrapping_add(inactive.min(most)),
        sums.extra_bw,
    )
}

fn changed_runqueue(
    change: RuleChange,
    law: ChargeLaw,
    entity: Entity,
    runqueue: ChargedRunqueue,
) -> ChargedRunqueue {
    let sums = runqueue.sums;
    let running = sums.running_bw;
    match change {
        RuleChange::InactiveIsRunning => {
            with_sums(runqueue, running.wrapping_add(running), sums.extra_bw)
        }
        RuleChange::WithoutExtra => with_sums(runqueue, sums.this_bw, 0),
        RuleChange::WithoutInactive => with_sums(runqueue, running, sums.extra_bw),
        RuleChange::ItselfInactive => with_sums(
            runqueue,
            sums.this_bw.wrapping_add(entity.dl_bw),
            sums.extra_bw,
        ),
        RuleChange::OwnBandwidth => with_sums(runqueue, running.wrapping_sub(1), 0),
        RuleChange::WhatIsLeft => left_alone(law, entity, runqueue),
        RuleChange::RatioPlusOne => ChargedRunqueue {
            bw_ratio: runqueue.bw_ratio.wrapping_add(1),
            ..runqueue
        },
        RuleChange::EquationFrom65 => ChargedRunqueue {
            max_bw: if runqueue.max_bw == 0 {
                USUAL_MAX_BW
            } else {
                runqueue.max_bw
            },
            ..runqueue
        },
        _ => runqueue,
    }
}

fn changed_entity(change: RuleChange, entity: Entity) -> Entity {
    let flags = entity.parameters.flags;
    match change {
        RuleChange::InFull => with_flags(entity, flags & !RECLAIM),
        RuleChange::FlagIgnored => with_flags(entity, flags | RECLAIM),
        RuleChange::WhatIsLeft => Entity { dl_bw: 0, ..entity },
        _ => entity,
    }
}

fn changed_law(change: RuleChange, law: ChargeLaw) -> ChargeLaw {
    match change {
        RuleChange::EquationBefore65 => ChargeLaw::LinuxBefore65,
        RuleChange::EquationFrom65 => ChargeLaw::LinuxFrom65,
        _ => law,
    }
}

fn reckon(
    change: RuleChange,
    law: ChargeLaw,
    entity: Entity,
    runqueue: ChargedRunqueue,
) -> Reckoned {
    Reckoned {
        law: changed_law(change, law),
        entity: changed_entity(change, entity),
        runqueue: changed_runqueue(change, law, entity, runqueue),
    }
}

/// How a run is charged.
pub fn charging_by(
    change: Option<RuleChange>,
    law: ChargeLaw,
    entity: Entity,
    runqueue: ChargedRunqueue,
) -> Charge
    ensures unchanged { change ≡ None → result ≡ charging_of law entity runqueue }
{
    match change {
        None => charging(law, entity, runqueue),
        Some(change) => {
            let by = reckon(change, law, entity, runqueue);
            charging(by.law, by.entity, by.runqueue)
        }
    }
}

/// What a run of `nanos` takes from the budget.
pub fn cost_by(
    change: Option<RuleChange>,
    law: ChargeLaw,
    entity: Entity,
    runqueue: ChargedRunqueue,
    nanos: u64,
) -> u64
    ensures unchanged { change ≡ None → result ≡ cost_of law entity runqueue nanos }
{
    match change {
        None => cost(law, entity, runqueue, nanos),
        Some(change) => {
            let by = reckon(change, law, entity, runqueue);
            cost(by.law, by.entity, by.runqueue, nanos)
        }
    }
}
