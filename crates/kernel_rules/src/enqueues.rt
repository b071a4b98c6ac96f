//! A task is enqueued (`enqueue_task_dl`, `enqueue_dl_entity`).

ghost use Rattle.std.specs.Prelude.{◌≡◌};
ghost use Rattle.kernel_rules.specs.Enqueue.{boosting_of, placed_of, is_constrained_of, constrained_of, arriving_of, arriving_change, waking_up_of, refilling_of, refilled_of, enqueuing_of};

use crate::{
    ChargeLaw, Contention, Entity, MIGRATED, MOVING, REPLENISH, RESTORE, SumsChange, WAKEUP, Wake,
    contended, contending, contending_change, has, has_timer_ahead, is_before, renewed,
    replenished, unchanged, waking, woken,
};
use trace_data::{Budget, Enqueued};

/// Whose priority the task has.
#[derive(Clone, Copy, PartialEq, Eq)]
pub enum Boost {
    /// Its own.
    Ordinary,

    /// It is boosted by a donor.
    Boosted,

    /// It is a task of another class, whose boost ends.
    Ends,
}

/// Whether its bandwidth comes along.
#[derive(Clone, Copy, PartialEq, Eq)]
pub enum Arrival {
    /// It is there.
    Stays,

    /// The task moves to this runqueue.
    Moves,

    /// The task was taken off for a moment (ENQUEUE_RESTORE, DEQUEUE_SAVE).
    Restores,
}

/// What happens to budget and deadline.
#[derive(Clone, Copy, PartialEq, Eq)]
pub enum Refill {
    /// It is throttled, and waits for its replenishment off the tree.
    Waits,

    /// Nothing.
    Stays,
    Wakes(Wake),
    Replenishes,

    /// A new period, where the deadline is past.
    Restarts,
}

/// What an enqueue does.
#[derive(Clone, Copy)]
pub struct Enqueuing {
    pub entity: Entity,
    pub change: SumsChange,
    pub boost: Boost,

    /// Its deadline is before its period, and between the two it is throttled (`dl_check_constrained_dl`).
    pub is_constrained: bool,

    /// `dl_task_timer` is to be armed.
    pub starts_timer: bool,
    pub arrival: Arrival,
    pub contention: Option<Contention>,
    pub refill: Refill,
}

/// What a wake does to the 0-lag state.
#[derive(Clone, Copy)]
struct ZeroLagWake {
    entity: Entity,
    change: SumsChange,
    contention: Option<Contention>,
}

#[tactic(auto, unfolding(crate::specs::Enqueue::boosting_of))]
fn boosting(line: Enqueued) -> Boost
    ensures { result ≡ boosting_of line }
{
    if line.entity != line.served_by {
        Boost::Boosted
    } else if line.normal_prio >= 0 {
        Boost::Ends
    } else {
        Boost::Ordinary
    }
}

/// The entity on the runqueue: no boosted one is throttled.
#[tactic(auto, unfolding(crate::specs::Enqueue::placed_of))]
fn placed(entity: Entity, line: Enqueued, boost: Boost) -> Entity
    ensures { result ≡ placed_of entity line boost }
{
    let is_throttled = entity.budget.is_throttled;
    match boost {
        Boost::Ordinary => Entity {
            is_in_class: true,
            is_queued: true,
            donor: None,
            ..entity
        },
        Boost::Boosted => Entity {
            is_in_class: true,
            is_queued: true,
            donor: Some(line.donor),
            budget: Budget {
                is_throttled: false,
                ..entity.budget
            },
            has_deadline_timer: entity.has_deadline_timer && !is_throttled,
            ..entity
        },
        Boost::Ends => Entity {
            is_in_class: true,
            is_queued: true,
            donor: None,
            budget: Budget {
                is_throttled: false,
                ..entity.budget
            },
            ..entity
        },
    }
}

/// Whether it is between its deadline and its period, and not boosted (`dl_check_constrained_dl`).
#[tactic(auto, unfolding(crate::specs::Enqueue::is_constrained_of))]
fn is_constrained(entity: Entity, clock: u64) -> bool
    ensures { result ≡ is_constrained_of entity clock }
{
    let parameters = entity.parameters;
    let deadline = entity.budget.deadline;
    let next = deadline
        .wrapping_sub(parameters.dl_deadline)
        .wrapping_add(parameters.dl_period);
    !entity.budget.is_throttled
        && parameters.dl_deadline != parameters.dl_period
        && is_before(deadline, clock)
        && is_before(clock, next)
        && entity.donor.is_none()
        && has_timer_ahead(entity, clock)
}

#[tactic(auto, unfolding(crate::specs::Enqueue::constrained_of))]
fn constrained(entity: Entity, is_constrained: bool) -> Entity
    ensures { result ≡ constrained_of entity is_constrained }
{
    if is_constrained {
        Entity {
            budget: Budget {
                is_throttled: true,
                runtime: entity.budget.runtime.min(0),
                ..entity.budget
            },
            has_deadline_timer: true,
            ..entity
        }
    } else {
        entity
    }
}

#[tactic(auto, unfolding(crate::specs::Enqueue::arriving_of))]
fn arriving(line: Enqueued) -> Arrival
    ensures { result ≡ arriving_of line }
{
    if line.on_rq == MOVING {
        Arrival::Moves
    } else if has(line.flags, RESTORE) {
        Arrival::Restores
    } else {
        Arrival::Stays
    }
}

#[tactic(auto, unfolding(crate::specs::Enqueue::arriving_change))]
fn arrival_change(entity: Entity, arrival: Arrival) -> SumsChange
    ensures { result ≡ arriving_change entity arrival }
{
    match arrival {
        Arrival::Stays => unchanged(),
        Arrival::Moves | Arrival::Restores => SumsChange {
            this_bw: entity.dl_bw,
            running_bw: entity.dl_bw,
            freed: None,
            taken: None,
        },
    }
}

#[tactic(auto, unfolding(crate::specs::Enqueue::waking_up_of))]
fn waking_up(entity: Entity, change: SumsChange, flags: u64) -> ZeroLagWake
    ensures { result ≡ waking_up_of entity change flags }
{
    if has(flags, WAKEUP) {
        let contention = contending(entity);
        let more = contending_change(entity, flags, contention);
        ZeroLagWake {
            entity: contended(entity, contention),
            change: SumsChange {
                this_bw: change.this_bw.wrapping_add(more.this_bw),
                running_bw: change.running_bw.wrapping_add(more.running_bw),
                ..change
            },
            contention: Some(contention),
        }
    } else {
        ZeroLagWake {
            entity,
            change,
            contention: None,
        }
    }
}

#[tactic(auto, unfolding(crate::specs::Enqueue::refilling_of))]
fn refilling(law: ChargeLaw, entity: Entity, line: Enqueued) -> Refill
    ensures { result ≡ refilling_of law entity line }
{
    if entity.budget.is_throttled && !has(line.flags, REPLENISH) {
        Refill::Waits
    } else if has(line.flags, WAKEUP) {
        Refill::Wakes(waking(law, entity, line.clock))
    } else if has(line.flags, REPLENISH) {
        Refill::Replenishes
    } else if has(line.flags, RESTORE)
        && entity.donor.is_none()
        && is_before(entity.budget.deadline, line.clock)
    {
        Refill::Restarts
    } else {
        Refill::Stays
    }
}

#[tactic(auto, unfolding(crate::specs::Enqueue::refilled_of))]
fn refilled(entity: Entity, clock: u64, refill: Refill) -> Entity
    ensures { result ≡ refilled_of entity clock refill }
{
    match refill {
        Refill::Waits => entity,
        Refill::Stays => Entity {
            is_in_tree: true,
            ..entity
        },
        Refill::Wakes(wake) => Entity {
            is_in_tree: true,
            ..woken(entity, clock, wake)
        },
        Refill::Replenishes => Entity {
            is_in_tree: true,
            ..replenished(entity, clock)
        },
        Refill::Restarts => Entity {
            is_in_tree: true,
            ..renewed(entity, clock)
        },
    }
}

/// What an enqueue does to an entity that has the values of the line (`enqueue_task_dl`, `enqueue_dl_entity`).
#[tactic(auto, unfolding(crate::specs::Enqueue::enqueuing_of))]
pub fn enqueue(law: ChargeLaw, entity: Entity, line: Enqueued) -> Enqueuing
    ensures { result ≡ enqueuing_of law entity line }
{
    let boost = boosting(line);
    let placed = placed(entity, line, boost);
    if boost == Boost::Ends {
        return Enqueuing {
            entity: placed,
            change: unchanged(),
            boost,
            is_constrained: false,
            starts_timer: false,
            arrival: Arrival::Stays,
            contention: None,
            refill: Refill::Waits,
        };
    }
    let is_constrained = is_constrained(placed, line.clock);
    let constrained = constrained(placed, is_constrained);
    let arrival = arriving(line);
    let waking = waking_up(
        constrained,
        arrival_change(constrained, arrival),
        line.flags,
    );
    let refill = refilling(law, waking.entity, line);
    Enqueuing {
        entity: refilled(waking.entity, line.clock, refill),
        change: waking.change,
        boost,
        is_constrained,
        starts_timer: is_constrained && !placed.has_deadline_timer,
        arrival,
        contention: waking.contention,
        refill,
    }
}
