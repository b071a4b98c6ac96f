//! A task is dequeued (`dequeue_task_dl`, `dequeue_dl_entity`).

ghost use Rattle.std.specs.Prelude.{◌≡◌};
ghost use Rattle.kernel_rules.specs.Dequeue.{departing_of, departing_change, dequeuing_of, sleeping_of, off_of, taken_of};

use crate::enqueues::Arrival;
use crate::{
    Block, Entity, MOVING, RESTORE, SumsChange, WAKEUP, blocked, blocking, blocking_change, has,
    unchanged,
};

/// What a dequeue does.
#[derive(Clone, Copy)]
pub struct Dequeuing {
    pub entity: Entity,
    pub change: SumsChange,
    pub departure: Arrival,
    pub block: Option<Block>,
}

#[tactic(auto, unfolding(crate::specs::Dequeue::departing_of))]
fn departing(flags: u64, on_rq: u64) -> Arrival
    ensures { result ≡ departing_of flags on_rq }
{
    if on_rq == MOVING {
        Arrival::Moves
    } else if has(flags, RESTORE) {
        Arrival::Restores
    } else {
        Arrival::Stays
    }
}

#[tactic(auto, unfolding(crate::specs::Dequeue::departing_change))]
fn departure_change(entity: Entity, departure: Arrival) -> SumsChange
    ensures { result ≡ departing_change entity departure }
{
    match departure {
        Arrival::Stays => unchanged(),
        Arrival::Moves | Arrival::Restores => SumsChange {
            this_bw: 0u64.wrapping_sub(entity.dl_bw),
            running_bw: 0u64.wrapping_sub(entity.dl_bw),
            freed: None,
            taken: None,
        },
    }
}

#[tactic(auto, unfolding(crate::specs::Dequeue::sleeping_of))]
fn sleeping(entity: Entity, clock: u64, change: SumsChange, departure: Arrival) -> Dequeuing
    ensures { result ≡ sleeping_of entity clock change departure }
{
    let block = blocking(entity, clock);
    let more = blocking_change(entity, block);
    Dequeuing {
        entity: blocked(entity, block),
        change: SumsChange {
            this_bw: change.this_bw.wrapping_add(more.this_bw),
            running_bw: change.running_bw.wrapping_add(more.running_bw),
            freed: more.freed,
            taken: None,
        },
        departure,
        block: Some(block),
    }
}

/// A task that blocks.
#[tactic(auto, unfolding(crate::specs::Dequeue::off_of))]
fn off(entity: Entity) -> Entity
    ensures { result ≡ off_of entity }
{
    Entity {
        is_in_tree: false,
        is_queued: false,
        ..entity
    }
}

/// A task that is saved, or moved.
#[tactic(auto, unfolding(crate::specs::Dequeue::taken_of))]
fn taken(entity: Entity) -> Entity
    ensures { result ≡ taken_of entity }
{
    Entity {
        is_in_tree: false,
        ..entity
    }
}

/// What a dequeue with these DEQUEUE_ flags does, after the charge in it (`dequeue_dl_entity`).
#[tactic(auto, unfolding(crate::specs::Dequeue::dequeuing_of))]
pub fn dequeue(entity: Entity, flags: u64, on_rq: u64, clock: u64) -> Dequeuing
    ensures { result ≡ dequeuing_of entity flags on_rq clock }
{
    let departure = departing(flags, on_rq);
    let change = departure_change(off(entity), departure);
    if has(flags, WAKEUP) {
        return sleeping(off(entity), clock, change, departure);
    }
    Dequeuing {
        entity: taken(entity),
        change,
        departure,
        block: None,
    }
}
