//! A timer fires (`inactive_task_timer`, `dl_task_timer`).

ghost use Rattle.std.specs.Prelude.{◌≡◌};
ghost use Rattle.kernel_rules.specs.Timer.{fired_of, disarmed_of, replenish_fired_of, is_gone_of};

use crate::{Entity, cleared, replenished_blocked};

/// What the timer of the 0-lag time does.
#[derive(Clone, Copy)]
pub struct Fired {
    pub entity: Entity,

    /// Its bandwidth runs no more, once the function has the lock of the runqueue.
    pub stops: bool,

    /// The bandwidth that the root domain has again, of a task that left the class or has ended.
    pub freed: Option<u64>,
}

pub(crate) fn is_gone(entity: Entity) -> bool
    ensures { result ≡ is_gone_of entity }
{
    !entity.is_server && (!entity.is_in_class || entity.is_dead)
}

fn disarmed(entity: Entity) -> Entity
    ensures { result ≡ disarmed_of entity }
{
    Entity {
        has_inactive_timer: false,
        ..entity
    }
}

/// What the timer of the 0-lag time does (`inactive_task_timer`).
#[tactic(auto, unfolding(crate::specs::Timer::fired_of))]
pub fn zero_lag_fired(entity: Entity) -> Fired
    ensures { result ≡ fired_of entity }
{
    let disarmed = disarmed(entity);
    Fired {
        entity: if entity.is_in_class || entity.is_server {
            disarmed
        } else {
            cleared(disarmed)
        },
        stops: entity.is_non_contending,
        freed: if is_gone(entity) {
            Some(entity.dl_bw)
        } else {
            None
        },
    }
}

/// The entity after its timer of the replenishment fired (`dl_task_timer`): one that is blocked is replenished, of one that is
/// queued an enqueue with ENQUEUE_REPLENISH follows.
#[tactic(auto, unfolding(crate::specs::Timer::replenish_fired_of))]
pub fn replenish_fired(entity: Entity) -> Entity
    ensures { result ≡ replenish_fired_of entity }
{
    let disarmed = Entity {
        has_deadline_timer: false,
        ..entity
    };
    if entity.is_in_class
        && entity.budget.is_throttled
        && !entity.is_queued
        && entity.donor.is_none()
    {
        Entity {
            is_late: true,
            ..replenished_blocked(disarmed)
        }
    } else {
        disarmed
    }
}
