//! What a function does to the sums of a runqueue whose lock it has not yet when its line is written.

ghost use Rattle.std.specs.Prelude.{◌≡◌};
ghost use Rattle.kernel_rules.specs.Later.{delayed_change_of, after_delayed_of, lock_change_of, after_lock_of, locked_of};

use crate::timers::is_gone;
use crate::{Entity, SumsChange, cleared};

/// Which function.
#[derive(Clone, Copy, PartialEq, Eq)]
pub enum Delayed {
    /// `migrate_task_rq_dl`: a waking task moves.
    Moved,

    /// `inactive_task_timer`: the 0-lag time is past.
    ZeroLag,
}

/// What it does to the sums: a bandwidth runs no more only where the entity does not contend.
pub fn delayed_change(entity: Entity, delayed: Delayed, bw: u64) -> SumsChange
    ensures { result ≡ delayed_change_of entity delayed bw }
{
    let off = 0u64.wrapping_sub(bw);
    let stopped = if entity.is_non_contending { off } else { 0 };
    SumsChange {
        this_bw: match delayed {
            Delayed::Moved => off,
            Delayed::ZeroLag => { if entity.is_dead { stopped } else { 0 } }
        },
        running_bw: stopped,
        freed: None,
        taken: None,
    }
}

/// The entity after it.
pub fn after_delayed(entity: Entity, delayed: Delayed) -> Entity
    ensures { result ≡ after_delayed_of entity delayed }
{
    match delayed {
        Delayed::Moved => Entity {
            is_non_contending: false,
            has_inactive_timer: false,
            ..entity
        },
        Delayed::ZeroLag => Entity {
            is_non_contending: false,
            ..entity
        },
    }
}

/// What a function does once it has its lock.
#[derive(Clone, Copy)]
pub struct Locked {
    pub entity: Entity,
    pub change: SumsChange,
}

fn lock_change(entity: Entity, delayed: Delayed) -> SumsChange
    ensures { result ≡ lock_change_of entity delayed }
{
    let off = 0u64.wrapping_sub(entity.dl_bw);
    let stopped = if entity.is_non_contending { off } else { 0 };
    match delayed {
        Delayed::Moved => SumsChange {
            this_bw: off,
            running_bw: stopped,
            freed: None,
            taken: None,
        },
        Delayed::ZeroLag => SumsChange {
            this_bw: if entity.is_dead { stopped } else { 0 },
            running_bw: stopped,
            freed: if is_gone(entity) {
                Some(entity.dl_bw)
            } else {
                None
            },
            taken: None,
        },
    }
}

fn after_lock(entity: Entity, delayed: Delayed) -> Entity
    ensures { result ≡ after_lock_of entity delayed }
{
    match delayed {
        Delayed::Moved => Entity {
            is_non_contending: false,
            has_inactive_timer: false,
            ..entity
        },
        Delayed::ZeroLag => {
            if is_gone(entity) {
                cleared(entity)
            } else {
                Entity {
                    is_non_contending: false,
                    ..entity
                }
            }
        }
    }
}

/// What a function does once it has its lock, by what the entity is then (`migrate_task_rq_dl`, `inactive_task_timer`).
pub fn lock(entity: Entity, delayed: Delayed) -> Locked
    ensures { result ≡ locked_of entity delayed }
{
    Locked {
        entity: after_lock(entity, delayed),
        change: lock_change(entity, delayed),
    }
}
