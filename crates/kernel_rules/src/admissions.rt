//! A reservation is asked for (`sched_dl_overflow`, and what of sched_setattr(2) follows under its lock).

ghost use Rattle.std.specs.Prelude.{◌≡◌};
ghost use Rattle.kernel_rules.specs.Admit.{wanted_of, is_queued_of, old_of, is_refused, admission_of, admitting_of, admitted_of, admitting_change, still_of, enters_of};

use crate::{DEADLINE_POLICY, Entity, KEPT_FLAGS, SumsChange, ratio, reserved, unchanged};
use trace_data::{Admitted, Parameters};

/// What becomes of the call.
#[derive(Clone, Copy, PartialEq, Eq)]
pub enum Admission {
    /// Another policy is wanted.
    Other,

    /// There is not so much left.
    Refused,

    /// Its bandwidth stays.
    Same,

    /// Its bandwidth changes.
    Changed,

    /// It comes back before its 0-lag time.
    Back,

    /// It comes into the class.
    New,
}

/// What the call does.
#[derive(Clone, Copy)]
pub struct Admitting {
    pub entity: Entity,
    pub change: SumsChange,
    pub admission: Admission,
}

/// The reservation that is wanted.
#[tactic(auto, unfolding(crate::specs::Admit::wanted_of))]
pub fn wanted(line: Admitted) -> Parameters
    ensures { result ≡ wanted_of line }
{
    let wanted = line.parameters;
    Parameters {
        dl_period: if wanted.dl_period == 0 {
            wanted.dl_deadline
        } else {
            wanted.dl_period
        },
        flags: wanted.flags & KEPT_FLAGS,
        ..wanted
    }
}

/// Whether the task is on a runqueue: a fair task whose dequeue is delayed is not.
fn is_queued(line: Admitted) -> bool
    ensures { result ≡ is_queued_of line }
{
    line.on_rq != 0 && !line.is_delayed
}

/// The bandwidth that it had.
fn old(entity: Entity, line: Admitted) -> u64
    ensures { result ≡ old_of entity line }
{
    if line.policy_before == DEADLINE_POLICY {
        entity.dl_bw
    } else {
        0
    }
}

/// Whether a root domain with room for so much bandwidth has none for this (`__dl_overflow`).
#[tactic(auto, unfolding(crate::specs::Admit::is_refused))]
fn refuses(line: Admitted, room: u64, old: u64, new: u64) -> bool
    ensures { result ≡ is_refused line room old new }
{
    line.limit != u64::MAX && room < line.total_bw.wrapping_sub(old).wrapping_add(new)
}

#[tactic(auto, unfolding(crate::specs::Admit::admission_of))]
fn answer(entity: Entity, line: Admitted, room: u64) -> Admission
    ensures { result ≡ admission_of entity line room }
{
    let wanted = wanted(line);
    let new = ratio(wanted.dl_runtime, wanted.dl_period);
    let old = old(entity, line);
    let stays = line.policy_before == DEADLINE_POLICY;
    if line.policy != DEADLINE_POLICY {
        Admission::Other
    } else if stays && new == old {
        Admission::Same
    } else if refuses(line, room, old, new) {
        Admission::Refused
    } else if stays {
        Admission::Changed
    } else if entity.has_inactive_timer {
        Admission::Back
    } else {
        Admission::New
    }
}

/// The entity with the 0-lag state over, of a blocked task whose bandwidth changes (`dl_change_utilization`).
#[tactic(auto, unfolding(crate::specs::Admit::still_of))]
fn still(entity: Entity) -> Entity
    ensures { result ≡ still_of entity }
{
    Entity {
        is_non_contending: false,
        has_inactive_timer: entity.has_inactive_timer && !entity.is_non_contending,
        ..entity
    }
}

/// The entity in the class (`switched_to_dl`).
#[tactic(auto, unfolding(crate::specs::Admit::enters_of))]
fn entering(entity: Entity) -> Entity
    ensures { result ≡ enters_of entity }
{
    Entity {
        is_in_class: true,
        has_inactive_timer: false,
        ..entity
    }
}

/// The entity before it takes the reservation.
fn admitted(entity: Entity, line: Admitted, admission: Admission) -> Entity
    ensures { result ≡ admitted_of entity line admission }
{
    match admission {
        Admission::Other | Admission::Refused | Admission::Same => entity,
        Admission::Changed => {
            if is_queued(line) {
                entity
            } else {
                still(entity)
            }
        }
        Admission::Back | Admission::New => entering(entity),
    }
}

fn change(entity: Entity, line: Admitted, new: u64, admission: Admission) -> SumsChange
    ensures { result ≡ admitting_change entity line new admission }
{
    match admission {
        Admission::Other | Admission::Refused | Admission::Same => unchanged(),
        Admission::Changed => SumsChange {
            this_bw: if is_queued(line) {
                0
            } else {
                new.wrapping_sub(entity.dl_bw)
            },
            running_bw: if !is_queued(line) && entity.is_non_contending {
                0u64.wrapping_sub(entity.dl_bw)
            } else {
                0
            },
            freed: Some(entity.dl_bw),
            taken: Some(new),
        },
        Admission::Back => SumsChange {
            this_bw: if is_queued(line) { 0 } else { new },
            running_bw: 0,
            freed: Some(entity.dl_bw),
            taken: Some(new),
        },
        Admission::New => SumsChange {
            this_bw: if is_queued(line) { 0 } else { new },
            running_bw: 0,
            freed: None,
            taken: Some(new),
        },
    }
}

/// What a call does that asks for a reservation in a root domain with room for so much bandwidth (`sched_dl_overflow`): a queued task takes
/// it at its next enqueue.
#[tactic(auto, unfolding(crate::specs::Admit::admitting_of))]
pub fn admit(entity: Entity, line: Admitted, room: u64) -> Admitting
    ensures { result ≡ admitting_of entity line room }
{
    let admission = answer(entity, line, room);
    if admission == Admission::Other || admission == Admission::Refused {
        return Admitting {
            entity,
            change: unchanged(),
            admission,
        };
    }
    let wanted = wanted(line);
    let new = ratio(wanted.dl_runtime, wanted.dl_period);
    let admitted = admitted(entity, line, admission);
    Admitting {
        entity: if is_queued(line) {
            Entity {
                new_parameters: Some(wanted),
                ..admitted
            }
        } else {
            reserved(admitted, wanted)
        },
        change: change(entity, line, new, admission),
        admission,
    }
}
