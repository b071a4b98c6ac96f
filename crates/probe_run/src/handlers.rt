//! While the handler of an inactive timer runs (`inactive_task_timer`), `hrtimer_active` is true of the timer.

ghost use Rattle.std.specs.Prelude.{◌≡◌, None};
ghost use Rattle.std.specs.List.{list_any};
ghost use Rattle.probe_run.specs.Runs.{state_of};
ghost use Rattle.probe_run.specs.Handlers.{returns_by, is_return_of, handler_runs, zero_lag_by, handles_by, is_handler_by, as_active, as_armed, dequeuing_while, leaving_while, admitting_while};

use crate::run::Run;
use crate::waiting::{Effect, PendingEffect};
use kernel_changes::{RuleChange, admit_by, dequeue_by, leave_by};
use kernel_rules::{Admitting, Delayed, Dequeuing, Entity, Leaving};
use trace_data::Admitted;

fn returns(number: usize, effect: Effect) -> bool
    ensures { result ≡ returns_by number effect }
{
    match effect {
        Effect::Adds { .. } | Effect::Locks { .. } | Effect::MovesOffline => false,
        Effect::Returns { entity } => number == entity,
    }
}

fn has_return(pending: &[PendingEffect], number: usize) -> bool
    ensures { result ≡ list_any (is_return_of number) pending.now }
{
    pending.iter().any(|one| returns(number, one.effect))
}

fn is_zero_lag_of(number: usize, delayed: Delayed, entity: usize) -> bool
    ensures { result ≡ zero_lag_by number delayed entity }
{
    match delayed {
        Delayed::Moved => false,
        Delayed::ZeroLag => number == entity,
    }
}

fn handles(number: usize, effect: Effect) -> bool
    ensures { result ≡ handles_by number effect }
{
    match effect {
        Effect::Adds { .. } | Effect::Returns { .. } | Effect::MovesOffline => false,
        Effect::Locks {
            entity,
            delayed,
            ..
        } => is_zero_lag_of(number, delayed, entity),
    }
}

/// Whether the handler that this CPU runs of the timer of an entity waits for the lock of a runqueue.
pub(crate) fn has_handler(pending: &[PendingEffect], by: u32, number: usize) -> bool
    ensures { result ≡ list_any (is_handler_by by number) pending.now }
{
    pending
        .iter()
        .any(|one| one.place.cpu == by && handles(number, one.effect))
}

/// An entity as a function sees it that asks `hrtimer_active` of its inactive timer.
fn active(runs: bool, entity: Entity) -> Entity
    ensures { result ≡ as_active runs entity }
{
    if runs {
        Entity {
            has_inactive_timer: true,
            ..entity
        }
    } else {
        entity
    }
}

/// The entity behind that function: its timer was not armed while its handler ran.
fn armed(runs: bool, before: Entity, entity: Entity) -> Entity
    ensures { result ≡ as_armed runs before entity }
{
    if runs {
        Entity {
            has_inactive_timer: entity.has_inactive_timer && before.has_inactive_timer,
            ..entity
        }
    } else {
        entity
    }
}

/// What a dequeue does; `runs` says that the handler of the entity's inactive timer does.
pub fn dequeue_while(
    change: Option<RuleChange>,
    runs: bool,
    entity: Entity,
    flags: u64,
    on_rq: u64,
    clock: u64,
) -> Dequeuing
    ensures { change ≡ None → result ≡ dequeuing_while runs entity flags on_rq clock }
{
    let done = dequeue_by(change, active(runs, entity), flags, on_rq, clock);
    Dequeuing {
        entity: armed(runs, entity, done.entity),
        ..done
    }
}

/// What leaving the class does; `runs` says that the handler of the entity's inactive timer does.
pub fn leave_while(
    change: Option<RuleChange>,
    runs: bool,
    entity: Entity,
    on_rq: u64,
    clock: u64,
) -> Leaving
    ensures { change ≡ None → result ≡ leaving_while runs entity on_rq clock }
{
    let done = leave_by(change, active(runs, entity), on_rq, clock);
    Leaving {
        entity: armed(runs, entity, done.entity),
        ..done
    }
}

/// What an admission does; `runs` says that the handler of the entity's inactive timer does.
pub fn admit_while(
    change: Option<RuleChange>,
    runs: bool,
    entity: Entity,
    line: Admitted,
    room: u64,
) -> Admitting
    ensures { change ≡ None → result ≡ admitting_while runs entity line room }
{
    let done = admit_by(change, active(runs, entity), line, room);
    Admitting {
        entity: armed(runs, entity, done.entity),
        ..done
    }
}

impl Run {
    /// Whether the handler of the inactive timer of this entity runs: its line is played, and it has not returned.
    pub fn handler_runs(&self, number: usize) -> bool
        ensures { result ≡ handler_runs (state_of self.now) number }
    {
        has_return(self.pending.as_slice(), number)
    }
}
