//! Timers that fire (`inactive_task_timer`, `dl_task_timer`).
#![tactic(auto, using(probe_values::proofs::Steps::both, probe_values::proofs::Steps::made, probe_values::proofs::Steps::unchanged))]

ghost use Rattle.std.specs.Prelude.{Some, ◌≡◌, ◌&&◌, ◌<◌, None, OnOk, false};
ghost use Rattle.probe_run.specs.Runs.{state_of};
ghost use Rattle.probe_run.specs.State.{actor_at};
ghost use Rattle.probe_run.specs.Begin.{pend_return};
ghost use Rattle.std.specs.List.{list_any};
ghost use Rattle.probe_lines.specs.Timers.{forget_past, has_left, fired_actor, zero_lag_fired_by, own_parameters, donor_kept, donor_by, is_inactive, goes_offline, offline_pending, replenish_actor, replenish_fired_by};

use kernel_changes::replenish_fired_by;
use kernel_rules::{Delayed, Entity};
use probe_findings::{ExactRule, ProbedLine};
use probe_run::{Actor, PlayRules, Processor, Run};
use std::alloc::AllocError;
use trace_data::{Donor, Parameters};

fn forget_past(run: &mut Run, has_left: bool)
    ensures state { state_of run.new ≡ forget_past (state_of run.old) has_left }
    ensures first { (state_of run.new).first ≡ (state_of run.old).first }
{
    run.forget_all();
    if has_left {
        run.forget_unlocked();
    }
}

fn is_gone(actor: Actor) -> bool
    ensures { result ≡ has_left actor }
{
    !actor.entity.is_in_class || actor.entity.is_dead
}

fn fire(run: &mut Run, place: ProbedLine, number: usize, actor: Actor) -> Result<(), AllocError>
    ensures state { OnOk result (state_of run.new ≡ fired_actor (state_of run.old) place number actor) }
    ensures first { OnOk result ((state_of run.new).first ≡ (state_of run.old).first) }
{
    let disarmed = Actor {
        entity: Entity {
            has_inactive_timer: false,
            ..actor.entity
        },
        ..actor
    };
    if actor.knows_parameters {
        run.note_both(place, number, actor.cpu, ExactRule::ZeroLagFired)?;
        run.keep(number, disarmed);
        run.pend_lock(place, actor.cpu, number, Delayed::ZeroLag)
    } else {
        run.keep(
            number,
            Actor {
                knows_contending: false,
                ..disarmed
            },
        );
        forget_past(run, is_gone(actor));
        Ok(())
    }
}

fn fire_known(run: &mut Run, place: ProbedLine, number: usize) -> Result<(), AllocError>
    ensures state { OnOk result (state_of run.new
        ≡ pend_return (fired_actor (state_of run.old) place number (actor_at (state_of run.old) number)) place number) }
    ensures first { OnOk result ((state_of run.new).first ≡ (state_of run.old).first) }
{
    let actor = run.actor(number);
    fire(run, place, number, actor)?;
    run.pend_return(place, number)
}

/// Plays the line of `inactive_task_timer`: what it does comes with its lock, and it runs until it returns.
pub fn zero_lag_fired(run: &mut Run, place: ProbedLine, timer: u64) -> Result<(), AllocError>
    ensures state { OnOk result (state_of run.new
        ≡ zero_lag_fired_by (state_of run.old) place ((state_of run.old).timers timer)) }
    ensures first { OnOk result ((state_of run.new).first ≡ (state_of run.old).first) }
{
    match run.timer_owner(timer) {
        None => {
            forget_past(run, true);
            Ok(())
        }
        Some(number) => fire_known(run, place, number),
    }
}

fn own(parameters: Parameters) -> Donor
    ensures { result ≡ own_parameters parameters }
{
    Donor {
        dl_runtime: parameters.dl_runtime,
        dl_deadline: parameters.dl_deadline,
        dl_period: parameters.dl_period,
    }
}

fn kept_donor(donor: Option<Donor>, parameters: Parameters) -> Donor
    ensures { result ≡ donor_kept donor parameters }
{
    match donor {
        Some(donor) => donor,
        None => own(parameters),
    }
}

/// Who boosts it: `pi_se` may have changed while it was blocked.
fn donor(actor: Actor, served_by: Option<u64>, own: Option<u64>) -> Option<Donor>
    ensures { result ≡ donor_by actor served_by own }
{
    match served_by {
        None => actor.entity.donor,
        Some(served_by) => match own {
            None => actor.entity.donor,
            Some(own) => {
                if served_by == own {
                    None
                } else {
                    Some(kept_donor(actor.entity.donor, actor.entity.parameters))
                }
            }
        },
    }
}

fn is_inactive(processors: &[Processor], cpu: u32) -> bool
    ensures { result ≡ list_any (is_inactive cpu) processors.now }
{
    processors
        .iter()
        .any(|one| one.cpu == cpu && !one.is_active)
}

/// Whether its CPU went, so that `dl_task_offline_migration` gives its bandwidth back and takes it again before its enqueue.
fn goes_offline(run: &Run, actor: Actor) -> bool
    ensures { result ≡ goes_offline (state_of run.now) actor }
{
    actor.entity.budget.is_throttled
        && actor.entity.is_queued
        && is_inactive(run.processors(), actor.cpu)
}

/// Another CPU may read `extra_bw` between the two.
fn pend_offline(run: &mut Run, place: ProbedLine, goes: bool) -> Result<(), AllocError>
    ensures state { OnOk result (state_of run.new ≡ offline_pending (state_of run.old) place goes) }
    ensures first { OnOk result ((state_of run.new).first ≡ (state_of run.old).first) }
{
    if goes {
        run.pend_offline(place)?;
    }
    Ok(())
}

fn replenish(
    run: &mut Run,
    rules: PlayRules,
    place: ProbedLine,
    number: usize,
    actor: Actor,
    served_by: Option<u64>,
) -> Result<(), AllocError>
    ensures state { OnOk result (rules.change ≡ None → state_of run.new
        ≡ replenish_actor (state_of run.old) place number actor served_by) }
    ensures first { OnOk result ((state_of run.new).first ≡ (state_of run.old).first) }
{
    let known = Entity {
        donor: donor(actor, served_by, actor.address),
        ..actor.entity
    };
    let entity = replenish_fired_by(rules.change, known);
    if entity.is_late && !actor.entity.is_late {
        run.note_entity(place, number, ExactRule::ReplenishedBlocked)?;
    }
    let goes = goes_offline(run, actor);
    run.keep(number, Actor { entity, ..actor });
    pend_offline(run, place, goes)
}

/// Plays the line of `dl_task_timer`.
pub fn replenish_fired(
    run: &mut Run,
    rules: PlayRules,
    place: ProbedLine,
    timer: u64,
    served_by: Option<u64>,
) -> Result<(), AllocError>
    ensures state { OnOk result (rules.change ≡ None → state_of run.new
        ≡ replenish_fired_by (state_of run.old) place ((state_of run.old).timers timer) served_by) }
    ensures first { OnOk result ((state_of run.new).first ≡ (state_of run.old).first) }
{
    match run.timer_owner(timer) {
        None => Ok(()),
        Some(number) => {
            let actor = run.actor(number);
            replenish(run, rules, place, number, actor, served_by)
        }
    }
}
