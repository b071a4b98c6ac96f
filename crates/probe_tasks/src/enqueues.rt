//! A task is enqueued (`enqueue_task_dl`).
#![tactic(auto, using(probe_values::proofs::Steps::both, probe_values::proofs::Steps::both_at))]

ghost use Rattle.std.specs.Prelude.{◌≡◌, ◌&&◌, None, OnOk, true, not};
ghost use Rattle.std.specs.List.{list_any};
ghost use Rattle.probe_run.specs.Runs.{state_of};
ghost use Rattle.probe_run.specs.State.{actor_at};
ghost use Rattle.probe_run.specs.Counting.{Goes, Holds};
ghost use Rattle.probe_run.specs.Moves.{is_rest_by};
ghost use Rattle.probe_values.specs.Shown.{sums_agree, address_agrees, enqueued_agrees, enqueued_shown, keeps_new};
ghost use Rattle.probe_tasks.specs.Enqueues.{all_of, offline_by, back_by, may_be_late, refreshed_of, moves_by, is_move_of, enqueued_may, enqueued_next, enqueued_with, arrived_by, enqueued_by};

use crate::expected::{can_be_late, is_back, refreshed, went};
use kernel_changes::enqueue_by;
use kernel_rules::{
    Arrival, Boost, Delayed, Enqueuing, Entity, Refill, SumsChange, WAKEUP, Wake, has,
    replenished_blocked,
};
use probe_findings::{ExactRule, ProbedLine};
use probe_run::{Actor, Effect, OpenDequeue, PendingEffect, PlayRules, Run};
use probe_values::{
    Compared, ShownSums, change_and_start, check_choice, check_sums, compare_address,
    compare_enqueued, note_contention, read_and_keep, shown_enqueued, with_new_parameters,
};
use std::alloc::AllocError;
use trace_data::Enqueued;

/// An enqueue at its line.
#[derive(Clone, Copy)]
struct EnqueueLine {
    place: ProbedLine,
    number: usize,
    line: Enqueued,
    late: Option<u64>,

    /// It stands within a dequeue.
    within: bool,
}

fn moves(number: usize, effect: Effect) -> bool
    ensures { result ≡ moves_by number effect }
{
    match effect {
        Effect::Adds { .. } | Effect::Returns { .. } | Effect::MovesOffline => false,
        Effect::Locks {
            entity,
            delayed,
            ..
        } => match delayed {
            Delayed::Moved => number == entity,
            Delayed::ZeroLag => false,
        },
    }
}

fn has_move(pending: &[PendingEffect], number: usize) -> bool
    ensures { result ≡ list_any (is_move_of number) pending.now }
{
    pending.iter().any(|one| moves(number, one.effect))
}

fn is_within(open_dequeues: &[OpenDequeue], by: u32) -> bool
    ensures { result ≡ list_any (is_rest_by by) open_dequeues.now }
{
    open_dequeues.iter().any(|one| one.place.cpu == by)
}

fn whole(bw: u64) -> SumsChange
    ensures { result ≡ all_of bw }
{
    SumsChange {
        this_bw: bw,
        running_bw: bw,
        freed: None,
        taken: None,
    }
}

fn take_offline(run: &mut Run, actor: Actor, line: Enqueued) -> Result<(), AllocError>
    ensures state { OnOk result (state_of run.new ≡ offline_by (state_of run.old) actor line) }
    ensures first { OnOk result ((state_of run.new).first ≡ (state_of run.old).first) }
{
    if went(actor, line) {
        let bw = actor.entity.dl_bw;
        run.change(actor.cpu, whole(0u64.wrapping_sub(bw)))?;
        run.change(line.cpu, whole(bw))?;
        run.open();
        Ok(())
    } else {
        Ok(())
    }
}

fn take_back(run: &mut Run, actor: Actor, line: Enqueued) -> Result<(), AllocError>
    ensures state { OnOk result (state_of run.new ≡ back_by (state_of run.old) actor line) }
    ensures first { OnOk result ((state_of run.new).first ≡ (state_of run.old).first) }
{
    if is_back(actor, line) && has(line.flags, WAKEUP) {
        run.change(
            line.cpu,
            SumsChange {
                this_bw: actor.entity.dl_bw,
                running_bw: 0,
                freed: None,
                taken: None,
            },
        )
    } else {
        Ok(())
    }
}

fn arrive(run: &mut Run, actor: Actor, line: Enqueued) -> Result<(), AllocError>
    ensures state { OnOk result (state_of run.new ≡ arrived_by (state_of run.old) actor line) }
    ensures first { OnOk result ((state_of run.new).first ≡ (state_of run.old).first) }
{
    take_offline(run, actor, line)?;
    take_back(run, actor, line)
}

/// A record without dequeues shows no timer that fires: what is no longer throttled was replenished.
fn without_dequeues(rules: PlayRules, actor: Actor, line: Enqueued) -> Actor
    ensures { rules.has_dequeues ≡ true → result ≡ actor }
{
    if rules.has_dequeues || !actor.entity.budget.is_throttled || line.budget.is_throttled {
        actor
    } else {
        Actor {
            entity: Entity {
                is_late: true,
                ..replenished_blocked(actor.entity)
            },
            ..actor
        }
    }
}

fn check_order(run: &mut Run, enqueue: EnqueueLine, actor: Actor) -> Result<(), AllocError>
    ensures { OnOk result (Holds (state_of run.old)
        (not (list_any (is_move_of enqueue.number) (state_of run.old).pending)
        && may_be_late actor enqueue.late enqueue.line.clock) (state_of run.new)) }
{
    let is_legal = !has_move(run.pending(), enqueue.number)
        && can_be_late(actor, enqueue.late, enqueue.line.clock);
    check_choice(run, enqueue.place, is_legal)
}

fn check_state(
    run: &mut Run,
    rules: PlayRules,
    enqueue: EnqueueLine,
    actor: Actor,
) -> Result<(), AllocError>
    ensures { OnOk result (rules.has_dequeues ≡ true → Holds (state_of run.old)
        (sums_agree (state_of run.old) enqueue.line.cpu enqueue.line.sums
        && (not (list_any (is_move_of enqueue.number) (state_of run.old).pending)
        && may_be_late actor enqueue.late enqueue.line.clock)) (state_of run.new)) }
{
    let line = enqueue.line;
    check_sums(run, rules, enqueue.place, line.cpu, line.sums)?;
    check_order(run, enqueue, actor)
}

fn check_values(
    run: &mut Run,
    rules: PlayRules,
    enqueue: EnqueueLine,
    actor: Actor,
) -> Result<(), AllocError>
    ensures { OnOk result (rules.has_dequeues ≡ true → Holds (state_of run.old)
        (address_agrees actor.address enqueue.line.entity
        && enqueued_agrees (refreshed_of actor enqueue.line enqueue.late enqueue.within) enqueue.line)
        (state_of run.new)) }
{
    let line = enqueue.line;
    let of = Compared {
        place: enqueue.place,
        number: enqueue.number,
        actor: refreshed(actor, line, enqueue.late, enqueue.within),
    };
    compare_address(run, of, actor.address, line.entity)?;
    compare_enqueued(run, rules, of, line)
}

fn check_enqueue(
    run: &mut Run,
    rules: PlayRules,
    enqueue: EnqueueLine,
    actor: Actor,
) -> Result<(), AllocError>
    ensures { OnOk result (rules.has_dequeues ≡ true → Holds (state_of run.old)
        (enqueued_may (state_of run.old) enqueue.number actor enqueue.line enqueue.late enqueue.within)
        (state_of run.new)) }
{
    check_state(run, rules, enqueue, actor)?;
    check_values(run, rules, enqueue, actor)
}

fn keep_enqueued(
    run: &mut Run,
    rules: PlayRules,
    enqueue: EnqueueLine,
    shown: Actor,
) -> Result<(), AllocError>
    ensures state { OnOk result (rules.change ≡ None → rules.has_dequeues ≡ true → state_of run.new
        ≡ enqueued_next rules (state_of run.old) enqueue.place enqueue.number shown enqueue.line) }
    ensures first { OnOk result ((state_of run.new).first ≡ (state_of run.old).first) }
{
    let line = enqueue.line;
    let done = enqueue_by(rules.change, rules.law, shown.entity, line);
    note_enqueue(run, enqueue, &done)?;
    let sums = ShownSums {
        place: enqueue.place,
        cpu: line.cpu,
        sums: line.sums,
    };
    let kept = Actor {
        entity: done.entity,
        ..shown
    };
    read_and_keep(run, rules, sums, enqueue.number, kept)?;
    change_and_start(
        run,
        rules,
        sums,
        enqueue.number,
        done.change,
        done.starts_timer,
    )
}

fn note_late(run: &mut Run, enqueue: EnqueueLine) -> Result<(), AllocError>
    ensures { state_of run.new ≡ state_of run.old }
{
    if enqueue.late.is_some() {
        run.note_entity(
            enqueue.place,
            enqueue.number,
            ExactRule::ReplenishedBlockedLate,
        )
    } else {
        Ok(())
    }
}

fn keep_shown(
    run: &mut Run,
    rules: PlayRules,
    enqueue: EnqueueLine,
    actor: Actor,
) -> Result<(), AllocError>
    ensures state { OnOk result (rules.change ≡ None → rules.has_dequeues ≡ true → state_of run.new
        ≡ enqueued_next rules (state_of run.old) enqueue.place enqueue.number
        (keeps_new enqueue.within actor (enqueued_shown (refreshed_of actor enqueue.line enqueue.late enqueue.within) enqueue.line))
        enqueue.line) }
    ensures first { OnOk result ((state_of run.new).first ≡ (state_of run.old).first) }
{
    note_late(run, enqueue)?;
    let line = enqueue.line;
    let known = refreshed(actor, line, enqueue.late, enqueue.within);
    let seen = shown_enqueued(known, line);
    let shown = with_new_parameters(enqueue.within, actor, seen);
    keep_enqueued(run, rules, enqueue, shown)?;
    Ok(())
}

fn enqueue_known(
    run: &mut Run,
    rules: PlayRules,
    enqueue: EnqueueLine,
    actor: Actor,
) -> Result<(), AllocError>
    ensures { OnOk result (rules.change ≡ None → rules.has_dequeues ≡ true → Goes (state_of run.old)
        (enqueued_with rules (state_of run.old) enqueue.place enqueue.number actor enqueue.line enqueue.late enqueue.within)
        (state_of run.new)) }
{
    check_enqueue(run, rules, enqueue, actor)?;
    keep_shown(run, rules, enqueue, actor)?;
    Ok(())
}

fn enqueue_task(run: &mut Run, rules: PlayRules, enqueue: EnqueueLine) -> Result<(), AllocError>
    ensures { OnOk result (rules.change ≡ None → rules.has_dequeues ≡ true → Goes (state_of run.old)
        (enqueued_with rules (arrived_by (state_of run.old) (actor_at (state_of run.old) enqueue.number) enqueue.line)
        enqueue.place enqueue.number (actor_at (state_of run.old) enqueue.number) enqueue.line enqueue.late enqueue.within)
        (state_of run.new)) }
{
    let known = run.actor(enqueue.number);
    let actor = without_dequeues(rules, known, enqueue.line);
    arrive(run, actor, enqueue.line)?;
    enqueue_known(run, rules, enqueue, actor)?;
    Ok(())
}

/// Plays the line of an enqueue.
pub fn enqueued(
    run: &mut Run,
    rules: PlayRules,
    place: ProbedLine,
    line: Enqueued,
    late: Option<u64>,
) -> Result<(), AllocError>
    ensures { OnOk result (rules.change ≡ None → rules.has_dequeues ≡ true → Goes (state_of run.old)
        (enqueued_by rules (state_of run.old) place line late) (state_of run.new)) }
{
    let within = is_within(run.open_dequeues(), place.cpu);
    let number = run.task(line.pid)?;
    let enqueue = EnqueueLine {
        place,
        number,
        line,
        late,
        within,
    };
    enqueue_task(run, rules, enqueue)?;
    Ok(())
}

/// Notes the rules of an enqueue.
fn note_enqueue(run: &mut Run, enqueue: EnqueueLine, done: &Enqueuing) -> Result<(), AllocError>
    ensures { state_of run.new ≡ state_of run.old }
{
    note_sums(run, enqueue, done)?;
    match done.boost {
        Boost::Ordinary => {}
        Boost::Boosted => run.note_rule(ExactRule::Boosted),
        Boost::Ends => {
            return run.note_entity(enqueue.place, enqueue.number, ExactRule::BoostEnds);
        }
    }
    if done.is_constrained {
        run.note_entity(enqueue.place, enqueue.number, ExactRule::Constrained)?;
    }
    match refill_rule(done) {
        Some(rule) => run.note_entity(enqueue.place, enqueue.number, rule),
        None => Ok(()),
    }
}

fn note_sums(run: &mut Run, enqueue: EnqueueLine, done: &Enqueuing) -> Result<(), AllocError>
    ensures { state_of run.new ≡ state_of run.old }
{
    let cpu = enqueue.line.cpu;
    match done.arrival {
        Arrival::Stays => {}
        Arrival::Moves => run.note_queue(enqueue.place, cpu, ExactRule::MovedIn)?,
        Arrival::Restores => run.note_queue(enqueue.place, cpu, ExactRule::Restored)?,
    }
    match done.contention {
        Some(contention) => note_contention(run, enqueue.place, cpu, contention),
        None => Ok(()),
    }
}

fn refill_rule(done: &Enqueuing) -> Option<ExactRule> {
    match done.refill {
        Refill::Waits => done.contention.map(|_| ExactRule::WakeThrottled),
        Refill::Stays => None,
        Refill::Wakes(Wake::Kept) => Some(ExactRule::WakeKept),
        Refill::Wakes(Wake::Revised) => Some(ExactRule::WakeRevised),
        Refill::Wakes(Wake::Renewed) => Some(ExactRule::WakeNewPeriod),
        Refill::Replenishes => Some(ExactRule::Replenished),
        Refill::Restarts => Some(ExactRule::RestoredNewPeriod),
    }
}
