//! A task has run (`update_curr_dl_se`).
#![tactic(auto, using(probe_values::proofs::Steps::both, probe_values::proofs::Steps::both_at))]

ghost use Rattle.std.specs.Prelude.{◌≡◌, ◌&&◌, None, OnOk, is_none, true};
ghost use Rattle.probe_run.specs.Runs.{state_of};
ghost use Rattle.probe_run.specs.State.{actor_at, keep_at};
ghost use Rattle.probe_run.specs.Sums.{start_timer_in};
ghost use Rattle.probe_run.specs.Counting.{Goes, Holds, where_it_holds};
ghost use Rattle.probe_run.specs.Begin.{sums_read, await_enqueue};
ghost use Rattle.probe_values.specs.Shown.{budget_agrees, flags_agree, yielded_by, sums_agree};
ghost use Rattle.probe_tasks.specs.Runs.{capacity_may, cost_may_be, claim_later, is_charged, shown_charge, spent_may, spent_next, special_may, spent_with, uncharged_by, updated_with, updated_by};

use crate::choice::LineChoice;
use crate::costs::{
    can_cost, charged_runqueue, check_capacity, delta_of, full_cost, law_shown, ran, with_charge,
};
use kernel_changes::{charging_by, spend_by};
use kernel_rules::{Charge, Entity, Spending, Spent};
use probe_findings::{ExactRule, ProbedLine};
use probe_run::{Actor, LastCharge, PlayRules, Run, UnlockedSum, is_special};
use probe_values::{
    Compared, ShownSums, check_choice, check_sums, compare_updated, read_and_keep, with_yield,
};
use std::alloc::AllocError;
use trace_data::{Ran, Updated};

/// A charge at its line.
#[derive(Clone, Copy)]
struct ChargeLine {
    place: ProbedLine,
    number: usize,
    line: Updated,
    choice: LineChoice,
}

fn is_charged(actor: Actor) -> bool
    ensures { result ≡ is_charged actor }
{
    actor.entity.is_in_tree && actor.knows_budget && actor.knows_parameters
}

fn shown_charge(actor: Actor, line: Updated) -> Actor
    ensures { result ≡ shown_charge actor line }
{
    let known = with_yield(actor, line.budget.is_yielded);
    Actor {
        entity: Entity {
            budget: line.budget,
            ..known.entity
        },
        ..known
    }
}

fn claim_later(
    run: &mut Run,
    place: ProbedLine,
    cpu: u32,
    later: Option<u64>,
) -> Result<(), AllocError>
    ensures state { OnOk result (state_of run.new ≡ claim_later (state_of run.old) place cpu later) }
    ensures first { OnOk result ((state_of run.new).first ≡ (state_of run.old).first) }
{
    match later {
        None => Ok(()),
        Some(value) => run.claim(place, UnlockedSum::ExtraBw(cpu), value),
    }
}

/// Compares what the line of a charge shows, whatever is charged.
fn check_shown(
    run: &mut Run,
    rules: PlayRules,
    charge: ChargeLine,
    actor: Actor,
) -> Result<(), AllocError>
    ensures { OnOk result (rules.has_dequeues ≡ true → Holds (state_of run.old)
        (sums_agree (state_of run.old) charge.line.cpu charge.line.sums
        && (budget_agrees (yielded_by actor charge.line.budget.is_yielded) charge.line.budget.runtime charge.line.budget.deadline
        && flags_agree (yielded_by actor charge.line.budget.is_yielded) charge.line.budget))
        (state_of run.new)) }
{
    let line = charge.line;
    check_sums(run, rules, charge.place, line.cpu, line.sums)?;
    let of = Compared {
        place: charge.place,
        number: charge.number,
        actor: with_yield(actor, line.budget.is_yielded),
    };
    compare_updated(run, of, line.budget)
}

fn check_none(run: &mut Run, place: ProbedLine, choice: LineChoice) -> Result<(), AllocError>
    ensures { OnOk result (Holds (state_of run.old)
        (is_none choice.extra_bw && is_none choice.cost) (state_of run.new)) }
{
    let is_legal = choice.extra_bw.is_none() && choice.cost.is_none();
    check_choice(run, place, is_legal)
}

fn check_chosen(
    run: &mut Run,
    rules: PlayRules,
    charge: ChargeLine,
    entity: Entity,
) -> Result<(), AllocError>
    ensures { OnOk result (rules.change ≡ None → Holds (state_of run.old)
        (cost_may_be rules (state_of run.old) entity charge.line charge.choice) (state_of run.new)) }
{
    let is_legal = can_cost(run, rules, entity, charge.line, charge.choice);
    check_choice(run, charge.place, is_legal)
}

fn check_costs(
    run: &mut Run,
    rules: PlayRules,
    charge: ChargeLine,
    entity: Entity,
) -> Result<(), AllocError>
    ensures { OnOk result (rules.change ≡ None → Holds (state_of run.old)
        (capacity_may (state_of run.old) charge.line
        && cost_may_be rules (state_of run.old) entity charge.line charge.choice) (state_of run.new)) }
{
    check_capacity(run, charge.place, charge.line)?;
    check_chosen(run, rules, charge, entity)
}

fn check_charge(
    run: &mut Run,
    rules: PlayRules,
    charge: ChargeLine,
    actor: Actor,
) -> Result<(), AllocError>
    ensures { OnOk result (rules.change ≡ None → rules.has_dequeues ≡ true → Holds (state_of run.old)
        (spent_may rules (state_of run.old) actor charge.line charge.choice) (state_of run.new)) }
{
    check_shown(run, rules, charge, actor)?;
    let entity = shown_charge(actor, charge.line).entity;
    check_costs(run, rules, charge, entity)
}

fn read_and_claim(run: &mut Run, rules: PlayRules, charge: ChargeLine) -> Result<(), AllocError>
    ensures state { OnOk result (rules.has_dequeues ≡ true → state_of run.new
        ≡ claim_later (sums_read (state_of run.old) charge.place charge.line.cpu charge.line.sums)
        charge.place charge.line.cpu charge.choice.extra_bw) }
    ensures first { OnOk result ((state_of run.new).first ≡ (state_of run.old).first) }
{
    let line = charge.line;
    run.read_sums(rules, charge.place, line.cpu, line.sums)?;
    claim_later(run, charge.place, line.cpu, charge.choice.extra_bw)
}

fn keep_spent(
    run: &mut Run,
    rules: PlayRules,
    charge: ChargeLine,
    shown: Actor,
    done: &Spending,
) -> Result<(), AllocError>
    ensures state { OnOk result (state_of run.new
        ≡ await_enqueue (start_timer_in rules (keep_at (state_of run.old) charge.number (record shown { entity = done.now.entity }))
        charge.place charge.number done.now.starts_timer) charge.place.cpu done.now.is_enqueued_again) }
    ensures first { OnOk result ((state_of run.new).first ≡ (state_of run.old).first) }
{
    run.keep(
        charge.number,
        Actor {
            entity: done.entity,
            ..shown
        },
    );
    run.start_timer(rules, charge.place, charge.number, done.starts_timer)?;
    run.await_enqueue(charge.place.cpu, done.is_enqueued_again);
    Ok(())
}

fn keep_charge(
    run: &mut Run,
    rules: PlayRules,
    charge: ChargeLine,
    actor: Actor,
) -> Result<(), AllocError>
    ensures state { OnOk result (rules.change ≡ None → rules.has_dequeues ≡ true → state_of run.new
        ≡ spent_next rules (state_of run.old) charge.place charge.number actor charge.line charge.choice) }
    ensures first { OnOk result ((state_of run.new).first ≡ (state_of run.old).first) }
{
    let line = charge.line;
    let shown = shown_charge(actor, line);
    let charged = with_charge(run, rules, shown.entity, line, charge.choice);
    let done = spend_by(rules.change, charged, line.clock, ran(line));
    note_spent(run, rules, charge, shown.entity, &done)?;
    read_and_claim(run, rules, charge)?;
    keep_spent(run, rules, charge, shown, &done)?;
    Ok(())
}

/// A thread of schedutil is not charged.
fn keep_special(
    run: &mut Run,
    rules: PlayRules,
    charge: ChargeLine,
    actor: Actor,
) -> Result<(), AllocError>
    ensures { OnOk result (rules.has_dequeues ≡ true → Goes (state_of run.old)
        (where_it_holds (special_may (state_of run.old) actor charge.line charge.choice)
        (keep_at (sums_read (state_of run.old) charge.place charge.line.cpu charge.line.sums) charge.number (shown_charge actor charge.line)))
        (state_of run.new)) }
{
    let line = charge.line;
    check_shown(run, rules, charge, actor)?;
    check_none(run, charge.place, charge.choice)?;
    let sums = ShownSums {
        place: charge.place,
        cpu: line.cpu,
        sums: line.sums,
    };
    read_and_keep(run, rules, sums, charge.number, shown_charge(actor, line))?;
    Ok(())
}

fn spend_known(
    run: &mut Run,
    rules: PlayRules,
    charge: ChargeLine,
    actor: Actor,
) -> Result<(), AllocError>
    ensures { OnOk result (rules.change ≡ None → rules.has_dequeues ≡ true → Goes (state_of run.old)
        (where_it_holds (spent_may rules (state_of run.old) actor charge.line charge.choice)
        (spent_next rules (state_of run.old) charge.place charge.number actor charge.line charge.choice))
        (state_of run.new)) }
{
    check_charge(run, rules, charge, actor)?;
    keep_charge(run, rules, charge, actor)?;
    Ok(())
}

fn spent(
    run: &mut Run,
    rules: PlayRules,
    charge: ChargeLine,
    actor: Actor,
) -> Result<(), AllocError>
    ensures { OnOk result (rules.change ≡ None → rules.has_dequeues ≡ true → Goes (state_of run.old)
        (spent_with rules (state_of run.old) charge.place charge.number actor charge.line charge.choice)
        (state_of run.new)) }
{
    if is_special(actor.entity) && ran(charge.line) {
        keep_special(run, rules, charge, actor)
    } else {
        spend_known(run, rules, charge, actor)
    }
}

fn uncharged(
    run: &mut Run,
    rules: PlayRules,
    place: ProbedLine,
    line: Updated,
    choice: LineChoice,
) -> Result<(), AllocError>
    ensures { OnOk result (rules.has_dequeues ≡ true → Goes (state_of run.old)
        (uncharged_by (state_of run.old) place line choice) (state_of run.new)) }
{
    check_sums(run, rules, place, line.cpu, line.sums)?;
    check_none(run, place, choice)?;
    run.read_sums(rules, place, line.cpu, line.sums)?;
    Ok(())
}

/// Off the tree a node points to itself: in a record without dequeues that alone shows it.
fn on_tree(rules: PlayRules, actor: Actor, line: Updated) -> Actor
    ensures { rules.has_dequeues ≡ true → result ≡ actor }
{
    if rules.has_dequeues {
        return actor;
    }
    match line.ran {
        Ran::Span { .. } => actor,
        Ran::Clocks { entity, .. } => {
            if Some(entity) == actor.address {
                Actor {
                    entity: Entity {
                        is_in_tree: false,
                        ..actor.entity
                    },
                    ..actor
                }
            } else {
                actor
            }
        }
    }
}

fn update_uncharged(
    run: &mut Run,
    rules: PlayRules,
    charge: ChargeLine,
    actor: Actor,
) -> Result<(), AllocError>
    ensures { OnOk result (rules.has_dequeues ≡ true → Goes (state_of run.old)
        (uncharged_by (state_of run.old) charge.place charge.line charge.choice) (state_of run.new)) }
{
    if rules.has_dequeues {
        uncharged(run, rules, charge.place, charge.line, charge.choice)
    } else {
        run.keep(charge.number, actor);
        uncharged(run, rules, charge.place, charge.line, charge.choice)
    }
}

fn update_known(
    run: &mut Run,
    rules: PlayRules,
    charge: ChargeLine,
    actor: Actor,
) -> Result<(), AllocError>
    ensures { OnOk result (rules.change ≡ None → rules.has_dequeues ≡ true → Goes (state_of run.old)
        (updated_with rules (state_of run.old) charge.place charge.number actor charge.line charge.choice)
        (state_of run.new)) }
{
    if is_charged(actor) {
        spent(run, rules, charge, actor)
    } else {
        update_uncharged(run, rules, charge, actor)
    }
}

fn update_task(run: &mut Run, rules: PlayRules, charge: ChargeLine) -> Result<(), AllocError>
    ensures { OnOk result (rules.change ≡ None → rules.has_dequeues ≡ true → Goes (state_of run.old)
        (updated_with rules (state_of run.old) charge.place charge.number
        (actor_at (state_of run.old) charge.number) charge.line charge.choice) (state_of run.new)) }
{
    let known = run.actor(charge.number);
    let actor = on_tree(rules, known, charge.line);
    update_known(run, rules, charge, actor)?;
    Ok(())
}

/// Plays the line of a charge.
pub fn updated(
    run: &mut Run,
    rules: PlayRules,
    place: ProbedLine,
    line: Updated,
    choice: LineChoice,
) -> Result<(), AllocError>
    ensures { OnOk result (rules.change ≡ None → rules.has_dequeues ≡ true → Goes (state_of run.old)
        (updated_by rules (state_of run.old) place line choice ((state_of run.old).tasks line.pid))
        (state_of run.new)) }
{
    match run.task_number(line.pid) {
        None => uncharged(run, rules, place, line, choice),
        Some(number) => {
            let charge = ChargeLine {
                place,
                number,
                line,
                choice,
            };
            update_task(run, rules, charge)
        }
    }
}

/// Notes the rules of a charge.
fn note_spent(
    run: &mut Run,
    rules: PlayRules,
    charge: ChargeLine,
    entity: Entity,
    done: &Spending,
) -> Result<(), AllocError>
    ensures { state_of run.new ≡ state_of run.old }
{
    let place = charge.place;
    let number = charge.number;
    if ran(charge.line) {
        note_charge(run, rules, charge, entity)?;
    }
    match done.spent {
        Spent::RunsOn => {}
        Spent::Throttled => run.note_entity(place, number, ExactRule::Throttled)?,
        Spent::Yielded => run.note_entity(place, number, ExactRule::Yielded)?,
    }
    if done.is_enqueued_again {
        run.note_entity(place, number, ExactRule::ReplenishedAtOnce)
    } else {
        Ok(())
    }
}

fn note_charge(
    run: &mut Run,
    rules: PlayRules,
    charge: ChargeLine,
    entity: Entity,
) -> Result<(), AllocError>
    ensures { state_of run.new ≡ state_of run.old }
{
    let line = charge.line;
    let choice = charge.choice;
    let full = full_cost(run, rules, entity, line, choice.extra_bw);
    let runqueue = charged_runqueue(line, choice.extra_bw);
    run.note_charge(
        charge.number,
        LastCharge {
            line: charge.place.line,
            nanos: delta_of(line.ran).cast_unsigned(),
            cost: choice.cost.unwrap_or(full),
            this_bw: line.sums.this_bw,
            running_bw: line.sums.running_bw,
            extra_bw: runqueue.sums.extra_bw,
            max_bw: runqueue.max_bw,
            bw_ratio: line.bw_ratio,
            dl_bw: entity.dl_bw,
        },
    );
    if choice.extra_bw.is_some() {
        let is_open = run.now() <= run.open_until();
        run.note_rule(if is_open {
            ExactRule::ExtraUnknown
        } else {
            ExactRule::ChargeReadLater
        });
    }
    if choice.cost.is_some() {
        return run.note_entity(charge.place, charge.number, ExactRule::SpeedUnknown);
    }
    let law = law_shown(rules.law, line.ran);
    let rule = match charging_by(rules.change, law, entity, runqueue) {
        Charge::InFull => ExactRule::ChargeInFull,
        Charge::ByItsBandwidth => ExactRule::ChargeByItsBandwidth,
        Charge::ByWhatIsLeft => ExactRule::ChargeByWhatIsLeft,
    };
    run.note_entity(charge.place, charge.number, rule)
}
