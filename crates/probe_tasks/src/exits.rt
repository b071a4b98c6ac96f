//! A task leaves the class (`switched_from_dl`).
#![tactic(auto, using(probe_values::proofs::Steps::both, probe_values::proofs::Steps::both_at))]

ghost use Rattle.std.specs.Prelude.{◌≡◌, ◌&&◌, None, OnOk, true};
ghost use Rattle.kernel_rules.specs.Leave.{outside_of};
ghost use Rattle.probe_run.specs.Runs.{state_of};
ghost use Rattle.probe_run.specs.Counting.{Goes, Holds};
ghost use Rattle.probe_run.specs.Handlers.{handler_runs};
ghost use Rattle.probe_values.specs.Shown.{sums_agree, left_agrees};
ghost use Rattle.probe_tasks.specs.Tasks.{left_known, left_unknown, left_shown_by, left_next, left_with, left_by};

use kernel_rules::Entity;
use probe_findings::{ExactRule, ProbedLine};
use probe_run::{Actor, BlockedEntity, PlayRules, Run, is_special, leave_while};
use probe_values::{Compared, check_sums, compare_left, shown_left};
use std::alloc::AllocError;
use trace_data::LeftClass;

#[tactic(auto, unfolding(kernel_rules::specs::Leave::outside_of))]
fn outside(entity: Entity) -> Entity
    ensures { result ≡ outside_of entity }
{
    Entity {
        is_in_class: false,
        is_queued: false,
        ..entity
    }
}

fn leave_known(
    run: &mut Run,
    rules: PlayRules,
    place: ProbedLine,
    number: usize,
    line: LeftClass,
    actor: Actor,
) -> Result<(), AllocError>
    ensures state { OnOk result (rules.change ≡ None → state_of run.new
        ≡ left_known rules (state_of run.old) place number line actor) }
    ensures first { OnOk result ((state_of run.new).first ≡ (state_of run.old).first) }
{
    if is_special(actor.entity) {
        run.keep(
            number,
            Actor {
                entity: Entity {
                    is_non_contending: false,
                    ..outside(actor.entity)
                },
                ..actor
            },
        );
        return Ok(());
    }
    let runs = run.handler_runs(number);
    let done = leave_while(rules.change, runs, actor.entity, line.on_rq, line.clock);
    run.keep(
        number,
        Actor {
            entity: done.entity,
            ..actor
        },
    );
    run.change(line.cpu, done.change)?;
    let blocked = BlockedEntity {
        number,
        cpu: actor.cpu,
        change: done.change,
        block: done.block,
    };
    run.block(rules, place, blocked)
}

fn leave_unknown(
    run: &mut Run,
    place: ProbedLine,
    number: usize,
    line: LeftClass,
    actor: Actor,
) -> Result<(), AllocError>
    ensures state { OnOk result (state_of run.new
        ≡ left_unknown (state_of run.old) place number line actor) }
    ensures first { OnOk result ((state_of run.new).first ≡ (state_of run.old).first) }
{
    run.keep(
        number,
        Actor {
            entity: outside(actor.entity),
            ..actor
        },
    );
    run.forget(line.cpu)?;
    run.begin_older_dequeue(place.cpu, number)
}

fn check_leave(
    run: &mut Run,
    rules: PlayRules,
    of: Compared,
    line: LeftClass,
) -> Result<(), AllocError>
    ensures { OnOk result (rules.has_dequeues ≡ true → Holds (state_of run.old)
        (sums_agree (state_of run.old) line.cpu line.sums && left_agrees of.actor line)
        (state_of run.new)) }
{
    check_sums(run, rules, of.place, line.cpu, line.sums)?;
    compare_left(run, of, line)
}

fn leave_shown(
    run: &mut Run,
    rules: PlayRules,
    of: Compared,
    line: LeftClass,
    shown: Actor,
) -> Result<(), AllocError>
    ensures state { OnOk result (rules.change ≡ None → state_of run.new
        ≡ left_shown_by rules (state_of run.old) of.place of.number line of.actor.knows_parameters shown) }
    ensures first { OnOk result ((state_of run.new).first ≡ (state_of run.old).first) }
{
    if of.actor.knows_parameters {
        leave_known(run, rules, of.place, of.number, line, shown)
    } else {
        leave_unknown(run, of.place, of.number, line, shown)
    }
}

fn keep_leave(
    run: &mut Run,
    rules: PlayRules,
    of: Compared,
    line: LeftClass,
) -> Result<(), AllocError>
    ensures state { OnOk result (rules.change ≡ None → rules.has_dequeues ≡ true → state_of run.new
        ≡ left_next rules (state_of run.old) of.place of.number of.actor line) }
    ensures first { OnOk result ((state_of run.new).first ≡ (state_of run.old).first) }
{
    run.note_both(of.place, of.number, line.cpu, ExactRule::LeftClass)?;
    run.read_sums(rules, of.place, line.cpu, line.sums)?;
    let shown = shown_left(of.actor, line);
    leave_shown(run, rules, of, line, shown)?;
    Ok(())
}

fn leave(
    run: &mut Run,
    rules: PlayRules,
    place: ProbedLine,
    number: usize,
    line: LeftClass,
) -> Result<(), AllocError>
    ensures { OnOk result (rules.change ≡ None → rules.has_dequeues ≡ true → Goes (state_of run.old)
        (left_with rules (state_of run.old) place number line) (state_of run.new)) }
{
    let of = Compared {
        place,
        number,
        actor: run.actor(number),
    };
    check_leave(run, rules, of, line)?;
    keep_leave(run, rules, of, line)?;
    Ok(())
}

/// Plays the line of a task that leaves the class.
pub fn left_class(
    run: &mut Run,
    rules: PlayRules,
    place: ProbedLine,
    line: LeftClass,
) -> Result<(), AllocError>
    ensures { OnOk result (rules.change ≡ None → rules.has_dequeues ≡ true → Goes (state_of run.old)
        (left_by rules (state_of run.old) place line) (state_of run.new)) }
{
    let number = run.task(line.pid)?;
    leave(run, rules, place, number, line)?;
    Ok(())
}
