//! A task is dequeued, or moves at a wake (`dequeue_task_dl`, `migrate_task_rq_dl`).
#![tactic(auto, using(probe_values::proofs::Steps::both, probe_values::proofs::Steps::both_at))]

ghost use Rattle.std.specs.Prelude.{◌≡◌, ◌&&◌, None, OnOk, true};
ghost use Rattle.probe_run.specs.Runs.{state_of};
ghost use Rattle.probe_run.specs.Counting.{Goes, Holds};
ghost use Rattle.probe_values.specs.Shown.{sums_agree, dequeued_agrees};
ghost use Rattle.probe_tasks.specs.Tasks.{before_dequeue, dequeued_next, dequeued_with, dequeued_by, migrating_actor, migrating_with, migrating_by};

use crate::expected::yields_off_the_tree;
use kernel_rules::Delayed;
use probe_findings::{ExactRule, ProbedLine};
use probe_run::{Actor, Awaits, OpenDequeue, PlayRules, Run};
use probe_values::{
    Compared, ShownSums, check_sums, compare_dequeued, read_and_keep, shown_dequeued, with_yield,
};
use std::alloc::AllocError;
use trace_data::{Dequeued, Migrating};

/// TASK_WAKING.
const WAKING: u64 = 512;

/// The task as it should be at its dequeue.
fn before_dequeue(actor: Actor, line: Dequeued) -> Actor
    ensures { result ≡ before_dequeue actor line }
{
    let yields = yields_off_the_tree(actor, line.budget.is_yielded);
    with_yield(actor, yields)
}

fn check_dequeue(
    run: &mut Run,
    rules: PlayRules,
    of: Compared,
    line: Dequeued,
) -> Result<(), AllocError>
    ensures { OnOk result (rules.has_dequeues ≡ true → Holds (state_of run.old)
        (sums_agree (state_of run.old) line.cpu line.sums && dequeued_agrees of.actor line)
        (state_of run.new)) }
{
    check_sums(run, rules, of.place, line.cpu, line.sums)?;
    compare_dequeued(run, of, line)
}

fn keep_dequeue(
    run: &mut Run,
    rules: PlayRules,
    of: Compared,
    line: Dequeued,
) -> Result<(), AllocError>
    ensures state { OnOk result (rules.has_dequeues ≡ true → state_of run.new
        ≡ dequeued_next (state_of run.old) of.place of.number of.actor line) }
    ensures first { OnOk result ((state_of run.new).first ≡ (state_of run.old).first) }
{
    let sums = ShownSums {
        place: of.place,
        cpu: line.cpu,
        sums: line.sums,
    };
    read_and_keep(run, rules, sums, of.number, shown_dequeued(of.actor, line))?;
    run.begin_open_dequeue(OpenDequeue {
        place: of.place,
        entity: of.number,
        cpu: line.cpu,
        flags: line.flags,
        on_rq: line.on_rq,
        clock: line.clock,
        current: line.current,
        awaits: Awaits::Charge,
    })
}

fn begin_dequeue(
    run: &mut Run,
    rules: PlayRules,
    place: ProbedLine,
    number: usize,
    line: Dequeued,
) -> Result<(), AllocError>
    ensures { OnOk result (rules.has_dequeues ≡ true → Goes (state_of run.old)
        (dequeued_with (state_of run.old) place number line) (state_of run.new)) }
{
    let of = Compared {
        place,
        number,
        actor: before_dequeue(run.actor(number), line),
    };
    check_dequeue(run, rules, of, line)?;
    keep_dequeue(run, rules, of, line)?;
    Ok(())
}

/// Plays the line of a dequeue, up to the charge within it.
pub fn dequeued(
    run: &mut Run,
    rules: PlayRules,
    place: ProbedLine,
    line: Dequeued,
) -> Result<(), AllocError>
    ensures { OnOk result (rules.has_dequeues ≡ true → Goes (state_of run.old)
        (dequeued_by (state_of run.old) place line) (state_of run.new)) }
{
    let number = run.task(line.pid)?;
    begin_dequeue(run, rules, place, number, line)?;
    Ok(())
}

fn migrate(run: &mut Run, place: ProbedLine, number: usize, actor: Actor) -> Result<(), AllocError>
    ensures state { OnOk result (state_of run.new
        ≡ migrating_actor (state_of run.old) place number actor) }
    ensures first { OnOk result ((state_of run.new).first ≡ (state_of run.old).first) }
{
    if !actor.knows_parameters {
        run.forget_all();
        return Ok(());
    }
    if !actor.entity.is_in_class || actor.entity.parameters.dl_runtime == 0 {
        return Ok(());
    }
    run.note_both(place, number, actor.cpu, ExactRule::MovedAtWake)?;
    run.pend_lock(place, actor.cpu, number, Delayed::Moved)
}

/// Plays the line of a move: what it does at a wake comes with its lock.
pub fn migrating(run: &mut Run, place: ProbedLine, line: Migrating) -> Result<(), AllocError>
    ensures state { OnOk result (state_of run.new ≡ migrating_by (state_of run.old) place line) }
    ensures first { OnOk result ((state_of run.new).first ≡ (state_of run.old).first) }
{
    if line.state != WAKING {
        return Ok(());
    }
    match run.task_number(line.pid) {
        None => {
            run.forget_all();
            Ok(())
        }
        Some(number) => {
            let actor = run.actor(number);
            migrate(run, place, number, actor)
        }
    }
}
