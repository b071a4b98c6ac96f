//! A fair server starts, or stops (`enqueue_dl_entity`, `pick_task_dl`, `dl_server_stop`).
#![tactic(auto, using(probe_values::proofs::Steps::both, probe_values::proofs::Steps::unchanged))]

ghost use Rattle.std.specs.Prelude.{◌≡◌, ◌&&◌, None, OnOk, true};
ghost use Rattle.probe_run.specs.Runs.{state_of};
ghost use Rattle.probe_run.specs.State.{with_server, server_number};
ghost use Rattle.probe_run.specs.Counting.{Goes, Holds, where_it_holds};
ghost use Rattle.probe_values.specs.Shown.{sums_agree, contending_agrees};
ghost use Rattle.probe_lines.specs.Servers.{serving_by, started_next, started_with, started_by, stopping_of, stopped_next, stopped_with, stopped_by, stops_where_picked, stop_of, picked_by, was_stopped, does_nothing};

use kernel_rules::{Entity, WAKEUP, contended, contending, contending_change, has, reserved};
use probe_findings::{ExactRule, ProbedLine};
use probe_run::{Actor, PlayRules, Run, dequeue_while, server_parameters};
use probe_values::{
    Compared, ShownSums, change_and_block, check_sums, compare_contending, note_contention,
    read_and_keep, shown_contending,
};
use std::alloc::AllocError;
use trace_data::{Budget, Picked, ServerStarted, ServerStopped, Sums};

fn serving(actor: Actor, cpu: u32, dl_runtime: u64, dl_period: u64) -> Actor
    ensures { result ≡ serving_by actor cpu dl_runtime dl_period }
{
    Actor {
        entity: reserved(actor.entity, server_parameters(dl_runtime, dl_period)),
        cpu,
        ..actor
    }
}

fn check_server(
    run: &mut Run,
    rules: PlayRules,
    of: Compared,
    sums: Sums,
    is_non_contending: bool,
) -> Result<(), AllocError>
    ensures { OnOk result (rules.has_dequeues ≡ true → Holds (state_of run.old)
        (sums_agree (state_of run.old) of.actor.cpu sums
        && contending_agrees of.actor is_non_contending) (state_of run.new)) }
{
    check_sums(run, rules, of.place, of.actor.cpu, sums)?;
    compare_contending(run, of, is_non_contending)
}

fn keep_start(
    run: &mut Run,
    rules: PlayRules,
    of: Compared,
    line: ServerStarted,
) -> Result<(), AllocError>
    ensures state { OnOk result (rules.has_dequeues ≡ true → state_of run.new
        ≡ started_next (state_of run.old) of.place of.number of.actor line) }
    ensures first { OnOk result ((state_of run.new).first ≡ (state_of run.old).first) }
{
    let shown = shown_contending(of.actor, line.is_non_contending);
    let contention = contending(shown.entity);
    run.note_rule(ExactRule::ServerStarted);
    note_contention(run, of.place, line.cpu, contention)?;
    let sums = ShownSums {
        place: of.place,
        cpu: line.cpu,
        sums: line.sums,
    };
    let kept = Actor {
        entity: contended(shown.entity, contention),
        is_stopped: false,
        ..shown
    };
    read_and_keep(run, rules, sums, of.number, kept)?;
    run.change(line.cpu, contending_change(shown.entity, 0, contention))
}

fn start(
    run: &mut Run,
    rules: PlayRules,
    of: Compared,
    line: ServerStarted,
) -> Result<(), AllocError>
    ensures { OnOk result (rules.has_dequeues ≡ true → Goes (state_of run.old)
        (where_it_holds (sums_agree (state_of run.old) of.actor.cpu line.sums && contending_agrees of.actor line.is_non_contending)
        (started_next (state_of run.old) of.place of.number of.actor line)) (state_of run.new)) }
{
    check_server(run, rules, of, line.sums, line.is_non_contending)?;
    keep_start(run, rules, of, line)?;
    Ok(())
}

fn start_server(
    run: &mut Run,
    rules: PlayRules,
    place: ProbedLine,
    number: usize,
    line: ServerStarted,
) -> Result<(), AllocError>
    ensures { OnOk result (rules.has_dequeues ≡ true → Goes (state_of run.old)
        (started_with (state_of run.old) place number line) (state_of run.new)) }
{
    let actor = run.actor(number);
    let of = Compared {
        place,
        number,
        actor: serving(actor, line.cpu, line.dl_runtime, line.dl_period),
    };
    start(run, rules, of, line)?;
    Ok(())
}

fn start_known(
    run: &mut Run,
    rules: PlayRules,
    place: ProbedLine,
    line: ServerStarted,
) -> Result<(), AllocError>
    ensures { OnOk result (rules.has_dequeues ≡ true → Goes (state_of run.old)
        (started_with (with_server (state_of run.old) line.cpu) place (server_number (state_of run.old) line.cpu) line)
        (state_of run.new)) }
{
    let number = run.server(line.cpu)?;
    start_server(run, rules, place, number, line)?;
    Ok(())
}

/// Plays the line of a server that starts.
pub fn server_started(
    run: &mut Run,
    rules: PlayRules,
    place: ProbedLine,
    line: ServerStarted,
) -> Result<(), AllocError>
    ensures { OnOk result (rules.has_dequeues ≡ true → Goes (state_of run.old)
        (started_by (state_of run.old) place line) (state_of run.new)) }
{
    if line.is_server && has(line.flags, WAKEUP) {
        start_known(run, rules, place, line)
    } else {
        Ok(())
    }
}

fn stopping(actor: Actor, line: ServerStopped) -> Actor
    ensures { result ≡ stopping_of actor line.runtime line.deadline }
{
    Actor {
        entity: Entity {
            budget: Budget {
                runtime: line.runtime,
                deadline: line.deadline,
                ..actor.entity.budget
            },
            ..actor.entity
        },
        is_stopped: true,
        ..actor
    }
}

fn keep_stop(
    run: &mut Run,
    rules: PlayRules,
    of: Compared,
    line: ServerStopped,
) -> Result<(), AllocError>
    ensures state { OnOk result (rules.change ≡ None → rules.has_dequeues ≡ true → state_of run.new
        ≡ stopped_next rules (state_of run.old) of.place of.number of.actor line) }
    ensures first { OnOk result ((state_of run.new).first ≡ (state_of run.old).first) }
{
    let contending = shown_contending(of.actor, line.is_non_contending);
    let shown = stopping(contending, line);
    let runs = run.handler_runs(of.number);
    let done = dequeue_while(rules.change, runs, shown.entity, WAKEUP, 0, line.clock);
    run.note_rule(ExactRule::ServerStopped);
    let sums = ShownSums {
        place: of.place,
        cpu: line.cpu,
        sums: line.sums,
    };
    let kept = Actor {
        entity: done.entity,
        ..shown
    };
    read_and_keep(run, rules, sums, of.number, kept)?;
    change_and_block(run, rules, sums, of.number, done.change, done.block)?;
    Ok(())
}

fn stop(
    run: &mut Run,
    rules: PlayRules,
    of: Compared,
    line: ServerStopped,
) -> Result<(), AllocError>
    ensures { OnOk result (rules.change ≡ None → rules.has_dequeues ≡ true → Goes (state_of run.old)
        (where_it_holds (sums_agree (state_of run.old) of.actor.cpu line.sums && contending_agrees of.actor line.is_non_contending)
        (stopped_next rules (state_of run.old) of.place of.number of.actor line)) (state_of run.new)) }
{
    check_server(run, rules, of, line.sums, line.is_non_contending)?;
    keep_stop(run, rules, of, line)?;
    Ok(())
}

fn stop_server(
    run: &mut Run,
    rules: PlayRules,
    place: ProbedLine,
    number: usize,
    line: ServerStopped,
) -> Result<(), AllocError>
    ensures { OnOk result (rules.change ≡ None → rules.has_dequeues ≡ true → Goes (state_of run.old)
        (stopped_with rules (state_of run.old) place number line) (state_of run.new)) }
{
    let actor = run.actor(number);
    let of = Compared {
        place,
        number,
        actor: serving(actor, line.cpu, line.dl_runtime, line.dl_period),
    };
    stop(run, rules, of, line)?;
    Ok(())
}

/// Plays the line of a server that stops.
pub fn server_stopped(
    run: &mut Run,
    rules: PlayRules,
    place: ProbedLine,
    line: ServerStopped,
) -> Result<(), AllocError>
    ensures { OnOk result (rules.change ≡ None → rules.has_dequeues ≡ true → Goes (state_of run.old)
        (stopped_by rules (state_of run.old) place line) (state_of run.new)) }
{
    let number = run.server(line.cpu)?;
    stop_server(run, rules, place, number, line)?;
    Ok(())
}

fn stops(line: Picked) -> bool
    ensures { result ≡ stops_where_picked line }
{
    line.is_active && !line.is_throttled && line.fair_tasks == 0 && line.earliest == line.deadline
}

fn stop_of(line: Picked) -> ServerStopped
    ensures { result ≡ stop_of line }
{
    ServerStopped {
        cpu: line.cpu,
        clock: line.clock,
        is_active: line.is_active,
        runtime: line.runtime,
        deadline: line.deadline,
        dl_runtime: line.dl_runtime,
        dl_period: line.dl_period,
        is_non_contending: line.is_non_contending,
        sums: line.sums,
    }
}

fn stop_picked(
    run: &mut Run,
    rules: PlayRules,
    place: ProbedLine,
    line: Picked,
) -> Result<(), AllocError>
    ensures { OnOk result (rules.change ≡ None → rules.has_dequeues ≡ true → Goes (state_of run.old)
        (stopped_by rules (state_of run.old) place (stop_of line)) (state_of run.new)) }
{
    let stop = stop_of(line);
    server_stopped(run, rules, place, stop)?;
    Ok(())
}

/// Plays the line of a pick: a server that is first and has no task stops.
pub fn picked(
    run: &mut Run,
    rules: PlayRules,
    place: ProbedLine,
    line: Picked,
) -> Result<(), AllocError>
    ensures { OnOk result (rules.change ≡ None → rules.has_dequeues ≡ true → Goes (state_of run.old)
        (picked_by rules (state_of run.old) place line) (state_of run.new)) }
{
    if stops(line) {
        stop_picked(run, rules, place, line)
    } else {
        Ok(())
    }
}

fn is_stopped(run: &Run, number: Option<usize>) -> bool
    ensures { result ≡ was_stopped (state_of run.now) number }
{
    match number {
        None => false,
        Some(number) => run.actor(number).is_stopped,
    }
}

/// Whether a server that is to stop is stopped already.
pub fn stops_nothing(run: &Run, line: ServerStopped) -> bool
    ensures { result ≡ does_nothing (state_of run.now) line }
{
    !line.is_active || is_stopped(run, run.server_number(line.cpu))
}
