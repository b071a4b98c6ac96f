//! A line, of whatever kind.
#![tactic(auto, using(probe_values::proofs::Steps::both, probe_values::proofs::Steps::made, probe_values::proofs::Steps::unchanged, probe_values::proofs::Steps::never))]

ghost use Rattle.std.specs.Prelude.{◌≡◌, ◌&&◌, None, OnOk, false, true};
ghost use Rattle.std.specs.List.{list_any, list_all};
ghost use Rattle.probe_run.specs.Runs.{state_of};
ghost use Rattle.probe_run.specs.Counting.{Goes, Holds};
ghost use Rattle.probe_run.specs.Moves.{is_claim_by};
ghost use Rattle.probe_lines.specs.Lines.{follows_by, waits_for, came_early, is_effect_by, is_timer_to_arm_by, is_armed, is_mark, is_passed_over, is_charge, calls_are_done, timers_are_armed, is_free_for, is_first_of, before_line, none_chosen, choice_fits, played_by, checked_line_of, line_of};

use crate::{
    armed, marked, picked, replenish_fired, server_started, server_stopped, stops_nothing,
    zero_lag_fired,
};
use kernel_rules::{REPLENISH, has};
use probe_findings::{ExactValue, ProbedFunction, ProbedLine, Quantity};
use probe_run::{
    Awaits, Claim, ComparedValue, Counted, OpenDequeue, PendingEffect, PlayRules, Run, TimerToArm,
    moves_offline,
};
use probe_tasks::{LineChoice, admitted, dequeued, enqueued, left_class, migrating, updated};
use probe_values::check_choice;
use std::alloc::AllocError;
use trace_data::{IdleCharge, Mark, Probe};

/// The function whose entry a line shows.
pub fn event_of(probe: &Probe) -> ProbedFunction {
    match probe {
        Probe::Enqueued(_) => ProbedFunction::Enqueue,
        Probe::Updated(_) => ProbedFunction::Update,
        Probe::Dequeued(_) => ProbedFunction::Dequeue,
        Probe::Migrating(_) => ProbedFunction::Migrate,
        Probe::LeftClass(_) => ProbedFunction::Leave,
        Probe::Admitted(_) => ProbedFunction::Admit,
        Probe::ZeroLagFired { .. } => ProbedFunction::ZeroLagFires,
        Probe::ReplenishFired { .. } => ProbedFunction::ReplenishFires,
        Probe::Armed(_) => ProbedFunction::TimerStarts,
        Probe::ServerStarted(_) => ProbedFunction::ServerStarts,
        Probe::Picked(_) => ProbedFunction::Pick,
        Probe::ServerStopped(_) => ProbedFunction::ServerStops,
        Probe::ServerIdled(line) => match line.charge {
            IdleCharge::Update => ProbedFunction::ServerIdles,
            IdleCharge::EndOfIdle => ProbedFunction::IdleEnds,
        },
        Probe::Mark(mark) => event_of_mark(mark),
    }
}

fn event_of_mark(mark: &Mark) -> ProbedFunction {
    match mark {
        Mark::DomainAttached { .. } => ProbedFunction::AttachDomain,
        Mark::BandwidthTaken { .. } => ProbedFunction::TakeBandwidth,
        Mark::BandwidthFreed { .. } => ProbedFunction::FreeBandwidth,
        Mark::LimitHandled { .. } => ProbedFunction::HandleLimit,
        Mark::TaskRebuilt { .. } => ProbedFunction::RebuildTask,
        Mark::AffinitySet { .. } => ProbedFunction::SetAffinity,
        Mark::ServerChanged { .. } => ProbedFunction::ChangeServer,
        Mark::CpuDeactivated { .. } => ProbedFunction::DeactivateCpu,
        Mark::CpuActivated { .. } => ProbedFunction::ActivateCpu,
    }
}

fn follows_charge(rest: OpenDequeue, probe: &Probe) -> bool
    ensures { result ≡ follows_by rest Awaits.Charge probe.now }
{
    match probe {
        Probe::Updated(line) => line.pid == rest.current && line.cpu == rest.cpu,
        _ => false,
    }
}

fn follows_enqueue(rest: OpenDequeue, probe: &Probe) -> bool
    ensures { result ≡ follows_by rest Awaits.Enqueue probe.now }
{
    match probe {
        Probe::Enqueued(line) => line.pid == rest.current && has(line.flags, REPLENISH),
        _ => false,
    }
}

/// Whether a dequeue waits for this line of its CPU.
fn follows(rest: OpenDequeue, probe: &Probe) -> bool
    ensures { result ≡ follows_by rest rest.awaits probe.now }
{
    match rest.awaits {
        Awaits::Charge => follows_charge(rest, probe),
        Awaits::Enqueue => follows_enqueue(rest, probe),
        Awaits::Nothing => false,
    }
}

fn has_effect(pending: &[PendingEffect], by: u32) -> bool
    ensures { result ≡ list_any (is_effect_by by) pending.now }
{
    pending
        .iter()
        .any(|one| one.place.cpu == by && !moves_offline(one.effect))
}

fn has_claim(claims: &[Claim], by: u32) -> bool
    ensures { result ≡ list_any (is_claim_by by) claims.now }
{
    claims.iter().any(|one| one.place.cpu == by)
}

fn all_wait_for(open_dequeues: &[OpenDequeue], by: u32, probe: &Probe) -> bool
    ensures { result ≡ list_all (waits_for by probe.now) open_dequeues.now }
{
    open_dequeues
        .iter()
        .all(|one| !(one.place.cpu == by) || follows(*one, probe))
}

fn has_come_early(early: &[OpenDequeue], by: u32, probe: &Probe) -> bool
    ensures { result ≡ list_any (came_early by probe.now) early.now }
{
    early
        .iter()
        .any(|one| one.place.cpu == by && follows_charge(*one, probe))
}

fn timer_to_arm_place(timers_to_arm: &[TimerToArm], by: u32) -> Option<usize> {
    timers_to_arm.iter().position(|one| one.place.cpu == by)
}

fn has_timer_to_arm(timers_to_arm: &[TimerToArm], by: u32) -> bool
    ensures { result ≡ list_any (is_timer_to_arm_by by) timers_to_arm.now }
{
    timers_to_arm.iter().any(|one| one.place.cpu == by)
}

fn is_timer(probe: &Probe) -> bool
    ensures { result ≡ is_armed probe.now }
{
    match probe {
        Probe::Armed(_) => true,
        _ => false,
    }
}

fn is_charge(probe: &Probe) -> bool
    ensures { result ≡ is_charge probe.now }
{
    match probe {
        Probe::Updated(_) => true,
        _ => false,
    }
}

fn is_mark(run: &Run, probe: &Probe) -> bool
    ensures { result ≡ is_mark (state_of run.now) probe.now }
{
    match probe {
        Probe::Mark(_) => true,
        Probe::ServerStopped(line) => stops_nothing(run, *line),
        _ => false,
    }
}

fn is_passed_over(probe: &Probe) -> bool
    ensures { result ≡ is_passed_over probe.now }
{
    match probe {
        Probe::Updated(line) => line.is_server,
        Probe::ServerIdled(_) => true,
        _ => false,
    }
}

fn are_calls_done(run: &Run, by: u32, probe: &Probe) -> bool
    ensures { result ≡ calls_are_done (state_of run.now) by probe.now }
{
    !has_effect(run.pending(), by)
        && !has_claim(run.claims(), by)
        && all_wait_for(run.open_dequeues(), by, probe)
        && !has_come_early(run.early(), by, probe)
}

fn are_timers_armed(run: &Run, by: u32, probe: &Probe) -> bool
    ensures { result ≡ timers_are_armed (state_of run.now) by probe.now }
{
    is_timer(probe) || is_mark(run, probe) || !has_timer_to_arm(run.timers_to_arm(), by)
}

fn is_none_chosen(choice: LineChoice) -> bool
    ensures { result ≡ none_chosen choice }
{
    choice.extra_bw.is_none() && choice.late.is_none() && choice.cost.is_none()
}

fn fits(probe: &Probe, choice: LineChoice) -> bool
    ensures { result ≡ choice_fits probe.now choice }
{
    match probe {
        Probe::Updated(_) => choice.late.is_none(),
        Probe::Enqueued(_) => choice.extra_bw.is_none() && choice.cost.is_none(),
        _ => is_none_chosen(choice),
    }
}

/// Counts a timer that was to be armed, and forgets that it was.
fn miss_timer(run: &mut Run, place: ProbedLine) -> Result<(), AllocError>
    ensures { OnOk result (Holds (state_of run.old) false (state_of run.new)) }
{
    match timer_to_arm_place(run.timers_to_arm(), place.cpu) {
        None => run.refuse(place),
        Some(index) => match run.timer_to_arm(index) {
            None => run.refuse(place),
            Some(timer_to_arm) => {
                run.drop_timer_to_arm(index);
                run.count(
                    place,
                    ComparedValue {
                        of: Counted::Entity(timer_to_arm.entity),
                        quantity: Quantity::Timer,
                        rules: ExactValue::Armed(timer_to_arm.function),
                        kernel: ExactValue::NotArmed(timer_to_arm.function),
                    },
                    false,
                )
            }
        },
    }
}

fn miss_timers(run: &mut Run, place: ProbedLine) -> Result<(), AllocError>
    ensures { OnOk result (Holds (state_of run.old) false (state_of run.new)) }
{
    let count = run
        .timers_to_arm()
        .iter()
        .filter(|one| one.place.cpu == place.cpu)
        .count();
    for _ in 1..count {
        miss_timer(run, place)?;
    }
    miss_timer(run, place)
}

fn check_timers(run: &mut Run, place: ProbedLine, probe: &Probe) -> Result<(), AllocError>
    ensures { OnOk result (Holds (state_of run.old)
        (timers_are_armed (state_of run.old) place.cpu probe.now) (state_of run.new)) }
{
    if are_timers_armed(run, place.cpu, probe) {
        Ok(())
    } else {
        miss_timers(run, place)
    }
}

fn check_line(
    run: &mut Run,
    place: ProbedLine,
    probe: &Probe,
    choice: LineChoice,
) -> Result<(), AllocError>
    ensures { OnOk result (Holds (state_of run.old)
        (is_free_for (state_of run.old) place.cpu probe.now && choice_fits probe.now choice)
        (state_of run.new)) }
{
    let is_done = are_calls_done(run, place.cpu, probe);
    check_choice(run, place, is_done)?;
    check_timers(run, place, probe)?;
    check_choice(run, place, fits(probe, choice))
}

fn is_first(run: &Run, rules: PlayRules, by: u32) -> bool
    ensures { result ≡ is_first_of rules (state_of run.now) by }
{
    rules.begins_amid && !run.has_written(by)
}

fn begin(run: &mut Run, place: ProbedLine, probe: &Probe) -> Result<(), AllocError>
    ensures state { OnOk result (state_of run.new ≡ before_line (state_of run.old) place probe.now) }
    ensures first { OnOk result ((state_of run.new).first ≡ (state_of run.old).first) }
{
    let keeps_older_dequeues = is_timer(probe) || is_mark(run, probe);
    let is_quiet = is_timer(probe) || is_charge(probe);
    run.begin(place, !keeps_older_dequeues, !is_quiet)
}

fn play(
    run: &mut Run,
    rules: PlayRules,
    place: ProbedLine,
    probe: &Probe,
    choice: LineChoice,
    first: bool,
) -> Result<(), AllocError>
    ensures { OnOk result (rules.change ≡ None → rules.has_dequeues ≡ true → Goes (state_of run.old)
        (played_by rules (state_of run.old) place probe.now choice first) (state_of run.new)) }
{
    match probe {
        Probe::Enqueued(line) => enqueued(run, rules, place, *line, choice.late),
        Probe::Updated(line) => updated(run, rules, place, *line, choice),
        Probe::Dequeued(line) => dequeued(run, rules, place, *line),
        Probe::Migrating(line) => migrating(run, place, *line),
        Probe::LeftClass(line) => left_class(run, rules, place, *line),
        Probe::Admitted(line) => admitted(run, rules, place, *line),
        Probe::ZeroLagFired { timer } => zero_lag_fired(run, place, *timer),
        Probe::ReplenishFired { timer, served_by } => {
            replenish_fired(run, rules, place, *timer, *served_by)
        }
        Probe::Armed(line) => armed(run, rules, place, *line, first),
        Probe::ServerStarted(line) => server_started(run, rules, place, *line),
        Probe::Picked(line) => picked(run, rules, place, *line),
        Probe::ServerStopped(line) => {
            if stops_nothing(run, *line) {
                Ok(())
            } else {
                server_stopped(run, rules, place, *line)
            }
        }
        Probe::ServerIdled(_) => Ok(()),
        Probe::Mark(mark) => marked(run, place, *mark),
    }
}

fn play_free(
    run: &mut Run,
    rules: PlayRules,
    place: ProbedLine,
    probe: &Probe,
    choice: LineChoice,
) -> Result<(), AllocError>
    ensures { OnOk result (rules.change ≡ None → rules.has_dequeues ≡ true → Goes (state_of run.old)
        (played_by rules (before_line (state_of run.old) place probe.now) place probe.now choice
        (is_first_of rules (state_of run.old) place.cpu)) (state_of run.new)) }
{
    let first = is_first(run, rules, place.cpu);
    begin(run, place, probe)?;
    play(run, rules, place, probe, choice, first)?;
    Ok(())
}

fn play_checked(
    run: &mut Run,
    rules: PlayRules,
    place: ProbedLine,
    probe: &Probe,
    choice: LineChoice,
) -> Result<(), AllocError>
    ensures { OnOk result (rules.change ≡ None → rules.has_dequeues ≡ true → Goes (state_of run.old)
        (checked_line_of rules (state_of run.old) place probe.now choice) (state_of run.new)) }
{
    check_line(run, place, probe, choice)?;
    play_free(run, rules, place, probe, choice)?;
    Ok(())
}

/// Plays the next line: what is refused and what differs is counted, and the kernel's values are taken.
pub fn play_line(
    run: &mut Run,
    rules: PlayRules,
    place: ProbedLine,
    probe: &Probe,
    choice: LineChoice,
) -> Result<(), AllocError>
    ensures { OnOk result (rules.change ≡ None → rules.has_dequeues ≡ true → Goes (state_of run.old)
        (line_of rules (state_of run.old) place probe.now choice) (state_of run.new)) }
{
    if is_passed_over(probe) {
        Ok(())
    } else {
        play_checked(run, rules, place, probe, choice)
    }
}
