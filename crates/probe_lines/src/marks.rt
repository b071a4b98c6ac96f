//! Functions that change sums by no rule of a task.

ghost use Rattle.std.specs.Prelude.{◌≡◌, OnOk};
ghost use Rattle.probe_run.specs.Runs.{state_of};
ghost use Rattle.probe_run.specs.Begin.{sap_opened};
ghost use Rattle.probe_lines.specs.Marks.{opened_if, opened_again, server_unknown, marked_by};

use kernel_rules::{DEADLINE_POLICY, Entity};
use probe_findings::{ProbedLine, Why};
use probe_run::{Actor, Counted, Run};
use std::alloc::AllocError;
use trace_data::Mark;

fn open_if(run: &mut Run, opens: bool)
    ensures state { state_of run.new ≡ opened_if opens (state_of run.old) }
    ensures first { (state_of run.new).first ≡ (state_of run.old).first }
{
    if opens {
        run.open();
    }
}

/// Where `extra_bw` is open it stays so for longer.
fn open_again(run: &mut Run, counts: bool)
    ensures state { state_of run.new ≡ opened_again (state_of run.old) counts }
    ensures first { (state_of run.new).first ≡ (state_of run.old).first }
{
    let is_open = run.now() <= run.open_until();
    open_if(run, counts && is_open);
}

/// The sums of a CPU's root domain were last changed by this.
fn note_domain(run: &mut Run, why: Why, cpu: u32) -> Result<(), AllocError>
    ensures { state_of run.new ≡ state_of run.old }
{
    run.note(Counted::ExtraBw(cpu), why)?;
    match run.domain_of(cpu) {
        Some(number) => run.note(Counted::TotalBw(number), why),
        None => Ok(()),
    }
}

/// `extra_bw` and `total_bw` were last changed by this line.
fn note_domains(run: &mut Run, place: ProbedLine) -> Result<(), AllocError>
    ensures { state_of run.new ≡ state_of run.old }
{
    let why = Why {
        line: place.line,
        event: place.event,
        rule: None,
    };
    'cpus: for k in 0..run.processors().len() {
        let cpu = run.processors().get(k).map_or(0, |one| one.cpu);
        note_domain(run, why, cpu)?;
    }
    Ok(())
}

/// A task of the class is counted again in its root domain, whose `total_bw` was set to 0 before.
fn rebuild(run: &mut Run, place: ProbedLine, counts: bool) -> Result<(), AllocError>
    ensures state { OnOk result (state_of run.new ≡ opened_again (state_of run.old) counts) }
    ensures first { OnOk result ((state_of run.new).first ≡ (state_of run.old).first) }
{
    open_again(run, counts);
    if counts && run.open_until() < run.now() {
        note_domains(run, place)
    } else {
        Ok(())
    }
}

fn forget_server(run: &mut Run, number: Option<usize>)
    ensures state { state_of run.new ≡ server_unknown (state_of run.old) number }
    ensures first { (state_of run.new).first ≡ (state_of run.old).first }
{
    match number {
        None => {}
        Some(number) => {
            let actor = run.actor(number);
            run.keep(
                number,
                Actor {
                    entity: Entity {
                        has_inactive_timer: false,
                        ..actor.entity
                    },
                    knows_contending: false,
                    knows_budget: false,
                    ..actor
                },
            );
        }
    }
}

fn change_server(run: &mut Run, cpu: u32) -> Result<(), AllocError>
    ensures state { OnOk result (state_of run.new
        ≡ server_unknown (sap_opened (state_of run.old) cpu) ((state_of run.old).servers cpu)) }
    ensures first { OnOk result ((state_of run.new).first ≡ (state_of run.old).first) }
{
    let number = run.server_number(cpu);
    run.open_runqueue(cpu)?;
    forget_server(run, number);
    Ok(())
}

/// Plays a mark.
pub fn marked(run: &mut Run, place: ProbedLine, mark: Mark) -> Result<(), AllocError>
    ensures state { OnOk result (state_of run.new ≡ marked_by (state_of run.old) mark) }
    ensures first { OnOk result ((state_of run.new).first ≡ (state_of run.old).first) }
{
    match mark {
        Mark::DomainAttached { cpu, domain } => {
            run.attach(cpu, domain)?;
            run.open();
            Ok(())
        }
        Mark::BandwidthTaken { .. } | Mark::BandwidthFreed { .. } => {
            run.open();
            Ok(())
        }
        Mark::LimitHandled { is_write } => {
            open_if(run, is_write);
            Ok(())
        }
        Mark::TaskRebuilt { policy, .. } => rebuild(run, place, policy == DEADLINE_POLICY),
        Mark::AffinitySet { .. } => {
            open_again(run, true);
            Ok(())
        }
        Mark::ServerChanged { cpu, .. } => change_server(run, cpu),
        Mark::CpuDeactivated { cpu } => run.set_active(cpu, false),
        Mark::CpuActivated { cpu } => run.set_active(cpu, true),
    }
}
