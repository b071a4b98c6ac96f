//! What several lines make of a run, step by step.

ghost use Rattle.std.specs.Prelude.{◌≡◌, None, OnOk, true};
ghost use Rattle.probe_run.specs.Runs.{state_of};
ghost use Rattle.probe_run.specs.State.{keep_at};
ghost use Rattle.probe_run.specs.Sums.{change, start_timer_in, block_in};
ghost use Rattle.probe_run.specs.Begin.{sums_read};

use kernel_rules::{Block, Contention, SumsChange};
use probe_findings::{ExactRule, ProbedLine};
use probe_run::{Actor, BlockedEntity, PlayRules, Run};
use std::alloc::AllocError;
use trace_data::Sums;

/// The sums that a line shows, of the runqueue of a CPU.
#[derive(Clone, Copy)]
pub struct ShownSums {
    pub place: ProbedLine,
    pub cpu: u32,
    pub sums: Sums,
}

/// Reads a line's sums, and keeps an entity.
pub fn read_and_keep(
    run: &mut Run,
    rules: PlayRules,
    shown: ShownSums,
    number: usize,
    actor: Actor,
) -> Result<(), AllocError>
    ensures state { OnOk result (rules.has_dequeues ≡ true → state_of run.new
        ≡ keep_at (sums_read (state_of run.old) shown.place shown.cpu shown.sums) number actor) }
    ensures first { OnOk result ((state_of run.new).first ≡ (state_of run.old).first) }
{
    run.read_sums(rules, shown.place, shown.cpu, shown.sums)?;
    run.keep(number, actor);
    Ok(())
}

/// Changes sums, and lets a replenishment timer be armed.
pub fn change_and_start(
    run: &mut Run,
    rules: PlayRules,
    shown: ShownSums,
    number: usize,
    by: SumsChange,
    starts: bool,
) -> Result<(), AllocError>
    ensures state { OnOk result (state_of run.new
        ≡ start_timer_in rules (change (state_of run.old) shown.cpu by) shown.place number starts) }
    ensures first { OnOk result ((state_of run.new).first ≡ (state_of run.old).first) }
{
    run.change(shown.cpu, by)?;
    run.start_timer(rules, shown.place, number, starts)
}

/// Changes sums, and blocks.
pub fn change_and_block(
    run: &mut Run,
    rules: PlayRules,
    shown: ShownSums,
    number: usize,
    by: SumsChange,
    block: Option<Block>,
) -> Result<(), AllocError>
    ensures state { OnOk result (state_of run.new
        ≡ block_in rules (change (state_of run.old) shown.cpu by) shown.place number shown.cpu by block) }
    ensures first { OnOk result ((state_of run.new).first ≡ (state_of run.old).first) }
{
    run.change(shown.cpu, by)?;
    let blocked = BlockedEntity {
        number,
        cpu: shown.cpu,
        change: by,
        block,
    };
    run.block(rules, shown.place, blocked)
}

/// Notes what a wake does to the sums.
pub fn note_contention(
    run: &mut Run,
    place: ProbedLine,
    cpu: u32,
    contention: Contention,
) -> Result<(), AllocError>
    ensures { state_of run.new ≡ state_of run.old }
{
    match contention {
        Contention::Unreserved => Ok(()),
        Contention::StillRuns => run.note_queue(place, cpu, ExactRule::WakeBeforeZeroLag),
        Contention::RunsAgain => run.note_queue(place, cpu, ExactRule::WakeAfterZeroLag),
    }
}
