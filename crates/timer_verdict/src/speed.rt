//! Tasks that are charged by a speed that no line tells: those without SCHED_FLAG_RECLAIM, where the frequency of a CPU is set
//! (`dl_scaled_delta_exec` in kernel/sched/deadline.c).

ghost use Rattle.std.specs.Prelude.{◌≡◌, IfOk, count_by, map, slice_get};
ghost use Rattle.timer_play.specs.Playing.{observations_of};
ghost use Rattle.timer_verdict.specs.Speed.{is_charged_by_speed, is_charged_less, is_left_out, is_plain_by, is_told_by, left_out_of, shows_speed, slow_tasks, without_slow};
ghost use Rattle.timer_verdict.specs.Verdicts.{IsJudged};

use crate::judging::{Judged, differs, judged_of, watch_of};
use crate::numbers::is_of;
use crate::reserved::parameters_at;
use kernel_rules::{RECLAIM, has};
use std::alloc::{AllocError, Global};
use timer_play::{RecordOutcome, RecordSetup, RecordStart, play};
use timer_record::{KeptLines, TaskLines};
use timer_tasks::{Observation, ObservedAnswer, TimerKind};
use trace_data::Parameters;

/// Whether a note tells of the task. What an option says of it is held against the kernel.
fn is_told(tasks: &[TaskLines], task: u32) -> bool
    ensures { result ≡ is_told_by (slice_get tasks.now task) }
{
    match tasks.get(task as usize) {
        Some(of_task) => of_task.given.is_none(),
        None => false,
    }
}

/// Whether a reservation has no SCHED_FLAG_RECLAIM.
fn is_plain(parameters: Option<Parameters>) -> bool
    ensures { result ≡ is_plain_by parameters }
{
    match parameters {
        Some(parameters) => !has(parameters.flags, RECLAIM),
        None => false,
    }
}

/// Whether a note tells that the task does not reclaim.
fn is_charged_by_speed(lines: &KeptLines, observation: &Observation) -> bool
    ensures { result ≡ is_charged_by_speed lines.now observation.now }
{
    is_told(&lines.tasks, observation.task)
        && is_plain(parameters_at(lines, observation.task, observation.at))
}

/// Whether the kernel charged less than in full: it has the 0-lag time earlier.
fn is_charged_less(observation: &Observation) -> bool
    ensures { result ≡ is_charged_less observation.now }
{
    differs(observation.answer)
        && is_of(TimerKind::Block, observation)
        && observation.kernel.is_some()
        && observation.difference > 0
}

/// Whether it shows that its task was charged by a speed below the greatest.
fn shows_speed(lines: &KeptLines, observation: &Observation) -> bool
    ensures { result ≡ shows_speed lines.now observation.now }
{
    is_charged_less(observation) && is_charged_by_speed(lines, observation)
}

/// The tasks of which a block shows that they were charged by a speed below the greatest.
fn slow_tasks(
    alloc: Global,
    lines: &KeptLines,
    observations: &[Observation],
) -> Result<Vec<u32>, AllocError>
    ensures { IfOk result (λ v. v.items ≡ slow_tasks lines.now observations.now) }
{
    observations
        .iter()
        .filter(|o| shows_speed(lines, o))
        .map(|o| o.task)
        .collect(alloc)
}

/// Whether it differs, and is of one of these tasks.
fn is_left_out(slow: &[u32], observation: &Observation) -> bool
    ensures { result ≡ is_left_out slow.now observation.now }
{
    differs(observation.answer) && slow.contains(&observation.task)
}

/// The observation; what it comes to is not known where it is left out.
fn left_out_of(slow: &[u32], observation: Observation) -> Observation
    ensures { result ≡ left_out_of slow.now observation }
{
    if is_left_out(slow, &observation) {
        Observation {
            answer: ObservedAnswer::Unknown,
            ..observation
        }
    } else {
        observation
    }
}

fn leave_out(slow: &[u32], observations: &mut [Observation])
    ensures { observations.new ≡ map (left_out_of slow.now) observations.old }
{
    for i in 0..observations.len() {
        observations[i] = left_out_of(slow, observations[i]);
    }
}

/// How many are left out.
fn count(slow: &[u32], observations: &[Observation]) -> u64
    ensures { result ≡ count_by (is_left_out slow.now) observations.now }
{
    observations.iter().filter(|o| is_left_out(slow, o)).count() as u64
}

/// What a record came to, of which what such tasks came to is not known; and of how much.
fn without_slow(
    alloc: Global,
    lines: &KeptLines,
    mut outcome: RecordOutcome,
) -> Result<Judged, AllocError>
    ensures judged { IfOk result (λ j. IsJudged j) }
    ensures observed { IfOk result (λ j. j.outcome.observations.items
        ≡ without_slow lines.now outcome.observations.items) }
    ensures counted { IfOk result (λ j. j.speed_unknown
        ≡ count_by (is_left_out (slow_tasks lines.now outcome.observations.items)) outcome.observations.items) }
{
    let slow = slow_tasks(alloc, lines, &outcome.observations)?;
    let speed_unknown = count(&slow, &outcome.observations);
    leave_out(&slow, &mut outcome.observations);
    let judged = judged_of(outcome);
    Ok(Judged {
        speed_unknown,
        ..judged
    })
}

/// Plays a record of a machine that sets the frequency of a CPU, and judges it. Of a task without SCHED_FLAG_RECLAIM that a block
/// shows to be charged less than in full, nothing counts as different.
pub fn judge_at_unknown_speed(
    alloc: Global,
    setup: RecordSetup,
    start: &RecordStart,
    lines: &KeptLines,
    within: u64,
) -> Result<Judged, AllocError>
    ensures judged { IfOk result (λ j. IsJudged j) }
    ensures observed { IfOk result (λ j. j.outcome.observations.items
        ≡ without_slow lines.now (observations_of setup start.now lines.now within)) }
{
    let judged = without_slow(
        alloc,
        lines,
        play(alloc, setup, start, lines, within, None)?,
    )?;
    let Some(watch) = watch_of(&judged) else {
        return Ok(judged);
    };
    let outcome = play(alloc, setup, start, lines, within, Some(watch))?;
    without_slow(alloc, lines, outcome)
}
