//! Charges without SCHED_FLAG_RECLAIM in lines that do not show how fast the CPU ran.

use crate::shown::{ChargedTask, arms_replenishment, next_budget};
use probe_explain::ProbeLine;
use probe_findings::ExactRule;
use probe_run::Run;
use std::collections::VecDeque;
use trace_data::Updated;

/// At most so many replenishments are looked for between two lines of a task.
const REPLENISHMENTS: u32 = 3;

/// SCHED_CAPACITY_SCALE: the fastest CPU at its greatest frequency.
const WHOLE: u64 = 1024;

/// A charge whose speed is not known.
#[derive(Clone, Copy)]
pub(crate) struct UnknownSpeed {
    pub task: ChargedTask,

    /// The `dl_runtime` of the task, and how long it has run.
    pub dl_runtime: u64,
    pub nanos: u64,
}

/// The capacity of a CPU: as the line shows it, or a note.
fn capacity_of(run: &Run, line: &Updated) -> u64 {
    if let Some(capacity) = line.speed.capacity {
        return capacity;
    }
    match run.processors().iter().find(|one| one.cpu == line.cpu) {
        Some(processor) => processor.capacity.unwrap_or(WHOLE),
        None => WHOLE,
    }
}

fn scaled(nanos: u64, speed: u64) -> u64 {
    nanos.wrapping_mul(speed) >> 10
}

/// Whether a run costs this at some frequency.
fn is_cost(nanos: u64, capacity: u64, cost: u64) -> bool {
    let span = u128::from(nanos) * u128::from(capacity);
    if span == 0 {
        return false;
    }
    let near = ((u128::from(cost) << 20) / span).min(1024) as u64;
    let first = near.saturating_sub(1).max(1);
    for frequency in first..first.saturating_add(4) {
        if frequency <= WHOLE && scaled(scaled(nanos, frequency), capacity) == cost {
            return true;
        }
    }
    false
}

/// Whether the next line of a CPU arms a replenishment timer: the charge before it throttled the task.
fn is_throttled(by: u32, ahead: &VecDeque<ProbeLine>) -> bool {
    match ahead.iter().find(|line| line.place.cpu == by) {
        Some(line) => arms_replenishment(line, by),
        None => false,
    }
}

/// Whether a charge of this record took less than all.
fn has_run_slowly(run: &Run) -> bool {
    run.rules().of(ExactRule::SpeedUnknown) > 0
}

/// The cost by which a budget came from one to the other, with so many replenishments between.
fn cost_between(before: i64, after: i64, times: u32, dl_runtime: u64) -> Option<u64> {
    let added = u64::from(times).checked_mul(dl_runtime)?;
    if before >= after {
        let less = before.wrapping_sub(after).cast_unsigned();
        less.checked_add(added)
    } else {
        let more = after.wrapping_sub(before).cast_unsigned();
        added.checked_sub(more)
    }
}

/// What a charge took, where it took less than all: by the task's next line.
pub(crate) fn cost_told(
    run: &Run,
    line: &Updated,
    charge: UnknownSpeed,
    ahead: &VecDeque<ProbeLine>,
) -> Option<u64> {
    let capacity = capacity_of(run, line);
    let full = scaled(charge.nanos, capacity);
    let before = line.budget.runtime;
    let Some(after) = next_budget(run, charge.task, ahead) else {
        if has_run_slowly(run) && !is_throttled(charge.task.by, ahead) {
            return last_cost(before, full);
        }
        return None;
    };
    let most = if after.has_fired { REPLENISHMENTS } else { 0 };
    for times in 0..=most {
        if let Some(cost) = cost_between(before, after.runtime, times, charge.dl_runtime) {
            if cost == full {
                return None;
            }
            if cost < full && is_cost(charge.nanos, capacity, cost) {
                return Some(cost);
            }
        }
    }
    None
}

/// What the last charge of a task took at most, so that something is left.
fn last_cost(before: i64, full: u64) -> Option<u64> {
    if before <= full.min(u64::MAX / 4) as i64 {
        Some(before.max(1).unsigned_abs().wrapping_sub(1))
    } else {
        None
    }
}
