//! A record's states, line by line.

use crate::{History, Slice, Span, TaskState, is_on_cpu, state_of};
use std::alloc::{AllocError, Global};
use timer_play::{RecordSetup, RecordStart, TimedMachine, tell_until};
use timer_record::{KeptEvent, KeptLine, KeptLines};
use timer_tasks::DeadlineTask;

/// Plays the lines of a record, and gives the states that they come to in a part of it.
pub fn states_of(
    alloc: Global,
    setup: RecordSetup,
    start: &RecordStart,
    lines: &KeptLines,
    window: Span,
) -> Result<History, AllocError> {
    let mut machine = TimedMachine::new(alloc, setup, start, lines, 0, None)?;
    let mut history = History::new(alloc, lines.tasks.len(), machine.cpus(), window)?;
    let mut come = 0usize;
    for kept in &lines.kept {
        come = tell_until(&mut machine, lines, come, kept.at);
        machine.step(lines, *kept)?;
        see(&mut history, &machine, *kept)?;
    }
    history.finish(lines.ends)?;
    Ok(history)
}

/// Shows to a history what the machine came to by a line.
fn see(history: &mut History, machine: &TimedMachine, kept: KeptLine) -> Result<(), AllocError> {
    for number in 0..history.tasks() {
        if let Some(task) = machine.task(number) {
            see_task(history, kept, number, task)?;
        }
    }
    for cpu in 0..history.cpus() {
        history.show_sums(cpu, machine.sums(cpu), kept.at)?;
    }
    Ok(())
}

/// Shows to a history what a line left a task in.
pub fn see_task(
    history: &mut History,
    kept: KeptLine,
    number: u32,
    task: DeadlineTask,
) -> Result<(), AllocError> {
    let is_running = is_on_cpu(kept.event, number, is_running(history.current(number)));
    let state = state_of(task, is_running);
    history.show(number, task.cpu, state, begin_of(kept, number))?;
    if state.is_some() {
        let budget = task.entity.budget;
        history.show_budget(number, budget.runtime, budget.deadline, kept.at)?;
    }
    Ok(())
}

fn is_running(last: Option<Slice>) -> bool {
    match last {
        Some(slice) => matches!(slice.state, TaskState::Running),
        None => false,
    }
}

/// When the state begins in which a line shows a task: a charge is of the span before it.
fn begin_of(kept: KeptLine, number: u32) -> u64 {
    match kept.event {
        KeptEvent::Ran { task, nanos } if task == number => kept.at.saturating_sub(nanos),
        _ => kept.at,
    }
}
