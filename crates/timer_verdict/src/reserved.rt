//! The reservation of a task, as an option and notes tell it.

ghost use Rattle.std.specs.Prelude.{◌≡◌, None, fold, slice_get};
ghost use Rattle.timer_play.specs.Events.{given_by};
ghost use Rattle.timer_verdict.specs.Speed.{parameters_at, parameters_of, reserved_for, with_first, with_last};

use timer_record::{KeptLines, TaskLines, TaskNote};
use trace_data::{Parameters, Policy};

/// What a note reserves for a task.
fn reserved_for(task: u32, note: TaskNote) -> Option<Parameters>
    ensures { result ≡ reserved_for task note }
{
    match note.policy {
        Policy::Deadline(parameters) if note.task == task => Some(parameters),
        _ => None,
    }
}

fn with_last(task: u32, at: u64, found: Option<Parameters>, note: TaskNote) -> Option<Parameters>
    ensures { result ≡ with_last task at found note }
{
    if note.moment <= at {
        reserved_for(task, note).or(found)
    } else {
        found
    }
}

/// What the first note of a task reserves for it.
fn first_noted(told: &[TaskNote], task: u32) -> Option<Parameters>
    ensures { result ≡ fold (with_first task) None told.now }
{
    let mut found = None;
    for note in told {
        found = found.or(reserved_for(task, *note));
    }
    found
}

fn given(tasks: &[TaskLines], task: u32) -> Option<Parameters>
    ensures { result ≡ given_by (slice_get tasks.now task) }
{
    match tasks.get(task as usize) {
        Some(of_task) => of_task.given,
        None => None,
    }
}

/// The reservation of a task: an option's, or that of its first note.
pub(crate) fn parameters_of(lines: &KeptLines, task: u32) -> Option<Parameters>
    ensures { result ≡ parameters_of lines.now task }
{
    given(&lines.tasks, task).or(first_noted(&lines.told, task))
}

/// The reservation that a task has at a moment: that of its last note until then.
pub(crate) fn parameters_at(lines: &KeptLines, task: u32, at: u64) -> Option<Parameters>
    ensures { result ≡ parameters_at lines.now task at }
{
    last_noted(&lines.told, task, at, parameters_of(lines, task))
}

fn last_noted(
    told: &[TaskNote],
    task: u32,
    at: u64,
    before: Option<Parameters>,
) -> Option<Parameters>
    ensures { result ≡ fold (with_last task at) before told.now }
{
    let mut found = before;
    for note in told {
        found = with_last(task, at, found, *note);
    }
    found
}
