//! In which state a task is.

use timer_record::KeptEvent;
use timer_tasks::{Activity, DeadlineTask};

/// What a task of SCHED_DEADLINE does.
#[derive(Clone, Copy, PartialEq, Eq)]
pub enum TaskState {
    /// It is ready, and waits for its CPU.
    Contending,

    /// It is on its CPU.
    Running,

    /// It is ready, but has no budget until it is replenished (`dl_throttled`).
    Throttled,

    /// It is blocked before its 0-lag time: its bandwidth is still in `running_bw` (`dl_non_contending`).
    NonContending,

    /// It is blocked, and its 0-lag time is past: its bandwidth is in `this_bw` alone.
    Inactive,
}

/// The state of a task that is on its CPU or not; none where it is on no runqueue.
pub fn state_of(task: DeadlineTask, is_on_cpu: bool) -> Option<TaskState> {
    match task.activity {
        Activity::Away => None,
        Activity::NonContending => Some(TaskState::NonContending),
        Activity::Inactive => Some(TaskState::Inactive),
        Activity::Contending => Some(awake_state(is_on_cpu, task.entity.budget.is_throttled)),
    }
}

fn awake_state(is_on_cpu: bool, is_throttled: bool) -> TaskState {
    if is_on_cpu {
        TaskState::Running
    } else if is_throttled {
        TaskState::Throttled
    } else {
        TaskState::Contending
    }
}

/// Whether a task is on its CPU after an event: its charge shows it there, and its switch away, its wake or its move that it is not.
pub fn is_on_cpu(event: KeptEvent, number: u32, was: bool) -> bool {
    match event {
        KeptEvent::Ran { task, .. } => was || task == number,
        KeptEvent::Switched {
            task: Some(task),
            ..
        }
        | KeptEvent::Woken { task, .. }
        | KeptEvent::Migrated { task, .. } => was && task != number,
        _ => was,
    }
}

/// Whether two states are the same.
pub(crate) fn is_same(one: TaskState, other: TaskState) -> bool {
    match (one, other) {
        (TaskState::Contending, TaskState::Contending)
        | (TaskState::Running, TaskState::Running)
        | (TaskState::Throttled, TaskState::Throttled)
        | (TaskState::NonContending, TaskState::NonContending)
        | (TaskState::Inactive, TaskState::Inactive) => true,
        _ => false,
    }
}
