//! What an event shows of a SCHED_DEADLINE task.

use trace_data::{Fixed, Stop};
use trace_fields::Shown;

/// A line that shows a SCHED_DEADLINE task on a CPU.
#[derive(Clone, Copy)]
pub struct TaskSighting<'a> {
    pub task: Shown<&'a [u8]>,
    pub cpu: u32,
    pub wakes: u64,
    pub blocks: u64,
}

/// A switch away is a block, unless the task stays ready.
fn blocks_of(stop: Stop) -> u64 {
    match stop {
        Stop::Ready => 0,
        Stop::Blocks => 1,
        Stop::Ends => 1,
    }
}

/// What an event shows of this task, on a line of this CPU.
pub(crate) fn sighting_of<'a>(
    own: u32,
    event: &Fixed,
    task: Shown<&'a [u8]>,
) -> Option<TaskSighting<'a>> {
    match *event {
        Fixed::Woken {
            is_deadline: true,
            cpu,
            ..
        } => Some(TaskSighting {
            task,
            cpu,
            wakes: 1,
            blocks: 0,
        }),
        Fixed::Migrated {
            is_deadline: true,
            cpu,
            ..
        } => Some(TaskSighting {
            task,
            cpu,
            wakes: 0,
            blocks: 0,
        }),
        Fixed::Switched {
            is_deadline: true,
            stop,
            ..
        } => Some(TaskSighting {
            task,
            cpu: own,
            wakes: 0,
            blocks: blocks_of(stop),
        }),
        _ => None,
    }
}
