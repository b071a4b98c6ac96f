//! What a note does to a task: it is admitted, changed, or leaves the class.

ghost use Rattle.std.specs.Prelude.{◌≡◌};
ghost use Rattle.timer_tasks.specs.Notes.{admitted_of, changed_of, keeps_of, left_of, of_class_of, resumed_of, sighted_of, step_by, was_there_of};

use crate::activity::{Activity, Knowledge, is_known};
use crate::task::DeadlineTask;
use kernel_rules::{Entity, is_before, renewed, reserved};
use trace_data::{Budget, Parameters, Policy};

/// What a note comes to.
#[derive(Clone, Copy)]
pub enum NoteStep {
    /// The task was there before the record began.
    WasThere(Parameters),
    Admitted(Parameters),
    Changed(Parameters),
    Left,
    Nothing,
}

/// What a note comes to for a task; one from before the record may tell of a task of the class.
pub fn step_of(task: DeadlineTask, policy: Policy, is_before_record: bool) -> NoteStep
    ensures { result ≡ step_by task policy is_before_record }
{
    match policy {
        Policy::Deadline(parameters) => {
            if is_before_record {
                NoteStep::WasThere(parameters)
            } else if task.entity.is_in_class {
                NoteStep::Changed(parameters)
            } else {
                NoteStep::Admitted(parameters)
            }
        }
        Policy::Other => {
            if task.entity.is_in_class {
                NoteStep::Left
            } else {
                NoteStep::Nothing
            }
        }
    }
}

/// The entity of a task that is of the class with this reservation (`__setparam_dl`, `switched_to_dl`).
fn of_class(entity: Entity, parameters: Parameters) -> Entity
    ensures { result ≡ of_class_of entity parameters }
{
    let reserved = reserved(entity, parameters);
    Entity {
        budget: Budget {
            is_throttled: false,
            is_yielded: false,
            ..reserved.budget
        },
        is_in_class: true,
        is_dead: false,
        ..reserved
    }
}

/// The task that was there before the record began: it is on its runqueue, and no more is known.
pub fn was_there(task: DeadlineTask, cpu: u32, parameters: Parameters) -> DeadlineTask
    ensures { result ≡ was_there_of task cpu parameters }
{
    DeadlineTask {
        entity: of_class(task.entity, parameters),
        cpu,
        activity: Activity::Inactive,
        is_admitted: true,
        ..task
    }
}

/// The task that an option gives, as the first line shows it that has it in the class.
pub fn sighted(task: DeadlineTask, cpu: u32, parameters: Parameters) -> DeadlineTask
    ensures { result ≡ sighted_of task cpu parameters }
{
    DeadlineTask {
        entity: of_class(task.entity, parameters),
        cpu,
        activity: Activity::Away,
        is_admitted: true,
        ..task
    }
}

/// Whether a task that comes back to the class keeps its budget and deadline: they are known, and the deadline is not over.
fn keeps(task: DeadlineTask, moment: u64) -> bool
    ensures { result ≡ keeps_of task moment }
{
    is_known(task.knowledge) && !is_before(task.entity.budget.deadline, moment)
}

/// The entity of a task that is admitted at this moment (`switched_to_dl`, `setup_new_dl_entity`).
fn resumed(task: DeadlineTask, moment: u64, parameters: Parameters) -> Entity
    ensures { result ≡ resumed_of task moment parameters }
{
    let entity = of_class(task.entity, parameters);
    if keeps(task, moment) {
        entity
    } else {
        renewed(entity, moment)
    }
}

/// The task after it is admitted at this moment (`sched_dl_overflow`): by itself it runs on, by another it is asleep.
pub fn admitted(
    task: DeadlineTask,
    moment: u64,
    is_by_itself: bool,
    cpu: u32,
    parameters: Parameters,
) -> DeadlineTask
    ensures { result ≡ admitted_of task moment is_by_itself cpu parameters }
{
    let entity = resumed(task, moment, parameters);
    if is_by_itself {
        DeadlineTask {
            entity,
            cpu,
            activity: Activity::Contending,
            is_admitted: true,
            knowledge: Knowledge::Known,
            exceeded: None,
            ..task
        }
    } else {
        DeadlineTask {
            entity,
            cpu,
            activity: Activity::Inactive,
            is_admitted: true,
            knowledge: Knowledge::Unknown,
            blocked: Some(moment),
            is_lag_over: true,
            ..task
        }
    }
}

/// The task after its parameters change at this moment (`dl_change_utilization`): budget and deadline are kept, but where a ready task's
/// deadline is over. A blocked task's 0-lag state ends.
pub fn changed(task: DeadlineTask, moment: u64, parameters: Parameters) -> DeadlineTask
    ensures { result ≡ changed_of task moment parameters }
{
    let entity = reserved(task.entity, parameters);
    match task.activity {
        Activity::Contending => DeadlineTask {
            entity: if is_before(entity.budget.deadline, moment) {
                renewed(entity, moment)
            } else {
                entity
            },
            ..task
        },
        Activity::NonContending => DeadlineTask {
            entity,
            activity: Activity::Inactive,
            ..task
        },
        Activity::Inactive | Activity::Away => DeadlineTask { entity, ..task },
    }
}

/// The task after it leaves the class (`switched_from_dl`): off both sums at once.
pub fn left(task: DeadlineTask) -> DeadlineTask
    ensures { result ≡ left_of task }
{
    DeadlineTask {
        entity: Entity {
            is_in_class: false,
            ..task.entity
        },
        activity: Activity::Away,
        is_admitted: false,
        ..task
    }
}
