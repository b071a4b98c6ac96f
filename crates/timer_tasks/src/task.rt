//! A task, and what a line of a record does to it.

ghost use Rattle.std.specs.Prelude.{◌≡◌};
ghost use Rattle.timer_tasks.specs.Tasks.{blocked_of, charged_at_of, ends_of, known_after_block_of, lag_fired_of, lag_started_of, moved_of, ran_of, refilled_of, refills_of, replenished_by, seen_running_of, stays_ready_of, switched_of, throttled_by, unseen_task, woken_by};

use crate::activity::{Activity, Knowledge, is_awake, is_unseen};
use crate::throttle::{Throttling, has_budget, held, held_back};
use crate::wake::{Waking, awakened, known_after};
use kernel_rules::{ChargeLaw, ChargedRunqueue, Entity, charged, cost, fresh};
use trace_data::Stop;

/// A timer that the kernel started.
#[derive(Clone, Copy)]
pub struct StartedTimer {
    /// When it is to fire.
    pub expires: u64,

    /// The moment of the line that starts it.
    pub at: u64,
}

/// A task of SCHED_DEADLINE.
#[derive(Clone, Copy)]
pub struct DeadlineTask {
    pub entity: Entity,

    /// Its runqueue.
    pub cpu: u32,
    pub activity: Activity,

    /// Its bandwidth is admitted to the root domain.
    pub is_admitted: bool,
    pub knowledge: Knowledge,

    /// The 0-lag timer that the kernel started since the task's last switch away.
    pub armed: Option<StartedTimer>,

    /// The moment of the charge that used its budget up, where no replenishment timer was started since.
    pub exceeded: Option<u64>,

    /// The moment of its last charge.
    pub charged: Option<u64>,

    /// The moment of its last block.
    pub blocked: Option<u64>,

    /// The 0-lag time after that block has come.
    pub is_lag_over: bool,
}

/// A task without a reservation, which no line has shown.
#[tactic(auto, unfolding(crate::specs::Tasks::unseen_task))]
pub fn unseen() -> DeadlineTask
    ensures { result ≡ unseen_task }
{
    DeadlineTask {
        entity: fresh(false),
        cpu: 0,
        activity: Activity::Away,
        is_admitted: false,
        knowledge: Knowledge::Unseen,
        armed: None,
        exceeded: None,
        charged: None,
        blocked: None,
        is_lag_over: false,
    }
}

/// The task after it wakes on this CPU (`enqueue_task_dl` with ENQUEUE_WAKEUP): it contends.
pub fn woken(
    task: DeadlineTask,
    cpu: u32,
    clock: u64,
    waking: Waking,
    is_edge: bool,
) -> DeadlineTask
    ensures { result ≡ woken_by task cpu clock waking is_edge }
{
    DeadlineTask {
        entity: awakened(task.entity, clock, waking),
        cpu,
        activity: Activity::Contending,
        knowledge: known_after(task.knowledge, waking, is_edge),
        ..task
    }
}

/// The task after sched_migrate_task: a ready one takes its bandwidth along, and keeps budget and deadline; a blocked one leaves the sums
/// until it wakes (`migrate_task_rq_dl`).
pub fn moved(task: DeadlineTask, cpu: u32) -> DeadlineTask
    ensures { result ≡ moved_of task cpu }
{
    DeadlineTask {
        cpu,
        activity: match task.activity {
            Activity::Contending => Activity::Contending,
            Activity::NonContending | Activity::Inactive | Activity::Away => Activity::Away,
        },
        ..task
    }
}

/// A task that runs on this CPU and that no line has shown before contends there.
pub fn seen_running(task: DeadlineTask, cpu: u32) -> DeadlineTask
    ensures { result ≡ seen_running_of task cpu }
{
    if task.entity.is_in_class && is_unseen(task.knowledge) {
        DeadlineTask {
            cpu,
            activity: Activity::Contending,
            knowledge: Knowledge::Unknown,
            ..task
        }
    } else {
        task
    }
}

/// Whether a budget was used up, and is filled at once, since no timer was started for it (`update_curr_dl_se`).
pub fn refills(task: DeadlineTask) -> bool
    ensures { result ≡ refills_of task }
{
    task.exceeded.is_some() && task.entity.budget.is_throttled && !has_budget(task.entity)
}

/// The task after that.
pub fn refilled(task: DeadlineTask) -> DeadlineTask
    ensures { result ≡ refilled_of task }
{
    DeadlineTask {
        entity: if refills(task) {
            kernel_rules::replenished(task.entity, task.exceeded.unwrap_or(0))
        } else {
            task.entity
        },
        exceeded: None,
        ..task
    }
}

/// The task after a charge at this moment (`update_curr_dl_se`): at 0 or below its budget is used up, and it is throttled.
pub fn ran(
    law: ChargeLaw,
    task: DeadlineTask,
    at: u64,
    nanos: u64,
    runqueue: ChargedRunqueue,
) -> DeadlineTask
    ensures { result ≡ ran_of law task at nanos runqueue }
{
    let entity = charged(task.entity, cost(law, task.entity, runqueue, nanos));
    if has_budget(entity) {
        DeadlineTask { entity, ..task }
    } else {
        DeadlineTask {
            entity: held(entity),
            exceeded: Some(at),
            ..task
        }
    }
}

/// The task whose last charge is at this moment.
pub fn charged_at(task: DeadlineTask, at: u64) -> DeadlineTask
    ensures { result ≡ charged_at_of task at }
{
    DeadlineTask {
        charged: Some(at),
        ..task
    }
}

/// The task after its `inactive_task_timer` is started, in a line of this moment: of a task that has left the class, the bandwidth stays
/// admitted until it fires (`task_non_contending`).
pub fn lag_started(task: DeadlineTask, at: u64, expires: u64) -> DeadlineTask
    ensures { result ≡ lag_started_of task at expires }
{
    if task.entity.is_in_class {
        DeadlineTask {
            armed: Some(StartedTimer { expires, at }),
            ..task
        }
    } else {
        DeadlineTask {
            is_admitted: true,
            ..task
        }
    }
}

/// The task after its `inactive_task_timer` fires (`inactive_task_timer`): off `running_bw`; one that has ended is off `this_bw` too, and
/// its bandwidth is given back, as is that of one that has left the class.
pub fn lag_fired(task: DeadlineTask) -> DeadlineTask
    ensures { result ≡ lag_fired_of task }
{
    if !task.entity.is_in_class {
        return DeadlineTask {
            is_admitted: false,
            ..task
        };
    }
    match task.activity {
        Activity::NonContending => {
            if task.entity.is_dead {
                DeadlineTask {
                    activity: Activity::Away,
                    is_admitted: false,
                    is_lag_over: true,
                    ..task
                }
            } else {
                DeadlineTask {
                    activity: Activity::Inactive,
                    is_lag_over: true,
                    ..task
                }
            }
        }
        Activity::Contending | Activity::Inactive | Activity::Away => task,
    }
}

/// The task after its `dl_task_timer` is started.
pub fn throttled(task: DeadlineTask, throttling: Throttling) -> DeadlineTask
    ensures { result ≡ throttled_by task throttling }
{
    DeadlineTask {
        entity: held_back(task.entity, throttling),
        exceeded: None,
        ..task
    }
}

/// The task after its `dl_task_timer` fires at this moment (`dl_task_timer`, `replenish_dl_entity`).
pub fn replenished(task: DeadlineTask, at: u64) -> DeadlineTask
    ensures { result ≡ replenished_by task at }
{
    DeadlineTask {
        entity: if task.entity.budget.is_throttled {
            kernel_rules::replenished(task.entity, at)
        } else {
            task.entity
        },
        ..task
    }
}

/// The task after it is switched out and stays ready.
pub fn switched(task: DeadlineTask) -> DeadlineTask
    ensures { result ≡ switched_of task }
{
    DeadlineTask {
        armed: None,
        ..task
    }
}

/// Whether a task that stops so has ended.
pub fn ends(stop: Stop) -> bool
    ensures { result ≡ ends_of stop }
{
    match stop {
        Stop::Ends => true,
        Stop::Ready | Stop::Blocks => false,
    }
}

/// Whether a task that stops so is still ready.
pub fn stays_ready(stop: Stop) -> bool
    ensures { result ≡ stays_ready_of stop }
{
    match stop {
        Stop::Ready => true,
        Stop::Blocks | Stop::Ends => false,
    }
}

/// The task after it blocks on this CPU at this moment, or ends (`task_non_contending`): its bandwidth runs on where the kernel started its
/// 0-lag timer; else it is off `running_bw`, and off `this_bw` and given back where the task has ended. Where lines are missing before the
/// block, one of them may have started the timer.
pub fn blocked(task: DeadlineTask, at: u64, cpu: u32, stop: Stop) -> DeadlineTask
    ensures { result ≡ blocked_of task at cpu stop }
{
    let has_ended = ends(stop);
    let is_armed = task.armed.is_some();
    DeadlineTask {
        entity: Entity {
            is_dead: has_ended,
            ..task.entity
        },
        cpu: if is_unseen(task.knowledge) {
            cpu
        } else {
            task.cpu
        },
        activity: if is_armed {
            Activity::NonContending
        } else if has_ended {
            Activity::Away
        } else {
            Activity::Inactive
        },
        is_admitted: is_armed || !has_ended,
        knowledge: known_after_block(task.knowledge, task.activity),
        armed: None,
        blocked: Some(at),
        is_lag_over: !is_armed && (is_unseen(task.knowledge) || is_awake(task.activity)),
        ..task
    }
}

/// What is known of a task after a block: one that is blocked already did something between, which no line shows.
fn known_after_block(knowledge: Knowledge, activity: Activity) -> Knowledge
    ensures { result ≡ known_after_block_of knowledge activity }
{
    if is_unseen(knowledge) {
        Knowledge::Unknown
    } else if is_awake(activity) {
        knowledge
    } else {
        Knowledge::Gap
    }
}
