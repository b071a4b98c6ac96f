//! What becomes of a task at a line that is about it.

ghost use Rattle.std.specs.Prelude.{◌≡◌, ◌&&◌, not, unwrap_or};
ghost use Rattle.kernel_rules.specs.Budget.{timer_is_ahead};
ghost use Rattle.timer_play.specs.Turns.{at_charge_of, at_hold_of, at_move_of, at_open_of, at_refill_of, at_run_of, at_sight_of, at_switch_of, at_wake_of, forgotten, is_edge_at, is_open_by, runs_of, wakes_of};

use crate::terms::PlayTerms;
use kernel_rules::{ChargeLaw, ChargedRunqueue, RECLAIM, has, has_timer_ahead};
use timer_record::KeptLine;
use timer_tasks::{
    DeadlineTask, Knowledge, Waking, blocked, charged_at, is_awake, is_edge, is_tested, moved, ran,
    refilled, seen_running, sighted, stays_ready, switched, throttled, throttling_of, waking_of,
    woken,
};
use trace_data::{Parameters, Stop};

/// Whether a task is of the class, and awake.
pub(crate) fn runs(task: DeadlineTask) -> bool
    ensures { result ≡ runs_of task }
{
    task.entity.is_in_class && is_awake(task.activity)
}

/// Whether a wake is of a task of the class that is not awake.
pub(crate) fn wakes(task: DeadlineTask) -> bool
    ensures { result ≡ wakes_of task }
{
    task.entity.is_in_class && !is_awake(task.activity)
}

/// Whether the kernel may have answered a wake otherwise.
pub(crate) fn is_edge_wake(law: ChargeLaw, task: DeadlineTask, waking: Waking, clock: u64) -> bool
    ensures { result ≡ is_edge_at law task waking clock }
{
    is_tested(waking) && is_edge(law, task.entity, clock)
}

/// The task after a wake on this CPU at this clock.
#[tactic(auto, unfolding(crate::specs::Turns::at_wake_of))]
pub(crate) fn at_wake(terms: PlayTerms, task: DeadlineTask, cpu: u32, clock: u64) -> DeadlineTask
    ensures { result ≡ at_wake_of terms task cpu clock }
{
    if wakes(task) {
        let waking = waking_of(terms.setup.law, task, terms.begins, clock);
        woken(
            task,
            cpu,
            clock,
            waking,
            is_edge_wake(terms.setup.law, task, waking, clock),
        )
    } else {
        task
    }
}

/// The task after sched_migrate_task to this CPU.
#[tactic(auto, unfolding(crate::specs::Turns::at_move_of))]
pub(crate) fn at_move(task: DeadlineTask, cpu: u32) -> DeadlineTask
    ensures { result ≡ at_move_of task cpu }
{
    if task.entity.is_in_class && task.cpu != cpu {
        moved(task, cpu)
    } else {
        task
    }
}

/// The task after a line that shows it in the class: one that an option gives is admitted at the first.
#[tactic(auto, unfolding(crate::specs::Turns::at_sight_of))]
pub(crate) fn at_sight(task: DeadlineTask, given: Option<Parameters>, cpu: u32) -> DeadlineTask
    ensures { result ≡ at_sight_of task given cpu }
{
    match given {
        Some(parameters) => {
            if task.entity.is_in_class || task.blocked.is_some() {
                task
            } else {
                sighted(task, cpu, parameters)
            }
        }
        None => task,
    }
}

/// The task after a line that charges it, before the charge.
#[tactic(auto, unfolding(crate::specs::Turns::at_run_of))]
pub(crate) fn at_run(task: DeadlineTask, kept: KeptLine) -> DeadlineTask
    ensures { result ≡ at_run_of task kept }
{
    charged_at(seen_running(task, kept.cpu), kept.at)
}

/// Whether a task runs whose next period had begun when its budget was used up, so that no timer could wait for it.
pub(crate) fn runs_late(task: DeadlineTask) -> bool
    ensures { result ≡ (runs_of task
        && not (timer_is_ahead task.entity (unwrap_or task.exceeded 0))) }
{
    runs(task) && !has_timer_ahead(task.entity, task.exceeded.unwrap_or(0))
}

/// The task after a budget that was used up is filled at once, where it runs on.
#[tactic(auto, unfolding(crate::specs::Turns::at_refill_of))]
pub(crate) fn at_refill(task: DeadlineTask) -> DeadlineTask
    ensures { result ≡ at_refill_of task }
{
    if runs_late(task) {
        refilled(task)
    } else {
        task
    }
}

/// Whether `extra_bw` is not known at a line.
fn is_open(open_from: Option<u64>, line: u64) -> bool
    ensures { result ≡ is_open_by open_from line }
{
    match open_from {
        Some(first) => first <= line,
        None => false,
    }
}

/// What was known is not any more.
fn forgotten(knowledge: Knowledge) -> Knowledge
    ensures { result ≡ forgotten knowledge }
{
    match knowledge {
        Knowledge::Known => Knowledge::Unknown,
        other => other,
    }
}

/// The task before a charge in a line at which `extra_bw` may not be known (`grub_reclaim`).
#[tactic(auto, unfolding(crate::specs::Turns::at_open_of))]
pub(crate) fn at_open(terms: PlayTerms, task: DeadlineTask, line: u64) -> DeadlineTask
    ensures { result ≡ at_open_of terms task line }
{
    if is_open(terms.open_from, line) && runs(task) && has(task.entity.parameters.flags, RECLAIM) {
        DeadlineTask {
            knowledge: forgotten(task.knowledge),
            ..task
        }
    } else {
        task
    }
}

/// The task after its charge, where it runs.
#[tactic(auto, unfolding(crate::specs::Turns::at_charge_of))]
pub(crate) fn at_charge(
    law: ChargeLaw,
    task: DeadlineTask,
    at: u64,
    nanos: u64,
    runqueue: ChargedRunqueue,
) -> DeadlineTask
    ensures { result ≡ at_charge_of law task at nanos runqueue }
{
    if runs(task) {
        ran(law, task, at, nanos, runqueue)
    } else {
        task
    }
}

/// The task after it is switched out.
#[tactic(auto, unfolding(crate::specs::Turns::at_switch_of))]
pub(crate) fn at_switch(
    task: DeadlineTask,
    kept: KeptLine,
    is_deadline: bool,
    stop: Stop,
) -> DeadlineTask
    ensures { result ≡ at_switch_of task kept is_deadline stop }
{
    if !(is_deadline && task.entity.is_in_class) {
        switched(task)
    } else if stays_ready(stop) {
        switched(seen_running(task, kept.cpu))
    } else {
        blocked(task, kept.at, kept.cpu, stop)
    }
}

/// The task after its `dl_task_timer` is started at this moment.
#[tactic(auto, unfolding(crate::specs::Turns::at_hold_of))]
pub(crate) fn at_hold(task: DeadlineTask, at: u64) -> DeadlineTask
    ensures { result ≡ at_hold_of task at }
{
    throttled(task, throttling_of(task, at))
}
