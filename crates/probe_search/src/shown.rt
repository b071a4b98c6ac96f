//! What lines show.

use kernel_rules::{WAKEUP, has};
use probe_explain::ProbeLine;
use probe_run::Run;
use std::collections::VecDeque;
use trace_data::{Armed, Picked, Probe, Sums, TimerFunction};

/// The sums of a runqueue that a line shows, and of which CPU.
#[derive(Clone, Copy)]
pub(crate) struct ShownSums {
    pub cpu: u32,
    pub sums: Sums,
}

/// Whether a line is about a fair server's own budget: no rule is played there, and nothing asked.
pub(crate) fn is_passed_over(probe: &Probe) -> bool {
    match probe {
        Probe::Updated(line) => line.is_server,
        Probe::ServerIdled(_) => true,
        _ => false,
    }
}

/// Whether `pick_task_dl` stops the server that it shows.
pub(crate) fn stops(line: &Picked) -> bool {
    line.is_active && !line.is_throttled && line.fair_tasks == 0 && line.earliest == line.deadline
}

/// Whether the fair server of a CPU was stopped since it last started.
fn is_stopped(run: &Run, cpu: u32) -> bool {
    match run.server_number(cpu) {
        Some(number) => run.actor(number).is_stopped,
        None => false,
    }
}

/// The sums that are compared with a line's.
pub(crate) fn shown_sums(run: &Run, probe: &Probe) -> Option<ShownSums> {
    let (cpu, sums) = match probe {
        Probe::Enqueued(line) => (line.cpu, line.sums),
        Probe::Updated(line) => {
            if line.is_server {
                return None;
            }
            (line.cpu, line.sums)
        }
        Probe::Dequeued(line) => (line.cpu, line.sums),
        Probe::LeftClass(line) => (line.cpu, line.sums),
        Probe::ServerStarted(line) => {
            if !line.is_server || !has(line.flags, WAKEUP) {
                return None;
            }
            (line.cpu, line.sums)
        }
        Probe::Picked(line) => {
            if !stops(line) {
                return None;
            }
            (line.cpu, line.sums)
        }
        Probe::ServerStopped(line) => {
            if !line.is_active || is_stopped(run, line.cpu) {
                return None;
            }
            (line.cpu, line.sums)
        }
        _ => return None,
    };
    Some(ShownSums { cpu, sums })
}

/// The budget that a line shows of the task of this pid.
fn shown_runtime(probe: &Probe, pid: u64) -> Option<i64> {
    match probe {
        Probe::Enqueued(line) => budget_of(line.pid, line.budget.runtime, pid),
        Probe::Updated(line) => {
            if line.is_server {
                return None;
            }
            budget_of(line.pid, line.budget.runtime, pid)
        }
        Probe::Dequeued(line) => budget_of(line.pid, line.budget.runtime, pid),
        Probe::LeftClass(line) => budget_of(line.pid, line.runtime, pid),
        _ => None,
    }
}

fn budget_of(of: u64, runtime: i64, pid: u64) -> Option<i64> {
    if of == pid { Some(runtime) } else { None }
}

/// The budget that the next line of a task shows.
#[derive(Clone, Copy)]
pub(crate) struct NextBudget {
    pub runtime: i64,

    /// The task's replenishment timer fired before that line.
    pub has_fired: bool,
}

/// A task that was charged: its number and pid, and the CPU that wrote the line.
#[derive(Clone, Copy)]
pub(crate) struct ChargedTask {
    pub number: usize,
    pub pid: u64,
    pub by: u32,
}

/// What the next line of a task shows; none where no line shows its budget any more.
pub(crate) fn next_budget(
    run: &Run,
    task: ChargedTask,
    ahead: &VecDeque<ProbeLine>,
) -> Option<NextBudget> {
    let mut has_fired = false;
    let mut first_armed = None;
    for line in ahead.iter() {
        match &line.probe {
            Probe::Armed(armed) => {
                if first_armed.is_none() && arms_replenishment(line, task.by) {
                    first_armed = Some(armed.timer);
                }
            }
            Probe::ReplenishFired { timer, .. } => {
                let is_own = run.timer_owner(*timer) == Some(task.number);
                has_fired = has_fired || is_own || first_armed == Some(*timer);
            }
            _ => {}
        }
        if let Some(runtime) = shown_runtime(&line.probe, task.pid) {
            return Some(NextBudget { runtime, has_fired });
        }
    }
    None
}

/// Whether this line of this CPU arms a replenishment timer.
pub(crate) fn arms_replenishment(line: &ProbeLine, by: u32) -> bool {
    line.place.cpu == by
        && matches!(
            line.probe,
            Probe::Armed(Armed {
                function: TimerFunction::Replenish,
                ..
            })
        )
}

/// The entity whose own functions a line shows, and whether it is non-contending there.
#[derive(Clone, Copy)]
pub(crate) struct ShownEntity {
    pub number: usize,
    pub is_non_contending: bool,
}

pub(crate) fn shown_entity(run: &Run, probe: &Probe) -> Option<ShownEntity> {
    let (number, is_non_contending) = match probe {
        Probe::Enqueued(line) => (run.task_number(line.pid), line.is_non_contending),
        Probe::LeftClass(line) => (run.task_number(line.pid), line.is_non_contending),
        Probe::ServerStarted(line) => (run.server_number(line.cpu), line.is_non_contending),
        _ => (None, false),
    };
    match number {
        Some(number) => Some(ShownEntity {
            number,
            is_non_contending,
        }),
        None => None,
    }
}
