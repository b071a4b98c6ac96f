//! A record's states as its lines of probes show them: the kernel's own budgets, flags and sums, line by line.

use crate::{History, Slice, Span, TaskState};
use kernel_rules::{DEADLINE_POLICY, REPLENISH, WAKEUP, has};
use std::alloc::{AllocError, Global};
use std::collections::HashMap;
use timer_tasks::{Observation, ObservedAnswer, TimerKind};
use trace_data::{
    Admitted, Armed, Budget, Dequeued, Enqueued, Expiry, LeftClass, Probe, Ran, Sums,
    TimerFunction, Updated,
};

/// DEQUEUE_SLEEP.
const SLEEP: u64 = 1;

/// A line of a probe, and where it stands.
#[derive(Clone, Copy)]
pub struct ProbeLine {
    pub line: u64,
    pub at: u64,

    /// The CPU that runs the function.
    pub cpu: u32,
    pub probe: Probe,
}

/// The moment for which a timer is armed that shows a span: a 0-lag timer from its line on, a replenishment on the runqueue's clock.
fn moment_after(kind: TimerKind, at: u64, span: i64, clock: u64) -> u64 {
    match kind {
        TimerKind::Block => at.saturating_add_signed(span),
        TimerKind::Replenish => at.wrapping_add(span.cast_unsigned()).wrapping_sub(clock),
    }
}

/// The states that lines of probes show so far.
#[derive(Drop)]
pub struct ProbedStates {
    history: History,

    /// The kernel's timers: when they were armed, and for which moment.
    pub timers: Vec<Observation>,

    /// The numbers of the tasks, by their pids.
    numbers: HashMap<u64, u32>,

    /// The tasks of timers, by their addresses.
    owners: HashMap<u64, u32>,

    /// The task of the last line of each CPU: a timer that the CPU arms next is its.
    last: HashMap<u32, u32>,

    /// What the last line of each task showed.
    shown: Vec<ShownTask>,

    /// Tasks that sleep, whose last charge may come with the CPU's next line.
    leaving: Vec<Leaving>,
}

/// A task that sleeps: the CPU that dequeues it, its number, its runqueue, and the moment.
#[derive(Clone, Copy)]
struct Leaving {
    by: u32,
    task: u32,
    cpu: u32,
    at: u64,
}

/// What a line showed of a task, and of its runqueue.
#[derive(Clone, Copy)]
struct ShownTask {
    cpu: u32,

    /// `rq->clock`.
    clock: u64,
    budget: Budget,
    sums: Sums,
}

const UNSEEN: ShownTask = ShownTask {
    cpu: 0,
    clock: 0,
    budget: Budget {
        runtime: 0,
        deadline: 0,
        is_throttled: false,
        is_yielded: false,
    },
    sums: Sums {
        this_bw: 0,
        running_bw: 0,
        extra_bw: 0,
    },
};

impl ProbedStates {
    /// Nothing yet of the tasks of these pids, and of so many runqueues, in this part of a record.
    pub fn new(
        alloc: Global,
        pids: &[u64],
        cpus: usize,
        window: Span,
    ) -> Result<ProbedStates, AllocError> {
        let mut numbers = HashMap::new(alloc);
        let mut shown = Vec::new(alloc);
        for (place, pid) in pids.iter().enumerate() {
            numbers.insert(*pid, place.min(u32::MAX as usize) as u32)?;
            shown.push(UNSEEN)?;
        }
        Ok(ProbedStates {
            history: History::new(alloc, pids.len(), cpus, window)?,
            timers: Vec::new(alloc),
            numbers,
            owners: HashMap::new(alloc),
            last: HashMap::new(alloc),
            shown,
            leaving: Vec::new(alloc),
        })
    }

    /// The states, when there are no more lines behind this moment, and the kernel's timers.
    pub fn finish(mut self, at: u64) -> Result<(History, Vec<Observation>), AllocError> {
        for place in 0..self.leaving.len() {
            if let Some(leaving) = self.leaving.get(place) {
                let leaving = *leaving;
                self.sleep(leaving)?;
            }
        }
        self.history.finish(at)?;
        let ProbedStates {
            history,
            timers,
            numbers: _,
            owners: _,
            last: _,
            shown: _,
            leaving: _,
        } = self;
        Ok((history, timers))
    }

    /// Takes a line.
    pub fn see(&mut self, line: ProbeLine) -> Result<(), AllocError> {
        self.end_leaving(line)?;
        match &line.probe {
            Probe::Enqueued(shown) => self.enqueued(line, shown),
            Probe::Updated(shown) if shown.is_server => self.server(line, shown.cpu, shown.sums),
            Probe::Updated(shown) => self.updated(line, shown),
            Probe::Dequeued(shown) => self.dequeued(line, shown),
            Probe::LeftClass(shown) => self.left_class(line, shown),
            Probe::Admitted(shown) => self.admitted(line, shown),
            Probe::Armed(shown) => self.armed(line, shown),
            Probe::ZeroLagFired { timer } => self.zero_lag_fired(line, *timer),
            Probe::ServerStarted(shown) => self.server(line, shown.cpu, shown.sums),
            Probe::Picked(shown) => self.server(line, shown.cpu, shown.sums),
            Probe::ServerStopped(shown) => self.server(line, shown.cpu, shown.sums),
            Probe::Migrating(_)
            | Probe::ReplenishFired { .. }
            | Probe::ServerIdled(_)
            | Probe::Mark(_) => Ok(()),
        }
    }

    /// A task that this CPU dequeued sleeps since then; where this line is its charge, it ran before.
    fn end_leaving(&mut self, line: ProbeLine) -> Result<(), AllocError> {
        let Some(place) = self.leaving.iter().position(|one| one.by == line.cpu) else {
            return Ok(());
        };
        let Some(leaving) = self.leaving.get(place).copied() else {
            return Ok(());
        };
        self.leaving.retain(|one| one.by != line.cpu);
        if let Probe::Updated(shown) = &line.probe
            && self.number(shown.pid) == Some(leaving.task)
        {
            self.run(
                leaving.task,
                leaving.cpu,
                line.at.saturating_sub(span_of(shown.ran)),
            )?;
        }
        self.sleep(leaving)
    }

    fn sleep(&mut self, leaving: Leaving) -> Result<(), AllocError> {
        self.history.show(
            leaving.task,
            leaving.cpu,
            Some(TaskState::Inactive),
            leaving.at,
        )
    }

    /// A task runs from a moment on; another one that ran on the CPU was preempted then.
    fn run(&mut self, task: u32, cpu: u32, from: u64) -> Result<(), AllocError> {
        for other in 0..self.history.tasks() {
            if other != task && self.runs_on(other, cpu) {
                self.history
                    .show(other, cpu, Some(TaskState::Contending), from)?;
            }
        }
        self.history.show(task, cpu, Some(TaskState::Running), from)
    }

    fn number(&self, pid: u64) -> Option<u32> {
        self.numbers.get(&pid).copied()
    }

    /// What a line shows of a task: its budget and its runqueue's sums are those before the function.
    fn show(
        &mut self,
        line: ProbeLine,
        pid: u64,
        shown: ShownTask,
    ) -> Result<Option<u32>, AllocError> {
        self.history.show_sums(shown.cpu, shown.sums, line.at)?;
        let Some(task) = self.number(pid) else {
            return Ok(None);
        };
        self.last.insert(line.cpu, task)?;
        if let Some(kept) = self.shown.get_mut(task as usize) {
            *kept = shown;
        }
        let budget = shown.budget;
        self.history
            .show_budget(task, budget.runtime, budget.deadline, line.at)?;
        Ok(Some(task))
    }

    /// A throttled task stays off the tree, unless it is replenished.
    fn enqueued(&mut self, line: ProbeLine, shown: &Enqueued) -> Result<(), AllocError> {
        let task = self.show(
            line,
            shown.pid,
            ShownTask {
                cpu: shown.cpu,
                clock: shown.clock,
                budget: shown.budget,
                sums: shown.sums,
            },
        )?;
        let state = if shown.budget.is_throttled && !has(shown.flags, REPLENISH) {
            TaskState::Throttled
        } else {
            TaskState::Contending
        };
        match task {
            Some(task) if has(shown.flags, WAKEUP) || !self.is_running(task) => {
                self.history.show(task, shown.cpu, Some(state), line.at)
            }
            _ => Ok(()),
        }
    }

    /// A charge is of the span before it. One within a dequeue changes no state.
    fn updated(&mut self, line: ProbeLine, shown: &Updated) -> Result<(), AllocError> {
        let task = self.show(
            line,
            shown.pid,
            ShownTask {
                cpu: shown.cpu,
                clock: shown.clock,
                budget: shown.budget,
                sums: shown.sums,
            },
        )?;
        let Some(task) = task else {
            return Ok(());
        };
        if self.is_blocked(task) {
            return Ok(());
        }
        let from = line.at.saturating_sub(span_of(shown.ran));
        self.run(task, shown.cpu, from)
    }

    /// A task that sleeps is inactive, unless its 0-lag timer is armed next.
    fn dequeued(&mut self, line: ProbeLine, shown: &Dequeued) -> Result<(), AllocError> {
        let task = self.show(
            line,
            shown.pid,
            ShownTask {
                cpu: shown.cpu,
                clock: shown.clock,
                budget: shown.budget,
                sums: shown.sums,
            },
        )?;
        match task {
            Some(task) if has(shown.flags, SLEEP) => {
                self.leaving.push(Leaving {
                    by: line.cpu,
                    task,
                    cpu: shown.cpu,
                    at: line.at,
                })?;
                Ok(())
            }
            Some(task) if self.is_running(task) => {
                self.history
                    .show(task, shown.cpu, Some(TaskState::Contending), line.at)
            }
            _ => Ok(()),
        }
    }

    fn left_class(&mut self, line: ProbeLine, shown: &LeftClass) -> Result<(), AllocError> {
        self.history.show_sums(shown.cpu, shown.sums, line.at)?;
        match self.number(shown.pid) {
            Some(task) => {
                self.last.insert(line.cpu, task)?;
                self.history.show(task, shown.cpu, None, line.at)
            }
            None => Ok(()),
        }
    }

    /// A task that comes into the class asleep is inactive.
    fn admitted(&mut self, line: ProbeLine, shown: &Admitted) -> Result<(), AllocError> {
        let is_new = shown.policy == DEADLINE_POLICY && shown.policy_before != DEADLINE_POLICY;
        match self.number(shown.pid) {
            Some(task) if is_new && shown.on_rq == 0 => {
                self.history
                    .show(task, shown.cpu, Some(TaskState::Inactive), line.at)
            }
            _ => Ok(()),
        }
    }

    fn server(&mut self, line: ProbeLine, cpu: u32, sums: Sums) -> Result<(), AllocError> {
        self.last.remove(&line.cpu);
        self.history.show_sums(cpu, sums, line.at)
    }

    /// A timer is that of the task of the CPU's last line.
    fn armed(&mut self, line: ProbeLine, armed: &Armed) -> Result<(), AllocError> {
        let Some(task) = self.last.remove(&line.cpu) else {
            return Ok(());
        };
        match armed.function {
            TimerFunction::ZeroLag => {
                self.owners.insert(armed.timer, task)?;
                self.keep_timer(line, armed, task, TimerKind::Block)?;
                self.pass(line, task, TaskState::Inactive, TaskState::NonContending)
            }
            TimerFunction::Replenish => {
                self.keep_timer(line, armed, task, TimerKind::Replenish)?;
                self.throttle(line, task)
            }
            TimerFunction::Other => Ok(()),
        }
    }

    fn keep_timer(
        &mut self,
        line: ProbeLine,
        armed: &Armed,
        task: u32,
        kind: TimerKind,
    ) -> Result<(), AllocError> {
        let shown = self.shown.get(task as usize).copied().unwrap_or(UNSEEN);
        let kernel = match armed.expiry {
            Expiry::After(span) => moment_after(kind, line.at, span, shown.clock),
            Expiry::At(moment) => moment.max(0).cast_unsigned(),
        };
        self.timers.push(Observation {
            line: line.line,
            at: line.at,
            cpu: shown.cpu,
            task,
            kind,
            predicted: kernel,
            kernel: Some(kernel),
            difference: 0,
            runtime: shown.budget.runtime,
            deadline: shown.budget.deadline,
            sums: shown.sums,
            answer: ObservedAnswer::Unknown,
        })?;
        Ok(())
    }

    fn zero_lag_fired(&mut self, line: ProbeLine, timer: u64) -> Result<(), AllocError> {
        match self.owners.get(&timer).copied() {
            Some(task) => self.pass(line, task, TaskState::NonContending, TaskState::Inactive),
            None => Ok(()),
        }
    }

    /// A task in one state passes to another.
    fn pass(
        &mut self,
        line: ProbeLine,
        task: u32,
        from: TaskState,
        to: TaskState,
    ) -> Result<(), AllocError> {
        match self.history.current(task) {
            Some(slice) if slice.state == from => {
                self.history.show(task, slice.cpu, Some(to), line.at)
            }
            _ => Ok(()),
        }
    }

    /// A task waits for its replenishment.
    fn throttle(&mut self, line: ProbeLine, task: u32) -> Result<(), AllocError> {
        match self.history.current(task) {
            Some(
                Slice {
                    cpu,
                    state: TaskState::Running | TaskState::Contending,
                    ..
                },
            ) => self
                .history
                .show(task, cpu, Some(TaskState::Throttled), line.at),
            _ => Ok(()),
        }
    }

    fn is_running(&self, task: u32) -> bool {
        match self.history.current(task) {
            Some(slice) => slice.state == TaskState::Running,
            None => false,
        }
    }

    fn is_blocked(&self, task: u32) -> bool {
        match self.history.current(task) {
            Some(slice) => {
                slice.state == TaskState::Inactive || slice.state == TaskState::NonContending
            }
            None => false,
        }
    }

    fn runs_on(&self, task: u32, cpu: u32) -> bool {
        match self.history.current(task) {
            Some(slice) => slice.state == TaskState::Running && slice.cpu == cpu,
            None => false,
        }
    }
}

/// How long a run was, in nanoseconds.
fn span_of(ran: Ran) -> u64 {
    match ran {
        Ran::Span { delta, .. } => delta.max(0).cast_unsigned(),
        Ran::Clocks { now, start, .. } => now.saturating_sub(start),
    }
}
