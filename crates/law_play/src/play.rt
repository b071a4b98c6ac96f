//! The lines of a record are taken one by one.

use crate::cpu::{Blocker, Cpus, Last};
use crate::task::{Tasks, Waiting};
use crate::timer::Timers;
use law_findings::{AskedLaws, JudgedLaws, LawFigures, LineKind, ReadLine, spread_of};
use law_values::{Picks, ReadyTasks, Runs, Servers, Total, is_of_reservation};
use std::alloc::{AllocError, Global};
use trace_data::{Armed, Fixed, Kernel, Mark, Probe, Said, Sums, TimerFunction};

/// What the laws need of the lines so far, and how often each law held.
#[derive(Drop)]
pub struct LawPlay {
    pub judged: JudgedLaws,
    pub(crate) tasks: Tasks,
    pub(crate) cpus: Cpus,
    pub(crate) timers: Timers,

    /// Timers of which a later line may say whose they were.
    pub(crate) waiting: Vec<Waiting>,

    pub(crate) picks: Picks,
    pub(crate) ready: ReadyTasks,
    pub(crate) runs: Runs,
    pub(crate) total: Total,
    pub(crate) servers: Servers,

    /// The moment of the last line.
    pub(crate) end: u64,

    /// By how many nanoseconds timers fired late.
    pub(crate) late: Vec<u64>,
}

impl LawPlay {
    /// Of a record of this kernel, which is held to the laws that are asked; with `keeps_breaches` each breach is kept.
    pub fn new(
        alloc: Global,
        kernel: Option<Kernel>,
        asked: AskedLaws,
        keeps_breaches: bool,
    ) -> LawPlay {
        LawPlay {
            judged: JudgedLaws::new(alloc, kernel, asked, keeps_breaches),
            tasks: Tasks::new(alloc),
            cpus: Cpus::new(alloc),
            timers: Timers::new(alloc),
            waiting: Vec::new(alloc),
            picks: Picks::new(alloc),
            ready: ReadyTasks::new(alloc, kernel),
            runs: Runs::new(alloc),
            total: Total::new(alloc),
            servers: Servers::new(alloc),
            end: 0,
            late: Vec::new(alloc),
        }
    }

    /// The record is of several root domains.
    pub fn part_domains(&mut self) {
        self.total.part();
    }

    /// The record begins with an extra_bw of this CPU that is too low.
    pub fn begin_low(&mut self, cpu: u32) -> Result<(), AllocError> {
        self.total.begin_low(cpu)
    }

    /// Takes a line.
    pub fn take(&mut self, read: ReadLine, said: &Said) -> Result<(), AllocError> {
        match said {
            Said::Probe(probe) => {
                self.end = read.at;
                self.cpus.see(read.cpu)?;
                if let Some(cpu) = self.cpus.get_mut(read.cpu) {
                    cpu.count = cpu.count.saturating_add(1);
                    cpu.handled = None;
                }
                self.run_in_class(read)?;
                self.probe(read, probe)?;
                if let Some(cpu) = self.cpus.get_mut(read.cpu) {
                    cpu.pid = read.pid;
                }
                Ok(())
            }
            Said::Fixed(
                Fixed::Switched {
                    next_pid,
                    next_is_deadline,
                    ..
                },
            ) => {
                self.end = read.at;
                self.switched(read, *next_pid, *next_is_deadline)
            }
            Said::Fixed(Fixed::TimerFired { is_tick: true, .. }) => {
                self.ready.tick(read.cpu, read.at);
                Ok(())
            }
            Said::Fixed(_) => Ok(()),
        }
    }

    /// Takes the end of the record, and gives what is told beside the laws.
    pub fn finish(&mut self) -> Result<LawFigures, AllocError> {
        for place in 0..self.tasks.all.len() {
            self.block_unseen(place)?;
        }
        self.end_timers()?;
        Ok(LawFigures {
            late: spread_of(&mut self.late),
        })
    }

    fn probe(&mut self, read: ReadLine, probe: &Probe) -> Result<(), AllocError> {
        self.total.settle(read.cpu, read.at, is_of_call(probe));
        if !is_of_admission(probe) {
            self.total.refuse(read.cpu);
        }
        match probe {
            Probe::Enqueued(line) => self.enqueued(read, line),
            Probe::Updated(line) if line.is_server => {
                self.charged_line(read.cpu);
                self.see_sums(read, LineKind::Update, line.cpu, line.clock, line.sums)?;
                self.servers.charge(&mut self.judged, read, line)
            }
            Probe::Updated(line) => self.updated(read, line),
            Probe::Dequeued(line) => self.dequeued(read, line),
            Probe::LeftClass(line) => self.left_class(read, line),
            Probe::Admitted(line) => {
                self.other_line(read.cpu);
                self.excuse_all(line.pid);
                self.change_block(line.pid);
                if !is_of_reservation(line) {
                    return Ok(());
                }
                let task = self.tasks.place(line.pid)?;
                self.total.admit(&mut self.judged, task, read, line)
            }
            Probe::Migrating(line) => {
                self.other_line(read.cpu);
                self.excuse_zero_lag(line.pid);
                Ok(())
            }
            Probe::Picked(line) => {
                self.other_line(read.cpu);
                self.see_blocker(read.cpu, None);
                self.block_picked(read, line);
                self.see_sums(read, LineKind::ServerPick, line.cpu, line.clock, line.sums)?;
                self.servers.see(line.cpu, line.dl_runtime, line.dl_period)?;
                self.servers.pick(&mut self.judged, read, line)
            }
            Probe::Armed(line) => self.armed(read, line),
            Probe::ZeroLagFired { timer } => {
                self.other_line(read.cpu);
                self.zero_lag_fired(read, *timer)
            }
            Probe::ReplenishFired { timer, .. } => {
                self.other_line(read.cpu);
                self.replenish_fired(read, *timer)
            }
            Probe::ServerStarted(line) => {
                self.other_line(read.cpu);
                self.see_sums(read, LineKind::ServerStart, line.cpu, line.clock, line.sums)?;
                self.servers.start(line)
            }
            Probe::ServerStopped(line) => {
                self.other_line(read.cpu);
                self.see_blocker(read.cpu, None);
                self.block_stopped(read, line);
                self.see_sums(read, LineKind::ServerStop, line.cpu, line.clock, line.sums)
            }
            Probe::ServerIdled(line) => {
                self.other_line(read.cpu);
                self.runs.see_clock(line.cpu, read.at, line.now)?;
                self.servers.idle(&mut self.judged, read, line)
            }
            Probe::Mark(mark) => {
                self.marked(read, *mark);
                Ok(())
            }
        }
    }

    /// A line shows the clock and the sums of a runqueue.
    pub(crate) fn see_sums(
        &mut self,
        read: ReadLine,
        kind: LineKind,
        cpu: u32,
        clock: u64,
        sums: Sums,
    ) -> Result<(), AllocError> {
        self.runs.see_clock(cpu, read.at, clock)?;
        self.total
            .judge_extra(&mut self.judged, read, kind, cpu, sums.extra_bw)
    }

    fn armed(&mut self, read: ReadLine, line: &Armed) -> Result<(), AllocError> {
        match line.function {
            TimerFunction::ZeroLag => {
                self.zero_lag_armed(read, line)?;
                self.block_armed(read, line.expiry)?;
            }
            TimerFunction::Replenish => {
                self.answer_charge(read.cpu);
                self.replenish_armed(read, line)?;
            }
            TimerFunction::Other => {}
        }
        if let Some(cpu) = self.cpus.get_mut(read.cpu) {
            cpu.last = Last::Other;
            cpu.firing = None;
        }
        Ok(())
    }

    /// A charge of a fair server on this CPU.
    fn charged_line(&mut self, cpu: u32) {
        if let Some(cpu) = self.cpus.get_mut(cpu) {
            cpu.last = Last::Other;
            cpu.charged = None;
            cpu.firing = None;
        }
    }

    /// A function changes what the laws carry: they begin anew.
    fn marked(&mut self, read: ReadLine, mark: Mark) {
        match mark {
            Mark::LimitHandled { is_write: false } | Mark::CpuActivated { .. } => {}
            Mark::CpuDeactivated { cpu } => self.excuse_cpu(cpu),
            Mark::DomainAttached { .. } => {
                self.total.restart(read.at);
                self.total.part();
            }
            Mark::BandwidthTaken { .. }
            | Mark::BandwidthFreed { .. }
            | Mark::LimitHandled { is_write: true }
            | Mark::TaskRebuilt { .. }
            | Mark::AffinitySet { .. } => self.total.restart(read.at),
            Mark::ServerChanged { cpu, .. } => {
                self.total.restart(read.at);
                self.servers.forget(cpu);
            }
        }
    }

    /// A line of this CPU that is none of a task's state, and no timer that is armed.
    fn other_line(&mut self, cpu: u32) {
        let _ = self.cpus.take_picked(cpu);
        if let Some(cpu) = self.cpus.get_mut(cpu) {
            cpu.last = Last::Other;
            cpu.blocker = None;
            cpu.charged = None;
            cpu.firing = None;
            cpu.blocking = None;
        }
    }

    /// An entity blocks at the present line of this CPU.
    pub(crate) fn see_blocker(&mut self, cpu: u32, pid: Option<u64>) {
        if let Some(cpu) = self.cpus.get_mut(cpu) {
            cpu.blocker = Some(Blocker {
                pid,
                count: cpu.count,
            });
        }
    }
}

/// Whether a line may stand in the call of the line before: a charge within a dequeue, or a timer that is armed.
fn is_of_call(probe: &Probe) -> bool {
    matches!(probe, Probe::Updated(_) | Probe::Armed(_))
}

/// Whether a line may stand in the call of an admission.
fn is_of_admission(probe: &Probe) -> bool {
    matches!(
        probe,
        Probe::Updated(_) | Probe::Armed(_) | Probe::Dequeued(_) | Probe::Enqueued(_)
    )
}
