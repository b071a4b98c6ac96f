//! The lines of a record by timers are taken one by one.

use crate::timers::Timers;
use crate::waits::{Switch, Waits};
use law_findings::{AskedLaws, JudgedLaws, LawFigures, ReadLine, TimerKind, spread_of};
use std::alloc::{AllocError, Global};
use trace_data::{Fixed, Kernel, TimerFunction};

/// What the laws need of the lines so far, and how often each law held.
#[derive(Drop)]
pub struct TimerLaws {
    pub judged: JudgedLaws,
    timers: Timers,
    waits: Waits,

    /// The moment of the last line.
    end: u64,
}

impl TimerLaws {
    /// Of a record of this kernel, which is held to the laws that are asked; with `keeps_breaches` each breach is kept.
    pub fn new(
        alloc: Global,
        kernel: Option<Kernel>,
        asked: AskedLaws,
        keeps_breaches: bool,
    ) -> TimerLaws {
        TimerLaws {
            judged: JudgedLaws::new(alloc, kernel, asked, keeps_breaches),
            timers: Timers::new(alloc),
            waits: Waits::new(alloc, kernel),
            end: 0,
        }
    }

    /// Takes a line.
    pub fn take(&mut self, read: ReadLine, fixed: &Fixed) -> Result<(), AllocError> {
        self.end = read.at;
        match *fixed {
            Fixed::Woken {
                pid,
                is_deadline: true,
                cpu,
            } => self.waits.wake(read, pid, cpu),
            Fixed::Migrated { pid, cpu, .. } => {
                self.waits.migrate(&mut self.judged, read, pid, cpu)
            }
            Fixed::Switched {
                pid,
                is_deadline,
                stop,
                next_pid,
                next_is_deadline,
            } => {
                let switch = Switch {
                    pid,
                    is_deadline,
                    stop,
                    next_pid,
                    next_is_deadline,
                };
                self.waits.switch(&mut self.judged, read, switch)
            }
            Fixed::PolicyCalled | Fixed::PolicyReturned => {
                self.waits.forget();
                Ok(())
            }
            _ => self.timer(read, fixed),
        }
    }

    /// A mark: CPUs, root domains or limits change, so which tasks wait is not known.
    pub fn mark(&mut self) {
        self.waits.forget();
    }

    /// Takes a line of a timer.
    fn timer(&mut self, read: ReadLine, fixed: &Fixed) -> Result<(), AllocError> {
        match *fixed {
            Fixed::TimerStarted {
                timer,
                function,
                expires,
            } => match kind_of(function) {
                Some(kind) => self
                    .timers
                    .arm(&mut self.judged, read, timer, kind, expires),
                None => Ok(()),
            },
            Fixed::TimerCancelled { timer } => {
                if let Some(armed) = self.timers.stop(timer)
                    && armed.kind == TimerKind::Replenish
                {
                    self.waits.restart(armed.place.at, read.at);
                }
                Ok(())
            }
            Fixed::TimerFired { is_tick: true, .. } => {
                self.waits.tick(read.cpu, read.at);
                Ok(())
            }
            Fixed::TimerFired {
                timer,
                function,
                now,
                ..
            } => match kind_of(function) {
                Some(kind) => self.fired(read, timer, kind, now),
                None => Ok(()),
            },
            _ => Ok(()),
        }
    }

    /// A timer of the class fires. One of which no line shows how it was armed was armed before the record.
    fn fired(
        &mut self,
        read: ReadLine,
        timer: u64,
        kind: TimerKind,
        now: u64,
    ) -> Result<(), AllocError> {
        let armed = self.timers.fire(&mut self.judged, read, timer, now)?;
        if kind == TimerKind::Replenish {
            let armed_at = armed.map_or(0, |armed| armed.place.at);
            self.waits.restart(armed_at, read.at);
        }
        Ok(())
    }

    /// Takes the end of the record, and gives what is told beside the laws.
    pub fn finish(&mut self) -> Result<LawFigures, AllocError> {
        self.timers.end(&mut self.judged, self.end)?;
        Ok(LawFigures {
            late: spread_of(&mut self.timers.late),
        })
    }
}

/// The timers of the class.
fn kind_of(function: TimerFunction) -> Option<TimerKind> {
    match function {
        TimerFunction::ZeroLag => Some(TimerKind::ZeroLag),
        TimerFunction::Replenish => Some(TimerKind::Replenish),
        TimerFunction::Other => None,
    }
}
