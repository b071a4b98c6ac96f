//! Expiry: replenishment timers that are armed.

use crate::cpu::Last;
use crate::firing::standing_of;
use crate::play::LawPlay;
use crate::task::{Arming, Fired, Throttling, Waiting};
use crate::timer::{Armed as ArmedTimer, Unowned};
use law_findings::{
    Breach, Expiry, Finding, FiredTimer, Law, LawLine, LineKind, ReadLine, TimerKind, Whose,
    is_next_period,
};
use std::alloc::AllocError;
use trace_data::{Armed, Expiry as ArmedFor};

/// What has become of a timer that was armed.
#[derive(Clone, Copy)]
enum Owned {
    Armed,
    Fired(Unowned),
    Gone,
}

impl LawPlay {
    /// A replenishment timer is armed.
    pub(crate) fn replenish_armed(
        &mut self,
        read: ReadLine,
        line: &Armed,
    ) -> Result<(), AllocError> {
        let timer = self.timers.place(line.timer)?;
        self.armed_again(timer, read)?;
        let candidate = self.candidate(timer, read);
        let known = match self.timers.get(timer) {
            Some(timer) => timer.owner,
            None => None,
        };
        let owner = if candidate.is_none() || candidate == known {
            known
        } else {
            None
        };
        let place = read.place(LineKind::Arm);
        if let Some(timer) = self.timers.get_mut(timer) {
            timer.armed = Some(ArmedTimer {
                place,
                kind: TimerKind::Replenish,
                expiry: moment_of(line.expiry),
                owner,
                woke: None,
                is_excused: false,
            });
        }
        match (owner, candidate) {
            (Some(pid), _) => self.arm(pid, timer, place, moment_of(line.expiry)),
            (None, Some(pid)) => {
                self.may_arm(pid, timer, place, moment_of(line.expiry));
                Ok(())
            }
            (None, None) => {
                self.see_other(timer);
                Ok(())
            }
        }
    }

    /// The task whose charge or enqueue stands right before, in the same call.
    fn candidate(&self, timer: usize, read: ReadLine) -> Option<u64> {
        let cpu = self.cpus.of(read.cpu);
        let is_other = self.timers.get(timer)?.is_other;
        if is_other || cpu.pid != read.pid {
            return None;
        }
        match cpu.last {
            Last::Enqueued { pid }
            | Last::Charged {
                pid,
                is_live: true,
                ..
            } => Some(pid),
            _ => None,
        }
    }

    /// A timer was armed that may be a server's.
    fn see_other(&mut self, timer: usize) {
        if let Some(timer) = self.timers.get_mut(timer) {
            timer.is_other = true;
        }
    }

    /// The replenishment timer of this task is armed.
    fn arm(
        &mut self,
        pid: u64,
        timer: usize,
        place: LawLine,
        expiry: u64,
    ) -> Result<(), AllocError> {
        let Some(task) = self.tasks.find(pid) else {
            return Ok(());
        };
        let throttling = self.throttling_of(task, place.cpu);
        if let Some(task) = self.tasks.get_mut(task) {
            task.is_armed = true;
            task.dl_timer = Some(timer);
            task.arming = None;
        }
        self.judge_expiry(
            pid,
            Arming {
                timer,
                place,
                expiry,
                throttling,
            },
        )
    }

    /// A timer is armed behind a line of this task: it is the task's where its next line shows it throttled.
    fn may_arm(&mut self, pid: u64, timer: usize, place: LawLine, expiry: u64) {
        let Some(task) = self.tasks.find(pid) else {
            return;
        };
        let throttling = self.throttling_of(task, place.cpu);
        if let Some(task) = self.tasks.get_mut(task) {
            task.arming = Some(Arming {
                timer,
                place,
                expiry,
                throttling,
            });
        }
    }

    /// What throttled a task, where that line is among the last ones of this CPU.
    fn throttling_of(&self, task: usize, cpu: u32) -> Option<Throttling> {
        let throttling = self.tasks.get(task)?.throttling?;
        let is_recent = self.cpus.of(cpu).is_recent(throttling.count);
        if throttling.cpu == cpu && is_recent {
            Some(throttling)
        } else {
            None
        }
    }

    /// A task's next line shows whether a timer that was armed behind its last line is its own.
    pub(crate) fn confirm_arming(
        &mut self,
        place: usize,
        is_throttled: bool,
    ) -> Result<(), AllocError> {
        let Some(task) = self.tasks.get_mut(place) else {
            return Ok(());
        };
        let Some(arming) = task.arming.take() else {
            return Ok(());
        };
        let pid = task.pid;
        if !is_throttled {
            if self.has_fired(arming) {
                self.change_block(pid);
            }
            self.waiting.push(Waiting { pid, arming })?;
            return Ok(());
        }
        let standing = standing_of(task);
        match self.own_timer(arming, pid) {
            Owned::Armed => {
                if let Some(task) = self.tasks.get_mut(place) {
                    task.is_armed = true;
                    task.dl_timer = Some(arming.timer);
                }
            }
            Owned::Fired(fired) => {
                self.change_block(pid);
                if let Some(task) = self.tasks.get_mut(place) {
                    task.is_armed = false;
                    task.fired = Some(Fired {
                        timer: FiredTimer {
                            line: fired.line,
                            standing,
                        },
                        cpu: fired.cpu,
                        count: fired.count,
                    });
                }
            }
            Owned::Gone => {}
        }
        self.judge_waiting(arming.timer, pid)?;
        self.judge_expiry(pid, arming)
    }

    /// A line says that a timer is this task's: so it was before.
    pub(crate) fn judge_waiting(&mut self, timer: usize, pid: u64) -> Result<(), AllocError> {
        for place in (0..self.waiting.len()).rev() {
            if let Some(waiting) = self.waiting.get(place)
                && waiting.arming.timer == timer
            {
                let waiting = self.waiting.swap_remove(place);
                if waiting.pid == pid {
                    self.judge_expiry(pid, waiting.arming)?;
                }
            }
        }
        Ok(())
    }

    /// Whether a timer of which no line has shown whose it is fired since it was armed.
    fn has_fired(&self, arming: Arming) -> bool {
        match self.timers.get(arming.timer) {
            Some(timer) => timer
                .unowned
                .is_some_and(|fired| fired.armed == arming.place.line),
            None => false,
        }
    }

    /// The timer is this task's; what has become of it since it was armed.
    fn own_timer(&mut self, arming: Arming, pid: u64) -> Owned {
        let Some(timer) = self.timers.get_mut(arming.timer) else {
            return Owned::Gone;
        };
        timer.owner = Some(pid);
        if let Some(armed) = &mut timer.armed
            && armed.place.line == arming.place.line
        {
            armed.owner = Some(pid);
            return Owned::Armed;
        }
        match timer.unowned {
            Some(fired) if fired.armed == arming.place.line => Owned::Fired(fired),
            _ => Owned::Gone,
        }
    }

    fn judge_expiry(&mut self, pid: u64, arming: Arming) -> Result<(), AllocError> {
        let Some(throttling) = arming.throttling else {
            return Ok(());
        };
        let (place, armed_for) = (arming.place, arming.expiry);
        let expiry = Expiry {
            deadline: throttling.deadline,
            dl_deadline: throttling.dl_deadline,
            dl_period: throttling.dl_period,
            clock: throttling.clock,
            from: throttling.at,
            to: place.at,
            armed_for,
        };
        if is_next_period(expiry) {
            self.judged.holds(Law::Expiry);
            return Ok(());
        }
        let behind = armed_for.wrapping_sub(throttling.at);
        self.judged.breaks(Breach {
            law: Law::Expiry,
            place,
            whose: Whose::Task { pid },
            finding: Finding::OtherMoment {
                period: expiry.period(),
                moment: throttling.clock.wrapping_add(behind),
            },
            sign: None,
        })
    }
}

/// The moment of a replenishment timer, which is always told as one.
pub(crate) fn moment_of(expiry: ArmedFor) -> u64 {
    match expiry {
        ArmedFor::At(moment) => moment.cast_unsigned(),
        ArmedFor::After(moment) => moment.cast_unsigned(),
    }
}
