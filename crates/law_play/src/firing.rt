//! Firing: timers fire, at their moments, or are stopped.

use crate::cpu::FiringHere;
use crate::play::LawPlay;
use crate::states::{REPLENISH, RESTORE};
use crate::task::{Fired, Task};
use crate::timer::{Armed as ArmedTimer, Unowned, Woken};
use law_findings::{
    Breach, Finding, FiredTimer, Law, LawLine, LineKind, ReadLine, Standing, TimerKind, Whose,
    is_awake_long, is_due, is_early,
};
use std::alloc::AllocError;
use trace_data::{Armed, Enqueued, Expiry};

impl LawPlay {
    /// A 0-lag timer is armed: it is that of the entity that blocked last on this CPU.
    pub(crate) fn zero_lag_armed(
        &mut self,
        read: ReadLine,
        line: &Armed,
    ) -> Result<(), AllocError> {
        let place = self.timers.place(line.timer)?;
        self.armed_again(place, read)?;
        let owner = match self.cpus.of(read.cpu).blocked() {
            Some(blocker) => blocker.pid,
            None => None,
        };
        if let Some(timer) = self.timers.get_mut(place) {
            timer.armed = Some(ArmedTimer {
                place: read.place(LineKind::Arm),
                kind: TimerKind::ZeroLag,
                expiry: zero_lag_moment(read.at, line.expiry),
                owner,
                woke: None,
                is_excused: false,
            });
        }
        if let Some(pid) = owner
            && let Some(task) = self.tasks.find(pid)
            && let Some(task) = self.tasks.get_mut(task)
        {
            task.zero_lag_timer = Some(place);
        }
        Ok(())
    }

    /// A timer is armed again: what was armed before has not fired.
    pub(crate) fn armed_again(&mut self, place: usize, read: ReadLine) -> Result<(), AllocError> {
        match self.take_armed(place) {
            Some(armed) => self.judge_stopped(armed, Some(read.line)),
            None => Ok(()),
        }
    }

    fn take_armed(&mut self, place: usize) -> Option<ArmedTimer> {
        self.timers.get_mut(place)?.armed.take()
    }

    /// A timer that has not fired: its task was seen to do what stops it.
    fn judge_stopped(&mut self, armed: ArmedTimer, again: Option<u64>) -> Result<(), AllocError> {
        let Some(pid) = armed.owner else {
            return Ok(());
        };
        if armed.is_excused {
            self.judged.holds(Law::Firing);
            return Ok(());
        }
        self.judged.breaks(Breach {
            law: Law::Firing,
            place: armed.place,
            whose: Whose::Task { pid },
            finding: Finding::NeverFired {
                timer: armed.kind,
                expiry: armed.expiry,
                again,
            },
            sign: None,
        })
    }

    /// The end of the record: what is armed and due has not fired.
    pub(crate) fn end_timers(&mut self) -> Result<(), AllocError> {
        for place in 0..self.timers.all.len() {
            if let Some(armed) = self.take_armed(place)
                && is_due(armed.expiry, self.end)
            {
                self.judge_stopped(armed, None)?;
            }
        }
        Ok(())
    }

    /// A 0-lag timer fires.
    pub(crate) fn zero_lag_fired(
        &mut self,
        read: ReadLine,
        address: u64,
    ) -> Result<(), AllocError> {
        let Some(place) = self.timers.find(address) else {
            return Ok(());
        };
        let Some(armed) = self.take_armed(place) else {
            return Ok(());
        };
        if let Some(cpu) = self.cpus.get_mut(read.cpu) {
            cpu.handled = armed.owner;
        }
        if let Some(pid) = armed.owner
            && let Some(task) = self.tasks.find(pid)
        {
            self.total.zero_lag_fired(task, read)?;
        }
        let line = read.place(LineKind::ZeroLagFires);
        self.judge_early(line, armed, address)?;
        match armed.owner {
            Some(pid) if armed.kind == TimerKind::ZeroLag => self.judge_awake(line, armed, pid),
            _ => Ok(()),
        }
    }

    /// A replenishment timer fires.
    pub(crate) fn replenish_fired(
        &mut self,
        read: ReadLine,
        address: u64,
    ) -> Result<(), AllocError> {
        let timer = self.timers.place(address)?;
        let armed = self.take_armed(timer);
        if let Some(armed) = armed {
            self.judge_early(read.place(LineKind::ReplenishFires), armed, address)?;
        }
        let owner = match self.timers.get(timer) {
            Some(timer) => timer.owner,
            None => None,
        };
        if let Some(pid) = owner
            && let Some(task) = self.tasks.find(pid)
        {
            self.fire(task, read.line, read.cpu);
            self.change_block(pid);
        } else if let Some(armed) = armed {
            self.fire_unowned(timer, read, armed.place.line);
        }
        if let Some(cpu) = self.cpus.get_mut(read.cpu) {
            cpu.firing = Some(FiringHere {
                timer,
                line: read.line,
            });
        }
        Ok(())
    }

    /// A timer fires of which no line has shown whose it is; it was armed at that line.
    fn fire_unowned(&mut self, timer: usize, read: ReadLine, armed: u64) {
        let count = self.cpus.of(read.cpu).count;
        if let Some(timer) = self.timers.get_mut(timer) {
            timer.unowned = Some(Unowned {
                armed,
                line: read.line,
                cpu: read.cpu,
                count,
            });
        }
    }

    /// The replenishment timer of a task fired at this line of a CPU.
    fn fire(&mut self, task: usize, line: u64, cpu: u32) {
        let count = self.cpus.of(cpu).count;
        if let Some(task) = self.tasks.get_mut(task) {
            task.is_armed = false;
            task.fired = Some(Fired {
                timer: FiredTimer {
                    line,
                    standing: standing_of(task),
                },
                cpu,
                count,
            });
        }
    }

    /// The enqueue right behind a replenishment timer that fired tells whose it is.
    pub(crate) fn own_fired(
        &mut self,
        cpu: u32,
        task: usize,
        line: &Enqueued,
    ) -> Result<(), AllocError> {
        let Some(firing) = self.cpus.of(cpu).firing else {
            return Ok(());
        };
        if let Some(cpu) = self.cpus.get_mut(cpu) {
            cpu.firing = None;
        }
        if line.flags & REPLENISH == 0 || line.flags & RESTORE != 0 {
            return Ok(());
        }
        let mut was_own = false;
        if let Some(timer) = self.timers.get_mut(firing.timer) {
            was_own = timer.owner == Some(line.pid);
            timer.owner = Some(line.pid);
        }
        if !was_own {
            self.fire(task, firing.line, cpu);
        }
        self.judge_waiting(firing.timer, line.pid)
    }

    fn judge_early(
        &mut self,
        line: LawLine,
        armed: ArmedTimer,
        address: u64,
    ) -> Result<(), AllocError> {
        if is_early(armed.expiry, line.at) {
            return self.judged.breaks(Breach {
                law: Law::Firing,
                place: line,
                whose: whose_of(armed.owner, address),
                finding: Finding::Early {
                    timer: armed.kind,
                    expiry: armed.expiry,
                    fired: line.at,
                },
                sign: None,
            });
        }
        self.judged.holds(Law::Firing);
        self.late.push(line.at.saturating_sub(armed.expiry))?;
        Ok(())
    }

    fn judge_awake(
        &mut self,
        line: LawLine,
        armed: ArmedTimer,
        pid: u64,
    ) -> Result<(), AllocError> {
        match armed.woke {
            Some(woken) if is_awake_long(woken.at, armed.expiry, line.at) => self.judged.breaks(
                Breach {
                    law: Law::Firing,
                    place: line,
                    whose: Whose::Task { pid },
                    finding: Finding::Awake { woke: woken.line },
                    sign: None,
                },
            ),
            _ => {
                self.judged.holds(Law::Firing);
                Ok(())
            }
        }
    }

    /// A task wakes: its 0-lag timer is to be stopped.
    pub(crate) fn wake_zero_lag(&mut self, task: usize, read: ReadLine) {
        if let Some(armed) = self.zero_lag_of(task)
            && armed.woke.is_none()
        {
            armed.woke = Some(Woken {
                line: read.line,
                at: read.at,
            });
        }
    }

    /// What is armed of the 0-lag timer of a task.
    fn zero_lag_of(&mut self, task: usize) -> Option<&mut ArmedTimer> {
        let task = self.tasks.get(task)?;
        let (pid, place) = (task.pid, task.zero_lag_timer?);
        match &mut self.timers.get_mut(place)?.armed {
            Some(armed) if armed.owner == Some(pid) => Some(armed),
            _ => None,
        }
    }

    /// The task of this pid is seen to do what stops its 0-lag timer.
    pub(crate) fn excuse_zero_lag(&mut self, pid: u64) {
        if let Some(task) = self.tasks.find(pid)
            && let Some(armed) = self.zero_lag_of(task)
        {
            armed.is_excused = true;
        }
    }

    /// A task is seen to do what stops its replenishment timer.
    pub(crate) fn excuse_replenish(&mut self, task: usize) {
        if let Some(task) = self.tasks.get(task)
            && let Some(place) = task.dl_timer
        {
            let pid = task.pid;
            if let Some(timer) = self.timers.get_mut(place)
                && let Some(armed) = &mut timer.armed
                && armed.owner == Some(pid)
            {
                armed.is_excused = true;
            }
        }
    }

    /// A CPU goes: its timers go to others.
    pub(crate) fn excuse_cpu(&mut self, cpu: u32) {
        for timer in self.timers.all.iter_mut() {
            if let Some(armed) = &mut timer.armed
                && armed.place.cpu == cpu
            {
                armed.is_excused = true;
            }
        }
    }

    /// The task of this pid is seen to do what stops both its timers.
    pub(crate) fn excuse_all(&mut self, pid: u64) {
        self.excuse_zero_lag(pid);
        if let Some(task) = self.tasks.find(pid) {
            self.excuse_replenish(task);
        }
    }
}

fn whose_of(owner: Option<u64>, timer: u64) -> Whose {
    match owner {
        Some(pid) => Whose::Task { pid },
        None => Whose::Timer { timer },
    }
}

pub(crate) fn standing_of(task: &Task) -> Standing {
    if task.is_away {
        Standing::Away
    } else if task.is_queued {
        Standing::Queued
    } else {
        Standing::Blocked
    }
}

/// When a 0-lag timer that is armed at this moment is to fire.
fn zero_lag_moment(at: u64, expiry: Expiry) -> u64 {
    match expiry {
        Expiry::After(span) => at.wrapping_add(span.cast_unsigned()),
        Expiry::At(moment) => moment.cast_unsigned(),
    }
}
