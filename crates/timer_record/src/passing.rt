//! What each line of an event leaves in a record, by its kind.

ghost use Rattle.std.specs.Prelude.{◌≡◌, OnOk};
ghost use Rattle.timer_record.specs.Kept.{kept_of};
ghost use Rattle.timer_record.specs.Passing.{called_in, out_in, passed_in, returned_in, switched_at};

use crate::before::Before;
use crate::event::KeptEvent;
use crate::record::{KeptPlace, OpenRecord};
use std::alloc::AllocError;
use trace_data::{Fixed, Stop, TimerFunction};

impl OpenRecord {
    pub(crate) fn pass(
        &mut self,
        place: KeptPlace,
        pid: u64,
        fixed: Fixed,
    ) -> Result<(), AllocError>
        ensures { OnOk result (kept_of self.new ≡ passed_in place pid fixed (kept_of self.old)) }
    {
        match fixed {
            Fixed::Woken {
                pid: woken,
                is_deadline,
                cpu,
            } => self.woken(place, woken, is_deadline, cpu),
            Fixed::Migrated {
                pid: moved,
                is_deadline,
                cpu,
            } => self.migrated(place, moved, is_deadline, cpu),
            Fixed::Ran {
                pid: charged,
                nanos,
            } => self.ran(place, charged, nanos),
            Fixed::Switched {
                pid: stopped,
                is_deadline,
                stop,
                next_pid,
                next_is_deadline: _,
            } => {
                self.set_before(place.cpu, Before::Nothing)?;
                let is_idle = place.is_idle || stopped == 0;
                let place = KeptPlace { is_idle, ..place };
                self.switched(place, stopped, is_deadline, stop, next_pid == 0)
            }
            Fixed::TimerStarted {
                timer,
                function,
                expires,
            } => match function {
                TimerFunction::ZeroLag => self.zero_lag_started(place, pid, timer, expires),
                TimerFunction::Replenish => self.replenish_started(place, timer, expires),
                TimerFunction::Other => self.set_before(place.cpu, Before::Nothing),
            },
            Fixed::TimerCancelled { timer } => self.cancelled(place, timer),
            Fixed::TimerFired {
                timer,
                function,
                is_tick: _,
                now: _,
            } => self.fired(place, timer, function),
            Fixed::PolicyCalled => {
                self.see_call(pid);
                self.set_before(place.cpu, Before::Nothing)
            }
            Fixed::PolicyReturned => {
                self.see_return(pid);
                self.set_before(place.cpu, Before::Nothing)
            }
        }
    }

    /// The task of this pid is switched out.
    #[tactic(auto, unfolding(crate::specs::Passing::switched_at))]
    fn switched(
        &mut self,
        place: KeptPlace,
        pid: u64,
        is_deadline: bool,
        stop: Stop,
        is_next_idle: bool,
    ) -> Result<(), AllocError>
        ensures { OnOk result (kept_of self.new
            ≡ switched_at place pid is_deadline stop is_next_idle (kept_of self.old)) }
    {
        let task = self.task_of(pid);
        self.see_out(task, is_deadline, stop);
        if task.is_none() && !(is_deadline && is_next_idle) {
            return self.keep_idle(place);
        }
        self.keep(
            place,
            KeptEvent::Switched {
                task,
                is_deadline,
                stop,
                is_next_idle,
            },
        )
    }

    /// A call of sched_setattr(2) of the task of this pid.
    fn see_call(&mut self, pid: u64)
        ensures { kept_of self.new ≡ called_in pid (kept_of self.old) }
    {
        if let Some(task) = self.task_of(pid) {
            if let Some(passing) = self.passing.get_mut(task as usize) {
                *passing = passing.calling();
            }
        }
    }

    /// And its return.
    fn see_return(&mut self, pid: u64)
        ensures { kept_of self.new ≡ returned_in pid (kept_of self.old) }
    {
        if let Some(task) = self.task_of(pid) {
            if let Some(passing) = self.passing.get_mut(task as usize) {
                *passing = passing.returned();
            }
        }
    }

    /// A task that has a reservation is switched out.
    fn see_out(&mut self, task: Option<u32>, is_deadline: bool, stop: Stop)
        ensures { kept_of self.new ≡ out_in task is_deadline stop (kept_of self.old) }
    {
        if let Some(task) = task {
            if let Some(passing) = self.passing.get_mut(task as usize) {
                *passing = passing.switched(is_deadline, stop);
            }
        }
    }
}
