//! What the lines of timers leave in a record.

ghost use Rattle.std.specs.Prelude.{◌≡◌, IfOk, OnOk, slice_get};
ghost use Rattle.timer_record.specs.Kept.{handed_in, handed_to, is_left_at, kept_of, with_address};
ghost use Rattle.timer_record.specs.Passing.{cancelled_at, cancelled_in, charged_before, fired_at, fired_in, fired_of, lag_started_at, lag_started_in, replenish_started_at, replenish_started_in, started_at, suspected_in, zero_lag_started_in};
ghost use Rattle.timer_record.specs.Timers.{with_line_of};

use crate::before::Before;
use crate::event::KeptEvent;
use crate::lines::{TimerLines, Unlisted, first_of};
use crate::record::{KeptPlace, OpenRecord, TimerPlace, number};
use std::alloc::AllocError;
use trace_data::TimerFunction;

impl OpenRecord {
    pub(crate) fn zero_lag_started(
        &mut self,
        place: KeptPlace,
        pid: u64,
        address: u64,
        expires: u64,
    ) -> Result<(), AllocError>
        ensures { OnOk result (kept_of self.new
            ≡ zero_lag_started_in place pid address expires (kept_of self.old)) }
    {
        self.set_before(place.cpu, Before::Nothing)?;
        self.start_lag(place, pid, address, expires)
    }

    #[tactic(auto, unfolding(crate::specs::Passing::lag_started_in))]
    fn start_lag(
        &mut self,
        place: KeptPlace,
        pid: u64,
        address: u64,
        expires: u64,
    ) -> Result<(), AllocError>
        ensures { OnOk result (kept_of self.new
            ≡ lag_started_in place pid address expires (kept_of self.old)) }
    {
        let there = self.timer(address)?;
        self.keep_lag(place, pid, there.timer, expires)
    }

    /// `inactive_task_timer` of this number is started, while the task of this pid runs.
    #[tactic(auto, unfolding(crate::specs::Passing::lag_started_at))]
    fn keep_lag(
        &mut self,
        place: KeptPlace,
        pid: u64,
        timer: u32,
        expires: u64,
    ) -> Result<(), AllocError>
        ensures { OnOk result (kept_of self.new
            ≡ lag_started_at place pid timer expires (kept_of self.old)) }
    {
        let task = self.task_of(pid);
        match task {
            None => self.suspect(pid),
            Some(task) => {
                if let Some(lines) = self.lines.tasks.get_mut(task as usize) {
                    lines.zero_lag_timer = lines.zero_lag_timer.with(timer);
                }
            }
        }
        self.keep(
            place,
            KeptEvent::ZeroLagStarted {
                timer,
                task,
                expires,
            },
        )
    }

    #[tactic(auto, unfolding(crate::specs::Passing::replenish_started_in))]
    pub(crate) fn replenish_started(
        &mut self,
        place: KeptPlace,
        address: u64,
        expires: u64,
    ) -> Result<(), AllocError>
        ensures { OnOk result (kept_of self.new
            ≡ replenish_started_in place address expires (kept_of self.old)) }
    {
        let there = self.timer(address)?;
        self.hand_on(place, address, there, expires)
    }

    /// `dl_task_timer` is started at an address, where this timer was so far.
    #[tactic(auto, unfolding(crate::specs::Passing::started_at))]
    fn hand_on(
        &mut self,
        place: KeptPlace,
        address: u64,
        there: TimerPlace,
        expires: u64,
    ) -> Result<(), AllocError>
        ensures { OnOk result (kept_of self.new
            ≡ started_at place address there expires (kept_of self.old)) }
    {
        let there = self.handed(address, there)?;
        self.keep_replenish(place, there, expires)
    }

    /// The timer at an address from a start on: another one, where the task of the one so far has ended or left the class.
    #[tactic(auto, unfolding(crate::specs::Kept::handed_in))]
    fn handed(&mut self, address: u64, there: TimerPlace) -> Result<TimerPlace, AllocError>
        ensures place { IfOk result (λ p. p ≡ handed_to there (kept_of self.old)) }
        ensures state { OnOk result
            (kept_of self.new ≡ handed_in address there (kept_of self.old)) }
    {
        if !self.is_left(there.timer) {
            return Ok(there);
        }
        let next = TimerPlace {
            timer: number(self.lines.timers.len()),
            ..there
        };
        self.lines.timers.push(TimerLines::new(there.address))?;
        let _ = self.addresses.insert(address, next)?;
        Ok(next)
    }

    /// Whether the task of this timer has ended or left the class.
    fn is_left(&self, timer: u32) -> bool
        ensures { result ≡ is_left_at timer (kept_of self.now) }
    {
        let Some(lines) = self.lines.timers.get(timer as usize) else {
            return false;
        };
        match lines.task.winner() {
            Some(task) => match self.passing.get(task as usize) {
                Some(passing) => passing.is_gone(),
                None => false,
            },
            None => false,
        }
    }

    /// `dl_task_timer` of this number is started.
    #[tactic(auto, unfolding(crate::specs::Passing::replenish_started_at))]
    fn keep_replenish(
        &mut self,
        place: KeptPlace,
        there: TimerPlace,
        expires: u64,
    ) -> Result<(), AllocError>
        ensures { OnOk result (kept_of self.new
            ≡ replenish_started_at place there expires (kept_of self.old)) }
    {
        let TimerPlace { address, timer } = there;
        let charged = charged_before(self.before(place.cpu));
        if let Some(lines) = self.lines.addresses.get_mut(address as usize) {
            *lines = lines.with_start(place.cpu, expires.saturating_sub(place.at), charged);
        }
        if let Some(lines) = self.lines.timers.get_mut(timer as usize) {
            *lines = lines.with_start(charged);
        }
        self.set_before(place.cpu, Before::Started { timer })?;
        self.keep(place, KeptEvent::ReplenishStarted { timer, expires })
    }

    #[tactic(auto, unfolding(crate::specs::Passing::cancelled_in))]
    pub(crate) fn cancelled(&mut self, place: KeptPlace, address: u64) -> Result<(), AllocError>
        ensures { OnOk result (kept_of self.new ≡ cancelled_in place address (kept_of self.old)) }
    {
        let there = self.timer(address)?;
        self.keep_cancel(place, there)
    }

    /// A line of a timer at the address of this number, which is no start.
    fn see_address(&mut self, address: u32)
        ensures { kept_of self.new ≡ with_address with_line_of address (kept_of self.old) }
    {
        if let Some(lines) = self.lines.addresses.get_mut(address as usize) {
            *lines = lines.with_line();
        }
    }

    #[tactic(auto, unfolding(crate::specs::Passing::cancelled_at))]
    fn keep_cancel(&mut self, place: KeptPlace, there: TimerPlace) -> Result<(), AllocError>
        ensures { OnOk result (kept_of self.new ≡ cancelled_at place there (kept_of self.old)) }
    {
        let is_wanted = self.keeps_cancels;
        self.see_address(there.address);
        if is_wanted {
            self.keep(place, KeptEvent::Cancelled { timer: there.timer })
        } else {
            Ok(())
        }
    }

    pub(crate) fn fired(
        &mut self,
        place: KeptPlace,
        address: u64,
        function: TimerFunction,
    ) -> Result<(), AllocError>
        ensures { OnOk result (kept_of self.new
            ≡ fired_in place address function (kept_of self.old)) }
    {
        self.set_before(place.cpu, Before::Nothing)?;
        self.fire(place, address, function)
    }

    #[tactic(auto, unfolding(crate::specs::Passing::fired_of))]
    fn fire(
        &mut self,
        place: KeptPlace,
        address: u64,
        function: TimerFunction,
    ) -> Result<(), AllocError>
        ensures { OnOk result (kept_of self.new
            ≡ fired_of place address function (kept_of self.old)) }
    {
        if let TimerFunction::Other = function {
            return Ok(());
        }
        let there = self.timer(address)?;
        self.keep_fire(place, there, function)
    }

    /// This timer fires.
    fn keep_fire(
        &mut self,
        place: KeptPlace,
        there: TimerPlace,
        function: TimerFunction,
    ) -> Result<(), AllocError>
        ensures { OnOk result (kept_of self.new
            ≡ fired_at place there function (kept_of self.old)) }
    {
        let TimerPlace { address, timer } = there;
        match function {
            TimerFunction::ZeroLag => {
                self.see_address(address);
                self.keep(place, KeptEvent::ZeroLagFired { timer })
            }
            TimerFunction::Replenish => {
                self.see_address(address);
                self.keep(place, KeptEvent::ReplenishFired { timer })
            }
            TimerFunction::Other => Ok(()),
        }
    }

    /// A 0-lag timer is started while the task of this pid runs, which has no reservation.
    #[tactic(auto, unfolding(crate::specs::Passing::suspected_in))]
    fn suspect(&mut self, pid: u64)
        ensures { kept_of self.new ≡ suspected_in pid (kept_of self.old) }
    {
        if let Some(line) = self.strangers.get(&pid) {
            let unlisted = Unlisted { line: *line, pid };
            self.lines.unlisted = Some(first_of(self.lines.unlisted, unlisted));
        }
    }
}

/// The task whose charge is the line before.
fn charged_before(before: Before) -> Option<u32>
    ensures { result ≡ charged_before before }
{
    match before {
        Before::Charged { task } => Some(task),
        _ => None,
    }
}
