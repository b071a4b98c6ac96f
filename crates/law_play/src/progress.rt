//! Progress: whatever throttles a task arms its replenishment timer.

use crate::play::LawPlay;
use crate::states::REPLENISH;
use crate::task::Task;
use law_findings::{
    Breach, Finding, FiredTimer, Law, LineKind, ReadLine, Sign, Standing, Throttled, Whose,
    is_waited_for,
};
use std::alloc::AllocError;
use trace_data::Enqueued;

impl LawPlay {
    /// A replenishment timer is armed on this CPU: the last charge there is answered.
    pub(crate) fn answer_charge(&mut self, cpu: u32) {
        if let Some(pid) = self.cpus.of(cpu).charged {
            self.answer(pid);
        }
    }

    /// An enqueue answers the last charge on this CPU where it replenishes that task; any other ends the call.
    pub(crate) fn answer_enqueue(&mut self, cpu: u32, line: &Enqueued) {
        let is_replenished = self.cpus.of(cpu).charged == Some(line.pid)
            && line.flags & REPLENISH != 0;
        if is_replenished {
            self.answer(line.pid);
        } else if let Some(cpu) = self.cpus.get_mut(cpu) {
            cpu.charged = None;
        }
    }

    fn answer(&mut self, pid: u64) {
        if let Some(place) = self.tasks.find(pid)
            && let Some(task) = self.tasks.get_mut(place)
            && let Some(charge) = &mut task.charge
        {
            charge.is_answered = true;
        }
    }

    /// The line after a charge shows whether it throttled the task.
    pub(crate) fn throttled_charge(
        &mut self,
        place: usize,
        is_throttled: bool,
    ) -> Result<(), AllocError> {
        let Some(task) = self.tasks.get_mut(place) else {
            return Ok(());
        };
        let Some(charge) = task.charge.take() else {
            return Ok(());
        };
        if !is_throttled || charge.is_boosted {
            return Ok(());
        }
        let pid = task.pid;
        let shown = Throttled {
            is_armed: charge.was_armed,
            is_firing: false,
            is_answered: charge.is_answered,
        };
        if is_waited_for(shown) {
            self.judged.holds(Law::Progress);
            return Ok(());
        }
        self.judged.breaks(Breach {
            law: Law::Progress,
            place: charge.place,
            whose: Whose::Task { pid },
            finding: Finding::NotArmed,
            sign: None,
        })
    }

    /// An enqueue that shows a task throttled, and does not replenish it.
    pub(crate) fn throttled_enqueue(
        &mut self,
        place: usize,
        read: ReadLine,
        line: &Enqueued,
        is_back: bool,
    ) -> Result<(), AllocError> {
        let Some(task) = self.tasks.get_mut(place) else {
            return Ok(());
        };
        if task.is_boosted() {
            task.is_armed = false;
            return Ok(());
        }
        let task = *task;
        if !line.budget.is_throttled
            || line.flags & REPLENISH != 0
            || is_back
            || task.reservation.is_some_and(|it| it.is_special())
        {
            return Ok(());
        }
        self.judge_enqueue(&task, read)
    }

    fn judge_enqueue(&mut self, task: &Task, read: ReadLine) -> Result<(), AllocError> {
        let is_firing = match task.fired {
            Some(fired) => self.cpus.of(fired.cpu).count == fired.count,
            None => false,
        };
        if !task.is_armed && task.fired.is_none() {
            // Its timer was armed before the record.
            return Ok(());
        }
        let shown = Throttled {
            is_armed: task.is_armed,
            is_firing,
            is_answered: false,
        };
        if is_waited_for(shown) {
            self.judged.holds(Law::Progress);
            return Ok(());
        }
        let fired = task.fired.map(|fired| fired.timer);
        self.judged.breaks(Breach {
            law: Law::Progress,
            place: read.place(LineKind::Enqueue),
            whose: Whose::Task { pid: task.pid },
            finding: Finding::NoTimer { fired },
            sign: sign_of(fired),
        })
    }
}

/// By where the task stood as its timer fired in vain.
fn sign_of(fired: Option<FiredTimer>) -> Option<Sign> {
    match fired?.standing {
        Standing::Away => Some(Sign::LeftThrottled),
        Standing::Blocked => Some(Sign::BoostEnded),
        Standing::Queued => None,
    }
}
