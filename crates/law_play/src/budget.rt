//! Budget: what a task runs and wakes with.

use crate::play::LawPlay;
use crate::task::Task;
use law_findings::{Breach, Finding, Law, LineKind, ReadLine, Whose, has_budget, is_within};
use std::alloc::AllocError;
use trace_data::Budget;

/// ENQUEUE_WAKEUP.
const WAKEUP: u64 = 1;

/// The greatest runtime that a task had under a deadline: its parameters may change meanwhile.
#[derive(Clone, Copy)]
pub(crate) struct MostRuntime {
    pub deadline: u64,
    pub dl_runtime: u64,
}

/// The line of a task before.
#[derive(Clone, Copy)]
pub(crate) struct Before {
    pub line: u64,
    pub kind: LineKind,

    /// It was served by another's reservation; none where its own was not known.
    pub is_boosted: Option<bool>,
}

impl LawPlay {
    /// An enqueue that shows a budget, with these ENQUEUE_ flags.
    pub(crate) fn budget_at_wake(
        &mut self,
        place: usize,
        read: ReadLine,
        budget: Budget,
        flags: u64,
    ) -> Result<(), AllocError> {
        let Some(task) = self.budget_of(place, budget) else {
            return Ok(());
        };
        let pid = task.pid;
        let Some(before) = task.before else {
            return Ok(());
        };
        let has_blocked = matches!(before.kind, LineKind::Dequeue | LineKind::Update);
        let was_boosted = before.is_boosted == Some(true);
        if flags & WAKEUP == 0 || budget.deadline == 0 || !has_blocked || was_boosted {
            return Ok(());
        }
        self.judge_budget(pid, read, LineKind::Enqueue, budget.runtime)
    }

    /// A charge or a dequeue that shows a budget.
    pub(crate) fn budget_in_use(
        &mut self,
        place: usize,
        read: ReadLine,
        kind: LineKind,
        budget: Budget,
    ) -> Result<(), AllocError> {
        let Some(task) = self.budget_of(place, budget) else {
            return Ok(());
        };
        let pid = task.pid;
        let was_boosted = match task.before {
            Some(before) => before.is_boosted,
            None => None,
        };
        if kind == LineKind::Update && was_boosted == Some(false) {
            self.judge_budget(pid, read, kind, budget.runtime)?;
        }
        if was_boosted == Some(true) {
            return Ok(());
        }
        let dl_runtime = self.most_runtime(place, budget.deadline);
        if is_within(budget.runtime, dl_runtime) {
            self.judged.holds(Law::Budget);
            return Ok(());
        }
        self.judged.breaks(Breach {
            law: Law::Budget,
            place: read.place(kind),
            whose: Whose::Task { pid },
            finding: Finding::TooMuchBudget {
                budget: budget.runtime,
                dl_runtime,
            },
            sign: None,
        })
    }

    /// The task whose budget is its own, and which is not throttled.
    fn budget_of(&self, place: usize, budget: Budget) -> Option<&Task> {
        let task = self.tasks.get(place)?;
        let reservation = task.reservation?;
        let is_own = !reservation.is_special() && !reservation.is_boosted;
        if is_own && reservation.parameters.dl_runtime > 0 && !budget.is_throttled {
            Some(task)
        } else {
            None
        }
    }

    /// A line shows a deadline: the runtime that the task has under it, its own or that of the one that boosts it.
    pub(crate) fn see_runtime(&mut self, place: usize, deadline: u64) {
        let Some(task) = self.tasks.get_mut(place) else {
            return;
        };
        let Some(reservation) = task.reservation else {
            return;
        };
        let own = reservation.parameters.dl_runtime;
        let donor = if reservation.is_boosted {
            reservation.donor.dl_runtime
        } else {
            0
        };
        let before = match task.most_runtime {
            Some(most) if most.deadline == deadline => most.dl_runtime,
            _ => 0,
        };
        task.most_runtime = Some(MostRuntime {
            deadline,
            dl_runtime: before.max(own).max(donor),
        });
    }

    /// The greatest runtime that the task had under this deadline.
    fn most_runtime(&mut self, place: usize, deadline: u64) -> u64 {
        self.see_runtime(place, deadline);
        match self.tasks.get(place) {
            Some(task) => task.most_runtime.map_or(0, |most| most.dl_runtime),
            None => 0,
        }
    }

    fn judge_budget(
        &mut self,
        pid: u64,
        read: ReadLine,
        kind: LineKind,
        budget: i64,
    ) -> Result<(), AllocError> {
        if has_budget(budget) {
            self.judged.holds(Law::Budget);
            return Ok(());
        }
        self.judged.breaks(Breach {
            law: Law::Budget,
            place: read.place(kind),
            whose: Whose::Task { pid },
            finding: Finding::NoBudget { budget },
            sign: None,
        })
    }

    /// A task's line is the one before its next.
    pub(crate) fn see_before(&mut self, place: usize, line: u64, kind: LineKind) {
        if let Some(task) = self.tasks.get_mut(place) {
            task.before = Some(Before {
                line,
                kind,
                is_boosted: task.reservation.map(|it| it.is_boosted),
            });
        }
    }
}
