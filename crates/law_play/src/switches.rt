//! Which task a CPU puts on, and which tasks wait for it.

use crate::play::LawPlay;
use law_findings::{LineKind, Queued, ReadLine};
use law_values::LowerTask;
use std::alloc::AllocError;

impl LawPlay {
    /// A CPU switches to another task.
    pub(crate) fn switched(
        &mut self,
        read: ReadLine,
        next_pid: u64,
        next_is_deadline: bool,
    ) -> Result<(), AllocError> {
        self.runs
            .switch(&mut self.judged, read, next_pid, next_is_deadline)?;
        self.judge_lower(read.cpu, read, LineKind::Switch)?;
        if !next_is_deadline {
            let lower = LowerTask {
                pid: next_pid,
                at: read.at,
            };
            return self.ready.put_on(read.cpu, Some(lower));
        }
        self.ready.put_on(read.cpu, None)?;
        match self.tasks.find(next_pid) {
            Some(task) => self.picks.put_on(task, next_pid, read),
            None => Ok(()),
        }
    }

    /// Whether the task of this pid is in the class.
    fn is_member(&mut self, pid: u64) -> bool {
        match self.tasks.find(pid) {
            Some(place) => match self.tasks.get(place) {
                Some(task) => task.reservation.is_some() && !task.is_away,
                None => false,
            },
            None => false,
        }
    }

    /// Up to this line the tasks of a CPU waited for a lower class, unless the task that it runs has come into the class.
    fn judge_lower(&mut self, cpu: u32, read: ReadLine, kind: LineKind) -> Result<(), AllocError> {
        match self.ready.lower(cpu) {
            Some(lower) if !self.is_member(lower.pid) => self.ready.judge(cpu, read.place(kind)),
            _ => Ok(()),
        }
    }

    /// The task that wrote a line may have come into the class as it ran.
    pub(crate) fn run_in_class(&mut self, read: ReadLine) -> Result<(), AllocError> {
        if self.ready.lower(read.cpu).is_some() && self.is_member(read.pid) {
            self.ready.put_on(read.cpu, None)?;
        }
        Ok(())
    }

    /// A task's next line shows what it was queued with; none where it has left the class meanwhile.
    pub(crate) fn shown_pick(
        &mut self,
        task: usize,
        pid: u64,
        shown: Option<Queued>,
    ) -> Result<(), AllocError> {
        self.picks.show(&mut self.judged, task, pid, shown)
    }

    /// A task's next line shows whether it could run since its last one; none where it has left the class. Up to a line that shows
    /// that it could, the tasks of its CPU waited.
    pub(crate) fn shown_ready(
        &mut self,
        task: usize,
        pid: u64,
        read: ReadLine,
        kind: LineKind,
        is_throttled: Option<bool>,
    ) -> Result<(), AllocError> {
        let Some(cpu) = self.ready.cpu_of(task) else {
            return Ok(());
        };
        if read.pid != pid && is_throttled == Some(false) {
            self.judge_lower(cpu, read, kind)?;
        }
        self.ready.show(&mut self.judged, task, is_throttled)
    }
}
