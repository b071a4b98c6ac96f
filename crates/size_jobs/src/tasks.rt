//! The tasks of a trace by their pids.

ghost use Rattle.std.specs.Prelude.{◌≡◌, [], IfNone, IfSome, OnOk, nat_eq};
ghost use Rattle.std.specs.HashMap.{get};
ghost use Rattle.trace_fields.specs.Shown.{shown_text};
ghost use Rattle.size_jobs.specs.Taking.{named_with, none_watched, tasks_of, told_to};
ghost use Rattle.size_jobs.specs.inside.Keeping.{Keeps, Takes};

use crate::task::{JobStep, JobTask};
use std::alloc::{AllocError, Global};
use std::collections::HashMap;
use trace_fields::Shown;

/// The tasks of a trace.
#[derive(Drop)]
pub struct JobTasks {
    alloc: Global,
    by_pid: HashMap<u64, JobTask>,

    /// The pids in the order of their first lines.
    pids: Vec<u64>,

    /// The first pid that a line shows with a comm.
    named: HashMap<Vec<u8>, u64>,
}

impl JobTasks {
    pub(crate) fn new(alloc: Global) -> JobTasks
        ensures { tasks_of result ≡ none_watched }
    {
        JobTasks {
            alloc,
            by_pid: HashMap::new(alloc),
            pids: Vec::new(alloc),
            named: HashMap::new(alloc),
        }
    }

    /// The pids of the tasks, in the order of their first lines.
    pub fn pids(&self) -> &[u64] {
        &self.pids
    }

    /// The task of a pid.
    pub fn task(&self, pid: u64) -> Option<&JobTask>
        ensures jobs { IfSome result
            (λ t. t.now.jobs.items ≡ ((tasks_of self.now).watched pid).jobs) }
        ensures comm { IfSome result
            (λ t. t.now.comm.items ≡ ((tasks_of self.now).watched pid).comm) }
        ensures none { IfNone result (((tasks_of self.now).watched pid).jobs ≡ []) }
    {
        self.by_pid.get(&pid)
    }

    /// The pid of a name: the first that a line shows with it as its comm.
    pub fn pid_named(&self, comm: &[u8]) -> Option<u64>
        ensures { result ≡ (tasks_of self.now).named comm.now }
    {
        self.named.get(comm).copied()
    }

    /// A comm is the name of the first pid that is shown with it.
    fn name(&mut self, shown: &Shown<&[u8]>) -> Result<(), AllocError>
        ensures tasks { self.new.by_pid ≡ self.old.by_pid }
        ensures named { OnOk result ((tasks_of self.new).named
            ≡ named_with (shown_text shown.now) (tasks_of self.old).named) }
    {
        if self.named.get(shown.comm).is_none() {
            let comm = Vec::from_slice(self.alloc, shown.comm)?;
            self.named.insert(comm, shown.pid)?;
        }
        Ok(())
    }

    /// Adds a task that no line showed before.
    fn add(&mut self, pid: u64) -> Result<(), AllocError>
        ensures tasks { OnOk result
            (Keeps pid (get nat_eq self.old.by_pid) (get nat_eq self.new.by_pid)) }
        ensures named { self.new.named ≡ self.old.named }
    {
        if self.by_pid.get(&pid).is_some() {
            return Ok(());
        }
        self.pids.push(pid)?;
        self.by_pid.insert(pid, JobTask::new(self.alloc))?;
        Ok(())
    }

    fn take_step(&mut self, shown: &Shown<&[u8]>, told: JobStep) -> Result<(), AllocError>
        ensures tasks { OnOk result (Takes shown.now.pid shown.now.comm.now told
            (get nat_eq self.old.by_pid) (get nat_eq self.new.by_pid)) }
        ensures named { self.new.named ≡ self.old.named }
    {
        self.add(shown.pid)?;
        let Some(task) = self.by_pid.get_mut(&shown.pid) else {
            return Ok(());
        };
        task.take(told)?;
        task.show(self.alloc, shown.comm)
    }

    /// Takes what a line tells of the task that it shows, and nothing of any other.
    pub(crate) fn take(&mut self, shown: &Shown<&[u8]>, told: JobStep) -> Result<(), AllocError>
        ensures { OnOk result
            (tasks_of self.new ≡ told_to (shown_text shown.now) told (tasks_of self.old)) }
    {
        self.take_step(shown, told)?;
        self.name(shown)
    }
}
