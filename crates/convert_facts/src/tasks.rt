//! The tasks that were given, and what lines show of them.

ghost use Rattle.std.specs.Prelude.{◌≡◌, ◌<◌, ◌++◌, ◌∷◌, [], IfOk, IfSome, OnOk, if◌then◌else◌, position, vec_len};
ghost use Rattle.trace_fields.specs.Shown.{shown_text};
ghost use Rattle.convert_facts.specs.Given.{armed_after, arming, disowned, has_pid, has_timer, index_of, index_of_comm, index_of_timer, index_shown, index_timed, index_told, is_sugov, seeks, settled, shown_index, task_of_pid, tasks_after};
ghost use Rattle.convert_facts.specs.Keeping.{given_text, tasks_text};
ghost use Rattle.convert_facts.specs.inside.Reports.{report_text};

use crate::fact::Found;
use crate::given::{GivenTask, is_sugov};
use crate::report::{EventReport, is_zero_lag};
use std::alloc::{AllocError, Global};
use trace_data::Fixed;
use trace_fields::{Shown, number};

/// The tasks that were given, in their order.
#[derive(Drop)]
pub struct GivenTasks {
    pub alloc: Global,
    pub given: Vec<GivenTask>,
}

fn place_of_pid(given: &[GivenTask], pid: u64) -> Option<usize>
    ensures { result ≡ position (λ g. has_pid pid (given_text g)) given.now }
{
    given.iter().position(|task| task.has_pid(pid))
}

fn place_of_comm(given: &[GivenTask], comm: &[u8]) -> Option<usize>
    ensures { result ≡ position (λ g. seeks comm.now (given_text g)) given.now }
{
    given.iter().position(|task| task.seeks(comm))
}

fn place_of_timer(given: &[GivenTask], timer: u64) -> Option<usize>
    ensures { result ≡ position (λ g. has_timer timer (given_text g)) given.now }
{
    given.iter().position(|task| task.has_timer(timer))
}

impl GivenTasks {
    /// The tasks with these names.
    pub(crate) fn new(alloc: Global, names: &[&[u8]]) -> Result<GivenTasks, AllocError> {
        let mut tasks = GivenTasks {
            alloc,
            given: Vec::new(alloc),
        };
        for name in names {
            tasks.give(name)?;
        }
        Ok(tasks)
    }

    /// One more task. Of two tasks with one pid the second is none that the trace shows.
    fn give(&mut self, name: &[u8]) -> Result<(), AllocError> {
        let given = self.given_by(name)?;
        self.given.push(given)?;
        Ok(())
    }

    /// The task of this name, behind these.
    fn given_by(&self, name: &[u8]) -> Result<GivenTask, AllocError> {
        match number(name) {
            None => Ok(GivenTask {
                sought: Some(Vec::from_slice(self.alloc, name)?),
                pid: None,
                found: None,
                timer: None,
            }),
            Some(pid) => {
                let is_taken = self.index_of(pid).is_some();
                Ok(GivenTask {
                    sought: None,
                    pid: if is_taken { None } else { Some(pid) },
                    found: None,
                    timer: None,
                })
            }
        }
    }

    /// The index of the task with this pid.
    fn index_of(&self, pid: u64) -> Option<usize>
        ensures index { result ≡ index_of (tasks_text self.now) pid }
        ensures bound { IfSome result (λ i. i < vec_len self.now.given) }
    {
        place_of_pid(&self.given, pid)
    }

    /// The index of the task whose comm is looked for and is this one.
    fn index_of_comm(&self, comm: &[u8]) -> Option<usize>
        ensures index { result ≡ index_of_comm (tasks_text self.now) comm.now }
        ensures bound { IfSome result (λ i. i < vec_len self.now.given) }
    {
        place_of_comm(&self.given, comm)
    }

    /// The index of the task whose 0-lag timer this is.
    fn index_of_timer(&self, timer: u64) -> Option<usize>
        ensures index { result ≡ index_of_timer (tasks_text self.now) timer }
        ensures bound { IfSome result (λ i. i < vec_len self.now.given) }
    {
        place_of_timer(&self.given, timer)
    }

    /// The index of the task that a line shows, whose comm is no longer looked for.
    pub(crate) fn settle(&mut self, shown: &Shown<&[u8]>) -> Option<usize>
        ensures tasks { tasks_text self.new ≡ settled (tasks_text self.old) (shown_text shown.now) }
        ensures index { result ≡ shown_index (tasks_text self.old) (shown_text shown.now) }
        ensures bound { IfSome result (λ i. i < vec_len self.new.given) }
    {
        let index = self.index_of(shown.pid);
        let Some(i) = self.index_of_comm(shown.comm) else {
            return index;
        };
        let given = &mut self.given[i];
        given.sought = None;
        if index.is_some() {
            return index;
        }
        given.pid = Some(shown.pid);
        Some(i)
    }

    /// The index of the task that a line shows, which is noted where it is the first to show it.
    fn show(&mut self, line: u64, shown: &Shown<&[u8]>) -> Result<Option<usize>, AllocError>
        ensures tasks { OnOk result
            (tasks_text self.new ≡ settled (tasks_text self.old) (shown_text shown.now)) }
        ensures index { IfOk result
            (λ i. i ≡ shown_index (tasks_text self.old) (shown_text shown.now)) }
    {
        let index = self.settle(shown);
        let Some(i) = index else {
            return Ok(index);
        };
        let alloc = self.alloc;
        let given = &mut self.given[i];
        if given.found.is_some() {
            return Ok(index);
        }
        let comm = Vec::from_slice(alloc, shown.comm)?;
        given.found = Some(Found {
            pid: shown.pid,
            comm,
            line,
        });
        Ok(index)
    }

    /// One more task, of which a note tells, with this pid.
    pub(crate) fn give_pid(&mut self, pid: u64) -> Result<(), AllocError>
        ensures { OnOk result
            (tasks_text self.new ≡ tasks_text self.old ++ task_of_pid pid ∷ []) }
    {
        self.given.push(GivenTask {
            sought: None,
            pid: Some(pid),
            found: None,
            timer: None,
        })?;
        Ok(())
    }

    /// Takes a timer from the task whose 0-lag timer it was.
    fn disown(&mut self, timer: u64)
        ensures { tasks_text self.new ≡ disowned timer (tasks_text self.old) }
    {
        if let Some(i) = self.index_of_timer(timer) {
            self.given[i].timer = None;
        }
    }

    /// Makes a timer the 0-lag timer of the task with this pid, and of no other.
    fn arm(&mut self, timer: u64, pid: u64) -> Option<usize>
        ensures tasks { tasks_text self.new ≡ arming timer pid (tasks_text self.old) }
        ensures index { result ≡ index_of (disowned timer (tasks_text self.old)) pid }
    {
        self.disown(timer);
        let index = self.index_of(pid);
        if let Some(i) = index {
            self.given[i].timer = Some(timer);
        }
        index
    }

    /// Notes a task that a line shows, unless it is a kernel thread that has no bandwidth.
    fn note_shown(&mut self, line: u64, shown: &Shown<&[u8]>) -> Result<Option<usize>, AllocError>
        ensures tasks { OnOk result
            (tasks_text self.new ≡ (if is_sugov shown.now.comm.now then tasks_text self.old
            else settled (tasks_text self.old) (shown_text shown.now))) }
        ensures index { IfOk result
            (λ i. i ≡ index_shown (tasks_text self.old) (shown_text shown.now)) }
    {
        if is_sugov(shown.comm) {
            return Ok(None);
        }
        self.show(line, shown)
    }

    /// Notes what a timer does while the task with this pid runs, and answers the index of its task.
    fn note_timer(&mut self, pid: u64, event: &Fixed) -> Option<usize>
        ensures tasks { tasks_text self.new ≡ armed_after pid event.now (tasks_text self.old) }
        ensures index { result ≡ index_timed pid event.now (tasks_text self.old) }
    {
        match *event {
            Fixed::TimerStarted {
                timer,
                function,
                ..
            } => if is_zero_lag(function) {
                self.arm(timer, pid)
            } else {
                None
            },
            Fixed::TimerCancelled { timer } | Fixed::TimerFired { timer, .. } => {
                self.index_of_timer(timer)
            }
            _ => None,
        }
    }

    /// Notes what a line shows, and answers the index of the task that it tells of.
    pub(crate) fn note(
        &mut self,
        line: u64,
        report: &EventReport<&[u8]>,
    ) -> Result<Option<usize>, AllocError>
        ensures tasks { OnOk result
            (tasks_text self.new
            ≡ tasks_after (report_text report.now) (tasks_text self.old)) }
        ensures index { IfOk result
            (λ i. i ≡ index_told (report_text report.now) (tasks_text self.old)) }
    {
        match &report.shown {
            Some(shown) => self.note_shown(line, shown),
            None => Ok(self.note_timer(report.pid, &report.event)),
        }
    }

    /// Where each task was first shown.
    pub(crate) fn finish(self) -> Result<Vec<Option<Found>>, AllocError> {
        let GivenTasks { alloc, given } = self;
        let mut found = Vec::with_capacity(alloc, given.len())?;
        for task in given {
            found.push(task.found)?;
        }
        Ok(found)
    }
}
