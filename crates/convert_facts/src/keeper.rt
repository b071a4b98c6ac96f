//! The facts of the given tasks.

ghost use Rattle.std.specs.Prelude.{◌≡◌, IfOk, OnOk, is_none, is_some};
ghost use Rattle.trace_fields.specs.Shown.{shown_text};
ghost use Rattle.convert_facts.specs.Given.{is_passed, is_trouble, move_trouble, reservation_noted, reserving, tasks_after, tasks_given, trouble_of, trouble_told, wake_trouble};
ghost use Rattle.convert_facts.specs.Keeping.{tasks_text};
ghost use Rattle.convert_facts.specs.inside.Outcomes.{outcome_of};
ghost use Rattle.convert_facts.specs.inside.Reports.{maybe_shown, report_text};

use crate::fact::{Fact, Found, What};
use crate::fault::Wrong;
use crate::given::is_sugov;
use crate::report::{EventReport, is_zero_lag};
use crate::tasks::GivenTasks;
use grub_book::Params;
use std::alloc::{AllocError, Global};
use trace_data::{Fixed, Parameters};
use trace_fields::Shown;

/// Nanoseconds of a microsecond.
const MICRO: u64 = 1000;

/// What is wrong with a line by the tasks that were given.
#[derive(Clone, Copy)]
pub enum Trouble {
    /// Nothing.
    NoTrouble,

    /// A SCHED_DEADLINE task wakes that was not given.
    Unknown,

    /// A given one wakes on or is sent to a CPU that is no runqueue's.
    TooLong,
}

/// The given tasks, and what was told of them so far.
#[derive(Drop)]
pub struct Keeper {
    alloc: Global,
    tasks: GivenTasks,

    /// What the tasks reserve that notes give, which stand behind the others.
    reserved: Vec<Params>,
    facts: Vec<Fact>,
}

fn what_told(own: u32, event: &Fixed) -> Option<What> {
    match *event {
        Fixed::Woken {
            is_deadline: true,
            cpu,
            ..
        } => Some(What::Wakes { cpu }),
        Fixed::Migrated {
            is_deadline: true,
            cpu,
            ..
        } => Some(What::Sent { cpu }),
        Fixed::Ran { nanos, .. } => Some(What::Ran { nanos }),
        Fixed::Switched {
            is_deadline: true,
            stop: state,
            ..
        } => Some(What::Stops { cpu: own, state }),
        Fixed::TimerStarted {
            function,
            expires,
            ..
        } => if is_zero_lag(function) {
            Some(What::Armed { expires })
        } else {
            None
        },
        Fixed::TimerCancelled { .. } => Some(What::Cancelled),
        Fixed::TimerFired { now, .. } => Some(What::Fired { now }),
        _ => None,
    }
}

fn wake_trouble(task: Option<usize>, cpu: u32, runqueues: u32) -> Trouble
    ensures { result ≡ wake_trouble task cpu runqueues }
{
    match task {
        None => Trouble::Unknown,
        Some(_) => if runqueues <= cpu {
            Trouble::TooLong
        } else {
            Trouble::NoTrouble
        },
    }
}

fn move_trouble(task: Option<usize>, cpu: u32, runqueues: u32) -> Trouble
    ensures { result ≡ move_trouble task cpu runqueues }
{
    match task {
        None => Trouble::NoTrouble,
        Some(_) => if runqueues <= cpu {
            Trouble::TooLong
        } else {
            Trouble::NoTrouble
        },
    }
}

/// Whether the task that a line shows is passed over.
fn is_passed(shown: Option<Shown<&[u8]>>) -> bool
    ensures { result ≡ is_passed (maybe_shown shown.entry) }
{
    match shown {
        None => false,
        Some(shown) => is_sugov(shown.comm),
    }
}

fn trouble_told(report: &EventReport<&[u8]>, task: Option<usize>, runqueues: u32) -> Trouble
    ensures { result ≡ trouble_told (report_text report.now) task runqueues }
{
    match report.event {
        Fixed::Woken {
            is_deadline,
            cpu,
            ..
        } => if is_deadline && !is_passed(report.shown) {
            wake_trouble(task, cpu, runqueues)
        } else {
            Trouble::NoTrouble
        },
        Fixed::Migrated {
            is_deadline: true,
            cpu,
            ..
        } => move_trouble(task, cpu, runqueues),
        _ => Trouble::NoTrouble,
    }
}

/// The task that the line of a wake shows.
fn woken_by(shown: Option<Shown<&[u8]>>) -> Shown<&[u8]> {
    match shown {
        Some(shown) => shown,
        None => Shown { comm: b"", pid: 0 },
    }
}

/// The fault of a wake of a task that was not given.
fn unknown(alloc: Global, report: &EventReport<&[u8]>) -> Result<Wrong, AllocError> {
    let task = woken_by(report.shown);
    let comm = Vec::from_slice(alloc, task.comm)?;
    Ok(Wrong::UnknownTask {
        comm,
        pid: task.pid,
    })
}

/// A reservation of a note, in whole microseconds; none where event files cannot have it.
fn reservation_noted(parameters: Parameters) -> Option<Params>
    ensures { result ≡ reservation_noted parameters }
{
    match (
        u32::try_from(parameters.dl_runtime / MICRO),
        u32::try_from(parameters.dl_period / MICRO),
    ) {
        (Ok(runtime), Ok(period)) => Params::new(runtime, period).ok(),
        _ => None,
    }
}

impl Keeper {
    /// A keeper of the tasks with these names.
    pub(crate) fn new(alloc: Global, names: &[&[u8]]) -> Result<Keeper, AllocError> {
        let tasks = GivenTasks::new(alloc, names)?;
        Ok(Keeper {
            alloc,
            tasks,
            reserved: Vec::new(alloc),
            facts: Vec::new(alloc),
        })
    }

    fn tell(
        &mut self,
        line: u64,
        at: u64,
        task: Option<usize>,
        what: Option<What>,
    ) -> Result<(), AllocError>
        ensures tasks { tasks_text self.new.tasks ≡ tasks_text self.old.tasks }
    {
        if let Some(task) = task {
            if let Some(what) = what {
                self.facts.push(Fact {
                    line,
                    at,
                    task,
                    what,
                })?;
            }
        }
        Ok(())
    }

    /// Takes what a line says, and answers what is wrong with it.
    pub(crate) fn take(
        &mut self,
        line: u64,
        report: &EventReport<&[u8]>,
        runqueues: u32,
    ) -> Result<Option<Wrong>, AllocError>
        ensures fault { IfOk result (λ wrong. is_some wrong
            ≡ is_trouble (trouble_of (report_text report.now) (tasks_text self.old.tasks) runqueues)) }
        ensures tasks { OnOk result (tasks_text self.new.tasks
            ≡ tasks_after (report_text report.now) (tasks_text self.old.tasks)) }
    {
        let task = self.tasks.note(line, report)?;
        match trouble_told(report, task, runqueues) {
            Trouble::Unknown => Ok(Some(unknown(self.alloc, report)?)),
            Trouble::TooLong => Ok(Some(Wrong::TooLong)),
            Trouble::NoTrouble => {
                self.tell(line, report.at, task, what_told(report.cpu, &report.event))?;
                Ok(None)
            }
        }
    }

    /// One more task, which a note gives with this reservation, unless event files cannot have that.
    fn give(&mut self, pid: u64, parameters: Parameters) -> Result<Option<Wrong>, AllocError>
        ensures fault { IfOk result
            (λ wrong. is_some wrong ≡ is_none (reservation_noted parameters)) }
        ensures tasks { OnOk result (tasks_text self.new.tasks
            ≡ tasks_given pid (reservation_noted parameters) (tasks_text self.old.tasks)) }
    {
        match reservation_noted(parameters) {
            None => Ok(Some(Wrong::TooLong)),
            Some(params) => {
                self.tasks.give_pid(pid)?;
                self.reserved.push(params)?;
                Ok(None)
            }
        }
    }

    /// Takes a note of a task and its reservation, which is the task's own where nothing gave it before.
    pub(crate) fn reserve(
        &mut self,
        task: &Shown<&[u8]>,
        parameters: Parameters,
    ) -> Result<Option<Wrong>, AllocError>
        ensures { IfOk result (λ wrong. outcome_of wrong (tasks_text self.new.tasks)
            ≡ reserving (shown_text task.now) parameters (tasks_text self.old.tasks)) }
    {
        if is_sugov(task.comm) {
            return Ok(None);
        }
        match self.tasks.settle(task) {
            Some(_) => Ok(None),
            None => self.give(task.pid, parameters),
        }
    }

    /// The facts, where each task was first shown, and the reservations of those that notes give.
    pub(crate) fn finish(self) -> Result<(Vec<Fact>, Vec<Option<Found>>, Vec<Params>), AllocError> {
        let Keeper {
            tasks,
            facts,
            reserved,
            ..
        } = self;
        let found = tasks.finish()?;
        Ok((facts, found, reserved))
    }
}
