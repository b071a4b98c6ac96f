//! The lines of timers of a record that are kept so far.

ghost use Rattle.std.specs.Prelude.{◌≡◌, IfOk, OnOk, Some, map, option_and_then, option_map};
ghost use Rattle.timer_record.specs.Kept.{kept_of};
ghost use Rattle.timer_record.specs.Records.{given_in};
ghost use Rattle.check_settings.specs.Sought.{unshown};
ghost use Rattle.check_settings.specs.Timers.{begun, forgotten, found_at, kept_from, late_in, timers_at_first, timers_of, with_event, with_note, with_shown};

use crate::sought::{SoughtTask, place_of, unshown};
use crate::wanted::WantedLines;
use std::alloc::{AllocError, Global};
use timer_record::{GivenReservation, OpenRecord, Unlisted};
use trace_data::{Fixed, Policy};
use trace_options::TaskOption;

/// A note of a task that a line contradicts, and the line from which on what the task reserves is not known.
#[derive(Clone, Copy)]
pub struct LateLine {
    pub line: u64,
    pub pid: u64,
}

/// The lines of timers of a record, with the tasks that options give.
#[derive(Drop)]
pub struct RecordTimers<'o> {
    pub(crate) sought: Vec<SoughtTask<'o>>,

    /// None before the first line of an event.
    pub(crate) record: Option<OpenRecord>,

    /// The latest moment of a line of an event that was kept.
    pub(crate) latest: u64,

    /// Whether a timer of any kind was started.
    pub(crate) has_timers: bool,
}

impl<'o> RecordTimers<'o> {
    /// No line; these tasks are given.
    pub fn new(alloc: Global, tasks: &[TaskOption<'o>]) -> Result<RecordTimers<'o>, AllocError>
        ensures { IfOk result (λ r. timers_of r ≡ timers_at_first tasks.now) }
    {
        Ok(RecordTimers {
            sought: sought_of(alloc, tasks)?,
            record: None,
            latest: 0,
            has_timers: false,
        })
    }

    /// Lines are kept from here on.
    pub fn begin(&mut self, alloc: Global, wanted: WantedLines)
        ensures { timers_of self.new ≡ begun wanted (timers_of self.old) }
    {
        if self.record.is_none() {
            self.record = Some(OpenRecord::new(alloc, wanted.idle, wanted.cancels));
        }
    }

    /// Takes the line of an event: its number, moment and CPU, and the pid of the task that runs there.
    pub fn line(
        &mut self,
        line: u64,
        at: u64,
        cpu: u32,
        pid: u64,
        fixed: Fixed,
    ) -> Result<(), AllocError>
        ensures { OnOk result (timers_of self.new ≡ with_event
            (record { line = line; at = at; cpu = cpu; pid = pid; fixed = fixed })
            (timers_of self.old)) }
    {
        self.latest = self.latest.max(at);
        self.has_timers = self.has_timers || matches!(fixed, Fixed::TimerStarted { .. });
        match &mut self.record {
            Some(record) => record.line(line, at, cpu, pid, fixed),
            None => Ok(()),
        }
    }

    /// Takes a note of a task: at this moment, or at the start; by this pid; on this CPU.
    pub fn note(
        &mut self,
        pid: u64,
        at: Option<u64>,
        by: Option<u64>,
        cpu: u32,
        policy: Policy,
    ) -> Result<(), AllocError>
        ensures { OnOk result
            (timers_of self.new ≡ with_note pid at by cpu policy (timers_of self.old)) }
    {
        match &mut self.record {
            Some(record) => record.note(pid, at, by, cpu, policy),
            None => Ok(()),
        }
    }

    /// A line shows this pid with this comm: it may be that of a given task.
    #[tactic(auto, unfolding(crate::specs::Timers::with_shown))]
    pub fn show(
        &mut self,
        alloc: Global,
        wanted: WantedLines,
        pid: u64,
        comm: &[u8],
    ) -> Result<(), AllocError>
        ensures { OnOk result
            (timers_of self.new ≡ with_shown wanted pid comm.now (timers_of self.old)) }
    {
        match place_of(&self.sought, pid, comm) {
            Some(place) => self.find(alloc, wanted, pid, place),
            None => Ok(()),
        }
    }

    /// The given task at this place is that of this pid.
    fn find(
        &mut self,
        alloc: Global,
        wanted: WantedLines,
        pid: u64,
        place: usize,
    ) -> Result<(), AllocError>
        ensures { OnOk result
            (timers_of self.new ≡ found_at (Some place) wanted pid (timers_of self.old)) }
    {
        match self.sought.get_mut(place) {
            Some(task) => {
                task.pid = Some(pid);
                let parameters = task.given.parameters;
                self.give(alloc, wanted, GivenReservation { pid, parameters })
            }
            None => Ok(()),
        }
    }

    fn give(
        &mut self,
        alloc: Global,
        wanted: WantedLines,
        given: GivenReservation,
    ) -> Result<(), AllocError>
        ensures sought { OnOk result
            ((timers_of self.new).sought ≡ (timers_of self.old).sought) }
        ensures latest { OnOk result
            ((timers_of self.new).latest ≡ (timers_of self.old).latest) }
        ensures kept { OnOk result ((timers_of self.new).kept
            ≡ option_map (given_in given) (kept_from wanted (timers_of self.old).kept)) }
    {
        self.begin(alloc, wanted);
        match &mut self.record {
            Some(record) => record.give(given),
            None => Ok(()),
        }
    }

    /// The note that a line of this number and moment contradicts: its pid, and from which line on what it reserves is not known.
    pub fn late_noted(&self, number: u64, at: u64, fixed: &Fixed) -> Option<LateLine>
        ensures { result ≡ option_and_then (late_in number at fixed.now) (timers_of self.now).kept }
    {
        match &self.record {
            Some(record) => late_in(record, number, at, fixed),
            None => None,
        }
    }

    /// Nothing is kept.
    pub fn forget(&mut self)
        ensures { timers_of self.new ≡ forgotten (timers_of self.old) }
    {
        self.record = None;
    }

    /// The latest moment of a line of an event that was kept.
    pub fn latest(&self) -> u64
        ensures { result ≡ (timers_of self.now).latest }
    {
        self.latest
    }

    /// Whether a timer of any kind was started.
    pub fn has_timers(&self) -> bool {
        self.has_timers
    }

    /// The first given task that no line has shown.
    pub fn not_found(&self) -> Option<&'o str> {
        for task in &self.sought {
            if task.pid.is_none() {
                return Some(task.given.name);
            }
        }
        None
    }

    /// Of the tasks of the class that have a 0-lag timer and no reservation so far, the one that woke first.
    pub fn unlisted(&self) -> Option<Unlisted> {
        match &self.record {
            Some(record) => record.unlisted(),
            None => None,
        }
    }

    /// Gives the lines out.
    pub fn take(&mut self) -> Option<OpenRecord>
        ensures { option_map kept_of result ≡ (timers_of self.old).kept }
    {
        self.record.take()
    }
}

fn late_in(record: &OpenRecord, number: u64, at: u64, fixed: &Fixed) -> Option<LateLine>
    ensures { result ≡ late_in number at fixed.now (kept_of record.now) }
{
    match record.late_noted(at, fixed) {
        Some(late) => Some(LateLine {
            line: record.line_from(late.moment).unwrap_or(number),
            pid: late.pid,
        }),
        None => None,
    }
}

/// The tasks that options give, of which no line has shown one.
fn sought_of<'o>(alloc: Global, tasks: &[TaskOption<'o>]) -> Result<Vec<SoughtTask<'o>>, AllocError>
    ensures { IfOk result (λ v. v.items ≡ map unshown tasks.now) }
{
    tasks.iter().map(|task| unshown(*task)).collect(alloc)
}
