//! The jobs of all tasks, as the lines of a trace are read.

ghost use Rattle.std.specs.Prelude.{◌≡◌, OnOk, option_map};
ghost use Rattle.trace_fields.specs.Shown.{shown_text};
ghost use Rattle.trace_lines.specs.Scheduled.{scheduled_text};
ghost use Rattle.trace_lines.specs.ToldTexts.{told_text};
ghost use Rattle.size_jobs.specs.Lines.{Jobs, event_told, expects, fixed_told, headed, jobs_at_first, jobs_of, jobs_step, line_told, passed, preferring, quiet_told, runs, switch_told, told_to_all, wake_told, wakes};
ghost use Rattle.size_jobs.specs.Told.{Tells};

use crate::task::JobStep;
use crate::tasks::JobTasks;
use std::alloc::{AllocError, Global};
use trace_data::{Fixed, Flaw, RecordLine, Said, Stop};
use trace_fields::Shown;
use trace_lines::{CPUS, Lines, Scheduled, ToldLine};

/// What a trace tells of its tasks.
#[derive(Drop)]
pub struct JobRecord {
    pub tasks: JobTasks,

    /// The moments of the first and the last line of an event, in nanoseconds.
    pub first: u64,
    pub last: u64,

    /// How many processors there are, by the trace's head or else by the greatest that a line tells.
    pub processors: u32,

    /// Whether a line told how long a task ran.
    pub has_runs: bool,
}

/// Why no line is taken any more.
#[derive(Drop)]
pub enum JobFault {
    /// A line of sched_waking is wrong, or one of the head tells of no processors, or of more than `CPUS`.
    Line { line: u64, flaw: Flaw },
    NoMemory,
}

impl From<AllocError> for JobFault {
    fn from(_: AllocError) -> JobFault {
        JobFault::NoMemory
    }
}

/// Takes the jobs of all tasks from the lines of a trace.
#[derive(Drop)]
pub struct JobLines {
    alloc: Global,

    /// With the wakes that sched_wakeup tells of.
    by_wakeup: JobTasks,

    /// With those of sched_waking, until a line of sched_wakeup comes.
    by_waking: JobTasks,
    has_wakeup: bool,

    /// The moments of the first and the last line of an event, in nanoseconds.
    first: Option<u64>,
    last: u64,

    /// How many processors the head tells of.
    processors: Option<u32>,

    /// The greatest CPU of a line.
    greatest: u32,
    has_runs: bool,
}

/// Where an event stands, and its moment, in nanoseconds.
#[derive(Clone, Copy)]
struct EventPlace {
    line: u64,
    at: u64,
    cpu: u32,
}

impl JobLines {
    /// No line was taken yet.
    pub fn new(alloc: Global) -> JobLines
        ensures { jobs_of result ≡ jobs_at_first }
    {
        JobLines {
            alloc,
            by_wakeup: JobTasks::new(alloc),
            by_waking: JobTasks::new(alloc),
            has_wakeup: false,
            first: None,
            last: 0,
            processors: None,
            greatest: 0,
            has_runs: false,
        }
    }

    /// Takes what a line tells of a task; pid 0 is that of each idle task.
    fn tell(&mut self, shown: &Shown<&[u8]>, told: JobStep) -> Result<(), AllocError>
        ensures { OnOk result
            (jobs_of self.new ≡ told_to_all (shown_text shown.now) told (jobs_of self.old)) }
    {
        if shown.pid == 0 {
            return Ok(());
        }
        self.by_wakeup.take(shown, told)?;
        if !self.has_wakeup {
            self.by_waking.take(shown, told)?;
        }
        Ok(())
    }

    /// A line of sched_wakeup comes: those of sched_waking do not count any more, nor those that came.
    fn prefer_wakeup(&mut self)
        ensures { jobs_of self.new ≡ preferring (jobs_of self.old) }
    {
        if !self.has_wakeup {
            self.has_wakeup = true;
            self.by_waking = JobTasks::new(self.alloc);
        }
    }

    /// A task wakes, whose thread may begin by it.
    fn wake(
        &mut self,
        place: EventPlace,
        task: &Shown<&[u8]>,
        is_new: bool,
    ) -> Result<(), AllocError>
        ensures { OnOk result (jobs_of self.new
            ≡ wakes place.line place.at (shown_text task.now) is_new (jobs_of self.old)) }
    {
        if !is_new {
            self.prefer_wakeup();
        }
        let (line, at) = (place.line, place.at);
        self.tell(task, JobStep::Wakes { line, at, is_new })
    }

    /// A task is about to wake.
    fn expect(&mut self, place: EventPlace, task: &Shown<&[u8]>) -> Result<(), AllocError>
        ensures { OnOk result (jobs_of self.new
            ≡ expects place.line place.at (shown_text task.now) (jobs_of self.old)) }
    {
        if self.has_wakeup || task.pid == 0 {
            return Ok(());
        }
        let told = JobStep::Wakes {
            line: place.line,
            at: place.at,
            is_new: false,
        };
        self.by_waking.take(task, told)
    }

    fn run(&mut self, task: &Shown<&[u8]>, nanos: u64) -> Result<(), AllocError>
        ensures { OnOk result
            (jobs_of self.new ≡ runs (shown_text task.now) nanos (jobs_of self.old)) }
    {
        self.has_runs = true;
        self.tell(task, JobStep::Runs { nanos })
    }

    /// An event of the scheduler stands there.
    fn pass(&mut self, place: EventPlace)
        ensures { jobs_of self.new ≡ passed place.at place.cpu (jobs_of self.old) }
    {
        self.first = Some(self.first.unwrap_or(place.at));
        self.last = place.at;
        self.greatest = self.greatest.max(place.cpu);
    }

    fn take_wake(
        &mut self,
        place: EventPlace,
        task: &Shown<&[u8]>,
        scheduled: Option<Scheduled<&[u8]>>,
    ) -> Result<(), AllocError>
        ensures { OnOk result (jobs_of self.new ≡ wake_told place.line place.at (shown_text task.now)
            (option_map scheduled_text scheduled.entry) (jobs_of self.old)) }
    {
        match scheduled {
            Some(Scheduled::Woken { is_new, .. }) => self.wake(place, task, is_new),
            _ => Ok(()),
        }
    }

    fn take_switch(
        &mut self,
        at: u64,
        task: &Shown<&[u8]>,
        stop: Stop,
        scheduled: Option<Scheduled<&[u8]>>,
    ) -> Result<(), AllocError>
        ensures { OnOk result (jobs_of self.new ≡ switch_told at (shown_text task.now) stop
            (option_map scheduled_text scheduled.entry) (jobs_of self.old)) }
    {
        match scheduled {
            Some(Scheduled::Switched { class, next, .. }) => {
                self.tell(task, JobStep::Stops { at, stop, class })?;
                self.tell(&next, JobStep::Enters)
            }
            _ => Ok(()),
        }
    }

    /// Takes an event that shows a task. Of a task that moves only the moment counts.
    fn take_fixed(
        &mut self,
        place: EventPlace,
        fixed: Fixed,
        task: &Shown<&[u8]>,
        scheduled: Option<Scheduled<&[u8]>>,
    ) -> Result<(), AllocError>
        ensures { OnOk result (jobs_of self.new ≡ fixed_told place.line place.at place.cpu fixed
            (shown_text task.now) (option_map scheduled_text scheduled.entry) (jobs_of self.old)) }
    {
        match fixed {
            Fixed::Migrated { .. } => {
                self.pass(place);
                Ok(())
            }
            Fixed::Ran { nanos, .. } => {
                self.pass(place);
                self.run(task, nanos)
            }
            Fixed::Woken { .. } => {
                self.pass(place);
                self.take_wake(place, task, scheduled)
            }
            Fixed::Switched { stop, .. } => {
                self.pass(place);
                self.take_switch(place.at, task, stop, scheduled)
            }
            _ => Ok(()),
        }
    }

    fn take_event(
        &mut self,
        place: EventPlace,
        said: Said,
        shown: Option<Shown<&[u8]>>,
        scheduled: Option<Scheduled<&[u8]>>,
    ) -> Result<(), AllocError>
        ensures { OnOk result (jobs_of self.new ≡ event_told place.line place.at place.cpu said
            (option_map shown_text shown.entry) (option_map scheduled_text scheduled.entry)
            (jobs_of self.old)) }
    {
        match (said, shown) {
            (Said::Fixed(fixed), Some(task)) => self.take_fixed(place, fixed, &task, scheduled),
            _ => Ok(()),
        }
    }

    /// Takes a line that tells no event but maybe that a task is about to wake.
    fn take_quiet(&mut self, line: u64, scheduled: Option<Scheduled<&[u8]>>) -> Result<(), JobFault>
        ensures { OnOk result (jobs_of self.new
            ≡ quiet_told line (option_map scheduled_text scheduled.entry) (jobs_of self.old)) }
    {
        match scheduled {
            Some(Scheduled::Waking { at, cpu, task, .. }) => {
                let place = EventPlace { line, at, cpu };
                self.pass(place);
                self.expect(place, &task)?;
                Ok(())
            }
            Some(Scheduled::BadWaking(flaw)) => Err(JobFault::Line { line, flaw }),
            _ => Ok(()),
        }
    }

    fn take_told(&mut self, line: u64, told: &ToldLine<&[u8]>) -> Result<(), JobFault>
        ensures { OnOk result (jobs_of self.new
            ≡ line_told line (told_text told.now) (jobs_of self.old)) }
    {
        match told.line {
            RecordLine::Event { at, cpu, said, .. } => {
                let place = EventPlace { line, at, cpu };
                self.take_event(place, said, told.shown, told.scheduled)?;
                Ok(())
            }
            RecordLine::Quiet => self.take_quiet(line, told.scheduled),
            RecordLine::Note(_) | RecordLine::Flawed(_) => Ok(()),
        }
    }

    /// The first line that tells how many processors there are counts.
    fn take_head(&mut self, line: u64, processors: Option<u32>) -> Result<(), JobFault>
        ensures { OnOk result (jobs_of self.new ≡ headed processors (jobs_of self.old)) }
    {
        if self.processors.is_some() {
            return Ok(());
        }
        if let Some(count) = processors
            && (count == 0 || count > CPUS)
        {
            let flaw = Flaw::TooLong;
            return Err(JobFault::Line { line, flaw });
        }
        self.processors = processors;
        Ok(())
    }

    /// What the lines tell that were taken.
    pub fn finish(self) -> JobRecord
        ensures { Tells (jobs_of self) result }
    {
        let JobLines {
            by_wakeup,
            by_waking,
            has_wakeup,
            first,
            last,
            processors,
            greatest,
            has_runs,
            ..
        } = self;
        JobRecord {
            tasks: if has_wakeup { by_wakeup } else { by_waking },
            first: first.unwrap_or(0),
            last,
            processors: processors.unwrap_or(greatest.saturating_add(1)),
            has_runs,
        }
    }
}

impl Lines for JobLines {
    type Fault = JobFault;

    ghost Seen = { Jobs };

    ghost seen = { jobs_of };

    ghost step = { jobs_step };

    fn take(&mut self, number: u64, told: &ToldLine<&[u8]>) -> Result<bool, JobFault> {
        self.take_head(number, told.processors)?;
        self.take_told(number, told)?;
        Ok(true)
    }
}
