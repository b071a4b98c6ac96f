//! The facts of given tasks and what is told beside them, line by line.

ghost use Rattle.std.specs.Prelude.{◌≡◌, IfOk};
ghost use Rattle.convert_facts.specs.Reading.{Gathered, cpu_of, ended, event_line, gather_step, head_line, is_bad_count, is_head, note_line, outcome, runqueues_told};
ghost use Rattle.convert_facts.specs.Keeping.{gathered_text};
ghost use Rattle.convert_facts.specs.inside.Outcomes.{outcome_of};
ghost use Rattle.convert_facts.specs.inside.Reports.{maybe_shown, report_text};
ghost use Rattle.trace_lines.specs.Keeping.{after_of};

use crate::fact::Facts;
use crate::fault::{LineFault, Wrong, first_fault};
use crate::keeper::Keeper;
use crate::report::{EventReport, other_cpu};
use std::alloc::{AllocError, Global};
use trace_data::{Kernel, Limit, Policy, RecordLine, Said, TraceNote};
use trace_fields::{CPUS_MAX, Shown};
use trace_lines::{Halt, Lines, ToldLine};

/// Takes the facts of given tasks, and of those that notes give, from the lines of a trace.
#[derive(Drop)]
pub struct FactLines {
    keeper: Keeper,

    /// How many runqueues there are, where that was given.
    cpus: Option<u32>,

    /// The N of the first word `#P:N` of the head.
    processors: Option<u32>,

    /// The greatest CPU that a line of an event names.
    greatest_cpu: Option<u32>,

    /// What notes say of the kernel.
    kernel: Option<Kernel>,
    limit: Option<Limit>,
    fault: Option<LineFault>,
}

fn is_bad_count(count: Option<u32>) -> bool
    ensures { result ≡ is_bad_count count }
{
    match count {
        None => false,
        Some(n) => n == 0 || n > CPUS_MAX,
    }
}

/// The greatest CPU that a line names.
fn cpu_of(report: &EventReport<&[u8]>) -> u32
    ensures { result ≡ cpu_of (report_text report.now) }
{
    report.cpu.max(other_cpu(&report.event))
}

impl FactLines {
    /// No line was taken yet, for the tasks of these names: a name of digits is a pid, another one a comm. `cpus` is how many runqueues
    /// there are, if that is given, from 1 to `CPUS_MAX`.
    pub fn new(alloc: Global, names: &[&[u8]], cpus: Option<u32>) -> Result<FactLines, AllocError> {
        let keeper = Keeper::new(alloc, names)?;
        Ok(FactLines {
            keeper,
            cpus,
            processors: None,
            greatest_cpu: None,
            kernel: None,
            limit: None,
            fault: None,
        })
    }

    /// How many runqueues the options or the head tell of.
    fn runqueues_told(&self) -> Option<u32>
        ensures { result ≡ runqueues_told (gathered_text self.now) }
    {
        match self.cpus {
            None => self.processors,
            Some(cpus) => Some(cpus),
        }
    }

    /// How many runqueues there are: else one more than the greatest CPU of a line, at least one. It is the most that there may
    /// be where a head tells of more, which is a fault, so that no work grows with a number that is none.
    fn runqueues(&self) -> u32 {
        let told = match self.runqueues_told() {
            Some(n) => n,
            None => match self.greatest_cpu {
                None => 1,
                Some(cpu) => cpu.saturating_add(1),
            },
        };
        told.min(CPUS_MAX)
    }

    /// Whether the head may still tell the number of processors: no event was read yet.
    fn is_head(&self) -> bool
        ensures { result ≡ is_head (gathered_text self.now) }
    {
        self.greatest_cpu.is_none() && self.processors.is_none()
    }

    /// Takes a line that tells no event, but maybe how many processors there are.
    fn take_head(&mut self, processors: Option<u32>) -> Option<Wrong>
        ensures { outcome_of result (gathered_text self.new)
            ≡ head_line processors (gathered_text self.old) }
    {
        if !self.is_head() {
            return None;
        }
        self.processors = processors;
        if is_bad_count(self.runqueues_told()) {
            Some(Wrong::TooLong)
        } else {
            None
        }
    }

    /// Takes a note, and the task that it shows.
    fn take_note(
        &mut self,
        note: TraceNote,
        shown: Option<Shown<&[u8]>>,
    ) -> Result<Option<Wrong>, AllocError>
        ensures { IfOk result (λ wrong. outcome_of wrong (gathered_text self.new)
            ≡ note_line note (maybe_shown shown.entry) (gathered_text self.old)) }
    {
        match (note, shown) {
            (TraceNote::Head { kernel, limit, .. }, _) => {
                self.kernel = kernel;
                self.limit = limit;
                Ok(None)
            }
            (
                TraceNote::Task {
                    policy: Policy::Deadline(parameters),
                    ..
                },
                Some(shown),
            ) => self.keeper.reserve(&shown, parameters),
            _ => Ok(None),
        }
    }

    /// Takes a line of an event.
    fn take_event(
        &mut self,
        line: u64,
        report: &EventReport<&[u8]>,
    ) -> Result<Option<Wrong>, AllocError>
        ensures { IfOk result (λ wrong. outcome_of wrong (gathered_text self.new)
            ≡ event_line (report_text report.now) (gathered_text self.old)) }
    {
        let cpu = cpu_of(report);
        if CPUS_MAX <= cpu {
            return Ok(Some(Wrong::TooLong));
        }
        let runqueues = self.runqueues_told().unwrap_or(CPUS_MAX);
        self.greatest_cpu = Some(self.greatest_cpu.unwrap_or(0).max(cpu));
        self.keeper.take(line, report, runqueues)
    }

    /// Takes what a line tells, and answers what is wrong with it by the tasks that were given.
    fn take_told(&mut self, line: u64, told: &ToldLine<&[u8]>) -> Result<Option<Wrong>, AllocError>
        ensures { IfOk result (λ wrong. outcome_of wrong (gathered_text self.new)
            ≡ outcome (maybe_shown told.now.shown) told.now.processors told.now.line
            (gathered_text self.old)) }
    {
        match told.line {
            RecordLine::Quiet => Ok(self.take_head(told.processors)),
            RecordLine::Note(note) => self.take_note(note, told.shown),
            RecordLine::Event {
                at,
                cpu,
                pid,
                said: Said::Fixed(event),
                ..
            } => {
                let report = EventReport {
                    at,
                    cpu,
                    pid,
                    event,
                    shown: told.shown,
                };
                self.take_event(line, &report)
            }
            RecordLine::Event { .. } | RecordLine::Flawed(_) => Ok(None),
        }
    }

    /// Keeps what is wrong with a line, and answers whether more lines are wanted.
    fn end_line(&mut self, line: u64, wrong: Option<Wrong>) -> bool
        ensures { after_of result (gathered_text self.new)
            ≡ ended (outcome_of wrong (gathered_text self.old)) }
    {
        match wrong {
            None => {
                self.fault = None;
                true
            }
            Some(wrong) => {
                self.fault = Some(LineFault { line, wrong });
                false
            }
        }
    }

    /// What the lines tell that were taken, whose text halts there.
    pub fn end(self, halt: Option<Halt>) -> Result<Facts, AllocError> {
        let runqueues = self.runqueues();
        let FactLines {
            keeper,
            kernel,
            limit,
            fault,
            ..
        } = self;
        let (facts, found, noted) = keeper.finish()?;
        Ok(Facts {
            facts,
            found,
            noted,
            kernel,
            limit,
            runqueues,
            fault: first_fault(fault, halt),
        })
    }
}

impl Lines for FactLines {
    type Fault = AllocError;

    ghost Seen = { Gathered };

    ghost seen = { gathered_text };

    ghost step = { gather_step };

    fn take(&mut self, number: u64, told: &ToldLine<&[u8]>) -> Result<bool, AllocError> {
        let wrong = self.take_told(number, told)?;
        Ok(self.end_line(number, wrong))
    }
}
