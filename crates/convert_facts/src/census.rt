//! The SCHED_DEADLINE tasks that a trace shows.

ghost use Rattle.std.specs.Prelude.{◌<◌, IfSome, length};

use crate::counted::{Counted, Reserved, ShownTasks};
use crate::fault::{LineFault, first_fault};
use crate::given::is_sugov;
use crate::sighting::{TaskSighting, sighting_of};
use std::alloc::{AllocError, Global};
use trace_data::{Fixed, Policy, RecordLine, Said, TraceNote};
use trace_fields::Shown;
use trace_lines::{Halt, Lines, ToldLine};

/// Counts the SCHED_DEADLINE tasks that the lines of a trace show, in the order of their first lines.
#[derive(Drop)]
pub struct Census {
    alloc: Global,
    tasks: Vec<Counted>,

    /// What notes say that tasks reserve, in their order.
    reserved: Vec<Reserved>,
}

fn place_of_pid(tasks: &[Counted], pid: u64) -> Option<usize>
    ensures { IfSome result (λ i. i < length tasks.now) }
{
    tasks.iter().position(|task| task.pid == pid)
}

impl Census {
    /// A census of no line.
    pub fn new(alloc: Global) -> Census {
        Census {
            alloc,
            tasks: Vec::new(alloc),
            reserved: Vec::new(alloc),
        }
    }

    /// Counts a line of a task that is not counted yet.
    fn begin(&mut self, line: u64, sighting: &TaskSighting<'_>) -> Result<(), AllocError> {
        let mut task = Counted::new(self.alloc, line, &sighting.task)?;
        task.add(sighting)?;
        self.tasks.push(task)?;
        Ok(())
    }

    /// Counts a line of a task.
    fn count(&mut self, line: u64, sighting: &TaskSighting<'_>) -> Result<(), AllocError> {
        match place_of_pid(&self.tasks, sighting.task.pid) {
            None => self.begin(line, sighting)?,
            Some(i) => self.tasks[i].add(sighting)?,
        }
        Ok(())
    }

    /// Takes an event of a line of this CPU, and the task that the line shows.
    fn take_event(
        &mut self,
        line: u64,
        cpu: u32,
        event: &Fixed,
        task: Shown<&[u8]>,
    ) -> Result<(), AllocError> {
        if let Some(sighting) = sighting_of(cpu, event, task) {
            if !is_sugov(sighting.task.comm) {
                self.count(line, &sighting)?;
            }
        }
        Ok(())
    }

    /// Takes a note.
    fn take_note(&mut self, note: TraceNote) -> Result<(), AllocError> {
        if let TraceNote::Task {
            pid,
            policy: Policy::Deadline(parameters),
            ..
        } = note
        {
            self.reserved.push(Reserved { pid, parameters })?;
        }
        Ok(())
    }

    /// Takes what a line tells.
    fn take_told(&mut self, number: u64, told: &ToldLine<&[u8]>) -> Result<(), AllocError> {
        match (told.line, told.shown) {
            (
                RecordLine::Event {
                    cpu,
                    said: Said::Fixed(event),
                    ..
                },
                Some(task),
            ) => self.take_event(number, cpu, &event, task),
            (RecordLine::Note(note), _) => self.take_note(note),
            _ => Ok(()),
        }
    }

    /// The tasks, and what notes say that tasks reserve, or the first fault of a text that halts there.
    pub fn end(self, halt: Option<Halt>) -> Result<ShownTasks, LineFault> {
        match first_fault(None, halt) {
            Some(fault) => Err(fault),
            None => {
                let Census {
                    tasks,
                    reserved,
                    ..
                } = self;
                Ok(ShownTasks {
                    counted: tasks,
                    reserved,
                })
            }
        }
    }
}

impl Lines for Census {
    type Fault = AllocError;

    ghost use Rattle.std.specs.Prelude.{ℕ, true};

    ghost Seen = { ℕ };

    ghost seen = { λ census. 0 };

    ghost step = { λ n told seen. record { more = true; seen = 0 } };

    fn take(&mut self, number: u64, told: &ToldLine<&[u8]>) -> Result<bool, AllocError> {
        self.take_told(number, told)?;
        Ok(true)
    }
}
