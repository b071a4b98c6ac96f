//! The lines of a record, one by one.

use crate::others::{CpuLeft, Others};
use crate::task::{OpenTask, TaskFigures};
use std::alloc::{AllocError, Global};
use std::collections::HashMap;
use trace_data::{Probe, Ran, Said, Updated};

/// The tasks of the lines so far, and what was left of the CPUs.
#[derive(Drop)]
pub struct FigureLines {
    alloc: Global,
    places: HashMap<u64, usize>,
    tasks: Vec<OpenTask>,
    others: Others,
}

impl FigureLines {
    pub fn new(alloc: Global) -> FigureLines {
        FigureLines {
            alloc,
            places: HashMap::new(alloc),
            tasks: Vec::new(alloc),
            others: Others::new(alloc),
        }
    }

    fn task(&mut self, pid: u64) -> Option<&mut OpenTask> {
        let place = *self.places.get(&pid)?;
        self.tasks.get_mut(place)
    }

    /// The task of this pid, which is new where no line has shown it.
    fn new_task(&mut self, pid: u64) -> Result<Option<&mut OpenTask>, AllocError> {
        if !self.places.contains_key(&pid) {
            let place = self.tasks.len();
            self.tasks.push(OpenTask::new(self.alloc, pid))?;
            self.places.insert(pid, place)?;
        }
        Ok(self.task(pid))
    }

    /// Takes a line of an event.
    pub fn take(&mut self, said: &Said) -> Result<(), AllocError> {
        match said {
            Said::Probe(Probe::Enqueued(line)) => {
                if let Some(task) = self.new_task(line.pid)? {
                    task.enqueued(line);
                }
                Ok(())
            }
            Said::Probe(Probe::Dequeued(line)) => {
                if let Some(task) = self.task(line.pid) {
                    task.dequeued(line.budget);
                }
                Ok(())
            }
            Said::Probe(Probe::LeftClass(line)) => {
                if let Some(task) = self.task(line.pid) {
                    task.left();
                }
                Ok(())
            }
            Said::Probe(Probe::Updated(line)) if !line.is_server => self.charged(line),
            _ => Ok(()),
        }
    }

    fn charged(&mut self, line: &Updated) -> Result<(), AllocError> {
        let (ends, nanos) = run_of(line);
        let is_own = match self.task(line.pid) {
            Some(task) => task.charged(line.clock, line.budget, nanos)?,
            None => false,
        };
        if is_own {
            self.others.run(line.cpu, ends, nanos)?;
        }
        Ok(())
    }

    /// What each task had, in the order in which lines showed them.
    pub fn figures(&mut self) -> Result<Vec<TaskFigures>, AllocError> {
        let mut figures = Vec::new(self.alloc);
        for task in self.tasks.iter_mut() {
            if let Some(figure) = task.figures() {
                figures.push(figure)?;
            }
        }
        Ok(figures)
    }

    /// What was left of each CPU.
    pub fn left(&self) -> Result<Vec<CpuLeft>, AllocError> {
        self.others.left()
    }
}

/// The end of a run that is charged, on the runqueue's clock, and its length.
fn run_of(line: &Updated) -> (u64, u64) {
    match line.ran {
        Ran::Span { delta, .. } if delta > 0 => (line.clock, delta.unsigned_abs()),
        Ran::Span { .. } => (line.clock, 0),
        Ran::Clocks { now, start, .. } => (now, now.saturating_sub(start)),
    }
}
