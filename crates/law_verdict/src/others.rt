//! What tasks of SCHED_DEADLINE leave of a CPU.

use std::alloc::{AllocError, Global};

/// A second.
const SECOND: u64 = 1_000_000_000;

/// The least that was left of any second of a CPU, in nanoseconds.
#[derive(Clone, Copy)]
pub struct CpuLeft {
    pub cpu: u32,
    pub nanos: u64,
}

/// A run that was charged, and when it ended.
#[derive(Clone, Copy)]
struct Run {
    ends: u64,
    nanos: u64,
}

/// The runs of a CPU.
#[derive(Drop)]
struct Busy {
    runs: Vec<Run>,

    /// The first run of the last second.
    first: usize,
    sum: u64,
    most: u64,
}

impl Busy {
    fn run(&mut self, run: Run) -> Result<(), AllocError> {
        self.runs.push(run)?;
        self.sum = self.sum.saturating_add(run.nanos);
        for place in self.first..self.runs.len() {
            let Some(old) = self.runs.get(place) else {
                break;
            };
            if old.ends.saturating_add(SECOND) > run.ends {
                break;
            }
            self.sum = self.sum.saturating_sub(old.nanos);
            self.first = place.saturating_add(1);
        }
        self.most = self.most.max(self.sum);
        Ok(())
    }
}

/// The CPUs by their numbers.
#[derive(Drop)]
pub(crate) struct Others {
    alloc: Global,
    cpus: Vec<Busy>,
}

impl Others {
    pub fn new(alloc: Global) -> Others {
        Others {
            alloc,
            cpus: Vec::new(alloc),
        }
    }

    /// A task of the class ran on a CPU for so many nanoseconds, up to this moment of its clock.
    pub fn run(&mut self, cpu: u32, ends: u64, nanos: u64) -> Result<(), AllocError> {
        for _ in self.cpus.len()..cpu as usize + 1 {
            self.cpus.push(Busy {
                runs: Vec::new(self.alloc),
                first: 0,
                sum: 0,
                most: 0,
            })?;
        }
        match self.cpus.get_mut(cpu as usize) {
            Some(busy) => busy.run(Run { ends, nanos }),
            None => Ok(()),
        }
    }

    /// What was left of each CPU on which a task of the class ran.
    pub fn left(&self) -> Result<Vec<CpuLeft>, AllocError> {
        let mut left = Vec::new(self.alloc);
        for (place, busy) in self.cpus.iter().enumerate() {
            if busy.most > 0 {
                left.push(CpuLeft {
                    cpu: place.min(u32::MAX as usize) as u32,
                    nanos: SECOND.saturating_sub(busy.most),
                })?;
            }
        }
        Ok(left)
    }
}
