//! What is counted of a SCHED_DEADLINE task that a trace shows.

ghost use Rattle.std.specs.Prelude.{◌<◌, IfSome, length};

use crate::sighting::TaskSighting;
use std::alloc::{AllocError, Global};
use trace_data::Parameters;
use trace_fields::Shown;

/// What a trace shows of a SCHED_DEADLINE task.
#[derive(Debug, Drop)]
pub struct Counted {
    /// Its comm at its first line as a SCHED_DEADLINE task.
    pub comm: Vec<u8>,

    pub pid: u64,

    /// That line, from 1.
    pub line: u64,

    pub wakes: u64,

    pub blocks: u64,

    /// The CPUs that it wakes on, is sent to or stops on, increasing.
    pub cpus: Vec<u32>,
}

/// What a note says that a task reserves.
#[derive(Clone, Copy)]
pub struct Reserved {
    pub pid: u64,
    pub parameters: Parameters,
}

/// The tasks that a trace shows, in the order of their first lines, and what its notes say that tasks reserve, in theirs.
#[derive(Drop)]
pub struct ShownTasks {
    pub counted: Vec<Counted>,
    pub reserved: Vec<Reserved>,
}

/// Where the first of these increasing numbers stands that is not below this one.
fn place_of(numbers: &[u32], number: u32) -> Option<usize>
    ensures { IfSome result (λ i. i < length numbers.now) }
{
    numbers.iter().position(|m| number <= *m)
}

/// Puts a number among increasing ones, once.
fn put_number(numbers: &mut Vec<u32>, number: u32) -> Result<(), AllocError> {
    match place_of(numbers, number) {
        None => numbers.push(number)?,
        Some(i) => {
            if numbers[i] != number {
                numbers.insert(i, number)?;
            }
        }
    }
    Ok(())
}

impl Counted {
    /// A task that this line is the first to show.
    pub(crate) fn new(
        alloc: Global,
        line: u64,
        task: &Shown<&[u8]>,
    ) -> Result<Counted, AllocError> {
        let comm = Vec::from_slice(alloc, task.comm)?;
        Ok(Counted {
            comm,
            pid: task.pid,
            line,
            wakes: 0,
            blocks: 0,
            cpus: Vec::new(alloc),
        })
    }

    /// Counts a line that shows it.
    pub(crate) fn add(&mut self, sighting: &TaskSighting<'_>) -> Result<(), AllocError> {
        self.wakes = self.wakes.saturating_add(sighting.wakes);
        self.blocks = self.blocks.saturating_add(sighting.blocks);
        put_number(&mut self.cpus, sighting.cpu)
    }
}
