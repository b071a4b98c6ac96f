//! What a trace tells.

use crate::fault::fault_from;
use crate::options::ConvertOptions;
use convert_facts::{Census, FactLines, Facts, ShownTasks};
use std::alloc::{AllocError, Global};
use std::io;
use text_bytes::Source;
use trace_file::{ReadFault, read_lines};
use trace_options::Fault;

/// Why a trace was not read.
fn fault_of<'a>(fault: ReadFault<AllocError>) -> Fault<'a> {
    match fault {
        ReadFault::Unreadable => Fault::Unreadable,
        ReadFault::NoMemory | ReadFault::Lines(AllocError) => Fault::NoMemory,
    }
}

/// The names of the given tasks.
fn names_of<'a>(alloc: Global, options: &ConvertOptions<'a>) -> Result<Vec<&'a [u8]>, AllocError> {
    let mut names = Vec::new(alloc);
    for task in &options.tasks {
        names.push(task.name.as_bytes())?;
    }
    Ok(names)
}

fn fact_lines(alloc: Global, options: &ConvertOptions<'_>) -> Result<FactLines, AllocError> {
    let names = names_of(alloc, options)?;
    let lines = FactLines::new(alloc, &names, options.cpus)?;
    Ok(lines)
}

/// What the trace of a name tells of the given tasks, and of those of its notes.
pub fn read_facts<
    'a,
    D: Drop,
    O: Fn(&str) -> io::Result<D>,
    N: Fn(&mut D, &mut [u8]) -> io::Result<usize>,
>(
    alloc: Global,
    source: &Source<O, N>,
    path: &str,
    options: &ConvertOptions<'_>,
) -> Result<Facts, Fault<'a>>
    requires open { O.IsAlwaysCallable source.now.open }
    requires read { N.IsAlwaysCallable source.now.read }
{
    let Ok(mut lines) = fact_lines(alloc, options) else {
        return Err(Fault::NoMemory);
    };
    match read_lines(alloc, &source.open, &source.read, path, &mut lines) {
        Ok(halt) => match lines.end(halt) {
            Ok(facts) => Ok(facts),
            Err(_) => Err(Fault::NoMemory),
        },
        Err(fault) => Err(fault_of(fault)),
    }
}

/// The tasks that the trace of a name shows, or its first fault.
pub(crate) fn read_tasks<
    'a,
    D: Drop,
    O: Fn(&str) -> io::Result<D>,
    N: Fn(&mut D, &mut [u8]) -> io::Result<usize>,
>(alloc: Global, source: &Source<O, N>, path: &str) -> Result<ShownTasks, Fault<'a>>
    requires open { O.IsAlwaysCallable source.now.open }
    requires read { N.IsAlwaysCallable source.now.read }
{
    let mut census = Census::new(alloc);
    match read_lines(alloc, &source.open, &source.read, path, &mut census) {
        Ok(halt) => match census.end(halt) {
            Ok(tasks) => Ok(tasks),
            Err(fault) => Err(fault_from(fault)),
        },
        Err(fault) => Err(fault_of(fault)),
    }
}
