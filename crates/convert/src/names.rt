//! Names of tasks in event files.

use convert_facts::Found;
use grub_plan::is_name;
use std::alloc::{AllocError, Global};
use text_bytes::put_number;

/// The name of the deadline server of fair tasks on a runqueue.
pub fn fair_name(alloc: Global, runqueue: u32) -> Result<Vec<u8>, AllocError> {
    let mut name = Vec::new(alloc);
    put_number(&mut name, b"fair", u64::from(runqueue))?;
    Ok(name)
}

/// Whether a comm is the name of the server of one of so many runqueues.
fn is_fair(alloc: Global, comm: &[u8], runqueues: u32) -> Result<bool, AllocError> {
    let mut left = runqueues;
    while left > 0 {
        left -= 1;
        let name = fair_name(alloc, left)?;
        if name.as_slice() == comm {
            return Ok(true);
        }
    }
    Ok(false)
}

/// Whether this is a task with this comm.
fn has_comm(comm: &[u8], found: &Option<Found>) -> bool {
    match found {
        None => false,
        Some(found) => found.comm.as_slice() == comm,
    }
}

/// How many of the given tasks have this comm.
fn count_of(comm: &[u8], tasks: &[Option<Found>]) -> usize {
    tasks.iter().filter(|task| has_comm(comm, task)).count()
}

/// Whether a task's comm can be its name: it is spelled as one, is no server's, and is that of one given task.
fn is_fit(
    alloc: Global,
    comm: &[u8],
    runqueues: u32,
    tasks: &[Option<Found>],
) -> Result<bool, AllocError> {
    let is_fair = is_fair(alloc, comm, runqueues)?;
    Ok(is_name(comm) && !is_fair && count_of(comm, tasks) <= 1)
}

/// `pid` and a pid.
fn pid_name(alloc: Global, pid: u64) -> Result<Vec<u8>, AllocError> {
    let mut name = Vec::new(alloc);
    put_number(&mut name, b"pid", pid)?;
    Ok(name)
}

/// The name of a task among the given ones: its comm, or `pid` and its pid. One that was not found has none.
fn name_of(
    alloc: Global,
    runqueues: u32,
    tasks: &[Option<Found>],
    task: &Option<Found>,
) -> Result<Vec<u8>, AllocError> {
    match task {
        None => Ok(Vec::new(alloc)),
        Some(found) => {
            if is_fit(alloc, &found.comm, runqueues, tasks)? {
                Vec::from_slice(alloc, &found.comm)
            } else {
                pid_name(alloc, found.pid)
            }
        }
    }
}

/// The names of the given tasks in the event files of so many runqueues. A task's name is its comm, where that is
/// spelled as a name, is no server's (`fair0` and so on), and no other given task has it; else `pid` and its pid.
pub fn names_of(
    alloc: Global,
    runqueues: u32,
    tasks: &[Option<Found>],
) -> Result<Vec<Vec<u8>>, AllocError> {
    let mut names = Vec::new(alloc);
    for task in tasks {
        names.push(name_of(alloc, runqueues, tasks, task)?)?;
    }
    Ok(names)
}
