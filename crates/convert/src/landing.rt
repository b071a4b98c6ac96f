//! Where a wake takes place: on the CPU that its task is sent to before it runs.

use crate::lists::{at, put};
use convert_facts::{Fact, What};
use std::alloc::{AllocError, Global};
use trace_data::Stop;

/// The CPU that a task is sent to before it runs or blocks, from this fact of it on, where `later` is that of its later
/// facts.
fn sent_before(what: What, later: Option<u32>) -> Option<u32> {
    match what {
        What::Sent { cpu } => Some(later.unwrap_or(cpu)),
        What::Ran { .. } => None,
        What::Stops {
            state: Stop::Blocks | Stop::Ends,
            ..
        } => None,
        _ => later,
    }
}

/// For each fact, from the last one on, the CPU that its task is sent to after it, before it runs or blocks.
fn destinations_back(
    alloc: Global,
    tasks: usize,
    facts: &[Fact],
) -> Result<Vec<Option<u32>>, AllocError> {
    let mut sent: Vec<Option<u32>> = Vec::from_elem(alloc, None, tasks)?;
    let mut found = Vec::new(alloc);
    let mut left = facts.len();
    while left > 0 {
        left -= 1;
        let fact = facts[left];
        let later = at(&sent, fact.task, None);
        found.push(later)?;
        put(&mut sent, fact.task, sent_before(fact.what, later));
    }
    Ok(found)
}

/// For each fact, the CPU that its task is sent to after it, before it runs or blocks.
pub(crate) fn destinations(
    alloc: Global,
    tasks: usize,
    facts: &[Fact],
) -> Result<Vec<Option<u32>>, AllocError> {
    let mut found = destinations_back(alloc, tasks, facts)?;
    found.reverse();
    Ok(found)
}
