//! How far the blocks of each task lie from the kernel's timers, in words.

use crate::judging::differs;
use crate::numbers::{is_compared, is_of};
use crate::table::name_of;
use crate::writing::{put, put_count, put_micros};
use std::alloc::{AllocError, Global};
use timer_tasks::{Observation, TimerKind};

/// So many tasks are told of.
const TASKS: u64 = 16;

/// The blocks of a task. Differences are nanoseconds, the rules' moment less the kernel's, of blocks that differ.
#[derive(Clone, Copy)]
pub(crate) struct Apart {
    compared: u64,
    differ: u64,
    least: i64,
    greatest: i64,
}

const NONE: Apart = Apart {
    compared: 0,
    differ: 0,
    least: i64::MAX,
    greatest: i64::MIN,
};

/// With one more block that is compared.
fn with(apart: Apart, observation: &Observation) -> Apart {
    let compared = apart.compared.saturating_add(1);
    if !differs(observation.answer) {
        return Apart { compared, ..apart };
    }
    Apart {
        compared,
        differ: apart.differ.saturating_add(1),
        least: apart.least.min(observation.difference),
        greatest: apart.greatest.max(observation.difference),
    }
}

fn apart_of(
    alloc: Global,
    observations: &[Observation],
    tasks: usize,
) -> Result<Vec<Apart>, AllocError> {
    let mut all: Vec<Apart> = Vec::new(alloc);
    all.resize(tasks, NONE)?;
    for observation in observations {
        if is_of(TimerKind::Block, observation) && is_compared(observation) {
            if let Some(place) = all.get_mut(observation.task as usize) {
                *place = with(*place, observation);
            }
        }
    }
    Ok(all)
}

/// Appends a line for each task of which blocks differ: how many, and how far.
pub(crate) fn put_apart(
    alloc: Global,
    out: &mut Vec<u8>,
    observations: &[Observation],
    names: &[Vec<u8>],
) -> Result<(), AllocError> {
    let all = apart_of(alloc, observations, names.len())?;
    let mut told = 0u64;
    for (i, apart) in all.iter().enumerate() {
        if apart.differ > 0 && told < TASKS {
            told = told.saturating_add(1);
            let number = i.min(u32::MAX as usize) as u32;
            put_task(alloc, out, name_of(names, number), *apart)?;
        }
    }
    Ok(())
}

fn put_task(alloc: Global, out: &mut Vec<u8>, name: &[u8], apart: Apart) -> Result<(), AllocError> {
    put(out, b"  ")?;
    put(out, name)?;
    put(out, b": ")?;
    put_count(alloc, out, apart.differ)?;
    put(out, b" of ")?;
    put_count(alloc, out, apart.compared)?;
    put(out, b" blocks, rules - kernel in us from ")?;
    put_micros(alloc, out, apart.least)?;
    put(out, b" to ")?;
    put_micros(alloc, out, apart.greatest)?;
    put(out, b"\n")
}
