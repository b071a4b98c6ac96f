//! Lanes: one for each task on each runqueue on which it is.

use crate::bar::is_in_lane;
use state_history::Slice;
use std::alloc::{AllocError, Global};

/// A task on a runqueue.
#[derive(Clone, Copy)]
pub struct Lane {
    pub cpu: u32,
    pub task: u32,
}

/// A lane, and where it stands.
#[derive(Clone, Copy)]
pub struct LaneRow {
    pub lane: Lane,

    /// The pixel at its top.
    pub y: u64,

    /// It is the first of its runqueue, whose curves stand above it.
    pub is_first: bool,
}

/// Where the first runqueue begins.
pub const TOP: u64 = 92;

/// How high a lane is.
pub const LANE: u64 = 16;

/// How much room the name and the curves of a runqueue take.
pub const HEAD: u64 = 100;

fn has_lane(slices: &[Slice], lane: Lane) -> bool {
    slices.iter().any(|slice| is_in_lane(lane, *slice))
}

/// Appends a lane, if a state is in it.
fn push_lane(lanes: &mut Vec<Lane>, slices: &[Slice], lane: Lane) -> Result<(), AllocError> {
    if has_lane(slices, lane) {
        lanes.push(lane)?;
    }
    Ok(())
}

/// The lanes of a runqueue, of so many tasks.
fn lanes_on(
    alloc: Global,
    slices: &[Slice],
    tasks: u32,
    cpu: u32,
) -> Result<Vec<Lane>, AllocError> {
    let mut lanes = Vec::new(alloc);
    for task in 0..tasks {
        push_lane(&mut lanes, slices, Lane { cpu, task })?;
    }
    Ok(lanes)
}

fn is_busy(slices: &[Slice], cpu: u32) -> bool {
    slices.iter().any(|slice| slice.cpu == cpu)
}

/// Appends a runqueue, if a task is on it.
fn push_busy(busy: &mut Vec<u32>, slices: &[Slice], cpu: u32) -> Result<(), AllocError> {
    if is_busy(slices, cpu) {
        busy.push(cpu)?;
    }
    Ok(())
}

/// Those of so many runqueues on which there is a task.
fn busy_cpus(alloc: Global, slices: &[Slice], cpus: u32) -> Result<Vec<u32>, AllocError> {
    let mut busy = Vec::new(alloc);
    for cpu in 0..cpus {
        push_busy(&mut busy, slices, cpu)?;
    }
    Ok(busy)
}

/// The lanes of these runqueues.
fn lanes_at(
    alloc: Global,
    slices: &[Slice],
    tasks: u32,
    cpus: &[u32],
) -> Result<Vec<Lane>, AllocError> {
    let mut lanes = Vec::new(alloc);
    for cpu in cpus {
        let those = lanes_on(alloc, slices, tasks, *cpu)?;
        lanes.extend_from_slice(&those)?;
    }
    Ok(lanes)
}

/// The lanes of these states, by runqueue and task, of which there are so many.
pub fn lanes_of(
    alloc: Global,
    slices: &[Slice],
    cpus: u32,
    tasks: u32,
) -> Result<Vec<Lane>, AllocError> {
    let busy = busy_cpus(alloc, slices, cpus)?;
    lanes_at(alloc, slices, tasks, &busy)
}

/// Where a lane stands below the one before it.
fn row_below(before: Option<LaneRow>, lane: Lane) -> LaneRow {
    match before {
        None => LaneRow {
            lane,
            y: TOP + HEAD,
            is_first: true,
        },
        Some(row) => {
            let is_first = row.lane.cpu != lane.cpu;
            let gap = if is_first { LANE + HEAD } else { LANE };
            LaneRow {
                lane,
                y: row.y.saturating_add(gap),
                is_first,
            }
        }
    }
}

/// Where lanes stand, one below the other.
pub fn rows_of(alloc: Global, lanes: &[Lane]) -> Result<Vec<LaneRow>, AllocError> {
    let mut rows = Vec::new(alloc);
    let mut before = None;
    for lane in lanes {
        let row = row_below(before, *lane);
        rows.push(row)?;
        before = Some(row);
    }
    Ok(rows)
}
