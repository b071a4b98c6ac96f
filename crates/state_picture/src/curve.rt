//! The step curves of a runqueue.

use crate::frame::PictureFrame;
use state_history::SumsSlice;
use std::alloc::{AllocError, Global};
use trace_data::Sums;

/// Which sum of a runqueue a curve shows.
#[derive(Clone, Copy)]
pub enum Sum {
    This,
    Running,

    /// What is admitted: `max_bw` less `extra_bw`.
    Admitted { max_bw: u64 },
}

/// A bandwidth, from the left edge of a column on.
#[derive(Clone, Copy)]
pub struct Point {
    pub x: u64,
    pub bandwidth: u64,
}

/// `max_bw` less `extra_bw`, which may be below 0; 0 where `extra_bw` is the greater.
fn admitted(max_bw: u64, extra_bw: u64) -> u64 {
    let difference = max_bw.wrapping_sub(extra_bw);
    if difference < 1 << 63 { difference } else { 0 }
}

fn bandwidth_of(sum: Sum, sums: Sums) -> u64 {
    match sum {
        Sum::This => sums.this_bw,
        Sum::Running => sums.running_bw,
        Sum::Admitted { max_bw } => admitted(max_bw, sums.extra_bw),
    }
}

fn point_of(frame: PictureFrame, sum: Sum, reading: SumsSlice) -> Point {
    Point {
        x: frame.x(reading.span.from),
        bandwidth: bandwidth_of(sum, reading.sums),
    }
}

/// Appends a point, where another column follows.
fn push_before(
    points: &mut Vec<Point>,
    last: Option<Point>,
    next: Point,
) -> Result<(), AllocError> {
    match last {
        Some(point) if point.x < next.x => {
            points.push(point)?;
            Ok(())
        }
        _ => Ok(()),
    }
}

fn push_last(points: &mut Vec<Point>, last: Option<Point>) -> Result<(), AllocError> {
    match last {
        Some(point) => {
            points.push(point)?;
            Ok(())
        }
        None => Ok(()),
    }
}

/// The points of a curve: of each column the last.
pub fn points_of(
    alloc: Global,
    frame: PictureFrame,
    readings: &[SumsSlice],
    cpu: u32,
    sum: Sum,
) -> Result<Vec<Point>, AllocError> {
    let mut points = Vec::new(alloc);
    let mut last: Option<Point> = None;
    for reading in readings {
        if reading.cpu == cpu {
            let next = point_of(frame, sum, *reading);
            push_before(&mut points, last, next)?;
            last = Some(next);
        }
    }
    push_last(&mut points, last)?;
    Ok(points)
}

/// The curves of a runqueue.
#[derive(Drop)]
pub struct RunqueueCurves {
    pub this_bw: Vec<Point>,
    pub running_bw: Vec<Point>,

    /// `max_bw` less `extra_bw`.
    pub admitted: Vec<Point>,
}

/// `max_bw` of a runqueue, by the CPU; 0 where there is none.
fn max_bw_of(limits: &[u64], cpu: u32) -> u64 {
    limits.get(cpu as usize).copied().unwrap_or(0)
}

/// The curves of a runqueue, by the readings of all and `max_bw` of each.
pub fn curves_of(
    alloc: Global,
    frame: PictureFrame,
    readings: &[SumsSlice],
    limits: &[u64],
    cpu: u32,
) -> Result<RunqueueCurves, AllocError> {
    let max_bw = max_bw_of(limits, cpu);
    let this_bw = points_of(alloc, frame, readings, cpu, Sum::This)?;
    let running_bw = points_of(alloc, frame, readings, cpu, Sum::Running)?;
    let admitted = points_of(alloc, frame, readings, cpu, Sum::Admitted { max_bw })?;
    Ok(RunqueueCurves {
        this_bw,
        running_bw,
        admitted,
    })
}
