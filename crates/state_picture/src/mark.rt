//! Marks: the kernel's timers.

use crate::frame::PictureFrame;
use crate::lane::Lane;
use state_history::{is_within, marked_at};
use std::alloc::{AllocError, Global};
use timer_tasks::{Observation, ObservedAnswer, TimerKind};

/// What a mark shows.
#[derive(Clone, Copy, PartialEq, Eq)]
pub enum MarkKind {
    /// A 0-lag timer that agrees, or is not compared.
    ZeroLag,

    /// A replenishment timer that agrees, or is not compared.
    Replenishment,

    /// A timer that differs, or a block without one that does.
    Deviation,
}

/// A timer, in the column of the moment for which the kernel set it, or of a block at which it set none.
#[derive(Clone, Copy)]
pub struct TimerMark {
    pub x: u64,
    pub kind: MarkKind,
    pub observation: Observation,
}

fn kind_of(observation: &Observation) -> MarkKind {
    match (observation.answer, observation.kind) {
        (ObservedAnswer::Differs, _) => MarkKind::Deviation,
        (_, TimerKind::Block) => MarkKind::ZeroLag,
        (_, TimerKind::Replenish) => MarkKind::Replenishment,
    }
}

/// Whether a timer is of this lane, of this kind, and in the span; a block at which the kernel rightly set no timer has no mark.
fn is_marked(frame: PictureFrame, lane: Lane, kind: MarkKind, observation: &Observation) -> bool {
    observation.task == lane.task
        && observation.cpu == lane.cpu
        && kind_of(observation) == kind
        && (kind == MarkKind::Deviation || observation.kernel.is_some())
        && is_within(frame.span, marked_at(observation))
}

/// The marks of a kind in a lane, one a column at most.
pub fn marks_of(
    alloc: Global,
    frame: PictureFrame,
    observations: &[Observation],
    lane: Lane,
    kind: MarkKind,
) -> Result<Vec<TimerMark>, AllocError> {
    let mut marks = Vec::new(alloc);
    let mut last = 0;
    for observation in observations {
        let x = frame.x(marked_at(observation));
        if is_marked(frame, lane, kind, observation) && last < x {
            marks.push(TimerMark {
                x,
                kind,
                observation: *observation,
            })?;
            last = x;
        }
    }
    Ok(marks)
}

/// The marks of a lane, of all kinds: those that differ come last, above the others.
pub fn all_marks_of(
    alloc: Global,
    frame: PictureFrame,
    observations: &[Observation],
    lane: Lane,
) -> Result<Vec<TimerMark>, AllocError> {
    let mut marks = marks_of(alloc, frame, observations, lane, MarkKind::ZeroLag)?;
    let replenishments = marks_of(alloc, frame, observations, lane, MarkKind::Replenishment)?;
    let deviations = marks_of(alloc, frame, observations, lane, MarkKind::Deviation)?;
    marks.extend_from_slice(&replenishments)?;
    marks.extend_from_slice(&deviations)?;
    Ok(marks)
}
