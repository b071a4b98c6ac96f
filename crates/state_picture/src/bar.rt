//! The bars of a lane.

use crate::frame::{LEFT, PictureFrame};
use crate::lane::Lane;
use state_history::{Slice, Span, TaskState};
use std::alloc::{AllocError, Global};

/// A state of a task, from one edge of a column to a later one.
#[derive(Clone, Copy)]
pub struct StateBar {
    pub x: u64,
    pub right: u64,
    pub state: TaskState,

    /// From when to when the task was in it.
    pub span: Span,
}

/// Whether a state is of the task and the runqueue of a lane.
pub(crate) fn is_in_lane(lane: Lane, slice: Slice) -> bool {
    slice.task == lane.task && slice.cpu == lane.cpu
}

/// Where the bar of a span ends: it is a column wide at least.
fn end_of(frame: PictureFrame, span: Span) -> u64 {
    let least = frame.x(span.from) + u64::from(frame.unit);
    frame.x(span.to).max(least).min(frame.right())
}

/// The bar of a state; it begins where the one before it ends, or later.
fn bar_after(frame: PictureFrame, last: u64, slice: Slice) -> StateBar {
    StateBar {
        x: frame.x(slice.span.from).max(last),
        right: end_of(frame, slice.span),
        state: slice.state,
        span: slice.span,
    }
}

/// The bars of a lane. Each begins where the one before it ends, or later: of states that share a column the first is drawn there.
pub fn bars_of(
    alloc: Global,
    frame: PictureFrame,
    slices: &[Slice],
    lane: Lane,
) -> Result<Vec<StateBar>, AllocError> {
    let mut bars = Vec::new(alloc);
    let mut last = LEFT;
    for slice in slices {
        let right = end_of(frame, slice.span);
        if is_in_lane(lane, *slice) && last < right {
            bars.push(bar_after(frame, last, *slice))?;
            last = right;
        }
    }
    Ok(bars)
}
