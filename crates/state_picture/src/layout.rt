//! What a picture shows: each lane in its row, with its bars and marks, and above the first lane of a runqueue its curves.

use crate::bar::{StateBar, bars_of};
use crate::curve::{RunqueueCurves, curves_of};
use crate::frame::PictureFrame;
use crate::lane::{Lane, LaneRow, rows_of};
use crate::mark::{TimerMark, all_marks_of};
use state_history::RecordScene;
use std::alloc::{AllocError, Global};

/// How much of a record is drawn: in columns so many pixels wide, and so many lanes.
#[derive(Clone, Copy)]
pub struct Grain {
    /// 1 to 1024.
    pub unit: u16,
    pub lanes: usize,
}

/// What a lane shows.
#[derive(Drop)]
pub struct LaneLayout {
    pub row: LaneRow,
    pub bars: Vec<StateBar>,

    /// In the order in which they are drawn.
    pub marks: Vec<TimerMark>,

    /// Of its runqueue, where it is the first lane of it.
    pub curves: Option<RunqueueCurves>,
}

/// The part of a record that is drawn, and how wide its columns are.
pub(crate) fn frame_of(scene: RecordScene<'_>, grain: Grain) -> PictureFrame {
    PictureFrame {
        span: scene.span,
        unit: grain.unit,
    }
}

/// The curves above a row: those of its runqueue, where its lane is the first there.
fn curves_above(
    alloc: Global,
    scene: RecordScene<'_>,
    frame: PictureFrame,
    row: LaneRow,
) -> Result<Option<RunqueueCurves>, AllocError> {
    if !row.is_first {
        return Ok(None);
    }
    let readings = &scene.history.sums;
    let curves = curves_of(alloc, frame, readings, scene.limits, row.lane.cpu)?;
    Ok(Some(curves))
}

/// What a lane shows.
fn layout_of(
    alloc: Global,
    scene: RecordScene<'_>,
    frame: PictureFrame,
    row: LaneRow,
) -> Result<LaneLayout, AllocError> {
    let bars = bars_of(alloc, frame, &scene.history.states, row.lane)?;
    let marks = all_marks_of(alloc, frame, scene.observations, row.lane)?;
    let curves = curves_above(alloc, scene, frame, row)?;
    Ok(LaneLayout {
        row,
        bars,
        marks,
        curves,
    })
}

/// What the lanes of these rows show.
fn layouts_at(
    alloc: Global,
    scene: RecordScene<'_>,
    frame: PictureFrame,
    rows: &[LaneRow],
) -> Result<Vec<LaneLayout>, AllocError> {
    let mut layouts = Vec::new(alloc);
    for row in rows {
        let layout = layout_of(alloc, scene, frame, *row)?;
        layouts.push(layout)?;
    }
    Ok(layouts)
}

/// So many of these lanes, or all.
fn first_of(lanes: &[Lane], count: usize) -> &[Lane] {
    if count < lanes.len() {
        &lanes[..count]
    } else {
        lanes
    }
}

/// What a picture shows at a grain: the first so many of these lanes, one below the other. It takes no more room than the record
/// itself: a state has one bar at most, a timer one mark, a reading of the sums three points.
pub fn layouts_of(
    alloc: Global,
    scene: RecordScene<'_>,
    grain: Grain,
    lanes: &[Lane],
) -> Result<Vec<LaneLayout>, AllocError> {
    let rows = rows_of(alloc, first_of(lanes, grain.lanes))?;
    layouts_at(alloc, scene, frame_of(scene, grain), &rows)
}
