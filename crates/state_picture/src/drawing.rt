//! The layout of a picture, as SVG.

use crate::axis::put_axis;
use crate::bar::StateBar;
use crate::curve::{Point, RunqueueCurves};
use crate::frame::{CURVE, LEFT, PictureFrame, height_of};
use crate::key::put_head;
use crate::lane::{LANE, Lane, LaneRow, TOP};
use crate::layout::{Grain, LaneLayout, frame_of, layouts_of};
use crate::mark::{MarkKind, TimerMark};
use crate::picture::MOST;
use crate::text::{put, put_length, put_percent, put_seconds, put_seen};
use state_history::{RecordScene, TaskName, TaskState};
use std::alloc::{AllocError, Global};
use timer_tasks::Observation;

/// What a state looks like: the name of its colour, how far below the lane's top its bar begins, and how high it is.
fn looks_of(state: TaskState) -> (&'static str, u64, u64) {
    match state {
        TaskState::Running => ("running", 2, 12),
        TaskState::Contending => ("contending", 5, 9),
        TaskState::Throttled => ("throttled", 8, 6),
        TaskState::NonContending => ("non-contending", 9, 5),
        TaskState::Inactive => ("inactive", 12, 2),
    }
}

fn put_title(
    alloc: Global,
    out: &mut Vec<u8>,
    tasks: &[TaskName],
    lane: Lane,
    bar: StateBar,
) -> Result<(), AllocError> {
    put(out, "<title>")?;
    put_name(out, tasks, lane)?;
    put(
        out,
        format!(in alloc; " {} on CPU {}, ", looks_of(bar.state).0, lane.cpu)?.as_str(),
    )?;
    put_seconds(alloc, out, bar.span.from)?;
    put(out, " to ")?;
    put_seconds(alloc, out, bar.span.to)?;
    put(out, " s: ")?;
    put_length(alloc, out, bar.span.to.saturating_sub(bar.span.from))?;
    put(out, "</title>")
}

fn put_name(out: &mut Vec<u8>, tasks: &[TaskName], lane: Lane) -> Result<(), AllocError> {
    match tasks.get(lane.task as usize) {
        Some(task) => put_seen(out, task.comm.as_str()),
        None => Ok(()),
    }
}

fn put_bar(
    alloc: Global,
    out: &mut Vec<u8>,
    tasks: &[TaskName],
    row: LaneRow,
    bar: StateBar,
) -> Result<(), AllocError> {
    let (class, below, height) = looks_of(bar.state);
    let (x, y) = (bar.x, row.y.saturating_add(below));
    let width = bar.right.saturating_sub(bar.x);
    put(
        out,
        format!(in alloc;
            "<rect class=\"{class}\" x=\"{x}\" y=\"{y}\" width=\"{width}\" height=\"{height}\">"
        )?.as_str(),
    )?;
    put_title(alloc, out, tasks, row.lane, bar)?;
    put(out, "</rect>\n")
}

/// The name of a lane, with its pid.
fn put_label(
    alloc: Global,
    out: &mut Vec<u8>,
    tasks: &[TaskName],
    row: LaneRow,
) -> Result<(), AllocError> {
    let (x, y) = (LEFT.saturating_sub(6), row.y.saturating_add(13));
    put(
        out,
        format!(in alloc; "<text class=\"n\" x=\"{x}\" y=\"{y}\">")?.as_str(),
    )?;
    put_name(out, tasks, row.lane)?;
    if let Some(task) = tasks.get(row.lane.task as usize) {
        put(out, format!(in alloc; " {}", task.pid)?.as_str())?;
    }
    put(out, "</text>\n")
}

fn put_mark(
    alloc: Global,
    out: &mut Vec<u8>,
    row: LaneRow,
    mark: TimerMark,
) -> Result<(), AllocError> {
    let (x, y) = (mark.x, row.y);
    let shape = match mark.kind {
        MarkKind::ZeroLag => {
            let top = y.saturating_sub(2);
            format!(in alloc; "<path class=\"z\" d=\"M{x} {top}m-2 0h4l-2 4z\">")?
        }
        MarkKind::Replenishment => {
            let foot = y.saturating_add(2);
            format!(in alloc; "<path class=\"z\" d=\"M{x} {foot}m-2 0h4l-2 -4z\">")?
        }
        MarkKind::Deviation => {
            let top = y.saturating_sub(3);
            format!(in alloc; "<path class=\"x\" d=\"M{x} {top}m-4 0h8l-4 8z\">")?
        }
    };
    put(out, shape.as_str())?;
    put_mark_title(alloc, out, &mark.observation)?;
    put(out, "</path>\n")
}

fn put_mark_title(
    alloc: Global,
    out: &mut Vec<u8>,
    observation: &Observation,
) -> Result<(), AllocError> {
    put(
        out,
        format!(in alloc; "<title>line {}: ", observation.line)?.as_str(),
    )?;
    match observation.kernel {
        Some(kernel) => {
            put(out, "the kernel's timer at ")?;
            put_seconds(alloc, out, kernel)?;
        }
        None => put(out, "the kernel set no timer")?,
    }
    put(out, ", by the rules ")?;
    put_seconds(alloc, out, observation.predicted)?;
    put(out, "</title>")
}

fn put_lane(
    alloc: Global,
    out: &mut Vec<u8>,
    tasks: &[TaskName],
    layout: &LaneLayout,
) -> Result<(), AllocError> {
    put_label(alloc, out, tasks, layout.row)?;
    for bar in &layout.bars {
        put_bar(alloc, out, tasks, layout.row, *bar)?;
    }
    for mark in &layout.marks {
        put_mark(alloc, out, layout.row, *mark)?;
    }
    Ok(())
}

/// A step curve whose foot is at `base`; closed at its end where it is an area.
fn put_curve(
    alloc: Global,
    out: &mut Vec<u8>,
    frame: PictureFrame,
    base: u64,
    class: &str,
    points: &[Point],
) -> Result<(), AllocError> {
    let is_area = class != "d";
    put(
        out,
        format!(in alloc; "<path class=\"{class}\" d=\"")?.as_str(),
    )?;
    for (place, point) in points.iter().enumerate() {
        let (x, y) = (point.x, base.saturating_sub(height_of(point.bandwidth)));
        let step = if place > 0 {
            format!(in alloc; "H{x}V{y}")?
        } else if is_area {
            format!(in alloc; "M{x} {base}V{y}")?
        } else {
            format!(in alloc; "M{x} {y}")?
        };
        put(out, step.as_str())?;
    }
    let right = frame.right();
    if points.len() > 0 {
        put(out, format!(in alloc; "H{right}")?.as_str())?;
    }
    if is_area && points.len() > 0 {
        put(out, format!(in alloc; "V{base}Z")?.as_str())?;
    }
    put(out, "\"/>\n")
}

fn put_scale(
    alloc: Global,
    out: &mut Vec<u8>,
    frame: PictureFrame,
    base: u64,
) -> Result<(), AllocError> {
    for (percent, height) in [("0 %", 0), ("50 %", CURVE / 2), ("100 %", CURVE)] {
        let y = base.saturating_sub(height);
        let (right, x, label) = (frame.right(), LEFT.saturating_sub(6), y.saturating_add(4));
        put(
            out,
            format!(in alloc;
                "<path class=\"g\" d=\"M{LEFT} {y}H{right}\"/><text class=\"n\" x=\"{x}\" y=\"{label}\">{percent}</text>\n"
            )?.as_str(),
        )?;
    }
    Ok(())
}

/// What is admitted at the end of the span, beside the end of its curve.
fn put_admitted(
    alloc: Global,
    out: &mut Vec<u8>,
    frame: PictureFrame,
    base: u64,
    points: &[Point],
) -> Result<(), AllocError> {
    let Some(point) = points.last() else {
        return Ok(());
    };
    let x = frame.right().saturating_add(5);
    let y = base
        .saturating_sub(height_of(point.bandwidth))
        .saturating_add(4);
    put(
        out,
        format!(in alloc; "<text x=\"{x}\" y=\"{y}\">")?.as_str(),
    )?;
    put_percent(alloc, out, point.bandwidth)?;
    put(out, "</text>\n")
}

/// The name and the curves of a runqueue, above its first lane.
fn put_runqueue(
    alloc: Global,
    out: &mut Vec<u8>,
    frame: PictureFrame,
    row: LaneRow,
    curves: &RunqueueCurves,
) -> Result<(), AllocError> {
    let base = row.y.saturating_sub(6);
    let (cpu, title) = (row.lane.cpu, base.saturating_sub(CURVE + 12));
    put(
        out,
        format!(in alloc;
            "<text class=\"q\" x=\"8\" y=\"{title}\">runqueue {cpu}</text>\n"
        )?.as_str(),
    )?;
    put_scale(alloc, out, frame, base)?;
    put_curve(alloc, out, frame, base, "t", &curves.this_bw)?;
    put_curve(alloc, out, frame, base, "w", &curves.running_bw)?;
    put_curve(alloc, out, frame, base, "d", &curves.admitted)?;
    put_admitted(alloc, out, frame, base, &curves.admitted)
}

/// Draws lanes, until the document is too large.
fn put_lanes(
    alloc: Global,
    out: &mut Vec<u8>,
    tasks: &[TaskName],
    frame: PictureFrame,
    layouts: &[LaneLayout],
) -> Result<(), AllocError> {
    for layout in layouts {
        if out.len() >= MOST {
            break;
        }
        if let Some(curves) = &layout.curves {
            put_runqueue(alloc, out, frame, layout.row, curves)?;
        }
        put_lane(alloc, out, tasks, layout)?;
    }
    Ok(())
}

/// Where the last lane ends.
fn foot_of(layouts: &[LaneLayout]) -> u64 {
    match layouts.last() {
        Some(layout) => layout.row.y.saturating_add(LANE + 8),
        None => TOP + 20,
    }
}

/// A line through all lanes at the first deviation.
fn put_deviation(
    alloc: Global,
    out: &mut Vec<u8>,
    scene: RecordScene<'_>,
    frame: PictureFrame,
    y: u64,
) -> Result<(), AllocError> {
    let Some(observation) = scene.deviation() else {
        return Ok(());
    };
    let (x, line) = (frame.x(observation.at), observation.line);
    let (side, label) = if x < 900 {
        ("start", x.saturating_add(5))
    } else {
        ("end", x.saturating_sub(5))
    };
    let (top, foot) = (TOP, TOP.saturating_add(9));
    put(
        out,
        format!(in alloc;
            "<path class=\"f\" d=\"M{x} {top}V{y}\"/><text class=\"e\" x=\"{label}\" y=\"{foot}\" text-anchor=\"{side}\">first deviation: line {line}</text>\n"
        )?.as_str(),
    )
}

fn put_notes(
    alloc: Global,
    out: &mut Vec<u8>,
    grain: Grain,
    lanes: usize,
    y: u64,
) -> Result<(), AllocError> {
    let unit = grain.unit;
    put(
        out,
        format!(in alloc;
            "<text x=\"{LEFT}\" y=\"{y}\">a column is {unit} px wide; of states that share one, the first is drawn"
        )?.as_str(),
    )?;
    if lanes > grain.lanes {
        let (drawn, all) = (grain.lanes, lanes);
        put(
            out,
            format!(in alloc;
                "; so that the file stays below 4 MiB, the first {drawn} of {all} lanes"
            )?.as_str(),
        )?;
    }
    put(out, "</text>\n")
}

/// A picture at a grain.
pub(crate) fn put_drawing(
    alloc: Global,
    out: &mut Vec<u8>,
    scene: RecordScene<'_>,
    trace: &str,
    lanes: &[Lane],
    grain: Grain,
) -> Result<(), AllocError> {
    let frame = frame_of(scene, grain);
    let layouts = layouts_of(alloc, scene, grain, lanes)?;
    let y = foot_of(&layouts);
    put_head(alloc, out, trace, scene.span, y.saturating_add(60))?;
    put_axis(alloc, out, frame, TOP, y)?;
    put_lanes(alloc, out, scene.tasks, frame, &layouts)?;
    put_deviation(alloc, out, scene, frame, y)?;
    put_notes(alloc, out, grain, lanes.len(), y.saturating_add(52))?;
    put(out, "</svg>\n")
}
