//! What a layout looks like, as SVG.

ghost use Rattle.std.specs.Prelude.{◌<◌, All, length};

use crate::curve::put_curve;
use crate::layout::{LaneLayout, RunqueueLayout, TOP};
use crate::tick::put_ticks;
use grub_plan::Plan;
use std::alloc::AllocError;
use svg::{Frame, put_bars, put_number, put_scale, put_umax};

/// How far below the top of a runqueue the base of its curves is.
const BASE: u32 = 84;

/// Where the last runqueue ends.
pub(crate) fn bottom_of(layout: &[RunqueueLayout]) -> u32 {
    match layout.last() {
        Some(queue) => queue.bottom,
        None => TOP,
    }
}

/// Appends the runqueues.
pub(crate) fn put_queues(
    out: &mut Vec<u8>,
    plan: &Plan,
    frame: Frame,
    layout: &[RunqueueLayout],
) -> Result<(), AllocError>
    requires { All (λ q. All (λ l. l.task < length plan.now.setup.tasks) q.lanes.items) layout.now }
{
    for queue in layout {
        put_queue(out, plan, frame, queue)?;
    }
    Ok(())
}

/// A runqueue: its name, its scale, its curves, its Umax and its lanes.
fn put_queue(
    out: &mut Vec<u8>,
    plan: &Plan,
    frame: Frame,
    queue: &RunqueueLayout,
) -> Result<(), AllocError>
    requires { All (λ l. l.task < length plan.now.setup.tasks) queue.now.lanes.items }
{
    let r = queue.runqueue;
    let base = queue.y.saturating_add(BASE);
    put_number(
        out,
        b"<text class=\"q\" x=\"8\" y=\"",
        u64::from(queue.y) + 9,
    )?;
    put_number(out, b"\">runqueue ", u64::from(r))?;
    out.extend_from_slice(b"</text>\n")?;
    put_scale(out, frame, base)?;
    put_curve(out, frame, r, &queue.this, base, false)?;
    put_curve(out, frame, r, &queue.running, base, true)?;
    put_umax(out, frame, base, queue.umax, r)?;
    put_lanes(out, plan, r, &queue.lanes)
}

/// The lanes of runqueue `r`.
fn put_lanes(out: &mut Vec<u8>, plan: &Plan, r: u32, lanes: &[LaneLayout]) -> Result<(), AllocError>
    requires { All (λ l. l.task < length plan.now.setup.tasks) lanes.now }
{
    for lane in lanes {
        put_lane(out, plan, r, lane)?;
    }
    Ok(())
}

/// A lane: the name of its task, its bars and its ticks.
fn put_lane(out: &mut Vec<u8>, plan: &Plan, r: u32, lane: &LaneLayout) -> Result<(), AllocError>
    requires { lane.now.task < length plan.now.setup.tasks }
{
    let name = plan.name(lane.task);
    put_bars(out, r, name, &lane.rects, lane.y)?;
    put_ticks(out, name, &lane.ticks, lane.y)
}
