//! What a picture shows, and where: its runqueues, each with its curves and its lanes.

ghost use Rattle.std.specs.Prelude.{◌≡◌, ◌+◌, ◌*◌, ◌<◌, ◌≤◌, ◌^◌, All, IfOk, length, vec_len};

use crate::bars::bars_of;
use crate::curve::{CurvePoint, points_of};
use crate::lane::{lanes_of, own_of};
use crate::tick::{Tick, ticks_of};
use grub_plan::Plan;
use grub_timeline::{Step, steps_of_task};
use std::alloc::{AllocError, Global};
use svg::{Bar, Frame, Rect, rect_of};

/// What is shown of a time line.
#[derive(Clone, Copy)]
pub struct Scene<'a> {
    pub plan: &'a Plan,
    pub steps: &'a [Step],

    /// The steps of each task.
    pub owns: &'a [Vec<Step>],

    pub frame: Frame,

    /// So many of the tasks have lanes, from the first on.
    pub tasks: u32,

    /// So many of the runqueues are there, from the first on.
    pub queues: u32,
}

/// The lane of a task on a runqueue.
#[derive(Drop)]
pub struct LaneLayout {
    /// The number of the task.
    pub task: u32,

    /// How far down it begins, in pixels.
    pub y: u32,

    /// Where its bars stand.
    pub rects: Vec<Rect>,

    pub ticks: Vec<Tick>,
}

/// A runqueue of a picture.
#[derive(Drop)]
pub struct RunqueueLayout {
    /// The number of the runqueue.
    pub runqueue: u32,

    /// How far down it begins, in pixels.
    pub y: u32,

    /// How far down it ends, in pixels.
    pub bottom: u32,

    /// The most bandwidth that is admitted, in 1/2^20.
    pub umax: u32,

    /// The curve of this_bw.
    pub this: Vec<CurvePoint>,

    /// The curve of running_bw.
    pub running: Vec<CurvePoint>,

    /// Its lanes, one below the other.
    pub lanes: Vec<LaneLayout>,
}

/// Where the first runqueue begins, in pixels.
pub(crate) const TOP: u32 = 76;

/// How high a lane is, in pixels.
const LANE: u32 = 16;

/// The steps of each task. It is refused where the allocator refused.
pub fn owns_of(alloc: Global, plan: &Plan, steps: &[Step]) -> Result<Vec<Vec<Step>>, AllocError>
    ensures { IfOk result (λ v. vec_len v ≡ length plan.now.setup.tasks) }
{
    let mut owns = Vec::new(alloc);
    for t in 0..plan.setup().task_count() {
        owns.push(steps_of_task(alloc, t, steps)?)?;
    }
    Ok(owns)
}

/// What is shown of a time line, and where. It is refused where the allocator refused.
pub fn layout_of(alloc: Global, scene: &Scene) -> Result<Vec<RunqueueLayout>, AllocError>
    requires tasks { scene.now.tasks ≤ length scene.now.plan.now.setup.tasks }
    requires queues { scene.now.queues ≤ length scene.now.plan.now.setup.queues }
    requires owns { length scene.now.owns.now ≡ length scene.now.plan.now.setup.tasks }
    ensures within { IfOk result
        (λ v. All (λ q. All (λ l. l.task < length scene.now.owns.now) q.lanes.items) v.items) }
{
    // A reader tells that a setup has no more runqueues than there is room for.
    let _ = scene.plan.setup();
    let mut layout = Vec::new(alloc);
    let mut y = TOP;
    for r in 0..scene.queues {
        let queue = runqueue_of(alloc, scene, r, y)?;
        y = queue.bottom;
        layout.push(queue)?;
    }
    Ok(layout)
}

/// Runqueue `r`, from `y` down.
fn runqueue_of(alloc: Global, scene: &Scene, r: u32, y: u32) -> Result<RunqueueLayout, AllocError>
    requires there { r < length scene.now.plan.now.setup.queues }
    requires room { y + 4194 < 2 ^ 32 }
    requires tasks { scene.now.tasks ≤ length scene.now.plan.now.setup.tasks }
    requires owns { scene.now.tasks ≤ length scene.now.owns.now }
    ensures within { IfOk result (λ q. All (λ l. l.task < length scene.now.owns.now) q.lanes.items) }
    ensures most { IfOk result (λ q. q.bottom ≤ y + 4194) }
{
    let frame = scene.frame;
    let umax = scene.plan.setup().queue(r).umax();
    let this = points_of(alloc, frame, r, scene.steps, false)?;
    let running = points_of(alloc, frame, r, scene.steps, true)?;
    let tasks = lanes_of(alloc, frame, r, scene.owns, scene.tasks)?;
    let lanes = lanes_from(alloc, frame, r, scene.owns, y + 88, &tasks)?;
    Ok(RunqueueLayout {
        runqueue: r,
        y,
        bottom: y + 98 + LANE * tasks.len() as u32,
        umax,
        this,
        running,
        lanes,
    })
}

/// The lanes of these tasks on runqueue `r`, from `y` down.
fn lanes_from(
    alloc: Global,
    frame: Frame,
    r: u32,
    owns: &[Vec<Step>],
    y: u32,
    tasks: &[u32],
) -> Result<Vec<LaneLayout>, AllocError>
    requires there { All (λ t. t < length owns.now) tasks.now }
    requires room { y + 16 * length tasks.now < 2 ^ 32 }
    ensures { IfOk result (λ v. All (λ l. l.task < length owns.now) v.items) }
{
    let mut lanes = Vec::new(alloc);
    let mut at = y;
    for t in tasks {
        let own = own_of(owns, *t);
        lanes.push(lane_of(alloc, frame, r, at, own, *t)?)?;
        at += LANE;
    }
    Ok(lanes)
}

/// The lane of task `t` on runqueue `r`, at `y`.
fn lane_of(
    alloc: Global,
    frame: Frame,
    r: u32,
    y: u32,
    own: &[Step],
    t: u32,
) -> Result<LaneLayout, AllocError>
    ensures { IfOk result (λ l. l.task ≡ t) }
{
    let bars = bars_of(alloc, r, own, frame)?;
    let rects = rects_of(alloc, frame, &bars)?;
    let ticks = ticks_of(alloc, frame, r, own)?;
    Ok(LaneLayout {
        task: t,
        y,
        rects,
        ticks,
    })
}

/// The rectangles of the bars that are a unit wide or more.
fn rects_of(alloc: Global, frame: Frame, bars: &[Bar]) -> Result<Vec<Rect>, AllocError> {
    bars.iter()
        .copied()
        .filter_map(|bar| rect_of(frame, bar))
        .collect(alloc)
}
