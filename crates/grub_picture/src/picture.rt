//! A picture of a time line, as an SVG document.

ghost use Rattle.std.specs.Prelude.{◌≡◌, ◌+◌, ◌<◌, ◌≤◌, ◌^◌, max, length, IfOk, vec_len};
ghost use Rattle.grub_timeline.specs.TimeLines.{AreWithin, IsTimeLine};
ghost use Rattle.grub_timeline.specs.Fitting.{AreToldIn};
ghost use Rattle.grub_picture.specs.Picture.{IsDocument, last_moment};

use crate::drawing::{bottom_of, put_queues};
use crate::layout::{Scene, layout_of, owns_of};
use grub_plan::Plan;
use grub_timeline::{TimeLine, ToldEntry, ViewFault, replay};
use std::alloc::{AllocError, Global};
use svg::{Frame, put_axis, put_head, put_number, put_text};

/// A picture is smaller than 4 MiB: what stands in its one element is smaller than this, in bytes.
const INNER_LIMIT: usize = 4194292;

/// How much may be drawn, of which the first is taken that keeps the picture within its limit: the least width of a bar in
/// pixels, the tasks that have lanes, and the runqueues.
const CUTS: [(u16, u32, u32); 26] = [
    (1, 256, 64),
    (2, 256, 64),
    (4, 256, 64),
    (8, 256, 64),
    (16, 256, 64),
    (32, 256, 64),
    (64, 256, 64),
    (128, 256, 64),
    (256, 256, 64),
    (512, 256, 64),
    (1024, 256, 64),
    (1024, 128, 64),
    (1024, 64, 64),
    (1024, 32, 64),
    (1024, 16, 64),
    (1024, 8, 64),
    (1024, 4, 64),
    (1024, 2, 64),
    (1024, 1, 64),
    (1024, 0, 64),
    (1024, 0, 32),
    (1024, 0, 16),
    (1024, 0, 8),
    (1024, 0, 4),
    (1024, 0, 2),
    (1024, 0, 1),
];

/// What is given where none of these served.
const NOTHING_DRAWN: &[u8] =
    b"xmlns=\"http://www.w3.org/2000/svg\" width=\"1190\" height=\"40\"><text x=\"8\" y=\"24\">left out, so that this picture is below 4 MiB: all runqueues and tasks</text>";

/// The last moment of a time line, where a picture ends: 1 where that is 0, or there is none.
pub fn end_of(line: &TimeLine) -> u32
    ensures { result ≡ max 1 (last_moment line.now.told.items) }
{
    last_moment(&line.told).max(1)
}

/// The moment of the last entry, or 0 where there is none.
fn last_moment(told: &[ToldEntry]) -> u32
    ensures { result ≡ last_moment told.now }
{
    match told.last() {
        Some(x) => x.entry.m,
        None => 0,
    }
}

/// A picture of a time line of the plan, from one moment to a later one, as an SVG document of less than 4 MiB. Past the
/// last entry the last state goes on. Bars and steps of curves that are narrower than a pixel are left out. Where the
/// document would be too long, they are left out up to a greater power of two of pixels; where that is not enough, so are
/// lanes, and then runqueues, from the last on, and the picture says which.
/// It is refused with 48 where the allocator refused.
pub fn picture_text(
    alloc: Global,
    plan: &Plan,
    line: &TimeLine,
    from: u32,
    to: u32,
) -> Result<Vec<u8>, ViewFault>
    requires line { IsTimeLine plan.now line.now.told.items line.now.closing.items }
    requires within { AreWithin plan.now.setup line.now.told.items }
    requires span { from < to }
    ensures short { IfOk result (λ v. vec_len v < 2 ^ 22) }
    ensures document { IfOk result (λ v. IsDocument v.items) }
{
    text_of(alloc, plan, line, from, to).map_err(|_| ViewFault::NoMemory)
}

fn text_of(
    alloc: Global,
    plan: &Plan,
    line: &TimeLine,
    from: u32,
    to: u32,
) -> Result<Vec<u8>, AllocError>
    requires { AreToldIn plan.now.setup line.now.told.items }
    ensures short { IfOk result (λ v. vec_len v < 2 ^ 22) }
    ensures document { IfOk result (λ v. IsDocument v.items) }
{
    let steps = replay(alloc, plan.setup(), &line.told)?;
    let owns = owns_of(alloc, plan, &steps)?;
    for (unit, tasks, queues) in CUTS {
        let scene = Scene {
            plan,
            steps: &steps,
            owns: &owns,
            frame: Frame { from, to, unit },
            tasks: plan.setup().task_count().min(tasks),
            queues: plan.setup().queue_count().min(queues),
        };
        let inner = drawn(alloc, &scene)?;
        if inner.len() < INNER_LIMIT {
            return document_of(alloc, &inner);
        }
    }
    document_of(alloc, NOTHING_DRAWN)
}

/// The document in which this stands.
fn document_of(alloc: Global, inner: &[u8]) -> Result<Vec<u8>, AllocError>
    ensures document { IfOk result (λ v. IsDocument v.items) }
    ensures length { IfOk result (λ v. vec_len v ≡ length inner.now + 12) }
{
    let mut text = Vec::from_slice(alloc, b"<svg ")?;
    text.extend_from_slice(inner)?;
    text.extend_from_slice(b"</svg>\n")?;
    Ok(text)
}

/// What stands in the document.
fn drawn(alloc: Global, scene: &Scene) -> Result<Vec<u8>, AllocError>
    requires tasks { scene.now.tasks ≤ length scene.now.plan.now.setup.tasks }
    requires queues { scene.now.queues ≤ length scene.now.plan.now.setup.queues }
    requires owns { length scene.now.owns.now ≡ length scene.now.plan.now.setup.tasks }
{
    let layout = layout_of(alloc, scene)?;
    let y = bottom_of(&layout);
    let mut text = Vec::new(alloc);
    put_head(&mut text, scene.frame, y)?;
    put_lanes_left_out(&mut text, scene)?;
    put_queues_left_out(&mut text, scene)?;
    put_axis(&mut text, scene.frame, y)?;
    put_queues(&mut text, scene.plan, scene.frame, &layout)?;
    Ok(text)
}

/// Which lanes are left out, where some are: those of a task and of all tasks after it.
fn put_lanes_left_out(out: &mut Vec<u8>, scene: &Scene) -> Result<(), AllocError> {
    if scene.tasks < scene.plan.setup().task_count() {
        out.extend_from_slice(
            b"<text x=\"130\" y=\"74\">left out, so that this picture is below 4 MiB: the lanes of ",
        )?;
        put_text(out, scene.plan.name(scene.tasks))?;
        out.extend_from_slice(b" and of all tasks after it</text>\n")?;
    }
    Ok(())
}

/// Which runqueues are left out, where some are: one and all after it.
fn put_queues_left_out(out: &mut Vec<u8>, scene: &Scene) -> Result<(), AllocError> {
    if scene.queues < scene.plan.setup().queue_count() {
        put_number(
            out,
            b"<text x=\"714\" y=\"74\">left out too: runqueue ",
            u64::from(scene.queues),
        )?;
        out.extend_from_slice(b" and all after it</text>\n")?;
    }
    Ok(())
}
