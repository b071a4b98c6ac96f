//! The picture of what the jobs of tasks need.

ghost use Rattle.std.specs.Prelude.{◌≤◌, ◌+◌};

use crate::sections::JobSpan;
use crate::sizing::Needed;
use size_admission::{Need, Panel, PanelRuntimes, sizing_picture};
use size_jobs::JobTask;
use size_least::{Job, heights_of, lates_of, least_runtime};
use std::alloc::{AllocError, Global};

/// What is drawn of a task.
#[derive(Drop)]
pub(crate) struct Drawn {
    comm: Vec<u8>,
    period: u32,
    within: u32,
    top: u32,

    /// None where no runtime is enough.
    runtimes: Option<PanelRuntimes>,

    /// What each job needs, in the order of the record.
    needs: Vec<Need>,

    /// The same, the greatest first, as many as the curve shows.
    sorted: Vec<Need>,
    most: u64,
}

/// The greatest need of a job; one more than the period where no runtime is enough for one.
fn greatest_need(alloc: Global, jobs: &[Job], period: u32) -> Result<u32, AllocError>
    requires { 1 ≤ period }
{
    let least = least_runtime(alloc, jobs, period, 0)?;
    Ok(least.unwrap_or(period.saturating_add(1)))
}

/// 1 for each job that may be late with a runtime; none for any where the period has no room for it.
fn late_with(
    alloc: Global,
    jobs: &[Job],
    runtime: u32,
    period: u32,
) -> Result<Vec<u32>, AllocError> {
    if runtime == 0 || runtime > period {
        return Ok(Vec::new(alloc));
    }
    lates_of(alloc, jobs, runtime, period)
}

/// What each job needs; moments are microseconds since the record began.
fn needs_of(
    alloc: Global,
    task: &JobTask,
    first: u64,
    heights: &[u32],
    least: &[u32],
    less: &[u32],
) -> Result<Vec<Need>, AllocError> {
    let mut needs = Vec::new(alloc);
    for (i, seen) in task.jobs.iter().enumerate() {
        let dark = least.get(i).copied().unwrap_or(0);
        let late = less.get(i).copied().unwrap_or(0);
        needs.push(Need {
            at: seen.release.saturating_sub(first),
            height: heights.get(i).copied().unwrap_or(0),
            shade: dark.saturating_add(late),
        })?;
    }
    Ok(needs)
}

/// The greatest needs, one for each count of late jobs below `most`.
fn sorted_of(alloc: Global, needs: &[Need], most: u64) -> Result<Vec<Need>, AllocError> {
    let mut all = Vec::from_slice(alloc, needs)?;
    all.sort_by_key(|need: &Need| u32::MAX - need.height)?;
    let mut sorted = Vec::new(alloc);
    for (i, need) in all.iter().enumerate() {
        if (i as u64) < most {
            sorted.push(Need {
                at: i as u64,
                height: need.height,
                shade: need.shade,
            })?;
        }
    }
    Ok(sorted)
}

/// The runtimes at which lines are drawn.
fn runtimes_of(needed: &Needed) -> PanelRuntimes {
    PanelRuntimes {
        proposed: needed.proposed,
        least: needed.least,
        less: needed.less,
    }
}

/// The runtime at the top of the scale.
fn top_of(greatest: u32, runtimes: Option<PanelRuntimes>, period: u32) -> u32
    ensures some { 1 ≤ result }
    ensures most { result ≤ period + 1 }
{
    let proposed = match runtimes {
        Some(runtimes) => runtimes.proposed,
        None => 0,
    };
    greatest.max(proposed).min(period.saturating_add(1)).max(1)
}

/// With which two runtimes a job that may be late is shaded: the least, and 15 percent less; the whole period where none is enough.
fn shading_of(runtimes: Option<PanelRuntimes>, period: u32) -> (u32, u32) {
    match runtimes {
        Some(runtimes) => (runtimes.least, runtimes.less),
        None => (period, period),
    }
}

/// The scale of a panel, whose top is at most one more than the period, and with which two runtimes a job that may be late is shaded.
#[derive(Clone, Copy)]
struct Scale {
    period: u32,
    top: u32,
    shading: (u32, u32),
}

/// What each job needs on a scale, and its shade.
fn shaded_needs(
    alloc: Global,
    task: &JobTask,
    first: u64,
    jobs: &[Job],
    scale: Scale,
) -> Result<Vec<Need>, AllocError>
    requires some { 1 ≤ scale.top }
    requires most { scale.top ≤ scale.period + 1 }
{
    let period = scale.period;
    let heights = heights_of(alloc, jobs, period, scale.top)?;
    let dark = late_with(alloc, jobs, scale.shading.0, period)?;
    let late = late_with(alloc, jobs, scale.shading.1, period)?;
    needs_of(alloc, task, first, &heights, &dark, &late)
}

/// What is drawn of a task whose jobs are to be done within a time; `needed` is none where no runtime is enough.
pub(crate) fn drawn_of(
    alloc: Global,
    task: &JobTask,
    span: JobSpan,
    jobs: &[Job],
    period: u32,
    needed: &Option<Needed>,
) -> Result<Drawn, AllocError>
    requires { 1 ≤ period }
{
    let runtimes = match needed {
        Some(needed) => Some(runtimes_of(needed)),
        None => None,
    };
    let top = top_of(greatest_need(alloc, jobs, period)?, runtimes, period);
    let scale = Scale {
        period,
        top,
        shading: shading_of(runtimes, period),
    };
    let needs = shaded_needs(alloc, task, span.first, jobs, scale)?;
    let most = (needs.len() as u64 / 10).max(10);
    let sorted = sorted_of(alloc, &needs, most)?;
    Ok(Drawn {
        comm: Vec::from_slice(alloc, &task.comm)?,
        period,
        within: span.within,
        top,
        runtimes,
        needs,
        sorted,
        most,
    })
}

/// The picture of all that is drawn of a record of so many microseconds.
pub(crate) fn picture_of(alloc: Global, all: &[Drawn], span: u64) -> Result<Vec<u8>, AllocError> {
    let mut panels = Vec::new(alloc);
    for one in all {
        panels.push(Panel {
            comm: one.comm.as_slice(),
            period: one.period,
            within: one.within,
            top: one.top,
            runtimes: one.runtimes,
            span,
            needs: one.needs.as_slice(),
            sorted: one.sorted.as_slice(),
            most: one.most,
        })?;
    }
    sizing_picture(alloc, &panels)
}
