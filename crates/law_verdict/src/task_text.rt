//! Figures in words.

use crate::others::CpuLeft;
use crate::task::TaskFigures;
use crate::{TaskName, put_count, put_span, put_task};
use law_findings::Spread;
use std::alloc::{AllocError, Global};
use text_bytes::put_number;

/// SCHED_FLAG_RECLAIM.
const RECLAIM: u64 = 2;

fn put(out: &mut Vec<u8>, text: &str) -> Result<(), AllocError> {
    out.extend_from_slice(text.as_bytes())?;
    Ok(())
}

/// Appends a line for each task, and one for what was left to other classes.
pub fn put_figures(
    alloc: Global,
    out: &mut Vec<u8>,
    tasks: &[TaskFigures],
    left: &[CpuLeft],
    names: &[TaskName],
) -> Result<(), AllocError> {
    for task in tasks {
        put(out, "task ")?;
        put_task(alloc, out, task.pid, names)?;
        put(out, ": ")?;
        put_reservation(alloc, out, task)?;
        put_jobs(alloc, out, task)?;
        put_late(alloc, out, task)?;
        put_reclaimed(alloc, out, task)?;
        put(out, "\n")?;
    }
    put_left(alloc, out, left)
}

fn put_reservation(alloc: Global, out: &mut Vec<u8>, task: &TaskFigures) -> Result<(), AllocError> {
    put_span(alloc, out, task.parameters.dl_runtime)?;
    put(out, " in ")?;
    put_span(alloc, out, task.parameters.dl_period)?;
    if task.parameters.dl_deadline != task.parameters.dl_period {
        put(out, ", deadline ")?;
        put_span(alloc, out, task.parameters.dl_deadline)?;
    }
    Ok(())
}

fn put_jobs(alloc: Global, out: &mut Vec<u8>, task: &TaskFigures) -> Result<(), AllocError> {
    put(out, "; ")?;
    put_count(alloc, out, task.jobs)?;
    put(out, " jobs, throttled ")?;
    put_count(alloc, out, task.throttled)?;
    put(out, " times")
}

fn put_late(alloc: Global, out: &mut Vec<u8>, task: &TaskFigures) -> Result<(), AllocError> {
    put(out, "; ")?;
    match task.late {
        None => put(out, "no budget was had after its deadline"),
        Some(late) => {
            put_count(alloc, out, late.count)?;
            put(out, " of ")?;
            put_count(alloc, out, task.charges)?;
            put(out, " charges after the deadline, by ")?;
            put_spread(alloc, out, late)
        }
    }
}

fn put_spread(alloc: Global, out: &mut Vec<u8>, spread: Spread) -> Result<(), AllocError> {
    put_span(alloc, out, spread.median)?;
    put(out, " (median), ")?;
    put_span(alloc, out, spread.most)?;
    put(out, " (most)")
}

fn put_reclaimed(alloc: Global, out: &mut Vec<u8>, task: &TaskFigures) -> Result<(), AllocError> {
    if task.parameters.flags & RECLAIM == 0 {
        return put(out, "; does not reclaim");
    }
    put(out, "; reclaimed ")?;
    put_span(alloc, out, task.reclaimed)?;
    put(out, " of ")?;
    put_span(alloc, out, task.ran)
}

/// The CPU of which the least was left.
fn least_of(left: &[CpuLeft]) -> Option<CpuLeft> {
    let mut least: Option<CpuLeft> = None;
    for cpu in left {
        match least {
            Some(before) if before.nanos <= cpu.nanos => {}
            _ => least = Some(*cpu),
        }
    }
    least
}

/// Appends the CPU of which the least was left.
fn put_left(alloc: Global, out: &mut Vec<u8>, left: &[CpuLeft]) -> Result<(), AllocError> {
    let Some(least) = least_of(left) else {
        return Ok(());
    };
    put(out, "other classes were left ")?;
    put_span(alloc, out, least.nanos)?;
    put_number(
        out,
        b" of each second at least, on CPU ",
        u64::from(least.cpu),
    )?;
    put(out, "\n")
}

/// Appends whether each budget was had by its deadline, or how late it was at most, and of which task.
pub fn put_supply(
    alloc: Global,
    out: &mut Vec<u8>,
    tasks: &[TaskFigures],
    names: &[TaskName],
) -> Result<(), AllocError> {
    if !tasks.iter().any(|task| task.charges > 0) {
        return Ok(());
    }
    match latest_of(tasks) {
        None => put(out, "supply: each budget was had by its deadline\n"),
        Some(latest) => {
            put(out, "supply: budgets were had up to ")?;
            put_span(alloc, out, latest.nanos)?;
            put(out, " after their deadlines, of ")?;
            put_task(alloc, out, latest.pid, names)?;
            put(out, "\n")
        }
    }
}

/// The budget that was the latest after its deadline: of which task, and by how much.
#[derive(Clone, Copy)]
struct Latest {
    pid: u64,
    nanos: u64,
}

fn latest_of(tasks: &[TaskFigures]) -> Option<Latest> {
    let mut latest: Option<Latest> = None;
    for task in tasks {
        if let Some(late) = task.late {
            match latest {
                Some(before) if before.nanos >= late.most => {}
                _ => {
                    latest = Some(Latest {
                        pid: task.pid,
                        nanos: late.most,
                    });
                }
            }
        }
    }
    latest
}
