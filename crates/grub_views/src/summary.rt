//! The summary of a time line: a table of its tasks and one of its runqueues.

ghost use Rattle.std.specs.Prelude.{◌≡◌, ◌+◌, ◌<◌, ◌^◌, length};
ghost use Rattle.grub_timeline.specs.TimeLines.{AreWithin, IsTimeLine};
ghost use Rattle.grub_timeline.specs.Fitting.{AreToldIn};

use crate::sums::sums_of;
use crate::table::{Cell, table_of};
use crate::tally::Tally;
use crate::usage::{Meter, Usage};
use grub_book::{BW_UNIT, Params, Queue};
use grub_plan::Plan;
use grub_timeline::{TimeLine, ViewFault};
use std::alloc::{AllocError, Global};

/// How many columns the table of tasks has, and that of runqueues.
const TASK_COLUMNS: usize = 19;

const QUEUE_COLUMNS: usize = 9;

/// The summary of a time line of the plan: a table of the tasks, an empty line, and a table of the runqueues.
/// It is refused with 48 where the allocator refused.
pub fn summary_text(alloc: Global, plan: &Plan, line: &TimeLine) -> Result<Vec<u8>, ViewFault>
    requires line { IsTimeLine plan.now line.now.told.items line.now.closing.items }
    requires within { AreWithin plan.now.setup line.now.told.items }
{
    text_of(alloc, plan, line).map_err(|_| ViewFault::NoMemory)
}

fn text_of(alloc: Global, plan: &Plan, line: &TimeLine) -> Result<Vec<u8>, AllocError>
    requires { AreToldIn plan.now.setup line.now.told.items }
{
    let sums = sums_of(alloc, plan.setup(), &line.told)?;
    let tasks = task_cells(alloc, plan, &sums.tallies)?;
    let queues = queue_cells(alloc, plan, &sums.meters)?;
    let mut out = table_of(alloc, plan, true, TASK_COLUMNS, &tasks)?;
    let below = table_of(alloc, plan, false, QUEUE_COLUMNS, &queues)?;
    out.extend_from_slice(b"\n")?;
    out.extend_from_slice(&below)?;
    Ok(out)
}

/// The names of so many columns.
fn heads_of(alloc: Global, from: u32, count: u32) -> Result<Vec<Cell>, AllocError>
    requires { from + count < 2 ^ 32 }
{
    let mut cells = Vec::new(alloc);
    for k in 0..count {
        cells.push(Cell::Head(from + k))?;
    }
    Ok(cells)
}

/// The names of the columns, and a row for each task.
fn task_cells(alloc: Global, plan: &Plan, tallies: &[Tally]) -> Result<Vec<Cell>, AllocError>
    requires { length tallies.now ≡ length plan.now.setup.tasks }
{
    let setup = plan.setup();
    let mut cells = heads_of(alloc, 0, 19)?;
    for t in 0..setup.task_count() {
        let row = task_row(t, setup.params(t), tallies[t as usize]);
        cells.extend_from_slice(&row)?;
    }
    Ok(cells)
}

fn task_row(t: u32, params: Params, x: Tally) -> [Cell; 19] {
    [
        Cell::Name(t),
        Cell::Number(u128::from(params.runtime())),
        Cell::Number(u128::from(params.period())),
        Cell::Percent(percent_of(u128::from(params.bw()))),
        Cell::Number(x.executed),
        Cell::Number(x.charged),
        Cell::Number(x.executed.saturating_sub(x.charged)),
        Cell::Number(x.recharges),
        Cell::Number(x.joins as u128),
        Cell::Number(x.wakes as u128),
        Cell::Number(x.kept as u128),
        Cell::Number(x.moves as u128),
        Cell::Number(x.waits as u128),
        Cell::Number(x.sleeps as u128),
        Cell::Number(x.retired as u128),
        Cell::Number(u128::from(x.least)),
        Cell::Number(x.late as u128),
        Cell::Number(u128::from(x.worst)),
        Cell::Number(x.refused as u128),
    ]
}

/// The names of the columns, and a row for each runqueue.
fn queue_cells(alloc: Global, plan: &Plan, meters: &[Meter]) -> Result<Vec<Cell>, AllocError>
    requires { length meters.now ≡ length plan.now.setup.queues }
{
    let setup = plan.setup();
    let mut cells = heads_of(alloc, 19, 9)?;
    for r in 0..setup.queue_count() {
        let meter = meters[r as usize];
        let row = queue_row(r, setup.queue(r), meter.from, meter.usage);
        cells.extend_from_slice(&row)?;
    }
    Ok(cells)
}

fn queue_row(r: u32, queue: Queue, span: u32, x: Usage) -> [Cell; 9] {
    [
        Cell::Number(u128::from(r)),
        Cell::Number(u128::from(queue.umax())),
        Cell::Number(u128::from(queue.uextra())),
        Cell::Number(u128::from(span)),
        Cell::Number(x.changes as u128),
        Cell::Percent(percent_of(mean_of(x.running, span))),
        Cell::Percent(percent_of(u128::from(x.most.running))),
        Cell::Percent(percent_of(mean_of(x.this, span))),
        Cell::Percent(percent_of(u128::from(x.most.this))),
    ]
}

/// A bandwidth of 1/2^20 in hundredths of a percent of the processor, rounded down.
fn percent_of(bandwidth: u128) -> u128 {
    // Whole processors first, so that no product is too great.
    let unit = u128::from(BW_UNIT);
    bandwidth / unit * 10000 + bandwidth % unit * 10000 / unit
}

fn mean_of(area: u128, span: u32) -> u128 {
    if span == 0 {
        0
    } else {
        area / u128::from(span)
    }
}
