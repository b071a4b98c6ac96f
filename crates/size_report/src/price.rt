//! What a task whose wakes are not regular costs at several periods.

use crate::figures::{Figures, at, most, rounded};
use crate::sizing::{PERIOD_LEAST, PERIOD_MOST, jobs_of};
use size_admission::table::{
    TableRow, heading, hundredths_cell, number_cell, put_table, text_cell,
};
use size_admission::{bandwidth, hundredths};
use size_jobs::Seen;
use size_least::least_runtime;
use std::alloc::{AllocError, Global};

/// The periods 1, 2 and 5 times powers of ten from one to another.
fn periods(alloc: Global, from: u64, to: u64) -> Result<Vec<u32>, AllocError> {
    let mut periods = Vec::new(alloc);
    let mut unit = 1u32;
    for _ in 0..7 {
        for times in [1u32, 2, 5] {
            let period = unit.saturating_mul(times);
            let is_asked = from <= u64::from(period) && u64::from(period) <= to;
            if is_asked && period >= PERIOD_LEAST && period <= PERIOD_MOST {
                periods.push(period)?;
            }
        }
        unit = unit.saturating_mul(10);
    }
    Ok(periods)
}

fn put_cells(
    row: &mut TableRow,
    alloc: Global,
    least: Option<u32>,
    period: u32,
) -> Result<(), AllocError> {
    match least {
        Some(runtime) => {
            row.push(number_cell(alloc, u64::from(runtime))?)?;
            row.push(hundredths_cell(alloc, hundredths(bandwidth(runtime, period)))?)?;
        }
        None => {
            row.push(text_cell(alloc, "-")?)?;
            row.push(text_cell(alloc, "-")?)?;
        }
    }
    Ok(())
}

fn row_of(
    alloc: Global,
    seen: &[Seen],
    within: Option<u32>,
    period: u32,
) -> Result<TableRow, AllocError> {
    let jobs = jobs_of(alloc, seen, within.unwrap_or(period))?;
    let mut row = Vec::new(alloc);
    row.push(number_cell(alloc, u64::from(period))?)?;
    for allowed in [0, 1, jobs.len() / 100] {
        if period > 0 {
            let least = least_runtime(alloc, &jobs, period, allowed)?;
            put_cells(&mut row, alloc, least, period)?;
        }
    }
    Ok(row)
}

/// Writes the price of several periods.
pub(crate) fn put_prices(
    out: &mut Vec<u8>,
    seen: &[Seen],
    figures: &Figures,
    within: Option<u32>,
) -> Result<(), AllocError> {
    let alloc = *out.allocator();
    let longest = most(&figures.ran);
    let from = rounded((longest / 2).max(100));
    let to = at(&figures.between, 50)
        .saturating_mul(10)
        .max(longest.saturating_mul(4))
        .max(from.saturating_mul(4));
    let mut rows = Vec::new(alloc);
    rows.push(heading(
        alloc,
        &["period", "runtime", "%", "1 late", "%", "1 % late", "%"],
    )?)?;
    for period in periods(alloc, from, to)? {
        rows.push(row_of(alloc, seen, within, period)?)?;
    }
    put_table(out, &rows, &[], 2)
}
