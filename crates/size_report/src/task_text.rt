//! The text of one task.

ghost use Rattle.std.specs.Prelude.{◌≡◌, ◌++◌, OnOk};
ghost use Rattle.size_report.specs.Answers.{command_text};

use crate::figures::{Figures, at, share};
use crate::sizing::{Needed, SizeRequest};
use size_admission::table::{
    TableRow, heading, hundredths_cell, number_cell, put_hundredths, put_table, put_text, text_cell,
};
use size_admission::{bandwidth, hundredths};
use size_jobs::{JobTask, Phase, Seen};
use size_least::{Job, Late};
use std::alloc::{AllocError, Global};
use text_bytes::put_number;

fn put_left_out(
    out: &mut Vec<u8>,
    count: u64,
    what: &str,
    has_some: &mut bool,
) -> Result<(), AllocError> {
    if count == 0 {
        return Ok(());
    }
    put_text(out, if *has_some { ", " } else { "; left out " })?;
    put_number(out, b"", count)?;
    put_text(out, what)?;
    *has_some = true;
    Ok(())
}

/// The head line: how many jobs there are, in how many microseconds, and which were left out.
pub(crate) fn put_head(
    out: &mut Vec<u8>,
    task: &JobTask,
    pid: u64,
    micros: u64,
) -> Result<(), AllocError> {
    put_text(out, "task ")?;
    out.extend_from_slice(&task.comm)?;
    put_number(out, b" pid=", pid)?;
    put_number(out, b": ", task.jobs.len() as u64)?;
    put_text(
        out,
        if task.jobs.len() == 1 {
            " job in "
        } else {
            " jobs in "
        },
    )?;
    let tenths = micros.saturating_add(50000) / 100000;
    put_number(out, b"", tenths / 10)?;
    put_number(out, b".", tenths % 10)?;
    put_text(out, " s")?;
    let open = if matches!(task.phase, Phase::Busy { .. }) {
        1
    } else {
        0
    };
    let mut has_some = false;
    put_left_out(out, task.begun, " as its thread began", &mut has_some)?;
    put_left_out(out, task.ended, " at its end", &mut has_some)?;
    put_left_out(out, open, " without an end", &mut has_some)?;
    put_left_out(
        out,
        task.without_wake,
        " without a beginning",
        &mut has_some,
    )?;
    put_text(out, "\n")
}

fn row_of(alloc: Global, name: &str, sorted: &[u64]) -> Result<TableRow, AllocError> {
    let mut row = Vec::new(alloc);
    row.push(text_cell(alloc, name)?)?;
    if !sorted.is_empty() {
        for percent in [0usize, 50, 90, 99, 100] {
            row.push(number_cell(alloc, at(sorted, percent))?)?;
        }
    }
    Ok(row)
}

/// The distribution of the jobs.
pub(crate) fn put_figures(out: &mut Vec<u8>, figures: &Figures) -> Result<(), AllocError> {
    let alloc = *out.allocator();
    let mut rows = Vec::new(alloc);
    rows.push(heading(alloc, &["", "least", "50 %", "90 %", "99 %", "most"])?)?;
    rows.push(row_of(alloc, "woke every", &figures.between)?)?;
    rows.push(row_of(alloc, "ran", &figures.ran)?)?;
    rows.push(row_of(alloc, "done after", &figures.done)?)?;
    put_table(out, &rows, &[0], 2)
}

/// What is asked of the jobs, and how many took longer than that in the record.
pub(crate) fn put_question(
    out: &mut Vec<u8>,
    figures: &Figures,
    within: u32,
    period: u32,
) -> Result<(), AllocError> {
    put_number(out, b"  each job is to be done within ", u64::from(within))?;
    put_number(
        out,
        b" us of its wake, with a period of ",
        u64::from(period),
    )?;
    put_text(out, "\n")?;
    let over = figures
        .done
        .iter()
        .filter(|n| **n > u64::from(within))
        .count();
    if over > 0 {
        put_number(out, b"  in the record ", over as u64)?;
        put_text(
            out,
            " took longer: wakes that came meanwhile are hidden, so what such a job ran may be that of several;\n  record again with real-time priority, as by chrt -f 50 PROGRAM\n",
        )?;
    }
    Ok(())
}

/// That no runtime is enough, by the first job that is late with the whole period.
pub(crate) fn put_none(
    out: &mut Vec<u8>,
    seen: &[Seen],
    late: Option<Late>,
) -> Result<(), AllocError> {
    put_text(out, "  no runtime is enough")?;
    if let Some(late) = late {
        if let Some(job) = seen.get(late.job) {
            put_number(out, b": job ", (late.job as u64).saturating_add(1))?;
            put_number(out, b", line ", job.line)?;
            put_number(out, b", ran ", job.work)?;
        }
    }
    put_text(out, "\n")
}

/// How many jobs may be late with the whole period, and what helps.
pub(crate) fn put_late_count(
    out: &mut Vec<u8>,
    late: usize,
    count: usize,
) -> Result<(), AllocError> {
    put_number(out, b"  with the whole period ", late as u64)?;
    put_number(out, b" of ", count as u64)?;
    put_number(out, b" jobs may be late: --late ", late as u64)?;
    put_text(out, " allows that, --within gives more time\n")
}

fn put_witness(
    out: &mut Vec<u8>,
    least: u32,
    seen: &[Seen],
    jobs: &[Job],
    late: Late,
) -> Result<(), AllocError> {
    let (Some(one), Some(job)) = (seen.get(late.job), jobs.get(late.job)) else {
        return Ok(());
    };
    put_number(out, b": with ", u64::from(least.saturating_sub(1)))?;
    put_number(out, b" job ", (late.job as u64).saturating_add(1))?;
    put_number(out, b", line ", one.line)?;
    put_number(out, b", may be ", late.finish.saturating_sub(job.due))?;
    put_text(out, " us late")?;
    if late.from != late.job {
        put_number(
            out,
            b", by the work from job ",
            (late.from as u64).saturating_add(1),
        )?;
        put_text(out, " on")?;
    }
    Ok(())
}

/// Puts a reason, behind those before it.
fn put_reason(out: &mut Vec<u8>, text: &str) -> Result<(), AllocError> {
    if !out.is_empty() {
        put_text(out, ", ")?;
    }
    put_text(out, text)
}

fn put_proposed(
    out: &mut Vec<u8>,
    wanted: SizeRequest,
    needed: &Needed,
    runtime: u32,
) -> Result<(), AllocError> {
    if runtime != needed.proposed {
        return Ok(());
    }
    put_reason(out, "proposed")?;
    if wanted.margin > 0 {
        put_number(out, b": ", u64::from(wanted.margin))?;
        put_text(out, " % more")?;
    }
    Ok(())
}

fn put_percents(
    out: &mut Vec<u8>,
    percents: &[(u32, u32)],
    runtime: u32,
) -> Result<(), AllocError> {
    for (percent, least) in percents {
        if *least == runtime {
            put_reason(out, "at most ")?;
            put_number(out, b"", u64::from(*percent))?;
            put_text(out, " %")?;
        }
    }
    Ok(())
}

fn put_least(
    out: &mut Vec<u8>,
    needed: &Needed,
    seen: &[Seen],
    jobs: &[Job],
    runtime: u32,
) -> Result<(), AllocError> {
    if runtime != needed.least {
        return Ok(());
    }
    put_reason(out, "the least")?;
    if let Some(late) = needed.witness {
        put_witness(out, needed.least, seen, jobs, late)?;
    }
    Ok(())
}

/// Why a runtime stands in the table.
fn why_text(
    alloc: Global,
    runtime: u32,
    wanted: SizeRequest,
    needed: &Needed,
    seen: &[Seen],
    jobs: &[Job],
) -> Result<Vec<u8>, AllocError> {
    let mut out = Vec::new(alloc);
    if wanted.given == Some(runtime) {
        put_reason(&mut out, "given")?;
    }
    put_proposed(&mut out, wanted, needed, runtime)?;
    if runtime == needed.less {
        put_reason(&mut out, "15 % less")?;
    }
    put_percents(&mut out, &needed.percents, runtime)?;
    put_least(&mut out, needed, seen, jobs, runtime)?;
    Ok(out)
}

/// The table of runtimes.
pub(crate) fn put_choices(
    out: &mut Vec<u8>,
    needed: &Needed,
    seen: &[Seen],
    jobs: &[Job],
    wanted: SizeRequest,
) -> Result<(), AllocError> {
    let alloc = *out.allocator();
    let mut rows = Vec::new(alloc);
    rows.push(heading(alloc, &["runtime", "%", "late", "% late", ""])?)?;
    for choice in &needed.choices {
        let bandwidth = bandwidth(choice.runtime, wanted.period);
        let mut row = Vec::new(alloc);
        row.push(number_cell(alloc, u64::from(choice.runtime))?)?;
        row.push(hundredths_cell(alloc, hundredths(bandwidth))?)?;
        row.push(number_cell(alloc, choice.late as u64)?)?;
        row.push(hundredths_cell(alloc, share(choice.late as u64, jobs.len() as u64))?)?;
        row.push(why_text(alloc, choice.runtime, wanted, needed, seen, jobs)?)?;
        rows.push(row)?;
    }
    put_table(out, &rows, &[4], 2)
}

/// The price of other periods.
pub(crate) fn put_others(
    out: &mut Vec<u8>,
    others: &[(u32, Option<u32>)],
) -> Result<(), AllocError> {
    let mut is_first = true;
    for (period, least) in others {
        put_text(out, if is_first { "  other periods: " } else { ", " })?;
        put_number(out, b"", u64::from(*period))?;
        match least {
            Some(runtime) => {
                put_text(out, " ")?;
                put_hundredths(out, hundredths(bandwidth(*runtime, *period)))?;
                put_text(out, " %")?;
            }
            None => put_text(out, " -")?,
        }
        is_first = false;
    }
    if !is_first {
        put_text(out, "\n")?;
    }
    Ok(())
}

/// What the record cannot know, and the command that makes the reservation.
pub(crate) fn put_chance(out: &mut Vec<u8>, count: usize) -> Result<(), AllocError> {
    put_number(out, b"  ", count as u64)?;
    put_text(
        out,
        " jobs were seen; if they are alike, the next one runs longer than all of them with a chance of 1 in ",
    )?;
    put_number(out, b"", (count as u64).saturating_add(1))?;
    put_text(out, "\n")
}

pub(crate) fn put_command(
    out: &mut Vec<u8>,
    runtime: u32,
    period: u32,
    pid: u64,
) -> Result<(), AllocError>
    ensures { OnOk result (out.new.items ≡ out.old.items ++ command_text runtime period pid) }
{
    put_number(out, b"  chrt -d -T ", u64::from(runtime) * 1000)?;
    put_number(out, b" -D ", u64::from(period) * 1000)?;
    put_number(out, b" -P ", u64::from(period) * 1000)?;
    put_number(out, b" -p 0 ", pid)?;
    put_text(out, "\n")
}

/// How regular the wakes are, where no period was given and none is seen.
pub(crate) fn put_not_regular(out: &mut Vec<u8>) -> Result<(), AllocError> {
    put_text(
        out,
        "  its wakes are not regular: say in how many microseconds a job is to be done, as --task NAME=PERIOD; the price of each:\n",
    )
}

/// That no line told how long a task ran, so that nothing is known of its work.
pub(crate) fn put_no_runs(out: &mut Vec<u8>) -> Result<(), AllocError> {
    put_text(
        out,
        "  no line of sched_stat_runtime tells how long it ran, so each job counts as 1 us: record that event too, as scripts/record.sh --all does\n",
    )
}
