//! The tasks of a record.

ghost use Rattle.std.specs.Prelude.{◌≡◌, ◌≤◌, count_by};
ghost use Rattle.trace_lines.specs.declared.scheduled.Class.{Class};
ghost use Rattle.size_report.specs.inside.Classes.{runs_in};

use crate::figures::{Figures, at, most, regular_period, share, total};
use size_admission::table::{
    TableRow, heading, hundredths_cell, number_cell, put_table, put_text, text_cell,
};
use size_jobs::{JobRecord, JobTask, Seen};
use std::alloc::{AllocError, Global};
use trace_lines::Class;

pub(crate) fn class_text(class: Class) -> &'static str {
    match class {
        Class::Deadline => "deadline",
        Class::RealTime => "real time",
        Class::Fair => "fair",
    }
}

/// How many of the jobs ran in a class.
fn count_of(jobs: &[Seen], class: Class) -> usize
    ensures { result ≡ count_by (runs_in class) jobs.now }
{
    jobs.iter().filter(|job| job.class == class).count()
}

/// The class in which most of the jobs ran.
fn class_of(jobs: &[Seen]) -> Class
    ensures { (class : Class) → count_by (runs_in class) jobs.now ≤ count_by (runs_in result) jobs.now }
{
    let deadline = count_of(jobs, Class::Deadline);
    let real_time = count_of(jobs, Class::RealTime);
    let fair = count_of(jobs, Class::Fair);
    if deadline >= real_time && deadline >= fair {
        Class::Deadline
    } else if real_time >= fair {
        Class::RealTime
    } else {
        Class::Fair
    }
}

/// A line of the table, and by how much it is before others.
#[derive(Drop)]
struct CensusLine {
    work: u64,
    row: TableRow,
}

/// How long a record is, in microseconds.
pub(crate) fn duration(record: &JobRecord) -> u64 {
    record.last.saturating_sub(record.first) / 1000
}

fn row_of(alloc: Global, pid: u64, task: &JobTask, micros: u64) -> Result<CensusLine, AllocError> {
    let figures = Figures::new(alloc, &task.jobs)?;
    let work = total(&figures.ran);
    let wakes = if regular_period(&figures.between).is_some() {
        "regular"
    } else {
        "not regular"
    };
    let mut row = Vec::new(alloc);
    row.push(Vec::from_slice(alloc, &task.comm)?)?;
    row.push(number_cell(alloc, pid)?)?;
    row.push(text_cell(alloc, class_text(class_of(&task.jobs)))?)?;
    row.push(number_cell(alloc, task.jobs.len() as u64)?)?;
    row.push(hundredths_cell(alloc, share(work, micros))?)?;
    row.push(number_cell(alloc, at(&figures.between, 50))?)?;
    row.push(number_cell(alloc, most(&figures.between))?)?;
    row.push(number_cell(alloc, at(&figures.ran, 50))?)?;
    row.push(number_cell(alloc, at(&figures.ran, 99))?)?;
    row.push(number_cell(alloc, most(&figures.ran))?)?;
    row.push(number_cell(alloc, at(&figures.done, 50))?)?;
    row.push(number_cell(alloc, most(&figures.done))?)?;
    row.push(text_cell(alloc, wakes)?)?;
    Ok(CensusLine { work, row })
}

/// The text that lists the tasks of a record with two jobs or more, by their share of processor time.
pub(crate) fn census_text(alloc: Global, record: &JobRecord) -> Result<Vec<u8>, AllocError> {
    let mut lines = Vec::new(alloc);
    for pid in record.tasks.pids() {
        if let Some(task) = record.tasks.task(*pid) {
            if task.jobs.len() >= 2 {
                lines.push(row_of(alloc, *pid, task, duration(record))?)?;
            }
        }
    }
    lines.sort_by_key(|line: &CensusLine| u64::MAX - line.work)?;
    let mut rows = Vec::new(alloc);
    rows.push(heading(alloc, &HEADING)?)?;
    for line in lines {
        let CensusLine { row, .. } = line;
        rows.push(row)?;
    }
    let mut out = Vec::new(alloc);
    put_table(&mut out, &rows, &[0, 2, 12], 0)?;
    if !record.has_runs {
        put_text(&mut out, NO_RUNS)?;
    }
    Ok(out)
}

const NO_RUNS: &str =
    "no line of sched_stat_runtime tells how long a task ran, so each job counts as 1 us: record that event too, as scripts/record.sh --all does\n";

const HEADING: [&str; 13] = [
    "task",
    "pid",
    "class",
    "jobs",
    "cpu %",
    "woke every",
    "at most",
    "ran",
    "99 %",
    "at most",
    "done after",
    "at most",
    "wakes",
];
