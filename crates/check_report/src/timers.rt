//! What a check by timers has found.

use crate::probes::marks_of;
use crate::record::{cpus_of, kernel_of, release_of, task_of};
use crate::report::CheckReport;
use crate::words::number_or_null;
use probe_verdict::MarkCount;
use serde_json::{Value, json};
use std::alloc::{AllocError, Global};
use timer_record::KeptLines;
use timer_tasks::{Observation, TimerKind};
use timer_verdict::{Judged, KindNumbers, TimerHeading, numbers_of};

/// What lines of timers came to; names are those of the tasks, by their numbers.
#[derive(Clone, Copy)]
pub struct TimerAnswers<'a> {
    pub heading: TimerHeading<'a>,
    pub lines: &'a KeptLines,
    pub names: &'a [Vec<u8>],
    pub judged: &'a Judged,
    pub marks: &'a [MarkCount],

    /// The line from which on `extra_bw` is not known.
    pub open_from: Option<u64>,
}

/// Adds the record, its marks, and what of it was compared.
pub fn add_timers(
    alloc: Global,
    report: &mut CheckReport,
    found: TimerAnswers<'_>,
) -> Result<(), AllocError> {
    let record = record_of(alloc, found)?;
    report.add(alloc, "record", record)?;
    let marks = marks_of(alloc, found.marks)?;
    report.add(alloc, "marks", marks)?;
    let rules = rules_of(alloc, found)?;
    report.add(alloc, "rules", rules)
}

fn record_of(alloc: Global, found: TimerAnswers<'_>) -> Result<Value, AllocError> {
    let heading = found.heading;
    let kernel = kernel_of(alloc, heading.kernel)?;
    let release = release_of(alloc, heading.release)?;
    let cpus = cpus_of(alloc, heading.domain)?;
    let tasks = tasks_of(alloc, found)?;
    let lines = found.lines;
    json!(in alloc; {
        "kernel": kernel,
        "release": release,
        "processors": cpus,
        "tasks": tasks,
        "lines": lines.count,
        "from_ns": lines.begins.unwrap_or(0),
        "to_ns": lines.ends
    })
}

fn tasks_of(alloc: Global, found: TimerAnswers<'_>) -> Result<Value, AllocError> {
    let mut values = Vec::new(alloc);
    for (place, task) in found.lines.tasks.iter().enumerate() {
        let comm = match found.names.get(place) {
            Some(name) => name.as_slice(),
            None => b"".as_slice(),
        };
        values.push(task_of(alloc, task.pid, comm)?)?;
    }
    Ok(Value::Array(values))
}

fn rules_of(alloc: Global, found: TimerAnswers<'_>) -> Result<Value, AllocError> {
    let observations: &[Observation] = &found.judged.outcome.observations;
    let blocks = numbers_of(alloc, observations, TimerKind::Block)?;
    let starts = numbers_of(alloc, observations, TimerKind::Replenish)?;
    let first = match found.judged.first.and_then(|place| observations.get(place)) {
        Some(first) => first_of(alloc, first, found)?,
        None => Value::Null,
    };
    let zero_lag = kind_of(alloc, blocks)?;
    let replenishment = kind_of(alloc, starts)?;
    json!(in alloc; {
        "by": "timers",
        "equal": blocks.agree.saturating_add(starts.agree),
        "differ": blocks.differ.saturating_add(starts.differ),
        "speed_unknown": found.judged.speed_unknown,
        "extra_bw_unknown_from": number_or_null(found.open_from),
        "zero_lag_timers": zero_lag,
        "replenishment_timers": replenishment,
        "first": first
    })
}

/// How many timers of a kind there are, what they come to, and their differences in nanoseconds.
fn kind_of(alloc: Global, numbers: KindNumbers) -> Result<Value, AllocError> {
    json!(in alloc; {
        "all": numbers.all,
        "equal": numbers.agree,
        "differ": numbers.differ,
        "ends": numbers.ends,
        "unknown": numbers.unknown,
        "edges": numbers.edges,
        "gaps": numbers.gaps,
        "least_ns": numbers.least,
        "median_ns": numbers.median,
        "most_of_99_percent_ns": numbers.high,
        "greatest_ns": numbers.greatest
    })
}

fn timer_word(kind: TimerKind) -> &'static str {
    match kind {
        TimerKind::Block => "0-lag timer",
        TimerKind::Replenish => "replenishment timer",
    }
}

/// The first timer that differs.
fn first_of(
    alloc: Global,
    first: &Observation,
    found: TimerAnswers<'_>,
) -> Result<Value, AllocError> {
    let pid = match found.lines.tasks.get(first.task as usize) {
        Some(task) => Some(task.pid),
        None => None,
    };
    json!(in alloc; {
        "line": first.line,
        "at_ns": first.at,
        "cpu": first.cpu,
        "pid": number_or_null(pid),
        "timer": timer_word(first.kind),
        "rules_ns": first.predicted,
        "kernel_ns": number_or_null(first.kernel),
        "difference_ns": first.difference,
        "runtime_ns": first.runtime,
        "deadline_ns": first.deadline
    })
}
