//! The states of a record, as a document of JSON and as a picture.

use crate::check::CheckRequest;
use state_history::{RecordScene, Span, TaskName, put_document, states_of};
use state_picture::picture_of;
use std::alloc::{AllocError, Global};
use timer_play::{RecordSetup, RecordStart};
use timer_record::KeptLines;
use timer_tasks::Observation;
use timer_verdict::Judged;
use trace_options::{Fault, Window};

/// The documents that are wanted.
#[derive(Drop)]
pub(crate) struct Documents {
    pub json: Vec<u8>,
    pub picture: Vec<u8>,
}

/// What a record's lines show; no documents where the window is no part of it.
#[derive(Drop)]
pub(crate) struct ShownStates {
    pub documents: Option<Documents>,
}

/// Nothing is wanted.
pub(crate) fn nothing_shown(alloc: Global) -> Documents {
    Documents {
        json: Vec::new(alloc),
        picture: Vec::new(alloc),
    }
}

/// The window, of a record from its first line to its last; none where it lies outside.
pub(crate) fn span_of(window: Window, begins: u64, ends: u64) -> Option<Span> {
    let from = window.from.unwrap_or(begins);
    let to = window.to.unwrap_or(ends);
    if from < to && from < ends {
        Some(Span { from, to })
    } else {
        None
    }
}

fn task_names(
    alloc: Global,
    lines: &KeptLines,
    names: &[Vec<u8>],
) -> Result<Vec<TaskName>, AllocError> {
    let mut tasks = Vec::new(alloc);
    for (place, task) in lines.tasks.iter().enumerate() {
        let comm = match names.get(place) {
            Some(name) => String::from_utf8_lossy(alloc, name.as_slice())?,
            None => String::new(alloc),
        };
        tasks.push(TaskName {
            pid: task.pid,
            comm,
        })?;
    }
    Ok(tasks)
}

/// `max_bw` of so many runqueues.
fn limits_of(alloc: Global, setup: &RecordSetup, cpus: u32) -> Result<Vec<u64>, AllocError> {
    let mut limits = Vec::new(alloc);
    for cpu in 0..cpus {
        limits.push(setup.limits(cpu).max_bw)?;
    }
    Ok(limits)
}

/// A record that was played by its timers.
#[derive(Clone, Copy)]
pub(crate) struct TimerPlay<'a> {
    pub setup: RecordSetup,
    pub start: &'a RecordStart,
    pub lines: &'a KeptLines,

    /// The name of each task of the lines.
    pub names: &'a [Vec<u8>],
    pub judged: &'a Judged,
}

/// The documents of a record that was played, with the first timer that differs; none where the span is no part of it.
pub(crate) fn shown_of(
    alloc: Global,
    wanted: CheckRequest<'_>,
    play: TimerPlay<'_>,
    first: Option<&Observation>,
) -> Result<Option<Documents>, AllocError> {
    if !wanted.shows() {
        return Ok(Some(nothing_shown(alloc)));
    }
    let begins = play.lines.begins.unwrap_or(0);
    let Some(span) = span_of(wanted.window, begins, play.lines.ends) else {
        return Ok(None);
    };
    let history = states_of(alloc, play.setup, play.start, play.lines, span)?;
    let limits = limits_of(alloc, &play.setup, history.cpus())?;
    let tasks = task_names(alloc, play.lines, play.names)?;
    let scene = RecordScene {
        history: &history,
        tasks: &tasks,
        observations: &play.judged.outcome.observations,
        first,
        span,
        limits: &limits,
    };
    Ok(Some(documents_of(alloc, wanted, scene)?))
}

/// The documents that are asked for of a scene.
pub(crate) fn documents_of(
    alloc: Global,
    wanted: CheckRequest<'_>,
    scene: RecordScene<'_>,
) -> Result<Documents, AllocError> {
    let mut shown = nothing_shown(alloc);
    if wanted.json.is_some() {
        put_document(alloc, &mut shown.json, scene)?;
    }
    if wanted.picture.is_some() {
        shown.picture = picture_of(alloc, scene, wanted.path)?;
    }
    Ok(shown)
}
