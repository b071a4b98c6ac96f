//! The texts of event files.

use crate::event::{EventSource, TaskAct, TimedEvent};
use crate::names::fair_name;
use crate::setting::{Declared, Setting};
use grub_book::{Params, Queue};
use std::alloc::{AllocError, Global};
use text_bytes::put_number;

/// Whether an event is one of a task that is first seen as it blocks, in the file of this runqueue.
fn opens_in(runqueue: u32, placed: &TimedEvent) -> bool {
    matches!(placed.event.source, EventSource::Opening) && placed.event.runqueue == runqueue
}

/// Whether an event is another one, in the file of this runqueue.
fn happens_in(runqueue: u32, placed: &TimedEvent) -> bool {
    !matches!(placed.event.source, EventSource::Opening) && placed.event.runqueue == runqueue
}

/// The events of the file of a runqueue whose tasks are first seen as they block.
fn openings(
    alloc: Global,
    runqueue: u32,
    placed: &[TimedEvent],
) -> Result<Vec<TimedEvent>, AllocError> {
    placed
        .iter()
        .filter(|p| opens_in(runqueue, p))
        .copied()
        .collect(alloc)
}

/// The other events of the file of a runqueue.
fn happenings(
    alloc: Global,
    runqueue: u32,
    placed: &[TimedEvent],
) -> Result<Vec<TimedEvent>, AllocError> {
    placed
        .iter()
        .filter(|p| happens_in(runqueue, p))
        .copied()
        .collect(alloc)
}

/// The events of the file of a runqueue, in its order: first those of tasks that are first seen as they block.
pub fn file_events(
    alloc: Global,
    runqueue: u32,
    placed: &[TimedEvent],
) -> Result<Vec<TimedEvent>, AllocError> {
    let mut events = openings(alloc, runqueue, placed)?;
    let others = happenings(alloc, runqueue, placed)?;
    events.extend_from_slice(&others)?;
    Ok(events)
}

fn put_head(out: &mut Vec<u8>, queue: Queue) -> Result<(), AllocError> {
    put_number(out, b"grub 1\nqueue ", u64::from(queue.umax()))?;
    put_number(out, b" ", u64::from(queue.uextra()))?;
    out.extend_from_slice(b"\n")?;
    Ok(())
}

fn put_task(out: &mut Vec<u8>, name: &[u8], params: Params) -> Result<(), AllocError> {
    out.extend_from_slice(b"task ")?;
    out.extend_from_slice(name)?;
    put_number(out, b" ", u64::from(params.runtime()))?;
    put_number(out, b" ", u64::from(params.period()))?;
    out.extend_from_slice(b"\n")?;
    Ok(())
}

fn put_named(out: &mut Vec<u8>, verb: &[u8], name: &[u8]) -> Result<(), AllocError> {
    out.extend_from_slice(verb)?;
    out.extend_from_slice(name)?;
    Ok(())
}

fn put_run(out: &mut Vec<u8>, name: &[u8], micros: u64) -> Result<(), AllocError> {
    put_named(out, b" run ", name)?;
    put_number(out, b" ", micros)?;
    Ok(())
}

fn put_act(out: &mut Vec<u8>, name: &[u8], act: TaskAct) -> Result<(), AllocError> {
    match act {
        TaskAct::Join => put_named(out, b" join ", name),
        TaskAct::Wake => put_named(out, b" wake ", name),
        TaskAct::Block => put_named(out, b" block ", name),
        TaskAct::Run { micros } => put_run(out, name, micros),
    }
}

/// Puts the line of an event of a task of this name.
fn put_line(out: &mut Vec<u8>, name: &[u8], moment: u32, act: TaskAct) -> Result<(), AllocError> {
    put_number(out, b"at ", u64::from(moment))?;
    put_act(out, name, act)?;
    out.extend_from_slice(b"\n")?;
    Ok(())
}

/// Puts the declaration of a task where an event is its join.
fn put_joining(
    out: &mut Vec<u8>,
    tasks: &[Declared],
    placed: &TimedEvent,
) -> Result<(), AllocError> {
    match (placed.event.act, tasks.get(placed.event.task)) {
        (TaskAct::Join, Some(task)) => put_task(out, &task.name, task.params),
        _ => Ok(()),
    }
}

/// Puts the line of an event.
fn put_event(out: &mut Vec<u8>, tasks: &[Declared], placed: &TimedEvent) -> Result<(), AllocError> {
    match tasks.get(placed.event.task) {
        Some(task) => put_line(out, &task.name, placed.moment, placed.event.act),
        None => Ok(()),
    }
}

fn put_fair_task(
    alloc: Global,
    out: &mut Vec<u8>,
    runqueue: u32,
    fair: Option<Params>,
) -> Result<(), AllocError> {
    if let Some(params) = fair {
        let name = fair_name(alloc, runqueue)?;
        put_task(out, &name, params)?;
    }
    Ok(())
}

fn put_fair_join(
    alloc: Global,
    out: &mut Vec<u8>,
    runqueue: u32,
    fair: Option<Params>,
) -> Result<(), AllocError> {
    if fair.is_some() {
        let name = fair_name(alloc, runqueue)?;
        put_line(out, &name, 0, TaskAct::Join)?;
    }
    Ok(())
}

fn put_joinings(
    out: &mut Vec<u8>,
    tasks: &[Declared],
    events: &[TimedEvent],
) -> Result<(), AllocError> {
    for placed in events {
        put_joining(out, tasks, placed)?;
    }
    Ok(())
}

fn put_events(
    out: &mut Vec<u8>,
    tasks: &[Declared],
    events: &[TimedEvent],
) -> Result<(), AllocError> {
    for placed in events {
        put_event(out, tasks, placed)?;
    }
    Ok(())
}

/// The text of the event file of a runqueue: its constants, its server of fair tasks, the tasks that join here in the
/// order of their joins, and its events.
pub fn event_file(
    alloc: Global,
    setting: &Setting,
    runqueue: u32,
    placed: &[TimedEvent],
) -> Result<Vec<u8>, AllocError> {
    let events = file_events(alloc, runqueue, placed)?;
    let mut out = Vec::new(alloc);
    put_head(&mut out, setting.queue)?;
    put_fair_task(alloc, &mut out, runqueue, setting.fair)?;
    put_joinings(&mut out, &setting.tasks, &events)?;
    put_fair_join(alloc, &mut out, runqueue, setting.fair)?;
    put_events(&mut out, &setting.tasks, &events)?;
    Ok(out)
}
