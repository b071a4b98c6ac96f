//! From facts to events.

use crate::event::{EventSource, TaskAct, TaskEvent};
use crate::landing::destinations;
use crate::lists::{at, put};
use crate::standing::{Standing, whole_micros};
use convert_facts::{Fact, What};
use std::alloc::{AllocError, Global};
use trace_data::Stop;

/// What a fact tells of its task.
fn event(fact: Fact, runqueue: u32, act: TaskAct, source: EventSource) -> TaskEvent {
    TaskEvent {
        line: fact.line,
        at: fact.at,
        task: fact.task,
        runqueue,
        act,
        source,
    }
}

/// Puts what a run tells: nothing below a microsecond.
fn put_run(
    events: &mut Vec<TaskEvent>,
    fact: Fact,
    runqueue: u32,
    micros: u64,
) -> Result<(), AllocError> {
    if micros != 0 {
        events.push(event(fact, runqueue, TaskAct::Run { micros }, EventSource::Told))?;
    }
    Ok(())
}

/// Puts what the move of a ready task tells: it blocks where it was, and wakes where it is sent to.
fn put_move(events: &mut Vec<TaskEvent>, fact: Fact, from: u32, to: u32) -> Result<(), AllocError> {
    if from != to {
        events.push(event(fact, from, TaskAct::Block, EventSource::Moving))?;
        events.push(event(fact, to, TaskAct::Wake, EventSource::Moving))?;
    }
    Ok(())
}

/// Puts a task that is first seen as it blocks.
fn put_opening(events: &mut Vec<TaskEvent>, fact: Fact, runqueue: u32) -> Result<(), AllocError> {
    events.push(event(fact, runqueue, TaskAct::Join, EventSource::Opening))?;
    events.push(event(fact, runqueue, TaskAct::Block, EventSource::Opening))?;
    Ok(())
}

/// Puts one event.
fn put_one(
    events: &mut Vec<TaskEvent>,
    fact: Fact,
    runqueue: u32,
    act: TaskAct,
    source: EventSource,
) -> Result<(), AllocError> {
    events.push(event(fact, runqueue, act, source))?;
    Ok(())
}

/// Puts what it tells that a task which stands so stops to run on this CPU.
fn put_stop(
    events: &mut Vec<TaskEvent>,
    fact: Fact,
    cpu: u32,
    state: Stop,
    standing: Standing,
) -> Result<(), AllocError> {
    match (state, standing) {
        (Stop::Blocks, Standing::Unseen) => put_opening(events, fact, cpu),
        (Stop::Blocks, Standing::Awake { runqueue, .. }) => {
            put_one(events, fact, runqueue, TaskAct::Block, EventSource::Told)
        }
        (Stop::Ends, Standing::Awake { runqueue, .. }) => {
            put_one(events, fact, runqueue, TaskAct::Block, EventSource::Ending)
        }
        _ => Ok(()),
    }
}

/// Puts what a fact tells of a task that stands so, and that is sent to this CPU before it runs or blocks.
fn put_told(
    events: &mut Vec<TaskEvent>,
    fact: Fact,
    sent: Option<u32>,
    standing: Standing,
) -> Result<(), AllocError> {
    match (fact.what, standing) {
        (What::Wakes { cpu }, Standing::Unseen) => {
            let runqueue = sent.unwrap_or(cpu);
            put_one(events, fact, runqueue, TaskAct::Join, EventSource::Told)
        }
        (What::Wakes { cpu }, Standing::Asleep) => {
            let runqueue = sent.unwrap_or(cpu);
            put_one(events, fact, runqueue, TaskAct::Wake, EventSource::Told)
        }
        (
            What::Sent { cpu },
            Standing::Awake {
                runqueue,
                ran: true,
                ..
            },
        ) => { put_move(events, fact, runqueue, cpu) }
        (What::Ran { nanos }, Standing::Awake { runqueue, rest, .. }) => {
            put_run(events, fact, runqueue, whole_micros(rest, nanos).0)
        }
        (What::Stops { cpu, state }, _) => put_stop(events, fact, cpu, state, standing),
        _ => Ok(()),
    }
}

/// The events that the facts of so many tasks tell, in the order of the facts.
pub(crate) fn events_of(
    alloc: Global,
    tasks: usize,
    facts: &[Fact],
) -> Result<Vec<TaskEvent>, AllocError> {
    let sent = destinations(alloc, tasks, facts)?;
    let mut standings = Vec::from_elem(alloc, Standing::Unseen, tasks)?;
    let mut events = Vec::new(alloc);
    for (i, fact) in facts.iter().enumerate() {
        let standing = at(&standings, fact.task, Standing::Unseen);
        put_told(&mut events, *fact, at(&sent, i, None), standing)?;
        put(&mut standings, fact.task, standing.after(fact.what));
    }
    Ok(events)
}
