//! A document: an array of events.

use crate::event::{
    budget_event, deviation_event, extra_event, micros, running_event, runqueue_event, slice_event,
    task_event, tasks_event, this_event, timer_event,
};
use crate::{RecordScene, Slice, SumsSlice, TaskName, is_within, marked_at};
use serde_json::Value;
use std::alloc::{AllocError, Global};

/// What is known of a task that no list names.
const NOBODY: u64 = 0;

fn pid_of(tasks: &[TaskName], task: u32) -> u64 {
    match tasks.get(task as usize) {
        Some(name) => name.pid,
        None => NOBODY,
    }
}

/// Appends an event behind those that are there.
fn put(alloc: Global, out: &mut Vec<u8>, event: &Value) -> Result<(), AllocError> {
    let text = event.to_string(alloc)?;
    out.extend_from_slice(b",\n")?;
    out.extend_from_slice(text.as_bytes())?;
    Ok(())
}

fn put_names(alloc: Global, out: &mut Vec<u8>, scene: RecordScene<'_>) -> Result<(), AllocError> {
    for task in scene.tasks {
        put(
            alloc,
            out,
            &task_event(alloc, task.pid, task.comm.as_str())?,
        )?;
    }
    for cpu in 0..scene.history.cpus() {
        put(alloc, out, &runqueue_event(alloc, cpu)?)?;
    }
    Ok(())
}

fn put_state(alloc: Global, out: &mut Vec<u8>, slice: Slice, pid: u64) -> Result<(), AllocError> {
    let ts = micros(slice.span.from);
    let dur = micros(slice.span.to.saturating_sub(slice.span.from));
    put(alloc, out, &slice_event(alloc, slice, pid, ts, dur)?)
}

fn put_states(alloc: Global, out: &mut Vec<u8>, scene: RecordScene<'_>) -> Result<(), AllocError> {
    for slice in &scene.history.states {
        put_state(alloc, out, *slice, pid_of(scene.tasks, slice.task))?;
    }
    Ok(())
}

fn put_reading(alloc: Global, out: &mut Vec<u8>, slice: SumsSlice) -> Result<(), AllocError> {
    let ts = micros(slice.span.from);
    put(alloc, out, &this_event(alloc, slice, ts)?)?;
    put(alloc, out, &running_event(alloc, slice, ts)?)?;
    put(alloc, out, &extra_event(alloc, slice, ts)?)
}

fn put_sums(alloc: Global, out: &mut Vec<u8>, scene: RecordScene<'_>) -> Result<(), AllocError> {
    for slice in &scene.history.sums {
        put_reading(alloc, out, *slice)?;
    }
    Ok(())
}

/// The name of the counter of a task's budget.
fn budget_name(alloc: Global, tasks: &[TaskName], task: u32) -> Result<String, AllocError> {
    match tasks.get(task as usize) {
        Some(task) => format!(in alloc; "budget of {} ({})", task.comm, task.pid),
        None => format!(in alloc; "budget of {task}"),
    }
}

fn put_budgets(alloc: Global, out: &mut Vec<u8>, scene: RecordScene<'_>) -> Result<(), AllocError> {
    for slice in &scene.history.budgets {
        let name = budget_name(alloc, scene.tasks, slice.task)?;
        let event = budget_event(alloc, *slice, name.as_str(), micros(slice.span.from))?;
        put(alloc, out, &event)?;
    }
    Ok(())
}

fn put_timers(alloc: Global, out: &mut Vec<u8>, scene: RecordScene<'_>) -> Result<(), AllocError> {
    for observation in scene.observations {
        if is_within(scene.span, observation.at) {
            let pid = pid_of(scene.tasks, observation.task);
            let ts = micros(marked_at(observation));
            put(alloc, out, &timer_event(alloc, *observation, pid, ts)?)?;
        }
    }
    Ok(())
}

fn put_first(alloc: Global, out: &mut Vec<u8>, scene: RecordScene<'_>) -> Result<(), AllocError> {
    match scene.deviation() {
        Some(observation) => {
            let pid = pid_of(scene.tasks, observation.task);
            let ts = micros(observation.at);
            put(alloc, out, &deviation_event(alloc, *observation, pid, ts)?)
        }
        None => Ok(()),
    }
}

/// Appends the document of a record's states: names, states, sums, budgets, timers, and the first deviation.
pub fn put_document(
    alloc: Global,
    out: &mut Vec<u8>,
    scene: RecordScene<'_>,
) -> Result<(), AllocError> {
    out.extend_from_slice(b"[\n")?;
    out.extend_from_slice(tasks_event(alloc)?.to_string(alloc)?.as_bytes())?;
    put_names(alloc, out, scene)?;
    put_states(alloc, out, scene)?;
    put_sums(alloc, out, scene)?;
    put_budgets(alloc, out, scene)?;
    put_timers(alloc, out, scene)?;
    put_first(alloc, out, scene)?;
    out.extend_from_slice(b"\n]\n")?;
    Ok(())
}
