//! The events of a document, each an object of JSON.

use crate::member::{add, head, one, text, timed};
use crate::{BudgetSlice, Slice, SumsSlice, TaskState};
use serde_json::{Map, Value};
use std::alloc::{AllocError, Global};
use timer_tasks::{Observation, ObservedAnswer, TimerKind};

/// The process whose threads are the tasks; those of the runqueues come behind it.
const TASKS: u64 = 1;

/// The values of a u32.
const HALF: u64 = 4_294_967_296;

/// Nanoseconds as the format's microseconds: the number nearest to them that a float has, by 1000.
pub fn micros(nanos: u64) -> f64 {
    let high = (nanos / HALF) as u32;
    let low = (nanos % HALF) as u32;
    (f64::from(high) * 4_294_967_296.0 + f64::from(low)) / 1000.0
}

/// The process of a runqueue.
fn process_of(cpu: u32) -> u64 {
    2 + u64::from(cpu)
}

/// The word of a state.
fn state_name(state: TaskState) -> &'static str {
    match state {
        TaskState::Contending => "contending",
        TaskState::Running => "running",
        TaskState::Throttled => "throttled",
        TaskState::NonContending => "non-contending",
        TaskState::Inactive => "inactive",
    }
}

fn answer_name(answer: ObservedAnswer) -> &'static str {
    match answer {
        ObservedAnswer::Agrees => "agrees",
        ObservedAnswer::Differs => "differs",
        ObservedAnswer::End => "end",
        ObservedAnswer::Unknown => "unknown",
        ObservedAnswer::Edge => "edge",
        ObservedAnswer::Gap => "gap",
    }
}

fn timer_name(kind: TimerKind) -> &'static str {
    match kind {
        TimerKind::Block => "0-lag timer",
        TimerKind::Replenish => "replenishment timer",
    }
}

/// A process has a name.
fn process_event(alloc: Global, process: u64, name: &str) -> Result<Value, AllocError> {
    let mut members = head(alloc, "process_name", "M", process)?;
    add(
        alloc,
        &mut members,
        "args",
        one(alloc, "name", text(alloc, name)?)?,
    )?;
    Ok(Value::Object(members))
}

/// The process of the tasks has a name.
pub fn tasks_event(alloc: Global) -> Result<Value, AllocError> {
    process_event(alloc, TASKS, "SCHED_DEADLINE tasks")
}

/// The thread of a task has the task's name.
pub fn task_event(alloc: Global, pid: u64, comm: &str) -> Result<Value, AllocError> {
    let mut members = head(alloc, "thread_name", "M", TASKS)?;
    add(alloc, &mut members, "tid", Value::from(pid))?;
    add(
        alloc,
        &mut members,
        "args",
        one(alloc, "name", text(alloc, comm)?)?,
    )?;
    Ok(Value::Object(members))
}

/// The process of a runqueue has a name.
pub fn runqueue_event(alloc: Global, cpu: u32) -> Result<Value, AllocError> {
    let name = format!(in alloc; "runqueue {cpu}")?;
    process_event(alloc, process_of(cpu), name.as_str())
}

/// A state of the task of this pid, from `ts` on for `dur`.
pub fn slice_event(
    alloc: Global,
    slice: Slice,
    pid: u64,
    ts: f64,
    dur: f64,
) -> Result<Value, AllocError> {
    let mut members = timed(alloc, state_name(slice.state), "X", TASKS, ts)?;
    add(alloc, &mut members, "tid", Value::from(pid))?;
    add(alloc, &mut members, "dur", Value::from(dur))?;
    add(
        alloc,
        &mut members,
        "args",
        one(alloc, "cpu", Value::from(slice.cpu))?,
    )?;
    Ok(Value::Object(members))
}

/// A counter of a process, in a unit.
pub fn counter_event(
    alloc: Global,
    name: &str,
    unit: &str,
    process: u64,
    value: i64,
    ts: f64,
) -> Result<Value, AllocError> {
    let mut members = timed(alloc, name, "C", process, ts)?;
    add(
        alloc,
        &mut members,
        "args",
        one(alloc, unit, Value::from(value))?,
    )?;
    Ok(Value::Object(members))
}

/// `this_bw` of a runqueue.
pub fn this_event(alloc: Global, slice: SumsSlice, ts: f64) -> Result<Value, AllocError> {
    let bw = slice.sums.this_bw.cast_signed();
    counter_event(alloc, "this_bw", "bw", process_of(slice.cpu), bw, ts)
}

/// `running_bw` of a runqueue.
pub fn running_event(alloc: Global, slice: SumsSlice, ts: f64) -> Result<Value, AllocError> {
    let bw = slice.sums.running_bw.cast_signed();
    counter_event(alloc, "running_bw", "bw", process_of(slice.cpu), bw, ts)
}

/// `extra_bw` of a runqueue, which may be below 0.
pub fn extra_event(alloc: Global, slice: SumsSlice, ts: f64) -> Result<Value, AllocError> {
    let bw = slice.sums.extra_bw.cast_signed();
    counter_event(alloc, "extra_bw", "bw", process_of(slice.cpu), bw, ts)
}

/// The budget of a task, in nanoseconds.
pub fn budget_event(
    alloc: Global,
    slice: BudgetSlice,
    name: &str,
    ts: f64,
) -> Result<Value, AllocError> {
    counter_event(alloc, name, "ns", TASKS, slice.runtime, ts)
}

/// An instant of the thread of a pid, of this scope.
fn instant_event(
    alloc: Global,
    name: &str,
    scope: &str,
    pid: u64,
    ts: f64,
    args: Value,
) -> Result<Value, AllocError> {
    let mut members = timed(alloc, name, "i", TASKS, ts)?;
    add(alloc, &mut members, "s", text(alloc, scope)?)?;
    add(alloc, &mut members, "tid", Value::from(pid))?;
    add(alloc, &mut members, "args", args)?;
    Ok(Value::Object(members))
}

/// A timer's line, the moment of that line, and the moment by the rules.
fn moments_of(alloc: Global, observation: Observation) -> Result<Map<String, Value>, AllocError> {
    let mut members = Map::new(alloc);
    add(alloc, &mut members, "line", Value::from(observation.line))?;
    add(alloc, &mut members, "started", Value::from(observation.at))?;
    add(
        alloc,
        &mut members,
        "predicted",
        Value::from(observation.predicted),
    )?;
    Ok(members)
}

fn timer_args(alloc: Global, observation: Observation) -> Result<Value, AllocError> {
    let mut members = moments_of(alloc, observation)?;
    add(
        alloc,
        &mut members,
        "difference",
        Value::from(observation.difference),
    )?;
    add(
        alloc,
        &mut members,
        "deadline",
        Value::from(observation.deadline),
    )?;
    add(
        alloc,
        &mut members,
        "answer",
        text(alloc, answer_name(observation.answer))?,
    )?;
    Ok(Value::Object(members))
}

/// A timer of the task of this pid.
pub fn timer_event(
    alloc: Global,
    observation: Observation,
    pid: u64,
    ts: f64,
) -> Result<Value, AllocError> {
    let args = timer_args(alloc, observation)?;
    instant_event(alloc, timer_name(observation.kind), "t", pid, ts, args)
}

/// The first deviation of a record.
pub fn deviation_event(
    alloc: Global,
    observation: Observation,
    pid: u64,
    ts: f64,
) -> Result<Value, AllocError> {
    let args = one(alloc, "line", Value::from(observation.line))?;
    instant_event(alloc, "first deviation", "g", pid, ts, args)
}
