//! What each task had, and what was left of the CPUs.

use crate::laws::{spread_of, task_of};
use crate::report::CheckReport;
use law_verdict::{CpuLeft, TaskFigures, TaskName};
use serde_json::{Value, json};
use std::alloc::{AllocError, Global};

/// Adds what each task had, and what was left of each CPU.
pub fn add_tasks(
    alloc: Global,
    report: &mut CheckReport,
    tasks: &[TaskFigures],
    left: &[CpuLeft],
    names: &[TaskName],
) -> Result<(), AllocError> {
    let mut values = Vec::new(alloc);
    for task in tasks {
        values.push(figures_of(alloc, task, names)?)?;
    }
    report.add(alloc, "tasks", Value::Array(values))?;
    let mut cpus = Vec::new(alloc);
    for cpu in left {
        cpus.push(json!(in alloc; {"cpu": cpu.cpu, "least_of_a_second_ns": cpu.nanos})?)?;
    }
    report.add(alloc, "others", Value::Array(cpus))
}

fn figures_of(alloc: Global, task: &TaskFigures, names: &[TaskName]) -> Result<Value, AllocError> {
    let subject = task_of(alloc, task.pid, names)?;
    let late = spread_of(alloc, task.late)?;
    let parameters = task.parameters;
    json!(in alloc; {
        "task": subject,
        "runtime_ns": parameters.dl_runtime,
        "deadline_ns": parameters.dl_deadline,
        "period_ns": parameters.dl_period,
        "flags": parameters.flags,
        "jobs": task.jobs,
        "throttled": task.throttled,
        "charges": task.charges,
        "late": late,
        "ran_ns": task.ran,
        "reclaimed_ns": task.reclaimed
    })
}
