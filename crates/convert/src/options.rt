//! What the words of options say.

use crate::umax_of;
use grub_book::Params;
use std::alloc::{AllocError, Global};
use trace_options::{CheckOption, WrongOption, last_parts};
use trace_probes::numeral;

/// A task that is given: its comm or its pid, and its reservation.
#[derive(Clone, Copy, Debug)]
pub struct TaskReservation<'a> {
    pub name: &'a str,
    pub params: Params,
}

/// The server of fair tasks that each runqueue has.
#[derive(Clone, Copy, Debug)]
pub enum FairReservation {
    /// That of the recorded kernel.
    Usual,
    Absent,
    Reserves(Params),
}

/// What is known beside the trace; it stands above the trace's own notes.
#[derive(Debug, Drop)]
pub struct ConvertOptions<'a> {
    pub tasks: Vec<TaskReservation<'a>>,

    /// How many runqueues there are, from 1 to `CPUS_MAX` of `convert_facts`.
    pub cpus: Option<u32>,

    /// The most bandwidth of deadline tasks on a runqueue, in 1/2^20.
    pub umax: Option<u32>,
    pub fair: FairReservation,
}

/// The numbers of `RUNTIME:PERIOD`.
fn pair_of(text: &str) -> Option<(u64, u64)> {
    let (runtime, period) = last_parts(text, ':')?;
    match (
        numeral(10, runtime.as_bytes()),
        numeral(10, period.as_bytes()),
    ) {
        (Some(runtime), Some(period)) => Some((runtime, period)),
        _ => None,
    }
}

/// A reservation of these numbers, where a book admits it.
pub(crate) fn admitted(runtime: u32, period: u32) -> Option<Params> {
    Params::new(runtime, period).ok()
}

/// The reservation of `RUNTIME:PERIOD`, in microseconds.
fn params_of(text: &str) -> Option<Params> {
    let (runtime, period) = pair_of(text)?;
    match (u32::try_from(runtime), u32::try_from(period)) {
        (Ok(runtime), Ok(period)) => admitted(runtime, period),
        _ => None,
    }
}

/// The task of `NAME=RUNTIME:PERIOD`, whose name ends at the last `=`.
fn task_of(text: &str) -> Option<TaskReservation<'_>> {
    let (name, reservation) = last_parts(text, '=')?;
    let params = params_of(reservation)?;
    Some(TaskReservation { name, params })
}

/// The server of fair tasks of `RUNTIME:PERIOD` or `none`.
fn fair_of(text: &str) -> Option<FairReservation> {
    if text == "none" {
        return Some(FairReservation::Absent);
    }
    Some(FairReservation::Reserves(params_of(text)?))
}

fn wrong<'a>(option: CheckOption, value: &'a str) -> WrongOption<'a> {
    WrongOption { option, value }
}

/// The server of `--fair-server`, or the recorded kernel's where it is not given.
fn server_of(text: Option<&str>) -> Result<FairReservation, WrongOption<'_>> {
    match text {
        None => Ok(FairReservation::Usual),
        Some(text) => match fair_of(text) {
            Some(server) => Ok(server),
            None => Err(wrong(CheckOption::FairServer, text)),
        },
    }
}

/// Whether a name is among these tasks.
fn names(tasks: &[TaskReservation<'_>], name: &str) -> bool {
    tasks.iter().any(|task| task.name == name)
}

/// The tasks of these words, or the first word that says none or names a task once more.
fn tasks_of<'a>(
    alloc: Global,
    words: &[&'a str],
) -> Result<Result<Vec<TaskReservation<'a>>, WrongOption<'a>>, AllocError> {
    let mut tasks = Vec::new(alloc);
    for word in words {
        let Some(task) = task_of(word) else {
            return Ok(Err(wrong(CheckOption::Task, word)));
        };
        if names(&tasks, task.name) {
            return Ok(Err(wrong(CheckOption::Task, word)));
        }
        if tasks.push(task).is_err() {
            return Err(AllocError);
        }
    }
    Ok(Ok(tasks))
}

/// The most bandwidth of deadline tasks on a runqueue, of `RUNTIME:PERIOD`.
fn most_of(text: &str) -> Option<u32> {
    let (runtime, period) = pair_of(text)?;
    umax_of(runtime, period)
}

/// The most bandwidth of `--rt`, where it is given.
fn limit_of(text: Option<&str>) -> Result<Option<u32>, WrongOption<'_>> {
    match text {
        None => Ok(None),
        Some(text) => match most_of(text) {
            Some(most) => Ok(Some(most)),
            None => Err(wrong(CheckOption::Rt, text)),
        },
    }
}

/// What the values of the options say: each `--task`, `--cpus`, `--rt` and `--fair-server`; or the first of them that says
/// nothing that it may say. `AllocError` is want of memory.
pub fn options_of<'a>(
    alloc: Global,
    tasks: &[&'a str],
    cpus: Option<u32>,
    rt: Option<&'a str>,
    fair: Option<&'a str>,
) -> Result<Result<ConvertOptions<'a>, WrongOption<'a>>, AllocError> {
    let tasks = match tasks_of(alloc, tasks)? {
        Ok(tasks) => tasks,
        Err(wrong) => return Ok(Err(wrong)),
    };
    match (limit_of(rt), server_of(fair)) {
        (Ok(umax), Ok(fair)) => Ok(Ok(ConvertOptions {
            tasks,
            cpus,
            umax,
            fair,
        })),
        (Err(wrong), _) | (_, Err(wrong)) => Ok(Err(wrong)),
    }
}
