//! The observations as a table: a line each, with tabs between the columns.

use crate::numbers::is_compared;
use crate::writing::{put, put_signed};
use std::alloc::{AllocError, Global};
use text_bytes::put_number;
use timer_tasks::{Observation, ObservedAnswer, TimerKind};

/// The first line of a table. Moments, differences and budgets are nanoseconds, sums units of 2^-20 of a processor.
pub fn table_head() -> &'static [u8] {
    b"line\tmoment\tcpu\ttask\tkind\tpredicted\tkernel\tdifference\tbudget\tdeadline\trunning\tthis\textra\tanswer\n"
}

/// The word of an answer.
pub(crate) fn answer_word(answer: ObservedAnswer) -> &'static [u8] {
    match answer {
        ObservedAnswer::Agrees => b"agrees",
        ObservedAnswer::Differs => b"differs",
        ObservedAnswer::End => b"end",
        ObservedAnswer::Unknown => b"unknown",
        ObservedAnswer::Edge => b"edge",
        ObservedAnswer::Gap => b"gap",
    }
}

fn kind_word(kind: TimerKind) -> &'static [u8] {
    match kind {
        TimerKind::Block => b"block",
        TimerKind::Replenish => b"replenish",
    }
}

fn put_place(out: &mut Vec<u8>, observation: &Observation, name: &[u8]) -> Result<(), AllocError> {
    put_number(out, b"", observation.line)?;
    put_number(out, b"\t", observation.at)?;
    put_number(out, b"\t", u64::from(observation.cpu))?;
    out.push(b'\t')?;
    put(out, name)?;
    out.push(b'\t')?;
    put(out, kind_word(observation.kind))?;
    out.push(b'\t')?;
    Ok(())
}

fn put_moments(
    alloc: Global,
    out: &mut Vec<u8>,
    observation: &Observation,
) -> Result<(), AllocError> {
    put_signed(alloc, out, observation.predicted.cast_signed())?;
    out.push(b'\t')?;
    if let Some(kernel) = observation.kernel {
        put_number(out, b"", kernel)?;
    }
    out.push(b'\t')?;
    if is_compared(observation) {
        put_signed(alloc, out, observation.difference)?;
    }
    out.push(b'\t')?;
    Ok(())
}

fn put_state(
    alloc: Global,
    out: &mut Vec<u8>,
    observation: &Observation,
) -> Result<(), AllocError> {
    put_signed(alloc, out, observation.runtime)?;
    put_number(out, b"\t", observation.deadline)?;
    put_number(out, b"\t", observation.sums.running_bw)?;
    put_number(out, b"\t", observation.sums.this_bw)?;
    put_number(out, b"\t", observation.sums.extra_bw)?;
    out.push(b'\t')?;
    Ok(())
}

/// Appends the line of an observation of the task with this name.
pub fn put_row(
    alloc: Global,
    out: &mut Vec<u8>,
    observation: &Observation,
    name: &[u8],
) -> Result<(), AllocError> {
    put_place(out, observation, name)?;
    put_moments(alloc, out, observation)?;
    put_state(alloc, out, observation)?;
    put(out, answer_word(observation.answer))?;
    out.push(b'\n')?;
    Ok(())
}

/// The name of a task, by its number.
pub(crate) fn name_of(names: &[Vec<u8>], task: u32) -> &[u8] {
    match names.get(task as usize) {
        Some(name) => name,
        None => b"?",
    }
}

/// Appends the table of observations; names are those of the tasks, by their numbers.
pub fn put_table(
    alloc: Global,
    out: &mut Vec<u8>,
    observations: &[Observation],
    names: &[Vec<u8>],
) -> Result<(), AllocError> {
    put(out, table_head())?;
    for observation in observations {
        put_row(alloc, out, observation, name_of(names, observation.task))?;
    }
    Ok(())
}
