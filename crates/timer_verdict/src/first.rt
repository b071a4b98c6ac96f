//! The first deviation, in words.

use crate::table::name_of;
use crate::writing::{put, put_micros, put_seconds, put_signed, put_signed_seconds};
use std::alloc::{AllocError, Global};
use text_bytes::put_number;
use timer_record::KeptLines;
use timer_tasks::{Observation, TimerKind};

/// Appends the first deviation: where it is, both moments, and the task's budget and deadline.
pub(crate) fn put_first(
    alloc: Global,
    out: &mut Vec<u8>,
    first: &Observation,
    lines: &KeptLines,
    names: &[Vec<u8>],
) -> Result<(), AllocError> {
    put_number(out, b"  first at line ", first.line)?;
    put(out, b", ")?;
    put_seconds(alloc, out, first.at)?;
    put(out, kind_phrase(first.kind))?;
    put(out, name_of(names, first.task))?;
    put_pid(out, lines, first.task)?;
    put_number(out, b" on CPU ", u64::from(first.cpu))?;
    put(out, b"\n")?;
    put_both_moments(alloc, out, first)?;
    put_budget(alloc, out, first)
}

fn kind_phrase(kind: TimerKind) -> &'static [u8] {
    match kind {
        TimerKind::Block => b", block of ",
        TimerKind::Replenish => b", replenishment timer of ",
    }
}

fn put_pid(out: &mut Vec<u8>, lines: &KeptLines, task: u32) -> Result<(), AllocError> {
    if let Some(of_task) = lines.tasks.get(task as usize) {
        put_number(out, b" (pid ", of_task.pid)?;
        put(out, b")")?;
    }
    Ok(())
}

fn put_both_moments(
    alloc: Global,
    out: &mut Vec<u8>,
    first: &Observation,
) -> Result<(), AllocError> {
    put(out, b"  by the rules its timer fires at ")?;
    put_signed_seconds(alloc, out, first.predicted.cast_signed())?;
    match first.kernel {
        Some(kernel) => {
            put(out, b", in the kernel at ")?;
            put_seconds(alloc, out, kernel)?;
            put(out, b": ")?;
        }
        None => put(out, b", the kernel started none: ")?,
    }
    put_micros(alloc, out, first.difference)?;
    put(out, b" us\n")
}

fn put_budget(alloc: Global, out: &mut Vec<u8>, first: &Observation) -> Result<(), AllocError> {
    put(out, b"  budget ")?;
    put_signed(alloc, out, first.runtime)?;
    put(out, b" ns, deadline ")?;
    put_seconds(alloc, out, first.deadline)?;
    put_number(out, b", this ", first.sums.this_bw)?;
    put_number(out, b", running ", first.sums.running_bw)?;
    put(out, b", extra ")?;
    put_signed(alloc, out, first.sums.extra_bw.cast_signed())?;
    put(out, b"\n")
}
