//! The words of a verdict.

ghost use Rattle.std.specs.Prelude.{IfNone, OnOk};
ghost use Rattle.timer_verdict.specs.Verdicts.{SaysAgreed};

use crate::cause::{Cause, cause_of};
use crate::charges::{put_charges, put_implied};
use crate::figures::put_numbers;
use crate::first::put_first;
use crate::heading::TimerHeading;
use crate::judging::Judged;
use crate::numbers::{KindNumbers, numbers_of};
use crate::reserved::{parameters_at, parameters_of};
use crate::table::name_of;
use crate::tested::put_tested;
use crate::writing::{put, put_count, put_cpus, put_millis, put_seconds};
use kernel_rules::{RECLAIM, has, ratio};
use std::alloc::{AllocError, Global};
use text_bytes::put_number;
use timer_record::KeptLines;
use timer_tasks::{Observation, TimerKind};
use trace_data::{Kernel, Parameters, Policy};

/// Appends the verdict on a record; names are those of the tasks, by their numbers.
pub fn put_verdict(
    alloc: Global,
    out: &mut Vec<u8>,
    heading: TimerHeading<'_>,
    lines: &KeptLines,
    names: &[Vec<u8>],
    judged: &Judged,
) -> Result<(), AllocError>
    ensures { OnOk result (IfNone judged.now.first (SaysAgreed out.new.items)) }
{
    let observations: &[Observation] = &judged.outcome.observations;
    put_record(alloc, out, heading, lines)?;
    put_tasks(alloc, out, lines, names)?;
    put_tested(alloc, out, &judged.outcome.counts)?;
    put_boosted(alloc, out, lines.boosted)?;
    let blocks = numbers_of(alloc, observations, TimerKind::Block)?;
    put_numbers(
        alloc,
        out,
        b"0-lag timers",
        b" blocks",
        heading.within,
        blocks,
    )?;
    let starts = numbers_of(alloc, observations, TimerKind::Replenish)?;
    put_numbers(
        alloc,
        out,
        b"replenishment timers",
        b" starts",
        heading.within,
        starts,
    )?;
    put_total(out, heading, lines)?;
    put_speed(alloc, out, judged.speed_unknown)?;
    put(out, heading.beside)?;
    let Some(place) = judged.first else {
        return put_agreement(out);
    };
    let Some(first) = observations.get(place) else {
        return Ok(());
    };
    put_differs(alloc, out, blocks, starts)?;
    put_first(alloc, out, first, lines, names)?;
    let parameters = parameters_at(lines, first.task, first.at);
    put_charges(alloc, out, &judged.outcome.charges)?;
    put_implied(alloc, out, first, parameters, &judged.outcome.charges)?;
    put_ending(alloc, out, first, observations, names)
}

/// Appends that each timer is where the rules put it.
fn put_agreement(out: &mut Vec<u8>) -> Result<(), AllocError>
    ensures { OnOk result (SaysAgreed out.new.items) }
{
    put(out, b"agrees\n")
}

/// Appends how far each task is off, and what the deviations look like.
fn put_ending(
    alloc: Global,
    out: &mut Vec<u8>,
    first: &Observation,
    observations: &[Observation],
    names: &[Vec<u8>],
) -> Result<(), AllocError> {
    crate::apart::put_apart(alloc, out, observations, names)?;
    put_cause(out, cause_of(first, observations))
}

/// Appends what was read: the record, its kernel and processors, from when to when.
fn put_record(
    alloc: Global,
    out: &mut Vec<u8>,
    heading: TimerHeading<'_>,
    lines: &KeptLines,
) -> Result<(), AllocError> {
    put(out, heading.trace)?;
    put(out, b": ")?;
    put_count(alloc, out, lines.count)?;
    put(out, b" lines from ")?;
    put_seconds(alloc, out, lines.begins.unwrap_or(0))?;
    put(out, b" to ")?;
    put_seconds(alloc, out, lines.ends)?;
    put(out, b" s, kernel ")?;
    put_kernel(out, heading.kernel, heading.release)?;
    put(out, b", processors ")?;
    put_cpus(out, heading.domain)?;
    put(out, b"\n")
}

fn put_kernel(
    out: &mut Vec<u8>,
    kernel: Option<Kernel>,
    release: Option<&[u8]>,
) -> Result<(), AllocError> {
    let Some(kernel) = kernel else {
        return put(out, b"not told, taken for a current one");
    };
    if let Some(release) = release {
        return put(out, release);
    }
    put_number(out, b"", u64::from(kernel.major))?;
    put_number(out, b".", u64::from(kernel.minor))?;
    put_number(out, b".", u64::from(kernel.patch))
}

fn put_tasks(
    alloc: Global,
    out: &mut Vec<u8>,
    lines: &KeptLines,
    names: &[Vec<u8>],
) -> Result<(), AllocError> {
    for (i, task) in lines.tasks.iter().enumerate() {
        let number = i.min(u32::MAX as usize) as u32;
        put(out, b"task ")?;
        put(out, name_of(names, number))?;
        put_number(out, b" (pid ", task.pid)?;
        put(out, b"): ")?;
        put_parameters(alloc, out, parameters_of(lines, number))?;
    }
    Ok(())
}

fn put_parameters(
    alloc: Global,
    out: &mut Vec<u8>,
    parameters: Option<Parameters>,
) -> Result<(), AllocError> {
    let Some(parameters) = parameters else {
        return put(out, b"no reservation\n");
    };
    put_millis(alloc, out, parameters.dl_runtime)?;
    put(out, b" in ")?;
    put_millis(alloc, out, parameters.dl_period)?;
    if parameters.dl_deadline != parameters.dl_period {
        put(out, b", deadline ")?;
        put_millis(alloc, out, parameters.dl_deadline)?;
    }
    if has(parameters.flags, RECLAIM) {
        put(out, b", reclaims\n")
    } else {
        put(out, b", does not reclaim\n")
    }
}

fn put_boosted(alloc: Global, out: &mut Vec<u8>, boosted: u64) -> Result<(), AllocError> {
    if boosted == 0 {
        return Ok(());
    }
    put(out, b"passed over: ")?;
    put_count(alloc, out, boosted)?;
    put(
        out,
        b" wakes of tasks with priority -1 and no reservation (boosted by a mutex, or not told of)\n",
    )
}

/// Appends how much was left out of tasks whose charges depend on a speed that no line tells.
fn put_speed(alloc: Global, out: &mut Vec<u8>, left_out: u64) -> Result<(), AllocError> {
    if left_out == 0 {
        return Ok(());
    }
    put(out, b"speed unknown: ")?;
    put_count(alloc, out, left_out)?;
    put(
        out,
        b" blocks and timers of tasks without SCHED_FLAG_RECLAIM were not compared: the kernel charged less than their time, and no line tells how fast their CPUs ran\n",
    )
}

/// Appends a warning where `total_bw` at the beginning has more than the fair servers and the tasks of which notes tell.
fn put_total(
    out: &mut Vec<u8>,
    heading: TimerHeading<'_>,
    lines: &KeptLines,
) -> Result<(), AllocError> {
    let Some(total_bw) = heading.total_bw else {
        return Ok(());
    };
    let setup = heading.setup;
    let mut known = setup.cpus.saturating_mul(setup.server_bw);
    for told in &lines.told {
        known = known.saturating_add(bw_at_start(told.at, told.policy));
    }
    // (below 0 where the kernel has given more back than it took)
    if total_bw.cast_signed() < 0 || total_bw <= known {
        return Ok(());
    }
    put_number(out, b"note: total-bw at the beginning is ", total_bw)?;
    put_number(out, b", ", total_bw - known)?;
    put(
        out,
        b" more than the fair servers and the tasks of the notes: a task is not told of\n",
    )
}

fn bw_at_start(at: Option<u64>, policy: Policy) -> u64 {
    match policy {
        Policy::Deadline(parameters) if at.is_none() => {
            ratio(parameters.dl_runtime, parameters.dl_period)
        }
        _ => 0,
    }
}

fn put_differs(
    alloc: Global,
    out: &mut Vec<u8>,
    blocks: KindNumbers,
    starts: KindNumbers,
) -> Result<(), AllocError> {
    put(out, b"differs: ")?;
    put_count(alloc, out, blocks.differ)?;
    put(out, b" of ")?;
    put_count(alloc, out, blocks.compared())?;
    put(out, b" blocks, ")?;
    put_count(alloc, out, starts.differ)?;
    put(out, b" of ")?;
    put_count(alloc, out, starts.compared())?;
    put(out, b" replenishment timers\n")
}

/// Appends what the deviations look like.
fn put_cause(out: &mut Vec<u8>, cause: Cause) -> Result<(), AllocError> {
    put(
        out,
        match cause {
            Cause::Sum =>
                b"  looks like a sum: several tasks deviate to one side. See --kernel, --rt, --fair-server, --domain, and whether each task is told of\n".as_slice(),
            Cause::Budget =>
                b"  looks like a budget: this task alone deviates, again and again. See its reservation and flags\n".as_slice(),
            Cause::Moment =>
                b"  looks like a moment: the task's next block agrees. A busy or emulated machine lags by up to 100 us (--within 100); by more, a line is lost or the host paused within a wake\n".as_slice(),
            Cause::Mixed =>
                b"  looks like none of a sum, a budget and a moment alone. See the reservation of the task that is farthest off\n".as_slice(),
        },
    )?;
    put(
        out,
        b"  a record with probes compares each budget and sum, and tells which\n",
    )
}
