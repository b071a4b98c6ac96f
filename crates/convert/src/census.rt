//! The text that tells which SCHED_DEADLINE tasks a trace shows.

ghost use Rattle.std.specs.Prelude.{◌<◌};

use convert_facts::{Counted, Reserved, ShownTasks};
use std::alloc::{AllocError, Global};
use text_bytes::put_number;
use trace_data::Parameters;

/// Nanoseconds of a microsecond.
const MICRO: u64 = 1000;

/// SCHED_FLAG_RECLAIM of sched_setattr(2).
const RECLAIM: u64 = 2;

/// Puts numbers, each behind a comma.
fn put_cpus_behind(out: &mut Vec<u8>, cpus: &[u32]) -> Result<(), AllocError> {
    for cpu in cpus {
        put_number(out, b",", u64::from(*cpu))?;
    }
    Ok(())
}

/// Puts numbers with commas.
fn put_cpus(out: &mut Vec<u8>, cpus: &[u32]) -> Result<(), AllocError> {
    if let Some((cpu, cpus)) = cpus.split_first() {
        put_number(out, b"", u64::from(*cpu))?;
        put_cpus_behind(out, cpus)?;
    }
    Ok(())
}

/// What the first note of this pid says that it reserves.
fn reservation_of(reserved: &[Reserved], pid: u64) -> Option<Parameters> {
    for note in reserved {
        if note.pid == pid {
            return Some(note.parameters);
        }
    }
    None
}

/// Puts a point and the three digits of what is below a microsecond, where there is something.
fn put_fraction(out: &mut Vec<u8>, nanos: u64) -> Result<(), AllocError>
    requires { nanos < 1000 }
{
    if nanos > 0 {
        out.push(b'.')?;
        out.push(b'0' + (nanos / 100) as u8)?;
        out.push(b'0' + (nanos / 10 % 10) as u8)?;
        out.push(b'0' + (nanos % 10) as u8)?;
    }
    Ok(())
}

/// Puts nanoseconds as microseconds.
fn put_micros(out: &mut Vec<u8>, front: &[u8], nanos: u64) -> Result<(), AllocError> {
    put_number(out, front, nanos / MICRO)?;
    put_fraction(out, nanos % MICRO)
}

/// Puts a deadline that is not the period.
fn put_deadline(out: &mut Vec<u8>, parameters: Parameters) -> Result<(), AllocError> {
    if parameters.dl_deadline != parameters.dl_period {
        put_micros(out, b":", parameters.dl_deadline)?;
    }
    Ok(())
}

fn put_parameters(out: &mut Vec<u8>, parameters: Parameters) -> Result<(), AllocError> {
    put_micros(out, b" reserves=", parameters.dl_runtime)?;
    put_micros(out, b":", parameters.dl_period)?;
    put_deadline(out, parameters)?;
    if parameters.flags & RECLAIM == 0 {
        out.extend_from_slice(b",norec")?;
    }
    Ok(())
}

/// Puts what a task reserves, where that is known.
fn put_reservation(out: &mut Vec<u8>, parameters: Option<Parameters>) -> Result<(), AllocError> {
    if let Some(parameters) = parameters {
        put_parameters(out, parameters)?;
    }
    Ok(())
}

fn put_task(
    out: &mut Vec<u8>,
    task: &Counted,
    parameters: Option<Parameters>,
) -> Result<(), AllocError> {
    out.extend_from_slice(b"task ")?;
    out.extend_from_slice(&task.comm)?;
    put_number(out, b" pid=", task.pid)?;
    put_number(out, b" wakes=", task.wakes)?;
    put_number(out, b" blocks=", task.blocks)?;
    out.extend_from_slice(b" cpus=")?;
    put_cpus(out, &task.cpus)?;
    put_number(out, b" line=", task.line)?;
    put_reservation(out, parameters)?;
    out.extend_from_slice(b"\n")?;
    Ok(())
}

/// A line for each task.
pub(crate) fn tasks_text(alloc: Global, tasks: &ShownTasks) -> Result<Vec<u8>, AllocError> {
    let mut out = Vec::new(alloc);
    for task in &tasks.counted {
        put_task(&mut out, task, reservation_of(&tasks.reserved, task.pid))?;
    }
    Ok(out)
}
