//! How values are written.

use law_findings::Whose;
use std::alloc::{AllocError, Global};
use text_bytes::put_number;

/// The comm of a task.
#[derive(Drop)]
pub struct TaskName {
    pub pid: u64,
    pub comm: Vec<u8>,
}

/// Appends a text.
pub(crate) fn put(out: &mut Vec<u8>, text: &str) -> Result<(), AllocError> {
    out.extend_from_slice(text.as_bytes())?;
    Ok(())
}

/// Whether a comma stands before the last so many digits of a number.
fn ends_group(left: usize) -> bool {
    left == 3 || left == 6 || left == 9 || left == 12 || left == 15 || left == 18
}

/// Appends a number with commas, as 17,275.
pub fn put_count(alloc: Global, out: &mut Vec<u8>, n: u64) -> Result<(), AllocError> {
    let text = format!(in alloc; "{n}")?;
    let digits = text.as_bytes();
    for (i, digit) in digits.iter().enumerate() {
        if i > 0 && ends_group(digits.len() - i) {
            out.push(b',')?;
        }
        out.push(*digit)?;
    }
    Ok(())
}

/// A moment in seconds, as 9.376552000.
pub(crate) fn put_seconds(alloc: Global, out: &mut Vec<u8>, nanos: u64) -> Result<(), AllocError> {
    let whole = nanos / 1_000_000_000;
    let part = nanos % 1_000_000_000;
    let text = format!(in alloc; "{whole}.{part:09}")?;
    put(out, text.as_str())
}

/// A span as 3 us, 1.2 ms or 2.5 s.
pub fn put_span(alloc: Global, out: &mut Vec<u8>, nanos: u64) -> Result<(), AllocError> {
    let micros = nanos / 1_000;
    if micros < 1_000 {
        put_number(out, b"", micros)?;
        return put(out, " us");
    }
    let (tenths, unit) = if micros < 1_000_000 {
        (micros / 100, "ms")
    } else {
        (micros / 100_000, "s")
    };
    let (whole, tenth) = (tenths / 10, tenths % 10);
    let text = format!(in alloc; "{whole}.{tenth} {unit}")?;
    put(out, text.as_str())
}

/// A span that may be below 0.
pub(crate) fn put_signed_span(
    alloc: Global,
    out: &mut Vec<u8>,
    nanos: i64,
) -> Result<(), AllocError> {
    if nanos < 0 {
        put(out, "-")?;
    }
    put_span(alloc, out, nanos.unsigned_abs())
}

/// Appends whom a value is about.
pub(crate) fn put_whose(
    alloc: Global,
    out: &mut Vec<u8>,
    whose: Whose,
    names: &[TaskName],
) -> Result<(), AllocError> {
    match whose {
        Whose::Task { pid } => put_task(alloc, out, pid, names),
        Whose::Server { cpu } => {
            let text = format!(in alloc; "the fair server of CPU {cpu}")?;
            put(out, text.as_str())
        }
        Whose::Cpu { cpu } => {
            let text = format!(in alloc; "CPU {cpu}")?;
            put(out, text.as_str())
        }
        Whose::Domain => put(out, "the root domain"),
        Whose::Timer { timer } => {
            let text = format!(in alloc; "timer 0x{timer:x}")?;
            put(out, text.as_str())
        }
    }
}

/// Appends a task by comm and pid.
pub fn put_task(
    alloc: Global,
    out: &mut Vec<u8>,
    pid: u64,
    names: &[TaskName],
) -> Result<(), AllocError> {
    for name in names {
        if name.pid == pid {
            out.extend_from_slice(name.comm.as_slice())?;
            let text = format!(in alloc; " (pid {pid})")?;
            return put(out, text.as_str());
        }
    }
    let text = format!(in alloc; "pid {pid}")?;
    put(out, text.as_str())
}
