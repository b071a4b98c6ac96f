//! How values are written.

ghost use Rattle.std.specs.Prelude.{◌≡◌, ◌++◌, OnOk};
ghost use Rattle.probe_verdict.specs.Texts.{Extends};

use crate::heading::NamedTask;
use probe_findings::{ExactValue, Subject, Whose};
use std::alloc::{AllocError, Global};
use text_bytes::put_number;
use trace_data::TimerFunction;

/// Appends a text.
pub(crate) fn put(out: &mut Vec<u8>, text: &str) -> Result<(), AllocError>
    ensures { OnOk result (out.new.items ≡ out.old.items ++ text.now) }
{
    out.extend_from_slice(text.as_bytes())?;
    Ok(())
}

/// Appends bytes as they are.
pub(crate) fn put_bytes(out: &mut Vec<u8>, bytes: &[u8]) -> Result<(), AllocError>
    ensures { OnOk result (Extends out.old.items out.new.items) }
{
    out.extend_from_slice(bytes)?;
    Ok(())
}

/// Appends a comma, but behind a space.
pub(crate) fn put_comma(out: &mut Vec<u8>) -> Result<(), AllocError> {
    if out.last() == Some(&b' ') {
        Ok(())
    } else {
        put(out, ", ")
    }
}

/// Whether a comma stands before the last so many digits of a number.
fn ends_group(left: usize) -> bool {
    left == 3 || left == 6 || left == 9 || left == 12 || left == 15 || left == 18
}

/// Appends a number with commas, as 17,275.
pub(crate) fn put_count(alloc: Global, out: &mut Vec<u8>, n: u64) -> Result<(), AllocError>
    ensures { OnOk result (Extends out.old.items out.new.items) }
{
    let text = format!(in alloc; "{n}")?;
    let digits = text.as_bytes();
    for (i, digit) in digits.iter().enumerate() {
        put_digit(out, *digit, i > 0 && ends_group(digits.len() - i))?;
    }
    Ok(())
}

fn put_digit(out: &mut Vec<u8>, digit: u8, follows_comma: bool) -> Result<(), AllocError>
    ensures { OnOk result (Extends out.old.items out.new.items) }
{
    if follows_comma {
        out.push(b',')?;
    }
    out.push(digit)?;
    Ok(())
}

/// A moment in seconds, as 9.376552000.
pub(crate) fn put_seconds(alloc: Global, out: &mut Vec<u8>, nanos: u64) -> Result<(), AllocError>
    ensures { OnOk result (Extends out.old.items out.new.items) }
{
    let whole = nanos / 1_000_000_000;
    let part = nanos % 1_000_000_000;
    let text = format!(in alloc; "{whole}.{part:09}")?;
    put(out, text.as_str())
}

/// The comm of a task, if a record shows it.
fn comm_of(names: &[NamedTask], pid: u64) -> Option<&[u8]> {
    for name in names {
        if name.pid == pid {
            return Some(name.comm.as_slice());
        }
    }
    None
}

/// Appends a task by comm and pid.
fn put_task(
    alloc: Global,
    out: &mut Vec<u8>,
    pid: u64,
    names: &[NamedTask],
) -> Result<(), AllocError>
    ensures { OnOk result (Extends out.old.items out.new.items) }
{
    match comm_of(names, pid) {
        Some(comm) => {
            put_bytes(out, comm)?;
            let text = format!(in alloc; " (pid {pid})")?;
            put(out, text.as_str())
        }
        None => {
            let text = format!(in alloc; "pid {pid}")?;
            put(out, text.as_str())
        }
    }
}

/// Appends whose entity it is.
pub(crate) fn put_whose(
    alloc: Global,
    out: &mut Vec<u8>,
    whose: Whose,
    names: &[NamedTask],
) -> Result<(), AllocError>
    ensures { OnOk result (Extends out.old.items out.new.items) }
{
    match whose {
        Whose::Server { cpu } => {
            let text = format!(in alloc; "the fair server of CPU {cpu}")?;
            put(out, text.as_str())
        }
        Whose::Task { pid, .. } => put_task(alloc, out, pid, names),
    }
}

/// Appends what a value is of.
pub(crate) fn put_subject(
    alloc: Global,
    out: &mut Vec<u8>,
    subject: Subject,
    names: &[NamedTask],
) -> Result<(), AllocError>
    ensures { OnOk result (Extends out.old.items out.new.items) }
{
    match subject {
        Subject::Entity(whose) => put_whose(alloc, out, whose, names),
        Subject::Runqueue(cpu) => {
            let text = format!(in alloc; "CPU {cpu}")?;
            put(out, text.as_str())
        }
        Subject::RootDomain(number) => {
            let text = format!(in alloc; "root domain {number}")?;
            put(out, text.as_str())
        }
        Subject::Nobody => put(out, "nobody"),
    }
}

fn timer_name(function: TimerFunction) -> &'static str {
    match function {
        TimerFunction::ZeroLag => "inactive_task_timer",
        TimerFunction::Replenish => "dl_task_timer",
        TimerFunction::Other => "another timer",
    }
}

/// Appends a number below 0 or not.
fn put_signed(alloc: Global, out: &mut Vec<u8>, n: i64) -> Result<(), AllocError>
    ensures { OnOk result (Extends out.old.items out.new.items) }
{
    let text = format!(in alloc; "{n}")?;
    put(out, text.as_str())
}

/// Appends a value.
pub(crate) fn put_value(
    alloc: Global,
    out: &mut Vec<u8>,
    value: ExactValue,
    names: &[NamedTask],
) -> Result<(), AllocError>
    ensures { OnOk result (Extends out.old.items out.new.items) }
{
    match value {
        ExactValue::Unsigned(n) => put_number(out, b"", n),
        ExactValue::Signed(n) => put_signed(alloc, out, n),
        ExactValue::AtMost(n) => put_number(out, b"at most ", n),
        ExactValue::Flag(true) => put(out, "1"),
        ExactValue::Flag(false) => put(out, "0"),
        ExactValue::Armed(function) => put(out, timer_name(function)),
        ExactValue::NotArmed(function) => put_no(out, timer_name(function)),
        ExactValue::Owner(whose) => put_whose(alloc, out, whose, names),
    }
}

fn put_no(out: &mut Vec<u8>, name: &str) -> Result<(), AllocError>
    ensures { OnOk result (Extends out.old.items out.new.items) }
{
    put(out, "no ")?;
    put(out, name)
}
