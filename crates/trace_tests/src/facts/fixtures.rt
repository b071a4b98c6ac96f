//! Lines that kernels wrote, and what a text tells.

ghost use Rattle.std.specs.Prelude.{◌<◌};

use convert_facts::{Census, Fact, FactLines, Facts, LineFault, ShownTasks, What, Wrong};
use std::alloc::{AllocError, Global};
use trace_lines::RecordReader;

pub const SWITCH: &[u8] =
    b"            gr_0-12926   [000] d..2.  1020.381451: sched_switch: prev_comm=gr_0 prev_pid=12926 prev_prio=-1 prev_state=S ==> next_comm=dlwork next_pid=12929 next_prio=120\n";

pub const WAKE: &[u8] =
    b"          <idle>-0       [002] dNh4.  1020.402803: sched_wakeup: comm=gr_0 pid=12926 prio=-1 target_cpu=002\n";

pub const ARM: &[u8] =
    b"    gr_0-12926   [000] d..3.  1020.411178: hrtimer_start: hrtimer=00000000d0364ad0 function=inactive_task_timer expires=1020411632855 softexpires=1020411632855 mode=REL|HARD was_armed=0\n";

pub const CANCEL: &[u8] =
    b"  <idle>-0       [000] d..2.  1020.411200: hrtimer_cancel: hrtimer=00000000d0364ad0\n";

pub const FIRE: &[u8] =
    b"  <idle>-0       [000] d.h1.  1020.411633: hrtimer_expire_entry: hrtimer=00000000d0364ad0 function=inactive_task_timer now=1020411634000\n";

/// What the pieces of a text tell of these tasks.
pub(crate) fn facts_of(
    alloc: Global,
    mut lines: FactLines,
    pieces: &[&[u8]],
) -> Result<Facts, AllocError> {
    let mut reader = RecordReader::new(alloc);
    for piece in pieces {
        reader.feed(&mut lines, piece)?;
    }
    lines.end(reader.end())
}

/// The tasks that the pieces of a text show, or its first fault.
pub(crate) fn tasks_of(
    alloc: Global,
    pieces: &[&[u8]],
) -> Result<Result<ShownTasks, LineFault>, AllocError> {
    let mut census = Census::new(alloc);
    let mut reader = RecordReader::new(alloc);
    for piece in pieces {
        reader.feed(&mut census, piece)?;
    }
    Ok(census.end(reader.end()))
}

/// A text in pieces of so many bytes.
pub(crate) fn pieces_of(alloc: Global, text: &[u8], bytes: usize) -> Result<Vec<&[u8]>, AllocError>
    requires { 0 < bytes }
{
    let mut pieces = Vec::new(alloc);
    for piece in text.chunks(bytes) {
        pieces.push(piece)?;
    }
    Ok(pieces)
}

/// What a text tells of the tasks gr_0 and 77, in pieces of seven bytes.
pub(crate) fn read(alloc: Global, text: &[u8]) -> Result<Facts, AllocError> {
    let names = [b"gr_0".as_slice(), b"77".as_slice()];
    let lines = FactLines::new(alloc, names.as_slice(), None)?;
    facts_of(alloc, lines, &pieces_of(alloc, text, 7)?)
}

/// The number of a fault.
pub(crate) fn number_of(wrong: &Wrong) -> u64 {
    match wrong {
        Wrong::UnknownTask { .. } => 50,
        Wrong::WrongClock => 51,
        Wrong::LostEvents => 52,
        Wrong::TooLong => 54,
        Wrong::BadTraceLine => 55,
    }
}

/// The line and the number of a fault, or 0 and 0.
pub(crate) fn place(fault: &Option<LineFault>) -> (u64, u64) {
    match fault {
        None => (0, 0),
        Some(fault) => (fault.line, number_of(&fault.wrong)),
    }
}

/// The line and the number of the first fault.
pub(crate) fn fault_of(alloc: Global, text: &[u8]) -> Result<(u64, u64), AllocError> {
    Ok(place(&read(alloc, text)?.fault))
}

/// How many facts and runqueues a text tells, if it has no fault.
pub(crate) fn numbers_of(alloc: Global, text: &[u8]) -> Result<Option<(usize, u32)>, AllocError> {
    let told = read(alloc, text)?;
    if told.fault.is_some() {
        return Ok(None);
    }
    Ok(Some((told.facts.len(), told.runqueues)))
}

/// Whether these facts are told and no other, and no fault.
pub(crate) fn are_told(told: &Facts, facts: &[Fact]) -> bool {
    told.facts.as_slice() == facts && told.fault.is_none()
}

/// Whether a text tells this one fact and no other.
pub(crate) fn tells(
    alloc: Global,
    text: &[u8],
    at: u64,
    task: usize,
    what: What,
) -> Result<bool, AllocError> {
    let wanted = Fact {
        line: 1,
        at,
        task,
        what,
    };
    Ok(are_told(&read(alloc, text)?, [wanted].as_slice()))
}

/// Lines, one behind the other.
pub(crate) fn joined(alloc: Global, lines: &[&[u8]]) -> Result<Vec<u8>, AllocError> {
    let mut text = Vec::new(alloc);
    for line in lines {
        text.extend_from_slice(line)?;
    }
    Ok(text)
}
