//! A trace is read, to its end or to its first fault.

ghost use Rattle.std.specs.Prelude.{◌≡◌, OnOk};
ghost use Rattle.trace_file.specs.Reading.{IsSoOf};
ghost use Rattle.check_record.specs.FirstFault.{earlier_of, fault_read, is_before_by};
ghost use Rattle.check_record.specs.Reading.{HasShownFrom, ended_by};
ghost use Rattle.check_record.specs.Seen.{shown_in};

use crate::gathering::Gathering;
use std::alloc::{AllocError, Global};
use std::io;
use trace_file::{ReadFault, read_lines};
use trace_lines::Halt;
use trace_options::Fault;

/// Why a trace was not read.
fn fault_of<'o>(fault: ReadFault<Fault<'o>>) -> Fault<'o>
    ensures { result ≡ fault_read fault.entry }
{
    match fault {
        ReadFault::Unreadable => Fault::Unreadable,
        ReadFault::NoMemory => Fault::NoMemory,
        ReadFault::Lines(fault) => fault,
    }
}

/// What is wrong with the line at which a text halts.
fn end_of<'o>(halt: Option<Halt>) -> Result<(), Fault<'o>>
    ensures { result ≡ ended_by halt }
{
    match halt {
        Some(
            Halt {
                line,
                flaw: Some(flaw),
            },
        ) => Err(Fault::Line { line, flaw }),
        _ => Ok(()),
    }
}

/// Reads the trace of a path, to its end or to its first line with a fault.
pub(crate) fn read_trace<
    'o,
    D: Drop,
    O: Fn(&str) -> io::Result<D>,
    N: Fn(&mut D, &mut [u8]) -> io::Result<usize>,
>(
    alloc: Global,
    opens: &O,
    read: &N,
    path: &str,
    gathering: &mut Gathering<'o>,
) -> Result<(), Fault<'o>>
    requires opens { O.IsAlwaysCallable opens.now }
    requires read { N.IsAlwaysCallable read.now }
    ensures { OnOk result (IsSoOf O.Fn opens.now N.Fn read.now path.now
        (HasShownFrom (shown_in gathering.old) (shown_in gathering.new))) }
{
    match read_lines(alloc, opens, read, path, gathering) {
        Ok(halt) => end_of(halt),
        Err(fault) => Err(fault_of(fault)),
    }
}

/// Of a fault of a line and of a task that is not known, the one whose line comes first.
fn earlier<'o>(fault: Fault<'o>, unknown: Option<Fault<'o>>) -> Fault<'o>
    ensures { result ≡ earlier_of fault.entry unknown.entry }
{
    match unknown {
        Some(unknown) => {
            if is_before(unknown.line(), fault.line()) {
                unknown
            } else {
                fault
            }
        }
        None => fault,
    }
}

/// What is told of a trace with this fault.
pub(crate) fn first_fault<'o>(gathering: &Gathering<'o>, fault: Fault<'o>) -> Fault<'o> {
    match gathering.unknown() {
        Ok(unknown) => earlier(fault, unknown),
        Err(AllocError) => Fault::NoMemory,
    }
}

/// A task that the trace does not know or does not show is a fault.
pub(crate) fn knows_tasks<'o>(gathering: &Gathering<'o>) -> Result<(), Fault<'o>> {
    if let Some(unknown) = gathering.unknown()? {
        return Err(unknown);
    }
    match gathering.not_found() {
        Some(name) => Err(Fault::NoSuchTask { name }),
        None => Ok(()),
    }
}

/// Whether there are two lines, of which the first one comes before the other.
fn is_before(line: Option<u64>, other: Option<u64>) -> bool
    ensures { result ≡ is_before_by line other }
{
    match (line, other) {
        (Some(line), Some(other)) => line < other,
        _ => false,
    }
}
