//! The record that is sized.

ghost use Rattle.std.specs.Prelude.{◌≡◌, None, IfOk, OnOk};
ghost use Rattle.trace_file.specs.Reading.{IsSoOf, flaw_at};
ghost use Rattle.size_jobs.specs.Lines.{jobs_of};
ghost use Rattle.size_jobs.specs.Told.{IsTold, Tells};

use size_jobs::{JobFault, JobLines, JobRecord};
use std::alloc::Global;
use std::io;
use text_bytes::Source;
use trace_file::{ReadFault, read_lines};
use trace_lines::Halt;
use trace_options::Fault;

/// Why a trace was not read.
fn fault_of<'a>(fault: ReadFault<JobFault>) -> Fault<'a> {
    match fault {
        ReadFault::Unreadable => Fault::Unreadable,
        ReadFault::Lines(JobFault::Line { line, flaw }) => Fault::Line { line, flaw },
        ReadFault::NoMemory | ReadFault::Lines(JobFault::NoMemory) => Fault::NoMemory,
    }
}

/// What lines tell that ended there, or the flaw of the line at which they halted.
fn record_of<'a>(lines: JobLines, halt: Option<Halt>) -> Result<JobRecord, Fault<'a>>
    ensures flaw { OnOk result (flaw_at halt ≡ None) }
    ensures told { IfOk result (Tells (jobs_of lines)) }
{
    match halt {
        Some(
            Halt {
                line,
                flaw: Some(flaw),
            },
        ) => Err(Fault::Line { line, flaw }),
        _ => Ok(lines.finish()),
    }
}

/// The record of the trace of a path: what its whole text tells.
pub(crate) fn read_record<
    'a,
    D: Drop,
    O: Fn(&str) -> io::Result<D>,
    N: Fn(&mut D, &mut [u8]) -> io::Result<usize>,
>(alloc: Global, source: &Source<O, N>, path: &str) -> Result<JobRecord, Fault<'a>>
    requires open { O.IsAlwaysCallable source.now.open }
    requires read { N.IsAlwaysCallable source.now.read }
    ensures { IfOk result (λ told. IsSoOf O.Fn source.now.open N.Fn source.now.read path.now
        (IsTold told)) }
{
    let mut lines = JobLines::new(alloc);
    match read_lines(alloc, &source.open, &source.read, path, &mut lines) {
        Ok(halt) => {
            let record = record_of(lines, halt)?;
            Ok(record)
        }
        Err(fault) => Err(fault_of(fault)),
    }
}
