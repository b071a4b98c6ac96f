//! A trace is read, a second time where its end shows what its begin did not.

ghost use Rattle.std.specs.Prelude.{◌≡◌, IfOk};
ghost use Rattle.trace_file.specs.Reading.{IsSoOf};
ghost use Rattle.check_record.specs.Reading.{HasShown};
ghost use Rattle.check_record.specs.Seen.{IsEnded, shown_in};
ghost use Rattle.check_record.specs.Shown.{nothing_shown};

use crate::gathering::Gathering;
use crate::probes::SeenRecord;
use crate::reading::{first_fault, knows_tasks, read_trace};
use law_findings::AskedLaws;
use std::alloc::{AllocError, Global};
use std::io;
use trace_options::{CheckOptions, Fault};

/// How a record is to be read.
#[derive(Clone, Copy)]
pub struct RecordRequest<'o> {
    pub path: &'o str,

    /// Whether the row of each comparison is kept.
    pub keeps_rows: bool,

    /// Whether lines of timers are kept beside lines of probes, for the states that they show.
    pub keeps_timers: bool,

    /// The laws that the record is held to.
    pub laws: AskedLaws,
}

/// What the trace of a path says: it is read a second time where its end shows what its begin did not. One that has changed
/// meanwhile cannot be read.
pub fn gathered_whole<
    'o,
    D: Drop,
    O: Fn(&str) -> io::Result<D>,
    N: Fn(&mut D, &mut [u8]) -> io::Result<usize>,
>(
    alloc: Global,
    opens: &O,
    read: &N,
    request: RecordRequest<'o>,
    options: &'o CheckOptions<'o>,
) -> Result<Gathering<'o>, Fault<'o>>
    requires opens { O.IsAlwaysCallable opens.now }
    requires read { N.IsAlwaysCallable read.now }
    ensures shown { IfOk result (λ g. IsSoOf O.Fn opens.now N.Fn read.now request.entry.path.now
        (HasShown options.entry.now request.entry.keeps_timers (shown_in g))) }
    ensures ended { IfOk result (IsEnded options.entry.now) }
{
    let mut gathering = gathered(alloc, opens, read, request, options, None)?;
    if gathering.end_probes(options)? {
        return Ok(gathering);
    }
    let seen = gathering.into_seen()?;
    let mut gathering = gathered(alloc, opens, read, request, options, Some(seen))?;
    if gathering.end_probes(options)? {
        Ok(gathering)
    } else {
        Err(Fault::Unreadable)
    }
}

/// What the trace of a path says; `seen` is what an earlier reading came to.
fn gathered<
    'o,
    D: Drop,
    O: Fn(&str) -> io::Result<D>,
    N: Fn(&mut D, &mut [u8]) -> io::Result<usize>,
>(
    alloc: Global,
    opens: &O,
    read: &N,
    request: RecordRequest<'o>,
    options: &'o CheckOptions<'o>,
    seen: Option<SeenRecord>,
) -> Result<Gathering<'o>, Fault<'o>>
    requires opens { O.IsAlwaysCallable opens.now }
    requires read { N.IsAlwaysCallable read.now }
    ensures { IfOk result (λ g. IsSoOf O.Fn opens.now N.Fn read.now request.entry.path.now
        (HasShown options.entry.now request.entry.keeps_timers (shown_in g))) }
{
    let mut gathering = begun(alloc, options, request, seen)?;
    match read_trace(alloc, opens, read, request.path, &mut gathering) {
        Ok(()) => {
            knows_tasks(&gathering)?;
            Ok(gathering)
        }
        Err(fault) => Err(first_fault(&gathering, fault)),
    }
}

/// A record of which nothing was read this time.
fn begun<'o>(
    alloc: Global,
    options: &'o CheckOptions<'o>,
    request: RecordRequest<'_>,
    seen: Option<SeenRecord>,
) -> Result<Gathering<'o>, AllocError>
    ensures { IfOk result (λ g.
        shown_in g ≡ nothing_shown options.entry.now request.entry.keeps_timers) }
{
    let mut gathering = Gathering::new(alloc, options, request)?;
    match seen {
        Some(seen) => {
            gathering.tell(seen);
            Ok(gathering)
        }
        None => Ok(gathering),
    }
}
