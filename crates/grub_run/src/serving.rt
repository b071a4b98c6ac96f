//! The reports of files, a view of them, or the line of a fault, and the program's status.

ghost use Rattle.std.specs.Prelude.{◌≡◌, ◌≤◌, ◌⊎◌};
ghost use Rattle.grub_run.specs.Faults.{HasFileFault, HasNoSpan, Whole, names_of, status_of};
ghost use Rattle.grub_run.specs.Written.{Begins, IsOutput, Writes};
ghost use Rattle.grub_run.specs.Shown.{IsShown};

use crate::printing::{print_reports, print_view};
use crate::program_fault::{ProgramFault, STATUS_FILE, STATUS_SYSTEM, STATUS_USAGE};
use crate::streams::Streams;
use crate::view::FileView;
use grub_workers::Attempts;
use std::alloc::Global;
use std::io;
use std::io::Write;
use std::sync::Wait;
use std::thread::Threads;
use text_bytes::Source;

/// Prints the reports of the files of these names, or the line of a fault, and gives the status: 0 for reports,
/// `STATUS_FILE` or `STATUS_SYSTEM` for a fault.
pub fn serve_files<
    R: Threads + Wait + Sync,
    D: Drop,
    O: Fn(&str) -> io::Result<D>,
    N: Fn(&mut D, &mut [u8]) -> io::Result<usize>,
    W: Write,
    E: Write,
>(
    rt: &R,
    alloc: Global,
    attempts: Attempts,
    source: &Source<O, N>,
    paths: &[&str],
    streams: &mut Streams<W, E>,
) -> u8
    requires rounds { 1 ≤ attempts.rounds }
    requires open { O.IsAlwaysCallable source.now.open }
    requires read { N.IsAlwaysCallable source.now.read }
    ensures status { (result ≡ 0) ⊎ (result ≡ STATUS_FILE) ⊎ (result ≡ STATUS_SYSTEM) }
    ensures done { result ≡ 0 → Whole O.Fn N.Fn source.now
        (Writes (IsOutput attempts.tries) (W.contents streams.old.out)
        (W.contents streams.new.out)) (names_of paths.now) }
    ensures file { result ≡ STATUS_FILE → HasFileFault O.Fn N.Fn source.now (names_of paths.now) }
    ensures nothing { result ≡ STATUS_FILE → streams.new.out ≡ streams.old.out }
    ensures failed { result ≡ STATUS_SYSTEM → (streams.new.out ≡ streams.old.out)
        ⊎ Whole O.Fn N.Fn source.now (Begins (IsOutput attempts.tries) (W.contents streams.old.out)
        (W.contents streams.new.out)) (names_of paths.now) }
{
    match print_reports(rt, alloc, attempts, source, paths, &mut streams.out) {
        Ok(()) => 0,
        Err(fault) => tell(&fault, &mut streams.faults),
    }
}

/// Prints a view of the time line of the files of these names, or the line of a fault, and gives the status: 0 for the
/// view, `STATUS_FILE` or `STATUS_SYSTEM` for a fault, and `STATUS_USAGE` where the span of a picture is empty.
pub fn serve_view<
    R: Threads + Sync,
    D: Drop,
    O: Fn(&str) -> io::Result<D>,
    N: Fn(&mut D, &mut [u8]) -> io::Result<usize>,
    W: Write,
    E: Write,
>(
    rt: &R,
    alloc: Global,
    view: FileView,
    source: &Source<O, N>,
    paths: &[&str],
    streams: &mut Streams<W, E>,
) -> u8
    requires open { O.IsAlwaysCallable source.now.open }
    requires read { N.IsAlwaysCallable source.now.read }
    ensures status { (result ≡ 0) ⊎ (result ≡ STATUS_FILE) ⊎ (result ≡ STATUS_USAGE)
        ⊎ (result ≡ STATUS_SYSTEM) }
    ensures done { result ≡ 0 → Whole O.Fn N.Fn source.now
        (Writes (IsShown view) (W.contents streams.old.out)
        (W.contents streams.new.out)) (names_of paths.now) }
    ensures file { result ≡ STATUS_FILE → HasFileFault O.Fn N.Fn source.now (names_of paths.now) }
    ensures usage { result ≡ STATUS_USAGE
        → Whole O.Fn N.Fn source.now (HasNoSpan view) (names_of paths.now) }
    ensures nothing { (result ≡ STATUS_FILE) ⊎ (result ≡ STATUS_USAGE)
        → streams.new.out ≡ streams.old.out }
    ensures failed { result ≡ STATUS_SYSTEM → (streams.new.out ≡ streams.old.out)
        ⊎ Whole O.Fn N.Fn source.now (Begins (IsShown view) (W.contents streams.old.out)
        (W.contents streams.new.out)) (names_of paths.now) }
{
    match print_view(rt, alloc, view, source, paths, &mut streams.out) {
        Ok(()) => 0,
        Err(fault) => tell(&fault, &mut streams.faults),
    }
}

/// Prints the line of a fault, and gives its status.
fn tell<E: Write>(fault: &ProgramFault<'_>, faults: &mut E) -> u8
    ensures { result ≡ status_of fault.now }
{
    let _ = match fault {
        ProgramFault::EmptySpan { .. } => writeln!(faults, "error: {fault}"),
        _ => writeln!(faults, "grubrun: {fault}"),
    };
    fault.status()
}
