//! From the paths of event files to their reports, or to a view of their time line.

ghost use Rattle.std.specs.Prelude.{◌≡◌, ◌≤◌, IfErr, OnOk};
ghost use Rattle.grub_run.specs.Written.{Begins, IsOutput, Writes};
ghost use Rattle.grub_run.specs.declared.grub_fault.GrubFault.TheVariants as run_faults;
ghost use Rattle.grub_run.specs.declared.program_fault.ProgramFault.TheVariants as faults;
ghost use Rattle.grub_run.specs.Faults.{Tells, TellsOfView, Whole, names_of};
ghost use Rattle.grub_run.specs.Shown.{IsShown};

use crate::by_threads::run_texts_by_threads;
use crate::grub_fault::GrubFault;
use crate::paths::{check_paths, placed, read_files};
use crate::program_fault::ProgramFault;
use crate::show_fault::ShowFault;
use crate::view::{FileView, write_view};
use grub_workers::Attempts;
use std::alloc::Global;
use std::io;
use std::io::Write;
use std::sync::Wait;
use std::thread::Threads;
use text_bytes::Source;

/// Reads the files of these names, runs them with so many attempts at each ask, and prints the texts of their reports.
///
/// The bytes of at most 64 files are kept at a time.
pub fn print_reports<
    'a,
    R: Threads + Wait + Sync,
    D: Drop,
    O: Fn(&str) -> io::Result<D>,
    N: Fn(&mut D, &mut [u8]) -> io::Result<usize>,
    W: Write,
>(
    rt: &R,
    alloc: Global,
    attempts: Attempts,
    source: &Source<O, N>,
    paths: &[&'a str],
    out: &mut W,
) -> Result<(), ProgramFault<'a>>
    requires rounds { 1 ≤ attempts.rounds }
    requires open { O.IsAlwaysCallable source.now.open }
    requires read { N.IsAlwaysCallable source.now.read }
    ensures done { OnOk result (Whole O.Fn N.Fn source.now
        (Writes (IsOutput attempts.tries) (W.contents out.old) (W.contents out.new))
        (names_of paths.now)) }
    ensures fault { IfErr result (Tells O.Fn N.Fn source.now (names_of paths.now)) }
    // On every fault but that of the writer nothing was printed, and on that one a beginning of the reports.
    ensures nothing { IfErr result
        (λ e. (e ≡ faults.Run run_faults.WriteFault → ⊥) → out.new ≡ out.old) }
    ensures beginning { IfErr result
        (λ e. e ≡ faults.Run run_faults.WriteFault → Whole O.Fn N.Fn source.now
        (Begins (IsOutput attempts.tries) (W.contents out.old) (W.contents out.new))
        (names_of paths.now)) }
{
    check_paths(alloc, source, paths)?;
    let files = read_files(alloc, source, paths)?;
    let Attempts { tries, rounds } = attempts;
    match run_texts_by_threads(rt, alloc, files, tries, rounds, out) {
        Ok(()) => Ok(()),
        Err(fault) => Err(placed(paths, fault)),
    }
}

/// Reads the files of these names, plays them on one time line, and prints a view of it.
///
/// The bytes of at most 64 files are kept at a time.
pub fn print_view<
    'a,
    R: Threads + Sync,
    D: Drop,
    O: Fn(&str) -> io::Result<D>,
    N: Fn(&mut D, &mut [u8]) -> io::Result<usize>,
    W: Write,
>(
    rt: &R,
    alloc: Global,
    view: FileView,
    source: &Source<O, N>,
    paths: &[&'a str],
    out: &mut W,
) -> Result<(), ProgramFault<'a>>
    requires open { O.IsAlwaysCallable source.now.open }
    requires read { N.IsAlwaysCallable source.now.read }
    ensures done { OnOk result (Whole O.Fn N.Fn source.now
        (Writes (IsShown view) (W.contents out.old) (W.contents out.new)) (names_of paths.now)) }
    ensures fault { IfErr result (TellsOfView O.Fn N.Fn source.now view (names_of paths.now)) }
    // On every fault but that of the writer nothing was printed, and on that one a beginning of the view.
    ensures nothing { IfErr result
        (λ e. (e ≡ faults.Run run_faults.WriteFault → ⊥) → out.new ≡ out.old) }
    ensures beginning { IfErr result
        (λ e. e ≡ faults.Run run_faults.WriteFault → Whole O.Fn N.Fn source.now
        (Begins (IsShown view) (W.contents out.old) (W.contents out.new)) (names_of paths.now)) }
{
    check_paths(alloc, source, paths)?;
    let files = read_files(alloc, source, paths)?;
    match write_view(rt, alloc, files, view, out) {
        Ok(()) => Ok(()),
        Err(ShowFault::Trace(fault)) => Err(placed(paths, GrubFault::Trace(fault))),
        Err(ShowFault::NoMemory) => Err(ProgramFault::View),
        Err(ShowFault::EmptySpan { from, to }) => Err(ProgramFault::EmptySpan { from, to }),
        Err(ShowFault::WriteFault) => Err(ProgramFault::Run(GrubFault::WriteFault)),
    }
}
