//! The files of some paths, read one after another, and which of them a fault is in.

ghost use Rattle.std.specs.Prelude.{◌≤◌, ℕ, List, IfErr, IfOk, OnOk, length};
ghost use Rattle.grub_book.specs.declared.setup.TheConstants.{QUEUES_MAX};
ghost use Rattle.grub_plan.specs.Contents.{contents};
ghost use Rattle.text_bytes.specs.Source.{Holds, IsOpened};
ghost use Rattle.grub_run.specs.Faults.{HoldAll, Tells, names_of};
ghost use Rattle.grub_run.specs.inside.Telling.{IsOfReading, IsPlaced, TellsOf};

use crate::grub_fault::GrubFault;
use crate::program_fault::ProgramFault;
use grub_trace::{TraceFault, check_count};
use std::alloc::Global;
use std::io;
use text_bytes::{FileFault, Source, read_file};

/// The bytes of the file at this path.
fn read_one<
    'a,
    D: Drop,
    O: Fn(&str) -> io::Result<D>,
    N: Fn(&mut D, &mut [u8]) -> io::Result<usize>,
>(alloc: Global, source: &Source<O, N>, path: &'a str) -> Result<Vec<u8>, ProgramFault<'a>>
    requires open { O.IsAlwaysCallable source.now.open }
    requires read { N.IsAlwaysCallable source.now.read }
    ensures bytes { IfOk result (λ v. Holds O.Fn N.Fn source.now path.now v.items) }
    ensures opened { IfOk result (λ v. IsOpened O.Fn N.Fn source.now path.now) }
    ensures fault { IfErr result (TellsOf O.Fn N.Fn source.now path.now) }
{
    match read_file(alloc, source, path) {
        Ok(bytes) => Ok(bytes),
        Err(FileFault::TooLong) => Err(ProgramFault::TooLong { path }),
        Err(FileFault::Read) => Err(ProgramFault::Unreadable { path }),
        Err(FileFault::NoMemory) => Err(ProgramFault::NoMemory),
    }
}

/// Reads each file and keeps none; else the fault of the first that was not read whole.
fn read_each<
    'a,
    D: Drop,
    O: Fn(&str) -> io::Result<D>,
    N: Fn(&mut D, &mut [u8]) -> io::Result<usize>,
>(alloc: Global, source: &Source<O, N>, paths: &[&'a str]) -> Result<(), ProgramFault<'a>>
    requires open { O.IsAlwaysCallable source.now.open }
    requires read { N.IsAlwaysCallable source.now.read }
    ensures files { OnOk result ((files : List (List ℕ))
        × HoldAll O.Fn N.Fn source.now (names_of paths.now) files) }
    ensures fault { IfErr result (Tells O.Fn N.Fn source.now (names_of paths.now)) }
    ensures reading { IfErr result IsOfReading }
{
    for path in paths {
        read_one(alloc, source, path)?;
    }
    Ok(())
}

/// The bytes of all files, in order; else the fault of the first that was not read whole.
pub(crate) fn read_files<
    'a,
    D: Drop,
    O: Fn(&str) -> io::Result<D>,
    N: Fn(&mut D, &mut [u8]) -> io::Result<usize>,
>(alloc: Global, source: &Source<O, N>, paths: &[&'a str]) -> Result<Vec<Vec<u8>>, ProgramFault<'a>>
    requires open { O.IsAlwaysCallable source.now.open }
    requires read { N.IsAlwaysCallable source.now.read }
    ensures files { IfOk result
        (λ v. HoldAll O.Fn N.Fn source.now (names_of paths.now) (contents v.items)) }
    ensures fault { IfErr result (Tells O.Fn N.Fn source.now (names_of paths.now)) }
    ensures reading { IfErr result IsOfReading }
{
    let mut files = Vec::new(alloc);
    for path in paths {
        let bytes = read_one(alloc, source, path)?;
        if files.push(bytes).is_err() {
            return Err(ProgramFault::NoMemory);
        }
    }
    Ok(files)
}

/// The fault of a run, with the path of the file that it is in.
pub(crate) fn placed<'a>(paths: &[&'a str], fault: GrubFault) -> ProgramFault<'a>
    ensures { IsPlaced (names_of paths.now) fault result }
{
    match fault {
        GrubFault::Trace(TraceFault::At { file, line, .. }) => ProgramFault::Line {
            path: paths.get(file).copied().unwrap_or(""),
            line,
            fault,
        },
        _ => ProgramFault::Run(fault),
    }
}

/// Whether a run may have so many files. Where it may not, all are read first, and the bytes of none are kept.
pub(crate) fn check_paths<
    'a,
    D: Drop,
    O: Fn(&str) -> io::Result<D>,
    N: Fn(&mut D, &mut [u8]) -> io::Result<usize>,
>(alloc: Global, source: &Source<O, N>, paths: &[&'a str]) -> Result<(), ProgramFault<'a>>
    requires open { O.IsAlwaysCallable source.now.open }
    requires read { N.IsAlwaysCallable source.now.read }
    ensures few { OnOk result (length paths.now ≤ QUEUES_MAX) }
    ensures fault { IfErr result (Tells O.Fn N.Fn source.now (names_of paths.now)) }
    ensures reading { IfErr result IsOfReading }
{
    let Err(fault) = check_count(paths.len()) else {
        return Ok(());
    };
    read_each(alloc, source, paths)?;
    Err(placed(paths, GrubFault::Trace(fault)))
}
