//! What the program does with a trace: it prints which tasks there are, or writes the event files.

ghost use Rattle.std.specs.Prelude.{◌≡◌, ◌⊎◌, None, IfErr, IfOk, OnOk, length, map, string_bytes};
ghost use Rattle.grub_plan.specs.Contents.{contents};
ghost use Rattle.convert.specs.Serving.{AreFree, AreMade, MakesEvents, Prints, event_paths};
ghost use Rattle.trace_options.specs.Faults.{status_of};
ghost use Rattle.trace_options.specs.Messages.{event_path};
ghost use Rattle.trace_options.specs.declared.fault.TheConstants.{STATUS_FILE, STATUS_SYSTEM};

use crate::census::tasks_text;
use crate::fault::fault_from;
use crate::files::{FilesFault, event_files};
use crate::options::ConvertOptions;
use crate::pieces::{read_facts, read_tasks};
use convert_facts::LineFault;
use std::alloc::{AllocError, Global};
use std::io;
use std::io::Write;
use text_bytes::Source;
use trace_data::Flaw;
use trace_file::{Files, Target};
use trace_options::{Fault, told_status};

/// The path of the event file of a runqueue.
fn path_of(alloc: Global, prefix: &str, runqueue: usize) -> Result<String, AllocError>
    ensures { IfOk result (λ path. string_bytes path ≡ event_path prefix.now runqueue) }
{
    format!(in alloc; "{prefix}.cpu{runqueue}.grub")
}

/// Those of so many runqueues.
fn paths_of(alloc: Global, prefix: &str, count: usize) -> Result<Vec<String>, AllocError>
    ensures { IfOk result (λ v. map string_bytes v.items ≡ event_paths prefix.now count) }
{
    let mut paths = Vec::new(alloc);
    for runqueue in 0..count {
        paths.push(path_of(alloc, prefix, runqueue)?)?;
    }
    Ok(paths)
}

/// The first of these paths at which there is something.
fn first_taken<X: Fn(&str) -> bool>(exists: &X, paths: &[String]) -> Option<usize>
    requires { X.IsAlwaysCallable exists.now }
    ensures { result ≡ None → AreFree X.Fn exists.now (map string_bytes paths.now) }
{
    for (i, path) in paths.iter().enumerate() {
        if exists(path.as_str()) {
            return Some(i);
        }
    }
    None
}

/// Makes a file at each of these paths.
fn write_files<'a, M: Fn(&str, &[u8]) -> io::Result<()>>(
    make: &M,
    paths: &[String],
    files: &[Vec<u8>],
) -> Result<(), Fault<'a>>
    requires callable { M.IsAlwaysCallable make.now }
    requires same { length paths.now ≡ length files.now }
    ensures { OnOk result
        (AreMade M.Fn make.now (map string_bytes paths.now) (contents files.now)) }
{
    for i in 0..files.len() {
        match make(paths[i].as_str(), files[i].as_slice()) {
            Ok(()) => {}
            Err(_) => return Err(Fault::Write),
        }
    }
    Ok(())
}

/// The fault of a trace that tells no event files, whose own lines have this one.
pub fn explain<'a>(fault: FilesFault<'a>, own: Option<LineFault>) -> Fault<'a> {
    match (fault, own) {
        (FilesFault::TooLong { line }, _) => Fault::Line {
            line,
            flaw: Flaw::TooLong,
        },
        (FilesFault::Line, Some(fault)) => fault_from(fault),
        (FilesFault::NoSuchTask { name }, _) => Fault::NoSuchTask { name },
        (FilesFault::NoText, _) => Fault::NoText,
        (FilesFault::NoMemory, _) | (FilesFault::Line, None) => Fault::NoMemory,
    }
}

/// Writes the event files of the trace of a name, none over a file that is there.
fn write_events<
    'a,
    D: Drop,
    O: Fn(&str) -> io::Result<D>,
    N: Fn(&mut D, &mut [u8]) -> io::Result<usize>,
    X: Fn(&str) -> bool,
    M: Fn(&str, &[u8]) -> io::Result<()>,
    R,
>(
    alloc: Global,
    source: &Source<O, N>,
    target: &Target<X, M, R>,
    path: &str,
    prefix: &'a str,
    options: &ConvertOptions<'a>,
) -> Result<(), Fault<'a>>
    requires open { O.IsAlwaysCallable source.now.open }
    requires read { N.IsAlwaysCallable source.now.read }
    requires exists { X.IsAlwaysCallable target.now.exists }
    requires make { M.IsAlwaysCallable target.now.make }
    ensures { OnOk result (MakesEvents X.Fn M.Fn target.now prefix.now) }
{
    let mut facts = read_facts(alloc, source, path, options)?;
    let files = match event_files(alloc, options, &facts) {
        Ok(files) => files,
        Err(fault) => return Err(explain(fault, facts.fault.take())),
    };
    let Ok(paths) = paths_of(alloc, prefix, files.len()) else {
        return Err(Fault::NoText);
    };
    if let Some(runqueue) = first_taken(&target.exists, &paths) {
        return Err(Fault::EventFileExists { prefix, runqueue });
    }
    write_files(&target.make, &paths, &files)
}

/// Prints the tasks that the trace of a name shows.
fn print_tasks<
    'a,
    D: Drop,
    O: Fn(&str) -> io::Result<D>,
    N: Fn(&mut D, &mut [u8]) -> io::Result<usize>,
    W: Write,
>(alloc: Global, source: &Source<O, N>, path: &str, out: &mut W) -> Result<(), Fault<'a>>
    requires open { O.IsAlwaysCallable source.now.open }
    requires read { N.IsAlwaysCallable source.now.read }
    ensures done { OnOk result (Prints (W.contents out.old) (W.contents out.new)) }
    ensures nothing { IfErr result (λ e. status_of e ≡ 1 → out.new ≡ out.old) }
{
    let tasks = read_tasks(alloc, source, path)?;
    let Ok(text) = tasks_text(alloc, &tasks) else {
        return Err(Fault::NoText);
    };
    if out.write_all(&text).is_err() || out.flush().is_err() {
        return Err(Fault::Write);
    }
    Ok(())
}

/// Prints the SCHED_DEADLINE tasks that the trace of a name shows, or the line of a fault, and gives the status.
pub fn serve_tasks<
    D: Drop,
    O: Fn(&str) -> io::Result<D>,
    N: Fn(&mut D, &mut [u8]) -> io::Result<usize>,
    W: Write,
    E: Write,
>(alloc: Global, source: &Source<O, N>, path: &str, out: &mut W, faults: &mut E) -> u8
    requires open { O.IsAlwaysCallable source.now.open }
    requires read { N.IsAlwaysCallable source.now.read }
    ensures status { (result ≡ 0) ⊎ (result ≡ STATUS_FILE) ⊎ (result ≡ STATUS_SYSTEM) }
    // At 0 a text was printed, and at 1 nothing was.
    ensures done { result ≡ 0 → Prints (W.contents out.old) (W.contents out.new) }
    ensures nothing { result ≡ 1 → out.new ≡ out.old }
{
    let done = print_tasks(alloc, source, path, out);
    told_status(done, path, faults)
}

/// Writes the event files of the trace of a name, or the line of a fault, and gives the status.
pub fn serve_events<
    D: Drop,
    O: Fn(&str) -> io::Result<D>,
    N: Fn(&mut D, &mut [u8]) -> io::Result<usize>,
    X: Fn(&str) -> bool,
    M: Fn(&str, &[u8]) -> io::Result<()>,
    R,
    E: Write,
>(
    alloc: Global,
    files: &Files<O, N, X, M, R>,
    path: &str,
    prefix: &str,
    options: &ConvertOptions<'_>,
    faults: &mut E,
) -> u8
    requires open { O.IsAlwaysCallable files.now.source.open }
    requires read { N.IsAlwaysCallable files.now.source.read }
    requires exists { X.IsAlwaysCallable files.now.target.exists }
    requires make { M.IsAlwaysCallable files.now.target.make }
    // At 0 the event files were made, each at a path where nothing was.
    ensures done { result ≡ 0 → MakesEvents X.Fn M.Fn files.now.target prefix.now }
    ensures status { (result ≡ 0) ⊎ (result ≡ STATUS_FILE) ⊎ (result ≡ STATUS_SYSTEM) }
{
    let done = write_events(alloc, &files.source, &files.target, path, prefix, options);
    told_status(done, path, faults)
}
