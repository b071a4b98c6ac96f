//! The program over its words and two writers.

ghost use Rattle.std.specs.Prelude.{◌≡◌, ◌≢◌, ◌≤◌, ◌⊎◌, IfOk};
ghost use Rattle.std.specs.IoError.{error_kind};
ghost use Rattle.std.specs.Io.KnownBytes.{Appends};
ghost use Rattle.clap.specs.Values.{kind_of};
ghost use Rattle.clap.specs.Words.{FailsBy, fault_of, found_of, matches_of, rows_of};
ghost use Rattle.clap.specs.declared.error.kind.ErrorKind.TheVariants as kinds;
ghost use Rattle.std.specs.declared.io.ErrorKind.TheVariants as io_kinds;
ghost use Rattle.grub_run.specs.Faults.{HasFileFault};
ghost use Rattle.grubrun.specs.CommandLine.{TriesNamed, command_line, files_named, texts_of};
ghost use Rattle.grubrun.specs.inside.Files.{names_among};
ghost use Rattle.grub_run.specs.Written.{Begins, Writes};
ghost use Rattle.grubrun.specs.Statuses.{AsksFor, HasNoSpan, IsWanted, PrintsAsked};
ghost use Rattle.grubrun.specs.inside.Statuses.{IsServed, PrintsKind};
ghost use Rattle.grubrun.specs.Views.{IsRefused, Wants};

use crate::command::{Options, options_of};
use crate::texts::{HELP, VERSION};
use crate::view::{Wanted, wanted_by};
use clap::Error;
use clap::error::ErrorKind;
use grub_run::{
    Attempts, GrubFault, ProgramFault, STATUS_FILE, STATUS_SYSTEM, STATUS_USAGE, Streams,
    serve_files, serve_view,
};
use std::alloc::Global;
use std::fmt::Display;
use std::io;
use std::io::Write;
use std::sync::Wait;
use std::thread::Threads;
use text_bytes::Source;

/// Runs the program on its words, the first of which is its name, and gives its status. Files are opened and read by
/// `source`. Reports and the help go to `out` of the streams, and the line of a fault to `faults`.
pub(crate) fn serve<
    R: Threads + Wait + Sync,
    D: Drop,
    O: Fn(&str) -> io::Result<D>,
    N: Fn(&mut D, &mut [u8]) -> io::Result<usize>,
    W: Write,
    E: Write,
>(rt: &R, alloc: Global, words: &[String], source: &Source<O, N>, streams: &mut Streams<W, E>) -> u8
    requires open { O.IsAlwaysCallable source.now.open }
    requires read { N.IsAlwaysCallable source.now.read }
    ensures status { result ≤ 3 }
    // On the status of a file's fault, and of a wrong command line, nothing was printed.
    ensures nothing { (result ≡ STATUS_FILE) ⊎ (result ≡ STATUS_USAGE)
        → streams.new.out ≡ streams.old.out }
    // The status of a file's fault comes only where, by what the calls of `source` may answer, a file that the words name is at fault.
    ensures file { result ≡ STATUS_FILE
        → HasFileFault O.Fn N.Fn source.now (files_named (texts_of words.now)) }
    // Right words are not answered as wrong, and are done once what they ask for is printed of the files that they name.
    ensures usage { result ≡ STATUS_USAGE → IsRefused (texts_of words.now)
        ⊎ AsksFor O.Fn N.Fn source.now HasNoSpan (texts_of words.now) }
    ensures done { result ≡ 0
        → IsRefused (texts_of words.now) ⊎ AsksFor O.Fn N.Fn source.now (λ wanted tries.
        Writes (IsWanted wanted tries) (W.contents streams.old.out) (W.contents streams.new.out))
        (texts_of words.now) }
    // Where the system failed on right words, nothing or a beginning of this was printed.
    ensures failed { result ≡ STATUS_SYSTEM → IsRefused (texts_of words.now)
        ⊎ (streams.new.out ≡ streams.old.out) ⊎ AsksFor O.Fn N.Fn source.now (λ wanted tries.
        Begins (IsWanted wanted tries) (W.contents streams.old.out) (W.contents streams.new.out))
        (texts_of words.now) }
    // Of the words that are refused, only those that ask for the help or the version are done, and it was printed.
    ensures help { IsRefused (texts_of words.now) → result ≡ 0
        → PrintsAsked (texts_of words.now) (W.contents streams.old.out)
        (W.contents streams.new.out) }
{
    match read_words(alloc, words) {
        Ok((options, wanted)) => serve_options(rt, alloc, &options, wanted, source, streams),
        Err(error) => serve_error(&error, streams),
    }
}

/// What the words say, and what they ask to be printed.
fn read_words<'a>(alloc: Global, words: &'a [String]) -> Result<(Options<'a>, Wanted), Error>
    ensures tries { IfOk result (λ r. TriesNamed (texts_of words.now) r.0.tries) }
    ensures wanted { IfOk result (λ r. Wants (texts_of words.now) r.1) }
    ensures matches { IfOk result (λ r. rows_of (found_of r.0.matches)
        ≡ matches_of command_line (texts_of words.now)) }
    ensures faults { FailsBy (fault_of command_line (texts_of words.now)) result }
{
    let options = options_of(alloc, words)?;
    let wanted = wanted_by(options.view, options.from, options.to);
    Ok((options, wanted))
}

/// Prints what right words ask for of the files that they name.
fn serve_options<
    R: Threads + Wait + Sync,
    D: Drop,
    O: Fn(&str) -> io::Result<D>,
    N: Fn(&mut D, &mut [u8]) -> io::Result<usize>,
    W: Write,
    E: Write,
>(
    rt: &R,
    alloc: Global,
    options: &Options<'_>,
    wanted: Wanted,
    source: &Source<O, N>,
    streams: &mut Streams<W, E>,
) -> u8
    requires open { O.IsAlwaysCallable source.now.open }
    requires read { N.IsAlwaysCallable source.now.read }
    ensures { IsServed O.Fn N.Fn source.now W.contents streams.old.out streams.new.out
        wanted options.now.tries (names_among (rows_of (found_of options.now.matches))) result }
{
    let paths = options.matches.get_strs("FILE").unwrap_or(&[]);
    match wanted {
        Wanted::Reports => {
            let attempts = Attempts {
                tries: options.tries,
                rounds: options.rounds,
            };
            serve_files(rt, alloc, attempts, source, paths, streams)
        }
        Wanted::View(view) => serve_view(rt, alloc, view, source, paths, streams),
        Wanted::NoView => mistake(
            "the views are 'timeline', 'steps', 'summary' and 'picture'",
            &mut streams.faults,
        ),
        Wanted::NoPicture => mistake(
            "'--from' and '--to' are the span of '--view picture'",
            &mut streams.faults,
        ),
        Wanted::EmptySpan { from, to } => mistake(
            ProgramFault::EmptySpan { from, to },
            &mut streams.faults,
        ),
    }
}

/// The line of a command line that is wrong.
fn mistake<T: Display + Copy, E: Write>(text: T, faults: &mut E) -> u8
    ensures { result ≡ STATUS_USAGE }
{
    let _ = writeln!(faults, "error: {text}");
    STATUS_USAGE
}

/// Prints a text that the words ask for.
fn show<W: Write, E: Write>(text: &str, streams: &mut Streams<W, E>) -> u8
    ensures status { (result ≡ 0) ⊎ (result ≡ STATUS_SYSTEM) }
    ensures shown { result ≡ 0
        → Appends (W.contents streams.old.out) (W.contents streams.new.out) text.now }
{
    let Streams { out, faults } = streams;
    if out.write_all(text.as_bytes()).is_err() || out.flush().is_err() {
        let _ = writeln!(faults, "grubrun: {}", GrubFault::WriteFault);
        return STATUS_SYSTEM;
    }
    0
}

/// The text of the command line's fault, or the text that the words ask for.
fn serve_error<W: Write, E: Write>(error: &Error, streams: &mut Streams<W, E>) -> u8
    ensures memory { kind_of error.now ≡ kinds.OutOfMemory
        → (result ≡ STATUS_SYSTEM) × (streams.new.out ≡ streams.old.out) }
    ensures shown { result ≡ 0
        → PrintsKind (kind_of error.now) (W.contents streams.old.out)
        (W.contents streams.new.out) }
    ensures status { (result ≡ 0) ⊎ (result ≡ STATUS_USAGE) ⊎ (result ≡ STATUS_SYSTEM) }
    ensures nothing { result ≡ STATUS_USAGE → streams.new.out ≡ streams.old.out }
    ensures system { result ≡ STATUS_SYSTEM → (kind_of error.now ≡ kinds.OutOfMemory)
        ⊎ (kind_of error.now ≡ kinds.DisplayHelp) ⊎ (kind_of error.now ≡ kinds.DisplayVersion) }
{
    match error.kind() {
        ErrorKind::OutOfMemory => {
            let _ = writeln!(streams.faults, "grubrun: {}", ProgramFault::NoMemory);
            STATUS_SYSTEM
        }
        ErrorKind::DisplayHelp => show(HELP, streams),
        ErrorKind::DisplayVersion => show(VERSION, streams),
        _ => {
            let _ = write!(streams.faults, "{error}");
            STATUS_USAGE
        }
    }
}

/// The line where the words could not be had: memory was refused, or they are no text.
pub(crate) fn serve_no_words<E: Write>(error: &io::Error, faults: &mut E) -> u8
    ensures memory { error_kind error.now ≡ io_kinds.OutOfMemory → result ≡ STATUS_SYSTEM }
    ensures mistake { error_kind error.now ≢ io_kinds.OutOfMemory → result ≡ STATUS_USAGE }
{
    if error.kind() == io::ErrorKind::OutOfMemory {
        let _ = writeln!(faults, "grubrun: {}", ProgramFault::NoMemory);
        return STATUS_SYSTEM;
    }
    let _ = writeln!(faults, "error: the arguments are no text");
    STATUS_USAGE
}
