//! The program over its words and two writers.

ghost use Rattle.std.specs.Prelude.{◌≡◌, ◌≤◌, ◌⊎◌};
ghost use Rattle.trace_options.specs.declared.fault.TheConstants.{STATUS_SYSTEM, STATUS_USAGE};

use crate::command::command_line;
use crate::refusal::Refusal;
use clap::error::ErrorKind;
use clap::{ArgMatches, Error};
use convert::{ConvertOptions, options_of, serve_events, serve_tasks};
use law_verdict::{FigureText, print_figures};
use size_report::{SizeWords, serve_size, size_options_of};
use std::alloc::{AllocError, Global};
use std::io;
use std::io::Write;
use text_bytes::Source;
use trace_check::{
    AskedLaws, CheckOption, CheckRequest, CheckWords, Window, WrongOption, laws_of,
    options_of as check_options, serve_check, window_of,
};
use trace_file::Files;
use trace_options::{Fault, STATUS_USAGE};

/// How many percent more than the least runtime are proposed, where the words do not say it.
const MARGIN: u32 = 10;

/// How far a moment may lie from the kernel's, in microseconds, where the words of `check` do not say it.
const WITHIN: u32 = 20;

/// What the words match.
fn matches_of<'a>(alloc: Global, words: &'a [String]) -> Result<ArgMatches<'a>, Error> {
    command_line(alloc)?.try_get_matches_from(words)
}

/// Runs the program on its words, the first of which is its name, and gives its status.
pub(crate) fn serve<
    D: Drop,
    O: Fn(&str) -> io::Result<D>,
    N: Fn(&mut D, &mut [u8]) -> io::Result<usize>,
    X: Fn(&str) -> bool,
    M: Fn(&str, &[u8]) -> io::Result<()>,
    R: Fn(&str),
    W: Write,
    E: Write,
>(alloc: Global, words: &[String], files: &Files<O, N, X, M, R>, out: &mut W, faults: &mut E) -> u8
    requires open { O.IsAlwaysCallable files.now.source.open }
    requires read { N.IsAlwaysCallable files.now.source.read }
    requires exists { X.IsAlwaysCallable files.now.target.exists }
    requires make { M.IsAlwaysCallable files.now.target.make }
    requires remove { R.IsAlwaysCallable files.now.target.remove }
    ensures status { result ≤ 5 }
    // Where the trace is at fault, or the words are, nothing was printed.
    ensures nothing { (result ≡ 1) ⊎ (result ≡ 2) → out.new ≡ out.old }
{
    match matches_of(alloc, words) {
        Ok(matches) => serve_command(alloc, &matches, files, out, faults),
        Err(error) => serve_error(&error, out, faults),
    }
}

/// Runs the command that the words name.
fn serve_command<
    D: Drop,
    O: Fn(&str) -> io::Result<D>,
    N: Fn(&mut D, &mut [u8]) -> io::Result<usize>,
    X: Fn(&str) -> bool,
    M: Fn(&str, &[u8]) -> io::Result<()>,
    R: Fn(&str),
    W: Write,
    E: Write,
>(
    alloc: Global,
    matches: &ArgMatches<'_>,
    files: &Files<O, N, X, M, R>,
    out: &mut W,
    faults: &mut E,
) -> u8
    requires open { O.IsAlwaysCallable files.now.source.open }
    requires read { N.IsAlwaysCallable files.now.source.read }
    requires exists { X.IsAlwaysCallable files.now.target.exists }
    requires make { M.IsAlwaysCallable files.now.target.make }
    requires remove { R.IsAlwaysCallable files.now.target.remove }
    ensures status { result ≤ 5 }
    ensures nothing { (result ≡ 1) ⊎ (result ≡ 2) → out.new ≡ out.old }
{
    match matches.subcommand() {
        Some(("events", matches)) => events(alloc, matches, files, faults),
        Some(("check", matches)) => check(alloc, matches, files, out, faults),
        Some(("size", matches)) => size(alloc, matches, files, out, faults),
        Some((_, matches)) => {
            let path = matches.get_str("TRACE").unwrap_or("");
            let status = serve_tasks(alloc, &files.source, path, out, faults);
            if status == 0 {
                figures(alloc, &files.source, path, FigureText::Tasks, out, faults)
            } else {
                status
            }
        }
        None => STATUS_USAGE,
    }
}

/// Prints figures of the tasks of a trace below what was printed.
fn figures<
    D: Drop,
    O: Fn(&str) -> io::Result<D>,
    N: Fn(&mut D, &mut [u8]) -> io::Result<usize>,
    W: Write,
    E: Write,
>(
    alloc: Global,
    source: &Source<O, N>,
    path: &str,
    wanted: FigureText,
    out: &mut W,
    faults: &mut E,
) -> u8
    requires open { O.IsAlwaysCallable source.now.open }
    requires read { N.IsAlwaysCallable source.now.read }
    ensures { (result ≡ 0) ⊎ (result ≡ STATUS_SYSTEM) }
{
    if print_figures(alloc, source, path, wanted, out) {
        return 0;
    }
    write_fault(faults)
}

fn write_fault<E: Write>(faults: &mut E) -> u8
    ensures { result ≡ STATUS_SYSTEM }
{
    Fault::Write.told("", faults)
}

fn no_memory<E: Write>(faults: &mut E) -> u8
    ensures { result ≡ STATUS_SYSTEM }
{
    Fault::NoMemory.told("", faults)
}

/// Writes the event files that the words of `events` ask for.
fn events<
    D: Drop,
    O: Fn(&str) -> io::Result<D>,
    N: Fn(&mut D, &mut [u8]) -> io::Result<usize>,
    X: Fn(&str) -> bool,
    M: Fn(&str, &[u8]) -> io::Result<()>,
    R: Fn(&str),
    E: Write,
>(alloc: Global, matches: &ArgMatches<'_>, files: &Files<O, N, X, M, R>, faults: &mut E) -> u8
    requires open { O.IsAlwaysCallable files.now.source.open }
    requires read { N.IsAlwaysCallable files.now.source.read }
    requires exists { X.IsAlwaysCallable files.now.target.exists }
    requires make { M.IsAlwaysCallable files.now.target.make }
    requires remove { R.IsAlwaysCallable files.now.target.remove }
    ensures { result ≤ 5 }
{
    let path = matches.get_str("TRACE").unwrap_or("");
    let prefix = matches.get_str("out").unwrap_or("");
    match options_in(alloc, matches) {
        Ok(Ok(options)) => serve_events(alloc, files, path, prefix, &options, faults),
        Ok(Err(wrong)) => Refusal::OfEvents(wrong).told(faults),
        Err(_) => no_memory(faults),
    }
}

/// Prints the verdict that the words of `check` ask for.
fn check<
    D: Drop,
    O: Fn(&str) -> io::Result<D>,
    N: Fn(&mut D, &mut [u8]) -> io::Result<usize>,
    X: Fn(&str) -> bool,
    M: Fn(&str, &[u8]) -> io::Result<()>,
    R: Fn(&str),
    W: Write,
    E: Write,
>(
    alloc: Global,
    matches: &ArgMatches<'_>,
    files: &Files<O, N, X, M, R>,
    out: &mut W,
    faults: &mut E,
) -> u8
    requires open { O.IsAlwaysCallable files.now.source.open }
    requires read { N.IsAlwaysCallable files.now.source.read }
    requires exists { X.IsAlwaysCallable files.now.target.exists }
    requires make { M.IsAlwaysCallable files.now.target.make }
    requires remove { R.IsAlwaysCallable files.now.target.remove }
    ensures status { result ≤ 5 }
    ensures nothing { (result ≡ 1) ⊎ (result ≡ 2) → out.new ≡ out.old }
{
    let tasks = matches.get_strs("task").unwrap_or(&[]);
    let words = CheckWords {
        tasks,
        cpus: matches.get_one::<u32>("cpus"),
        domain: matches.get_str("domain"),
        rt: matches.get_str("rt"),
        fair: matches.get_str("fair-server"),
        kernel: matches.get_str("kernel"),
        within: matches.get_one::<u32>("within").unwrap_or(WITHIN),
        by_documentation: matches.get_str("by") == Some("documentation"),
        by_timers: matches.get_flag("timers"),
        explains: matches.get_flag("why"),
    };
    let json = matches.get_str("json");
    let picture = matches.get_str("picture");
    let window = match window_in(matches, json.is_some() || picture.is_some()) {
        Ok(window) => window,
        Err(wrong) => return Refusal::OfCheck(wrong).told(faults),
    };
    let law_names = matches.get_str("laws");
    let Some(laws) = laws_in(law_names) else {
        return Refusal::Laws(law_names.unwrap_or("")).told(faults);
    };
    let wanted = CheckRequest {
        path: matches.get_str("TRACE").unwrap_or(""),
        table: matches.get_str("table"),
        json,
        picture,
        report: matches.get_str("report"),
        window,
        laws,
    };
    match check_options(alloc, words) {
        Ok(Ok(options)) => serve_check(alloc, files, wanted, &options, out, faults),
        Ok(Err(wrong)) => Refusal::OfCheck(wrong).told(faults),
        Err(_) => no_memory(faults),
    }
}

/// The laws that `--laws` asks: all where it is not given.
fn laws_in(word: Option<&str>) -> Option<AskedLaws> {
    match word {
        Some(word) => laws_of(word),
        None => Some(AskedLaws::all()),
    }
}

/// The part of the record that `--from` and `--to` name, which only states have.
fn window_in<'a>(matches: &ArgMatches<'a>, shows_states: bool) -> Result<Window, WrongOption<'a>> {
    let from = matches.get_str("from");
    let to = matches.get_str("to");
    match (from, to) {
        (Some(value), _) if !shows_states => Err(WrongOption {
            option: CheckOption::From,
            value,
        }),
        (_, Some(value)) if !shows_states => Err(WrongOption {
            option: CheckOption::To,
            value,
        }),
        _ => window_of(from, to),
    }
}

/// What the words of `events` say of the tasks and the runqueues, or the first of them that is wrong.
fn options_in<'a>(
    alloc: Global,
    matches: &ArgMatches<'a>,
) -> Result<Result<ConvertOptions<'a>, WrongOption<'a>>, AllocError> {
    let tasks = matches.get_strs("task").unwrap_or(&[]);
    options_of(
        alloc,
        tasks,
        matches.get_one::<u32>("cpus"),
        matches.get_str("rt"),
        matches.get_str("fair-server"),
    )
}

/// Prints the tasks of a trace, or the reservations that the words of `size` ask for.
fn size<
    D: Drop,
    O: Fn(&str) -> io::Result<D>,
    N: Fn(&mut D, &mut [u8]) -> io::Result<usize>,
    X: Fn(&str) -> bool,
    M: Fn(&str, &[u8]) -> io::Result<()>,
    R: Fn(&str),
    W: Write,
    E: Write,
>(
    alloc: Global,
    matches: &ArgMatches<'_>,
    files: &Files<O, N, X, M, R>,
    out: &mut W,
    faults: &mut E,
) -> u8
    requires open { O.IsAlwaysCallable files.now.source.open }
    requires read { N.IsAlwaysCallable files.now.source.read }
    requires exists { X.IsAlwaysCallable files.now.target.exists }
    requires make { M.IsAlwaysCallable files.now.target.make }
    requires remove { R.IsAlwaysCallable files.now.target.remove }
    ensures status { result ≤ 5 }
    ensures nothing { (result ≡ 1) ⊎ (result ≡ 2) → out.new ≡ out.old }
{
    let path = matches.get_str("TRACE").unwrap_or("");
    let tasks = matches.get_strs("task").unwrap_or(&[]);
    let withins = matches.get_strs("within").unwrap_or(&[]);
    let words = SizeWords {
        tasks,
        withins,
        late: matches.get_one::<u32>("late").unwrap_or(0),
        margin: matches.get_one::<u32>("margin").unwrap_or(MARGIN),
        cpus: matches.get_one::<u32>("cpus"),
        rt: matches.get_str("rt").unwrap_or(""),
        fair: matches.get_str("fair-server").unwrap_or(""),
        picture: matches.get_str("picture"),
    };
    match size_options_of(alloc, words) {
        Ok(Ok(options)) => {
            let status = serve_size(alloc, files, path, &options, out, faults);
            if status == 0 {
                figures(alloc, &files.source, path, FigureText::Supply, out, faults)
            } else {
                status
            }
        }
        Ok(Err(wrong)) => Refusal::OfSize(wrong).told(faults),
        Err(_) => no_memory(faults),
    }
}

/// The text of the command line's fault, or the text that the words ask for.
fn serve_error<W: Write, E: Write>(error: &Error, out: &mut W, faults: &mut E) -> u8
    ensures status { (result ≡ 0) ⊎ (result ≡ STATUS_USAGE) ⊎ (result ≡ STATUS_SYSTEM) }
    ensures nothing { result ≡ STATUS_USAGE → out.new ≡ out.old }
{
    match error.kind() {
        ErrorKind::OutOfMemory => no_memory(faults),
        ErrorKind::DisplayHelp | ErrorKind::DisplayVersion => {
            if write!(out, "{error}").is_err() || out.flush().is_err() {
                return write_fault(faults);
            }
            0
        }
        _ => {
            let _ = write!(faults, "{error}");
            STATUS_USAGE
        }
    }
}

/// The line where the words could not be had: memory was refused, or they are no text.
pub(crate) fn serve_no_words<E: Write>(error: &io::Error, faults: &mut E) -> u8
    ensures { (result ≡ STATUS_USAGE) ⊎ (result ≡ STATUS_SYSTEM) }
{
    if error.kind() == io::ErrorKind::OutOfMemory {
        return no_memory(faults);
    }
    let _ = faults.write_all(b"error: the arguments are no text\n");
    STATUS_USAGE
}
