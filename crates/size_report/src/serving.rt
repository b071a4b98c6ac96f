//! What the program does with a record: it lists its tasks, or sizes some of them.

ghost use Rattle.std.specs.Prelude.{◌≡◌, ◌<◌, ◌⊎◌, IfErr, IfOk, OnOk, length};
ghost use Rattle.std.specs.Io.KnownBytes.{Appends};
ghost use Rattle.size_jobs.specs.Taking.{tasks_of};
ghost use Rattle.trace_file.specs.Reading.{IsSoOf};
ghost use Rattle.size_report.specs.Answers.{IsAnswer, IsWith, PrintsFor, domain_of};
ghost use Rattle.size_report.specs.Faults.{PrintsWhole};
ghost use Rattle.size_report.specs.Options.{said_by};
ghost use Rattle.size_report.specs.inside.Sections.{sections_in};
ghost use Rattle.trace_options.specs.Faults.{status_of};
ghost use Rattle.trace_options.specs.declared.fault.TheConstants.{STATUS_FILE, STATUS_SYSTEM};

use crate::census::{census_text, duration};
use crate::options::SizeOptions;
use crate::picture::picture_of;
use crate::reading::read_record;
use crate::sections::{SizeSections, sections_of};
use size_admission::{RootDomain, put_proposals};
use size_jobs::JobRecord;
use std::alloc::{AllocError, Global};
use std::io;
use std::io::Write;
use trace_file::Files;
use trace_options::Fault;

fn machine_of(record: &JobRecord, options: &SizeOptions<'_>) -> RootDomain
    ensures { result ≡ domain_of (said_by options.now) record.now.processors }
{
    RootDomain {
        processors: options.cpus.unwrap_or(record.processors),
        most: options.most,
        fair: options.fair,
    }
}

fn print<'a, W: Write>(out: &mut W, text: &[u8]) -> Result<(), Fault<'a>>
    ensures fault { IfErr result (λ e. status_of e ≡ STATUS_SYSTEM) }
    ensures whole { OnOk result (Appends (W.contents out.old) (W.contents out.new) text.now) }
{
    if out.write_all(text).is_err() || out.flush().is_err() {
        return Err(Fault::Write);
    }
    Ok(())
}

/// What is printed, and the picture where one is asked for.
#[derive(Drop)]
struct SizeAnswer {
    text: Vec<u8>,
    picture: Option<Vec<u8>>,
}

fn answer_of<'a>(
    alloc: Global,
    record: &JobRecord,
    options: &SizeOptions<'a>,
) -> Result<SizeAnswer, Fault<'a>>
    ensures { 0 < length (said_by options.now).tasks → IfOk result (λ a. IsAnswer (said_by options.now)
        (tasks_of record.now.tasks) record.now.processors a.text.items) }
{
    if options.tasks.is_empty() {
        let Ok(text) = census_text(alloc, record) else {
            return Err(Fault::NoText);
        };
        return Ok(SizeAnswer {
            text,
            picture: None,
        });
    }
    let sections = sections_of(alloc, record, options)?;
    let Ok(answer) = answer_in(sections, record, options) else {
        return Err(Fault::NoText);
    };
    Ok(answer)
}

/// What sections come to: all proposals together stand below them.
fn answer_in(
    sections: SizeSections,
    record: &JobRecord,
    options: &SizeOptions<'_>,
) -> Result<SizeAnswer, AllocError>
    ensures { IfOk result (λ a. IsWith (domain_of (said_by options.now) record.now.processors)
        (sections_in sections) a.text.items) }
{
    let SizeSections {
        mut text,
        proposals,
        drawn,
    } = sections;
    let alloc = *text.allocator();
    if !proposals.is_empty() {
        put_proposals(&mut text, &proposals, machine_of(record, options))?;
    }
    let picture = if options.picture.is_some() {
        Some(picture_of(alloc, &drawn, duration(record))?)
    } else {
        None
    };
    Ok(SizeAnswer { text, picture })
}

/// Writes the picture, where one is asked for.
fn write_picture<'a, M: Fn(&str, &[u8]) -> io::Result<()>>(
    make: &M,
    path: Option<&'a str>,
    picture: &Option<Vec<u8>>,
) -> Result<(), Fault<'a>>
    requires make { M.IsAlwaysCallable make.now }
    ensures { IfErr result (λ e. status_of e ≡ STATUS_SYSTEM) }
{
    if let Some(path) = path
        && let Some(text) = picture
        && make(path, text.as_slice()).is_err()
    {
        return Err(Fault::Write);
    }
    Ok(())
}

fn size<
    'a,
    D: Drop,
    O: Fn(&str) -> io::Result<D>,
    N: Fn(&mut D, &mut [u8]) -> io::Result<usize>,
    X: Fn(&str) -> bool,
    M: Fn(&str, &[u8]) -> io::Result<()>,
    R,
    W: Write,
>(
    alloc: Global,
    files: &Files<O, N, X, M, R>,
    path: &str,
    options: &SizeOptions<'a>,
    out: &mut W,
) -> Result<(), Fault<'a>>
    requires open { O.IsAlwaysCallable files.now.source.open }
    requires read { N.IsAlwaysCallable files.now.source.read }
    requires exists { X.IsAlwaysCallable files.now.target.exists }
    requires make { M.IsAlwaysCallable files.now.target.make }
    ensures fault { IfErr result (λ e. status_of e ≡ STATUS_FILE → out.new ≡ out.old) }
    ensures whole { OnOk result (PrintsWhole (W.contents out.old) (W.contents out.new)) }
    ensures sized { OnOk result (IsSoOf O.Fn files.now.source.open N.Fn files.now.source.read path.now
        (PrintsFor (said_by options.now) (W.contents out.old) (W.contents out.new))) }
{
    let exists = &files.target.exists;
    if let Some(path) = options.picture
        && exists(path)
    {
        return Err(Fault::FileExists { path });
    }
    let record = read_record(alloc, &files.source, path)?;
    let answer = answer_of(alloc, &record, options)?;
    write_picture(&files.target.make, options.picture, &answer.picture)?;
    print(out, &answer.text)
}

/// Lists the tasks of the trace of a name, or sizes those that are asked for, or tells a fault, and gives the status. Where a picture
/// is asked for, its file is made before anything is printed; a file that is there is not written over.
pub fn serve_size<
    D: Drop,
    O: Fn(&str) -> io::Result<D>,
    N: Fn(&mut D, &mut [u8]) -> io::Result<usize>,
    X: Fn(&str) -> bool,
    M: Fn(&str, &[u8]) -> io::Result<()>,
    R,
    W: Write,
    E: Write,
>(
    alloc: Global,
    files: &Files<O, N, X, M, R>,
    path: &str,
    options: &SizeOptions<'_>,
    out: &mut W,
    faults: &mut E,
) -> u8
    requires open { O.IsAlwaysCallable files.now.source.open }
    requires read { N.IsAlwaysCallable files.now.source.read }
    requires exists { X.IsAlwaysCallable files.now.target.exists }
    requires make { M.IsAlwaysCallable files.now.target.make }
    ensures status { (result ≡ 0) ⊎ (result ≡ STATUS_FILE) ⊎ (result ≡ STATUS_SYSTEM) }
    // Where the trace is at fault nothing was printed.
    ensures nothing { result ≡ STATUS_FILE → out.new ≡ out.old }
    // With status 0 the whole answer was printed, and nothing else.
    ensures whole { result ≡ 0 → PrintsWhole (W.contents out.old) (W.contents out.new) }
    // It is the answer for the jobs of the text that was read.
    ensures sized { result ≡ 0 → IsSoOf O.Fn files.now.source.open N.Fn files.now.source.read path.now
        (PrintsFor (said_by options.now) (W.contents out.old) (W.contents out.new)) }
{
    match size(alloc, files, path, options, out) {
        Ok(()) => 0,
        Err(fault) => fault.told(path, faults),
    }
}
