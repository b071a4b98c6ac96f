//! A record is read, played, and judged.

ghost use Rattle.std.specs.Prelude.{◌≡◌, ◌⊎◌, IfOk, IsOkAnd, IsTrue, false, true};
ghost use Rattle.trace_file.specs.Reading.{IsSoOf};
ghost use Rattle.check_record.specs.Explains.{IsAgreedBy};
ghost use Rattle.check_record.specs.Seen.{NothingDiffers};
ghost use Rattle.trace_check.specs.Timed.{IsTimed, IsTimedBy, shows_states};
ghost use Rattle.trace_options.specs.declared.fault.TheConstants.{STATUS_DIFFERS, STATUS_FILE, STATUS_LAW, STATUS_SYSTEM, STATUS_USAGE};

use crate::by_laws::{laws_alone, with_laws};
use crate::by_probes::{put_probe_explanation, verdict_by_probes};
use crate::by_timers::timer_verdict;
use crate::evidence::Sought;
use crate::files::{first_there, make_all};
use crate::reports::{put_evidence_of, with_report};
use crate::showing::Documents;
use crate::warnings::with_warnings;
use check_record::{Gathering, RecordRequest, gathered_whole};
use check_report::CheckReport;
use law_findings::AskedLaws;
use std::alloc::Global;
use std::io;
use std::io::Write;
use trace_data::Flaw;
use trace_file::Files;
use trace_options::{CheckOptions, Fault, STATUS_DIFFERS, STATUS_LAW, STATUS_USAGE, Window};

/// What is wanted of a check.
#[derive(Clone, Copy)]
pub struct CheckRequest<'a> {
    pub path: &'a str,

    /// Where the table is to be written, the states as JSON, and their picture.
    pub table: Option<&'a str>,
    pub json: Option<&'a str>,
    pub picture: Option<&'a str>,

    /// Where the verdict is to be written as JSON.
    pub report: Option<&'a str>,

    /// The part of the record whose states are written.
    pub window: Window,

    /// The laws that the record is held to.
    pub laws: AskedLaws,
}

impl<'a> CheckRequest<'a> {
    /// Whether states are wanted.
    pub fn shows(self) -> bool
        ensures { result ≡ shows_states self.entry }
    {
        self.json.is_some() || self.picture.is_some()
    }
}

/// A verdict: its text, whether the kernel agrees, the table that was wanted, and the states; none where the window has none.
#[derive(Drop)]
pub(crate) struct Verdict {
    pub agrees: bool,

    /// No law is broken but by known faults.
    pub keeps_laws: bool,
    pub text: Vec<u8>,
    pub table: Vec<u8>,
    pub shown: Option<Documents>,

    /// What its report has so far, and the report as it is written.
    pub report: CheckReport,
    pub reported: Vec<u8>,
}

/// The verdict by timers: a fault where the limit was changed meanwhile, or lines were lost.
fn verdict_without_loss<'o>(
    alloc: Global,
    wanted: CheckRequest<'_>,
    options: &CheckOptions<'o>,
    gathering: &mut Gathering<'o>,
) -> Result<Verdict, Fault<'o>>
    ensures timed { IfOk result (λ v. IsTrue v.agrees → IsTimed options.now gathering.old true) }
    ensures differs { IfOk result (λ v.
        v.agrees ≡ false → IsTimed options.now gathering.old false) }
{
    match (gathering.changed_line(), gathering.losing_line()) {
        (Some(line), _) => Err(Fault::Changed { line }),
        (None, Some(line)) => Err(Fault::Line {
            line,
            flaw: Flaw::LostEvents,
        }),
        (None, None) => timer_verdict(alloc, wanted, options, gathering),
    }
}

/// The verdict on what was gathered, by the rules.
#[tactic(auto, using(crate::proofs::TimedLemmas::moved, crate::proofs::TimedLemmas::not_timed))]
fn verdict_by_rules<'o>(
    alloc: Global,
    wanted: CheckRequest<'_>,
    options: &CheckOptions<'o>,
    gathering: &mut Gathering<'o>,
) -> Result<Verdict, Fault<'o>>
    ensures agrees { IfOk result (λ v.
        IsTrue v.agrees → NothingDiffers options.now gathering.old) }
    ensures timed { IfOk result (λ v. IsTrue v.agrees → IsTimed options.now gathering.old true) }
    ensures differs { IfOk result (λ v.
        v.agrees ≡ false → IsTimed options.now gathering.old false) }
{
    match verdict_by_probes(alloc, wanted, options, gathering)? {
        Some(verdict) => Ok(verdict),
        None => verdict_without_loss(alloc, wanted, options, gathering),
    }
}

/// The verdict on the trace of a path.
fn verdict_of<
    'o,
    D: Drop,
    O: Fn(&str) -> io::Result<D>,
    N: Fn(&mut D, &mut [u8]) -> io::Result<usize>,
>(
    alloc: Global,
    opens: &O,
    read: &N,
    wanted: CheckRequest<'o>,
    options: &'o CheckOptions<'o>,
) -> Result<Verdict, Fault<'o>>
    requires opens { O.IsAlwaysCallable opens.now }
    requires read { N.IsAlwaysCallable read.now }
    ensures agrees { IfOk result (λ v. IsTrue v.agrees → IsTrue v.keeps_laws →
        IsSoOf O.Fn opens.now N.Fn read.now wanted.entry.path.now
        (IsAgreedBy options.entry.now (shows_states wanted.entry))) }
    ensures timed { IfOk result (λ v. IsTrue v.agrees → IsTrue v.keeps_laws → IsSoOf O.Fn opens.now
        N.Fn read.now wanted.entry.path.now (IsTimedBy options.entry.now (shows_states wanted.entry) true)) }
    ensures differs { IfOk result (λ v. v.agrees ≡ false → IsSoOf O.Fn opens.now
        N.Fn read.now wanted.entry.path.now (IsTimedBy options.entry.now (shows_states wanted.entry) false)) }
{
    let request = RecordRequest {
        path: wanted.path,
        keeps_rows: wanted.table.is_some(),
        keeps_timers: wanted.shows(),
        laws: wanted.laws,
    };
    let mut gathering = gathered_whole(alloc, opens, read, request, options)?;
    verdict_on(alloc, opens, read, wanted, options, &mut gathering)
}

/// The verdict on what was gathered, with its report and what the kernel's log warned of.
fn verdict_on<
    'o,
    D: Drop,
    O: Fn(&str) -> io::Result<D>,
    N: Fn(&mut D, &mut [u8]) -> io::Result<usize>,
>(
    alloc: Global,
    opens: &O,
    read: &N,
    wanted: CheckRequest<'o>,
    options: &CheckOptions<'o>,
    gathering: &mut Gathering<'o>,
) -> Result<Verdict, Fault<'o>>
    requires opens { O.IsAlwaysCallable opens.now }
    requires read { N.IsAlwaysCallable read.now }
    ensures agrees { IfOk result (λ v. IsTrue v.agrees → IsTrue v.keeps_laws →
        NothingDiffers options.now gathering.old) }
    ensures timed { IfOk result (λ v. IsTrue v.agrees → IsTrue v.keeps_laws →
        IsTimed options.now gathering.old true) }
    ensures differs { IfOk result (λ v.
        v.agrees ≡ false → IsTimed options.now gathering.old false) }
{
    let verdict = judged(alloc, opens, read, wanted, options, gathering)?;
    with_notes(alloc, wanted, options, gathering, verdict)
}

/// A verdict with its report, where that is wanted, and with what the kernel's log warned of.
fn with_notes<'o>(
    alloc: Global,
    wanted: CheckRequest<'_>,
    options: &CheckOptions<'_>,
    gathering: &Gathering<'_>,
    verdict: Verdict,
) -> Result<Verdict, Fault<'o>>
    ensures agrees { IfOk result (λ v. v.agrees ≡ verdict.agrees) }
    ensures laws { IfOk result (λ v. v.keeps_laws ≡ verdict.keeps_laws) }
{
    let verdict = with_report(alloc, wanted, options, gathering, verdict)?;
    with_warnings(verdict, &gathering.warnings)
}

/// The verdict on what was gathered, by rules and laws.
fn judged<'o, D: Drop, O: Fn(&str) -> io::Result<D>, N: Fn(&mut D, &mut [u8]) -> io::Result<usize>>(
    alloc: Global,
    opens: &O,
    read: &N,
    wanted: CheckRequest<'o>,
    options: &CheckOptions<'o>,
    gathering: &mut Gathering<'o>,
) -> Result<Verdict, Fault<'o>>
    requires opens { O.IsAlwaysCallable opens.now }
    requires read { N.IsAlwaysCallable read.now }
    ensures agrees { IfOk result (λ v. IsTrue v.agrees → IsTrue v.keeps_laws →
        NothingDiffers options.now gathering.old) }
    ensures timed { IfOk result (λ v. IsTrue v.agrees → IsTrue v.keeps_laws →
        IsTimed options.now gathering.old true) }
    ensures differs { IfOk result (λ v.
        v.agrees ≡ false → IsTimed options.now gathering.old false) }
{
    match verdict_by_rules(alloc, wanted, options, gathering) {
        Ok(verdict) => {
            let verdict = with_evidence(alloc, opens, read, wanted, gathering, verdict)?;
            with_laws(alloc, gathering, verdict)
        }
        Err(Fault::NothingCompared { why }) => laws_alone(alloc, gathering, why),
        Err(fault) => Err(fault),
    }
}

/// A verdict by probes that differs, with what speaks for it.
fn with_evidence<
    'o,
    D: Drop,
    O: Fn(&str) -> io::Result<D>,
    N: Fn(&mut D, &mut [u8]) -> io::Result<usize>,
>(
    alloc: Global,
    opens: &O,
    read: &N,
    wanted: CheckRequest<'o>,
    gathering: &Gathering<'o>,
    mut verdict: Verdict,
) -> Result<Verdict, Fault<'o>>
    requires opens { O.IsAlwaysCallable opens.now }
    requires read { N.IsAlwaysCallable read.now }
    ensures { IfOk result (λ v. v.agrees ≡ verdict.agrees) }
{
    let options = gathering.options();
    if verdict.agrees || options.by_timers {
        return Ok(verdict);
    }
    put_sought(alloc, opens, read, wanted, gathering, &mut verdict)?;
    put_probe_explanation(alloc, &mut verdict.text, options, gathering)?;
    Ok(verdict)
}

/// Appends what speaks for the first deviation, from the lines of a trace that can be read again.
fn put_sought<
    'o,
    D: Drop,
    O: Fn(&str) -> io::Result<D>,
    N: Fn(&mut D, &mut [u8]) -> io::Result<usize>,
>(
    alloc: Global,
    opens: &O,
    read: &N,
    wanted: CheckRequest<'o>,
    gathering: &Gathering<'o>,
    verdict: &mut Verdict,
) -> Result<(), Fault<'o>>
    requires opens { O.IsAlwaysCallable opens.now }
    requires read { N.IsAlwaysCallable read.now }
    ensures { verdict.new.agrees ≡ verdict.old.agrees }
{
    let Some(played) = &gathering.probes.played else {
        return Ok(());
    };
    let Some(mut sought) = Sought::of(alloc, played) else {
        return Ok(());
    };
    if wanted.path != "-"
        && let Ok(mut file) = opens(wanted.path)
    {
        sought.read(alloc, read, &mut file)?;
    }
    put_evidence_of(alloc, verdict, sought.evidence())
}

/// The files of a verdict: none is written where one of them cannot be.
fn write_files<'o, M: Fn(&str, &[u8]) -> io::Result<()>, R: Fn(&str)>(
    make: &M,
    remove: &R,
    wanted: CheckRequest<'o>,
    verdict: &Verdict,
    shown: &Documents,
) -> Result<(), Fault<'o>>
    requires make { M.IsAlwaysCallable make.now }
    requires remove { R.IsAlwaysCallable remove.now }
{
    let files = [
        (wanted.table, verdict.table.as_slice()),
        (wanted.json, shown.json.as_slice()),
        (wanted.picture, shown.picture.as_slice()),
        (wanted.report, verdict.reported.as_slice()),
    ];
    make_all(make, remove, &files)
}

/// The status of a verdict: a deviation from the rules stands above a law that is broken.
fn status_of(verdict: &Verdict) -> u8
    ensures agrees { result ≡ 0 → IsTrue verdict.now.agrees }
    ensures kept { result ≡ 0 → IsTrue verdict.now.keeps_laws }
    ensures differs { result ≡ STATUS_DIFFERS → verdict.now.agrees ≡ false }
    ensures law { result ≡ STATUS_LAW → verdict.now.keeps_laws ≡ false }
    ensures status { (result ≡ 0) ⊎ (result ≡ STATUS_DIFFERS) ⊎ (result ≡ STATUS_LAW) }
{
    if !verdict.agrees {
        STATUS_DIFFERS
    } else if verdict.keeps_laws {
        0
    } else {
        STATUS_LAW
    }
}

/// Makes the files of a verdict, then prints it, and gives the status.
fn publish<M: Fn(&str, &[u8]) -> io::Result<()>, R: Fn(&str), W: Write, E: Write>(
    make: &M,
    remove: &R,
    wanted: CheckRequest<'_>,
    verdict: &Verdict,
    out: &mut W,
    faults: &mut E,
) -> u8
    requires make { M.IsAlwaysCallable make.now }
    requires remove { R.IsAlwaysCallable remove.now }
    ensures status { (result ≡ 0) ⊎ (result ≡ STATUS_DIFFERS) ⊎ (result ≡ STATUS_LAW)
        ⊎ (result ≡ STATUS_FILE) ⊎ (result ≡ STATUS_USAGE) ⊎ (result ≡ STATUS_SYSTEM) }
    ensures nothing { (result ≡ STATUS_FILE) ⊎ (result ≡ STATUS_USAGE) → out.new ≡ out.old }
    ensures agrees { result ≡ 0 → IsTrue verdict.now.agrees }
    ensures kept { result ≡ 0 → IsTrue verdict.now.keeps_laws }
    ensures differs { result ≡ STATUS_DIFFERS → verdict.now.agrees ≡ false }
    ensures law { result ≡ STATUS_LAW → verdict.now.keeps_laws ≡ false }
{
    let Some(shown) = &verdict.shown else {
        let _ = faults.write_all(b"error: --from and --to name no part of the record\n");
        return STATUS_USAGE;
    };
    if let Err(fault) = write_files(make, remove, wanted, verdict, shown) {
        return fault.told(wanted.path, faults);
    }
    if out.write_all(&verdict.text).is_err() || out.flush().is_err() {
        return Fault::Write.told(wanted.path, faults);
    }
    status_of(verdict)
}

/// Prints a verdict, or the line of the fault for which there is none, and gives the status.
fn answer<M: Fn(&str, &[u8]) -> io::Result<()>, R: Fn(&str), W: Write, E: Write>(
    make: &M,
    remove: &R,
    wanted: CheckRequest<'_>,
    verdict: Result<Verdict, Fault<'_>>,
    out: &mut W,
    faults: &mut E,
) -> u8
    requires make { M.IsAlwaysCallable make.now }
    requires remove { R.IsAlwaysCallable remove.now }
    ensures status { (result ≡ 0) ⊎ (result ≡ STATUS_DIFFERS) ⊎ (result ≡ STATUS_LAW)
        ⊎ (result ≡ STATUS_FILE) ⊎ (result ≡ STATUS_USAGE) ⊎ (result ≡ STATUS_SYSTEM) }
    ensures nothing { (result ≡ STATUS_FILE) ⊎ (result ≡ STATUS_USAGE) → out.new ≡ out.old }
    ensures agrees { result ≡ 0 → IsOkAnd verdict.entry (λ v. IsTrue v.agrees) }
    ensures kept { result ≡ 0 → IsOkAnd verdict.entry (λ v. IsTrue v.keeps_laws) }
    ensures differs { result ≡ STATUS_DIFFERS → IsOkAnd verdict.entry (λ v. v.agrees ≡ false) }
    ensures law { result ≡ STATUS_LAW → IsOkAnd verdict.entry (λ v. v.keeps_laws ≡ false) }
{
    match verdict {
        Ok(verdict) => publish(make, remove, wanted, &verdict, out, faults),
        Err(fault) => fault.told(wanted.path, faults),
    }
}

/// Prints the verdict on the trace of a path, or the line of its fault, and gives the status: 0 where the kernel agrees, 4 where
/// it differs, 5 where it agrees and breaks a law, 1 where the trace is at fault or a file is there already, 3 where the system is.
#[tactic(auto, using(crate::proofs::VerdictLemmas::of_agreed, crate::proofs::VerdictLemmas::of_differing))]
pub fn serve_check<
    D: Drop,
    O: Fn(&str) -> io::Result<D>,
    N: Fn(&mut D, &mut [u8]) -> io::Result<usize>,
    X: Fn(&str) -> bool,
    M: Fn(&str, &[u8]) -> io::Result<()>,
    R: Fn(&str),
    W: Write,
    E: Write,
>(
    alloc: Global,
    files: &Files<O, N, X, M, R>,
    wanted: CheckRequest<'_>,
    options: &CheckOptions<'_>,
    out: &mut W,
    faults: &mut E,
) -> u8
    requires open { O.IsAlwaysCallable files.now.source.open }
    requires read { N.IsAlwaysCallable files.now.source.read }
    requires exists { X.IsAlwaysCallable files.now.target.exists }
    requires make { M.IsAlwaysCallable files.now.target.make }
    requires remove { R.IsAlwaysCallable files.now.target.remove }
    ensures status { (result ≡ 0) ⊎ (result ≡ STATUS_DIFFERS) ⊎ (result ≡ STATUS_LAW)
        ⊎ (result ≡ STATUS_FILE) ⊎ (result ≡ STATUS_USAGE) ⊎ (result ≡ STATUS_SYSTEM) }
    // Where the trace is at fault, or the words are, nothing was printed.
    ensures nothing { (result ≡ STATUS_FILE) ⊎ (result ≡ STATUS_USAGE) → out.new ≡ out.old }
    // Where the kernel agrees by lines of probes, those of the text that was read are explained by its rules.
    ensures explained { result ≡ 0 → IsSoOf O.Fn files.now.source.open N.Fn files.now.source.read
        wanted.entry.path.now (IsAgreedBy options.now (shows_states wanted.entry)) }
    // By timers none that is compared differs from the rules; where the status says so, one does.
    ensures timed { result ≡ 0 → IsSoOf O.Fn files.now.source.open N.Fn files.now.source.read
        wanted.entry.path.now (IsTimedBy options.now (shows_states wanted.entry) true) }
    ensures differs { result ≡ STATUS_DIFFERS → IsSoOf O.Fn files.now.source.open
        N.Fn files.now.source.read wanted.entry.path.now
        (IsTimedBy options.now (shows_states wanted.entry) false) }
{
    let (source, target) = (&files.source, &files.target);
    if let Some(path) = first_there(&target.exists, wanted) {
        return Fault::FileExists { path }.told(wanted.path, faults);
    }
    let verdict = verdict_of(alloc, &source.open, &source.read, wanted, options);
    answer(&target.make, &target.remove, wanted, verdict, out, faults)
}
