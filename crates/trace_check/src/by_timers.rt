//! The verdict by timers.

ghost use Rattle.std.specs.Prelude.{◌≡◌, IfOk, IsTrue, Ok, Some, false, is_none, option_map, true};
ghost use Rattle.check_record.specs.Seen.{timed_in};
ghost use Rattle.check_settings.specs.Heads.{domain_by, open_from, settings_by};
ghost use Rattle.timer_play.specs.Kernels.{setup_by};
ghost use Rattle.timer_play.specs.Playing.{observations_of};
ghost use Rattle.timer_record.specs.Records.{ended_in, lines_of};
ghost use Rattle.timer_verdict.specs.Verdicts.{IsJudged};
ghost use Rattle.trace_check.specs.Timed.{IsTimed, compared_by};
ghost use Rattle.trace_check.specs.Uncompared.{left_by, uncompared_left, uncompared_of};

use crate::check::{CheckRequest, Verdict};
use crate::opening::opening_text;
use crate::order::with_order;
use crate::showing::{ShownStates, TimerPlay, shown_of};
use crate::untried::{Check, of_release};
use crate::why::put_timer_explanation;
use check_record::Gathering;
use check_report::{CheckReport, TimerAnswers, add_timers};
use probe_verdict::MarkCount;
use std::alloc::{AllocError, Global};
use timer_play::{KernelSettings, RecordSetup, RecordStart, play, setup_of};
use timer_record::KeptLines;
use timer_tasks::ObservedAnswer;
use timer_verdict::{
    Judged, LeftOut, TimerHeading, judge, judge_at_unknown_speed, judged_of, left_out, put_table,
    put_verdict as put_timers,
};
use trace_options::{CheckOptions, Fault, Uncompared};

/// However far a moment lies from the kernel's.
const NOT_JUDGED: u64 = u64::MAX;

/// A record of timers, with what its play begins with.
#[derive(Drop)]
struct TimedRecord {
    setup: RecordSetup,
    start: RecordStart,
    lines: KeptLines,

    /// The name of each task of the lines.
    names: Vec<Vec<u8>>,
}

impl TimedRecord {
    /// Judges it; where a governor sets the frequency of a CPU, no line tells the speed of a charge.
    fn judge(&self, alloc: Global, within: u64, has_governor: bool) -> Result<Judged, AllocError>
        ensures judged { IfOk result (λ j. IsJudged j) }
        ensures observed { IfOk result (λ j. j.outcome.observations.items ≡ compared_by has_governor
            self.now.lines (observations_of self.now.setup self.now.start self.now.lines within)) }
    {
        if has_governor {
            judge_at_unknown_speed(alloc, self.setup, &self.start, &self.lines, within)
        } else {
            judge(alloc, self.setup, &self.start, &self.lines, within)
        }
    }

    fn play<'a>(&'a self, judged: &'a Judged) -> TimerPlay<'a>
        ensures { result.judged.now ≡ judged.entry.now }
    {
        TimerPlay {
            setup: self.setup,
            start: &self.start,
            lines: &self.lines,
            names: &self.names,
            judged,
        }
    }
}

/// What is fixed for a record that begins so; a fault where the kernel's sums are not told.
fn setup_for<'o>(kernels: KernelSettings, start: &RecordStart) -> Result<RecordSetup, Fault<'o>>
    ensures { IfOk result (λ s. setup_by kernels start.now ≡ Ok s) }
{
    match setup_of(kernels, start) {
        Ok(setup) => Ok(setup),
        Err(missing) => Err(Fault::NoSums {
            kernel: missing.kernel,
        }),
    }
}

/// The record that was gathered; a fault where no timer was started, or the kernel's sums are not told.
fn timed_record<'o>(
    alloc: Global,
    options: &CheckOptions<'o>,
    gathering: &mut Gathering<'o>,
) -> Result<TimedRecord, Fault<'o>>
    ensures lines { IfOk result (λ t.
        option_map ended_in ((timed_in gathering.old).lines.kept) ≡ Some (lines_of t.lines)) }
    ensures domain { IfOk result (λ t.
        t.start.domain.items ≡ domain_by gathering.old.head options.now) }
    ensures sums { IfOk result (λ t. t.start.sums.items ≡ gathering.old.head.sums.items) }
    ensures unknown { IfOk result (λ t.
        t.start.open_from ≡ open_from gathering.old.head.opening) }
    ensures setup { IfOk result (λ t.
        setup_by (settings_by gathering.old.head options.now) t.start ≡ Ok t.setup) }
{
    let Some(record) = gathering.take_record() else {
        return Err(Fault::NoTimers);
    };
    if !gathering.has_timers() {
        return Err(Fault::NoTimers);
    }
    let start = gathering.head.start(alloc, options)?;
    let setup = setup_for(gathering.head.kernels(options), &start)?;
    let lines = record.finish()?;
    let names = names_of(alloc, gathering, &lines)?;
    Ok(TimedRecord {
        setup,
        start,
        lines,
        names,
    })
}

/// The verdict by timers: a fault where not one block or timer was compared.
pub(crate) fn timer_verdict<'o>(
    alloc: Global,
    wanted: CheckRequest<'_>,
    options: &CheckOptions<'o>,
    gathering: &mut Gathering<'o>,
) -> Result<Verdict, Fault<'o>>
    ensures timed { IfOk result (λ v. IsTrue v.agrees → IsTimed options.now gathering.old true) }
    ensures differs { IfOk result (λ v.
        v.agrees ≡ false → IsTimed options.now gathering.old false) }
{
    let has_governor = gathering.head.has_governor;
    let timed = timed_record(alloc, options, gathering)?;
    let judged = timed.judge(alloc, options.within, has_governor)?;
    compared_verdict(alloc, wanted, options, gathering, &timed, &judged)
}

/// The verdict on what was judged: a fault where not one block or timer was compared.
fn compared_verdict<'o>(
    alloc: Global,
    wanted: CheckRequest<'_>,
    options: &CheckOptions<'o>,
    gathering: &Gathering<'o>,
    timed: &TimedRecord,
    judged: &Judged,
) -> Result<Verdict, Fault<'o>>
    ensures { IfOk result (λ v. v.agrees ≡ is_none judged.now.first) }
{
    let left = left_out(&judged.outcome.observations);
    let open_from = timed.start.open_from;
    if let Some(why) = uncompared(
        left,
        timed.lines.tasks.len(),
        judged.speed_unknown,
        open_from,
    ) {
        return Err(Fault::NothingCompared { why });
    }
    let verdict = told_verdict(alloc, wanted, options, gathering, timed.play(judged))?;
    let kernel = gathering.head.kernel_by(options);
    let verdict = of_release(alloc, verdict, Check::Timers, kernel, differ(judged))?;
    with_order(alloc, verdict, gathering.earlier)
}

/// How many blocks and timers differ.
fn differ(judged: &Judged) -> u64 {
    let mut differ = 0u64;
    for seen in judged.outcome.observations.as_slice() {
        if matches!(seen.answer, ObservedAnswer::Differs) {
            differ = differ.wrapping_add(1);
        }
    }
    differ
}

/// The states that lines of timers show, beside a verdict of others; none where they show none. Probes make timers late, so their moments
/// are not judged.
pub(crate) fn timer_states<'o>(
    alloc: Global,
    wanted: CheckRequest<'_>,
    options: &CheckOptions<'o>,
    gathering: &mut Gathering<'o>,
) -> Result<Option<ShownStates>, AllocError> {
    match timed_record(alloc, options, gathering) {
        Ok(timed) => {
            let outcome = play(
                alloc,
                timed.setup,
                &timed.start,
                &timed.lines,
                NOT_JUDGED,
                None,
            )?;
            let judged = judged_of(outcome);
            Ok(Some(ShownStates {
                documents: shown_of(alloc, wanted, timed.play(&judged), None)?,
            }))
        }
        Err(Fault::NoMemory) => Err(AllocError),
        Err(_) => Ok(None),
    }
}

fn uncompared_left(left: LeftOut) -> Uncompared
    ensures { result ≡ uncompared_left left }
{
    Uncompared::Left {
        ends: left.ends,
        unknown: left.unknown,
        edges: left.edges,
        gaps: left.gaps,
    }
}

/// Why nothing was compared, of a record of so many tasks, where all blocks and timers are left out, so many by their speed.
fn uncompared(
    left: Option<LeftOut>,
    tasks: usize,
    speed_unknown: u64,
    open_from: Option<u64>,
) -> Option<Uncompared>
    ensures { result ≡ uncompared_of left tasks speed_unknown open_from }
{
    let left = left?;
    if tasks == 0 {
        return Some(Uncompared::NoTask);
    }
    if left.ends == 0 && left.unknown == 0 && left.edges == 0 && left.gaps == 0 {
        return Some(Uncompared::NoBlock);
    }
    if speed_unknown > 0 {
        return Some(Uncompared::UnknownSpeed);
    }
    Some(left_by(open_from, left))
}

/// Why all is left out, where `extra_bw` may not be known from a line on.
fn left_by(open_from: Option<u64>, left: LeftOut) -> Uncompared
    ensures { result ≡ left_by open_from left }
{
    match open_from {
        Some(line) if left.unknown > 0 => Uncompared::UnknownSum { line },
        _ => uncompared_left(left),
    }
}

/// The names of the tasks of a record, as the trace tells them.
fn names_of(
    alloc: Global,
    gathering: &Gathering<'_>,
    lines: &KeptLines,
) -> Result<Vec<Vec<u8>>, AllocError> {
    let mut names = Vec::new(alloc);
    for task in &lines.tasks {
        names.push(gathering.names.comm(alloc, task.pid)?)?;
    }
    Ok(names)
}

/// What is told of a record that was played.
fn told_verdict(
    alloc: Global,
    wanted: CheckRequest<'_>,
    options: &CheckOptions<'_>,
    gathering: &Gathering<'_>,
    play: TimerPlay<'_>,
) -> Result<Verdict, AllocError>
    ensures { IfOk result (λ v. v.agrees ≡ is_none play.entry.judged.now.first) }
{
    let beside = opening_text(alloc, gathering)?;
    let heading = TimerHeading {
        trace: wanted.path.as_bytes(),
        kernel: gathering.head.kernel_by(options),
        release: gathering.head.release_by(options),
        domain: &play.start.domain,
        setup: play.setup,
        total_bw: gathering.head.total_bw,
        within: options.within,
        beside: &beside,
    };
    let text = timer_text(alloc, heading, options, play)?;
    let table = timer_table(alloc, wanted, play)?;
    let first = play
        .judged
        .first
        .and_then(|place| play.judged.outcome.observations.get(place));
    let shown = shown_of(alloc, wanted, play, first)?;
    let report = timer_report(alloc, heading, play, gathering.probes.marks.counts())?;
    Ok(Verdict {
        agrees: play.judged.first.is_none(),
        keeps_laws: true,
        text,
        table,
        shown,
        report,
        reported: Vec::new(alloc),
    })
}

fn timer_report(
    alloc: Global,
    heading: TimerHeading<'_>,
    play: TimerPlay<'_>,
    marks: &[MarkCount],
) -> Result<CheckReport, AllocError> {
    let mut report = CheckReport::new(alloc);
    let answers = TimerAnswers {
        heading,
        lines: play.lines,
        names: play.names,
        judged: play.judged,
        marks,
        open_from: play.start.open_from,
    };
    add_timers(alloc, &mut report, answers)?;
    Ok(report)
}

fn timer_text(
    alloc: Global,
    heading: TimerHeading<'_>,
    options: &CheckOptions<'_>,
    play: TimerPlay<'_>,
) -> Result<Vec<u8>, AllocError> {
    let mut text = Vec::new(alloc);
    put_timers(
        alloc,
        &mut text,
        heading,
        play.lines,
        play.names,
        play.judged,
    )?;
    if options.explains {
        put_timer_explanation(alloc, &mut text, options, play)?;
    }
    Ok(text)
}

/// The table, where it is asked for.
fn timer_table(
    alloc: Global,
    wanted: CheckRequest<'_>,
    play: TimerPlay<'_>,
) -> Result<Vec<u8>, AllocError> {
    let mut table = Vec::new(alloc);
    if wanted.table.is_some() {
        put_table(
            alloc,
            &mut table,
            &play.judged.outcome.observations,
            play.names,
        )?;
    }
    Ok(table)
}
