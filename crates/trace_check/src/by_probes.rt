//! The verdict by lines of probes.

ghost use Rattle.std.specs.Prelude.{◌≡◌, IfOk, IfSome, IsTrue, None, false, is_none};
ghost use Rattle.check_record.specs.Playing.{IsEqual, taken_in};
ghost use Rattle.check_record.specs.Seen.{NothingDiffers};
ghost use Rattle.trace_check.specs.Timed.{is_by_timers};
ghost use Rattle.trace_check.specs.Uncompared.{unvalued_of};

use crate::by_timers::timer_states;
use crate::check::{CheckRequest, Verdict};
use crate::order::with_order;
use crate::probe_states::probe_states;
use crate::showing::nothing_shown;
use crate::untried::{Check, of_release};
use crate::why::tried;
use check_record::{Gathering, Played};
use check_report::{CheckReport, ProbeAnswers, add_probes};
use probe_findings::KindCounts;
use probe_verdict::{
    NamedTask, ProbeHeading, TABLE_HEAD, has_values, put_answer, put_explanation, put_heading,
    put_unfollowed,
};
use std::alloc::{AllocError, Global};
use trace_options::{CheckOptions, Fault, Uncompared};

/// The verdict by lines of probes, unless timers are to be compared; none where the trace has none.
pub(crate) fn verdict_by_probes<'o>(
    alloc: Global,
    wanted: CheckRequest<'_>,
    options: &CheckOptions<'o>,
    gathering: &mut Gathering<'o>,
) -> Result<Option<Verdict>, Fault<'o>>
    ensures agrees { IfOk result (λ found. IfSome found (λ v.
        IsTrue v.agrees → NothingDiffers options.now gathering.old)) }
    ensures none { IfOk result (λ found. found ≡ None → NothingDiffers options.now gathering.old) }
    ensures timers { IfOk result (λ found. IfSome found (λ v.
        is_by_timers options.now gathering.old ≡ false)) }
    ensures same { IfOk result (λ found. found ≡ None → gathering.new ≡ gathering.old) }
{
    if options.by_timers {
        return Ok(None);
    }
    match probe_verdict(alloc, wanted, options, gathering)? {
        Some(verdict) => {
            let verdict = of_probes(alloc, wanted, options, gathering, verdict)?;
            Ok(Some(verdict))
        }
        None => Ok(None),
    }
}

/// A verdict by probes on a kernel that was tried, with the states that are wanted.
fn of_probes<'o>(
    alloc: Global,
    wanted: CheckRequest<'_>,
    options: &CheckOptions<'o>,
    gathering: &mut Gathering<'o>,
    verdict: Verdict,
) -> Result<Verdict, Fault<'o>>
    ensures { IfOk result (λ v. v.agrees ≡ verdict.agrees) }
{
    let kernel = gathering.head.kernel_by(options);
    let differ = gathering.probes.differ();
    let verdict = of_release(alloc, verdict, Check::Probes, kernel, differ)?;
    let verdict = with_order(alloc, verdict, gathering.earlier)?;
    with_states(alloc, wanted, options, gathering, verdict)
}

/// A verdict by probes, with the states that lines of timers beside them show, or else the lines of probes.
fn with_states<'o>(
    alloc: Global,
    wanted: CheckRequest<'_>,
    options: &CheckOptions<'o>,
    gathering: &mut Gathering<'o>,
    mut verdict: Verdict,
) -> Result<Verdict, Fault<'o>>
    ensures agrees { IfOk result (λ v. v.agrees ≡ verdict.agrees) }
    ensures text { IfOk result (λ v. v.text ≡ verdict.text) }
{
    if wanted.shows() {
        verdict.shown = match timer_states(alloc, wanted, options, gathering)? {
            Some(states) => states.documents,
            None => probe_states(alloc, wanted, options, gathering)?,
        };
    }
    Ok(verdict)
}

/// The verdict by lines of probes; none where the trace has none, and a fault where not one value was compared.
fn probe_verdict<'o>(
    alloc: Global,
    wanted: CheckRequest<'_>,
    options: &CheckOptions<'_>,
    gathering: &Gathering<'o>,
) -> Result<Option<Verdict>, Fault<'o>>
    ensures agrees { IfOk result (λ found. IfSome found (λ v.
        IsTrue v.agrees → IfSome (taken_in gathering.now.probes) IsEqual)) }
    ensures none { IfOk result (λ found.
        found ≡ None → IfSome (taken_in gathering.now.probes) IsEqual) }
    ensures played { IfOk result (λ found. IfSome found (λ v.
        is_none (taken_in gathering.now.probes) ≡ false)) }
{
    match &gathering.probes.played {
        Some(played) => {
            let verdict = valued_verdict(alloc, wanted, options, gathering, played)?;
            Ok(Some(verdict))
        }
        None => Ok(None),
    }
}

/// The verdict on what was played: a fault where not one value was compared.
fn valued_verdict<'o>(
    alloc: Global,
    wanted: CheckRequest<'_>,
    options: &CheckOptions<'_>,
    gathering: &Gathering<'o>,
    played: &Played,
) -> Result<Verdict, Fault<'o>>
    ensures { IfOk result (λ v. IsTrue v.agrees → IsEqual played.now.player) }
{
    let counts = gathering.probes.counts(played);
    let shows_task = gathering.probes.shows_task;
    match uncompared(
        gathering.probes.agrees(played),
        has_values(&counts),
        shows_task,
    ) {
        Some(why) => Err(Fault::NothingCompared { why }),
        None => {
            let verdict = verdict_by(alloc, wanted, options, gathering, played)?;
            Ok(verdict)
        }
    }
}

/// Why nothing was compared, of a record that breaks no law and has no value that differs, with a task of the class or none.
fn uncompared(agrees: bool, has_values: bool, shows_task: bool) -> Option<Uncompared>
    ensures { result ≡ unvalued_of agrees has_values shows_task }
{
    if !agrees || has_values {
        None
    } else if shows_task {
        Some(Uncompared::NoValue)
    } else {
        Some(Uncompared::NoTask)
    }
}

fn verdict_by(
    alloc: Global,
    wanted: CheckRequest<'_>,
    options: &CheckOptions<'_>,
    gathering: &Gathering<'_>,
    played: &Played,
) -> Result<Verdict, AllocError>
    ensures { IfOk result (λ v. IsTrue v.agrees → IsEqual played.now.player) }
{
    let tasks = class_names(alloc, gathering)?;
    let domain = gathering.head.cpus(alloc, options)?;
    let heading = ProbeHeading {
        trace: wanted.path.as_bytes(),
        kernel: gathering.head.kernel_by(options),
        release: gathering.head.release_by(options),
        domain: &domain,
        tasks: &tasks,
        lines: played.lines,
        from: played.from,
        to: played.to,
        lost: gathering.lost,
        takes_sums: !played.player.rules().has_dequeues,
    };
    let counts = gathering.probes.counts(played);
    let agrees = gathering.probes.agrees(played);
    let text = probe_text(alloc, heading, gathering, played, &counts)?;
    let table = probe_table(alloc, wanted, &gathering.probes.rows)?;
    let mut report = CheckReport::new(alloc);
    let rules = played.player.run().rules();
    let answers = ProbeAnswers {
        heading,
        counts: &counts,
        rules: &rules,
        first: gathering.probes.first(played),
        broken: gathering.probes.broken(),
        marks: gathering.probes.marks.counts(),
    };
    add_probes(alloc, &mut report, answers)?;
    Ok(Verdict {
        agrees,
        keeps_laws: true,
        text,
        table,
        shown: Some(nothing_shown(alloc)),
        report,
        reported: Vec::new(alloc),
    })
}

/// Appends which changed rule explains what probes show, where they differ and that is asked for.
pub(crate) fn put_probe_explanation(
    alloc: Global,
    out: &mut Vec<u8>,
    options: &CheckOptions<'_>,
    gathering: &Gathering<'_>,
) -> Result<(), AllocError> {
    let Some(played) = &gathering.probes.played else {
        return Ok(());
    };
    if !options.explains {
        return Ok(());
    }
    let trials = tried(alloc, options, gathering)?;
    put_explanation(alloc, out, false, &gathering.probes.counts(played), &trials)
}

/// The names of the tasks that probes show in the class.
fn class_names(alloc: Global, gathering: &Gathering<'_>) -> Result<Vec<NamedTask>, AllocError> {
    let mut names = Vec::new(alloc);
    for pid in &gathering.probes.in_class {
        let comm = gathering.names.comm(alloc, *pid)?;
        names.push(NamedTask { pid: *pid, comm })?;
    }
    Ok(names)
}

fn probe_text(
    alloc: Global,
    heading: ProbeHeading<'_>,
    gathering: &Gathering<'_>,
    played: &Played,
    counts: &KindCounts,
) -> Result<Vec<u8>, AllocError> {
    let mut text = Vec::new(alloc);
    put_heading(
        alloc,
        &mut text,
        heading,
        counts,
        &played.player.run().rules(),
    )?;
    let unfollowed = gathering
        .probes
        .look
        .unfollowed(alloc, played.player.run())?;
    put_unfollowed(alloc, &mut text, &unfollowed)?;
    gathering.probes.marks.put(alloc, &mut text)?;
    put_answer(
        alloc,
        &mut text,
        heading,
        counts,
        gathering.probes.first(played),
        gathering.probes.broken(),
    )?;
    Ok(text)
}

fn probe_table(
    alloc: Global,
    wanted: CheckRequest<'_>,
    rows: &Vec<u8>,
) -> Result<Vec<u8>, AllocError> {
    let mut table = Vec::new(alloc);
    if wanted.table.is_some() {
        table.extend_from_slice(TABLE_HEAD.as_bytes())?;
        table.extend_from_slice(rows.as_slice())?;
    }
    Ok(table)
}
