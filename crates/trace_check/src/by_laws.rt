//! The laws of a record, beside its rules.

ghost use Rattle.std.specs.Prelude.{◌≡◌, IfOk, false, true};

use crate::beside::put_rules_beside;
use crate::check::Verdict;
use crate::showing::nothing_shown;
use check_record::{Gathering, Names};
use check_report::{CheckReport, add_laws, add_tasks};
use law_findings::{Breach, JudgedLaws, LAWS, LawTallies, Whose};
use law_verdict::{TaskName, put_figures, put_law_row, put_laws};
use probe_verdict::TABLE_HEAD;
use std::alloc::{AllocError, Global};
use timer_verdict::table_head;
use trace_options::{Fault, Uncompared};

/// A verdict with what the laws say below what the rules say.
pub(crate) fn with_laws<'o>(
    alloc: Global,
    gathering: &mut Gathering<'o>,
    verdict: Verdict,
) -> Result<Verdict, Fault<'o>>
    ensures { IfOk result (λ v. v.agrees ≡ verdict.agrees) }
{
    match laws_told(alloc, gathering, verdict) {
        Ok(verdict) => Ok(verdict),
        Err(AllocError) => Err(Fault::NoMemory),
    }
}

/// The laws of a record of which nothing was compared with the rules: a fault, unless one of them is broken.
pub(crate) fn laws_alone<'o>(
    alloc: Global,
    gathering: &mut Gathering<'o>,
    why: Uncompared,
) -> Result<Verdict, Fault<'o>>
    ensures broken { IfOk result (λ v. v.keeps_laws ≡ false) }
    ensures agrees { IfOk result (λ v. v.agrees ≡ true) }
{
    let verdict = with_laws(alloc, gathering, without_rules(alloc, gathering)?)?;
    if verdict.keeps_laws {
        Err(Fault::NothingCompared { why })
    } else {
        Ok(verdict)
    }
}

/// A verdict that says that nothing was compared, with documents that show nothing.
fn without_rules(alloc: Global, gathering: &Gathering<'_>) -> Result<Verdict, AllocError>
    ensures { IfOk result (λ v. v.agrees ≡ true) }
{
    let mut text = Vec::new(alloc);
    text.extend_from_slice(b"nothing could be compared with the rules\n")?;
    let mut table = Vec::new(alloc);
    if gathering.probes.played.is_some() {
        table.extend_from_slice(TABLE_HEAD.as_bytes())?;
    } else {
        table.extend_from_slice(table_head())?;
    }
    let mut shown = nothing_shown(alloc);
    shown.json.extend_from_slice(b"[]\n")?;
    shown
        .picture
        .extend_from_slice(b"<svg xmlns=\"http://www.w3.org/2000/svg\"/>\n")?;
    Ok(Verdict {
        agrees: true,
        keeps_laws: true,
        text,
        table,
        shown: Some(shown),
        report: CheckReport::new(alloc),
        reported: Vec::new(alloc),
    })
}

fn laws_told(
    alloc: Global,
    gathering: &mut Gathering<'_>,
    mut verdict: Verdict,
) -> Result<Verdict, AllocError>
    ensures { IfOk result (λ v. v.agrees ≡ verdict.agrees) }
{
    let Some(laws) = gathering.laws.finish()? else {
        return Ok(verdict);
    };
    let figures = laws.figures;
    let judged = &laws.judged;
    let names = names_of(alloc, &judged.tallies, &gathering.names)?;
    add_laws(alloc, &mut verdict.report, &judged.tallies, figures, &names)?;
    if was_asked(&judged.tallies) {
        put_laws(alloc, &mut verdict.text, &judged.tallies, figures, &names)?;
        put_rules_beside(alloc, &mut verdict.text, gathering, &judged.tallies)?;
        put_rows(alloc, &mut verdict.table, &gathering.names, judged)?;
        put_tasks(alloc, &mut verdict, gathering)?;
    }
    verdict.keeps_laws = judged.tallies.is_kept();
    Ok(verdict)
}

/// Appends what each task had.
fn put_tasks(
    alloc: Global,
    verdict: &mut Verdict,
    gathering: &mut Gathering<'_>,
) -> Result<(), AllocError>
    ensures { verdict.new.agrees ≡ verdict.old.agrees }
{
    let tasks = gathering.laws.figures.figures()?;
    let left = gathering.laws.figures.left()?;
    let mut names = Vec::new(alloc);
    for task in &tasks {
        let comm = gathering.names.comm(alloc, task.pid)?;
        names.push(TaskName {
            pid: task.pid,
            comm,
        })?;
    }
    put_figures(alloc, &mut verdict.text, &tasks, &left, &names)?;
    add_tasks(alloc, &mut verdict.report, &tasks, &left, &names)
}

/// Whether a value was held to a law.
fn was_asked(tallies: &LawTallies) -> bool {
    LAWS.iter().any(|law| {
        let tally = tallies.of(*law);
        tally.held > 0 || tally.broken > 0 || tally.known > 0
    })
}

/// Appends a row for each breach that was kept.
fn put_rows(
    alloc: Global,
    table: &mut Vec<u8>,
    names: &Names,
    judged: &JudgedLaws,
) -> Result<(), AllocError> {
    for breach in &judged.breaches {
        let mut named = Vec::new(alloc);
        put_name(alloc, &mut named, breach, names)?;
        put_law_row(alloc, table, breach, &named)?;
    }
    Ok(())
}

/// The names of the tasks of first breaches.
fn names_of(
    alloc: Global,
    tallies: &LawTallies,
    names: &Names,
) -> Result<Vec<TaskName>, AllocError> {
    let mut named = Vec::new(alloc);
    for law in LAWS {
        let tally = tallies.of(law);
        if let Some(breach) = tally.first {
            put_name(alloc, &mut named, &breach, names)?;
        }
        if let Some(breach) = tally.first_known {
            put_name(alloc, &mut named, &breach, names)?;
        }
    }
    Ok(named)
}

fn put_name(
    alloc: Global,
    named: &mut Vec<TaskName>,
    breach: &Breach,
    names: &Names,
) -> Result<(), AllocError> {
    if let Whose::Task { pid } = breach.whose {
        let comm = names.comm(alloc, pid)?;
        named.push(TaskName { pid, comm })?;
    }
    Ok(())
}
