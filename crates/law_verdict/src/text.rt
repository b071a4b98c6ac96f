//! The laws of a record, below the verdict of its rules.

use crate::breach::{put_breach, put_evidence};
use crate::names::law_name;
use crate::writing::{TaskName, put, put_count, put_span};
use law_findings::{Breach, LAWS, LawFigures, LawTallies, Spread};
use std::alloc::{AllocError, Global};

/// Appends how often each law held, what is told beside them, and the first breach of each.
pub fn put_laws(
    alloc: Global,
    out: &mut Vec<u8>,
    tallies: &LawTallies,
    figures: LawFigures,
    names: &[TaskName],
) -> Result<(), AllocError> {
    put(out, "laws: ")?;
    put_count(alloc, out, held(tallies))?;
    put(out, " values hold")?;
    put_held(alloc, out, tallies)?;
    put(out, "\n")?;
    put_figures(alloc, out, figures)?;
    put_broken(alloc, out, tallies, names)
}

/// How many values of all laws hold.
fn held(tallies: &LawTallies) -> u64 {
    let mut all = 0u64;
    for law in LAWS {
        all = all.saturating_add(tallies.of(law).held);
    }
    all
}

fn put_held(alloc: Global, out: &mut Vec<u8>, tallies: &LawTallies) -> Result<(), AllocError> {
    let mut mark = ": ";
    for law in LAWS {
        let held = tallies.of(law).held;
        if held > 0 {
            put(out, mark)?;
            put(out, law_name(law))?;
            put(out, " ")?;
            put_count(alloc, out, held)?;
            mark = ", ";
        }
    }
    Ok(())
}

fn put_figures(alloc: Global, out: &mut Vec<u8>, figures: LawFigures) -> Result<(), AllocError> {
    let Some(Spread { median, most, .. }) = figures.late else {
        return Ok(());
    };
    put(out, "  timers fired late by ")?;
    put_span(alloc, out, median)?;
    put(out, " (median), ")?;
    put_span(alloc, out, most)?;
    put(out, " (most)\n")
}

fn put_broken(
    alloc: Global,
    out: &mut Vec<u8>,
    tallies: &LawTallies,
    names: &[TaskName],
) -> Result<(), AllocError> {
    for law in LAWS {
        let tally = tallies.of(law);
        if let Some(first) = tally.first {
            put_breaches(alloc, out, tally.broken, &first, names)?;
        }
        if let Some(first) = tally.first_known {
            put_breaches(alloc, out, tally.known, &first, names)?;
        }
    }
    Ok(())
}

/// Appends how often a law is broken, and its first breach.
fn put_breaches(
    alloc: Global,
    out: &mut Vec<u8>,
    count: u64,
    first: &Breach,
    names: &[TaskName],
) -> Result<(), AllocError> {
    put(out, "  ")?;
    put(out, law_name(first.law))?;
    put(out, ": ")?;
    put_count(alloc, out, count)?;
    put(out, " broken, first at ")?;
    put_breach(alloc, out, first, names)?;
    put(out, "\n")?;
    put_evidence(out, first)
}
