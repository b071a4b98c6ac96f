//! What the laws of a record came to.

use crate::finding::values_of;
use crate::report::CheckReport;
use crate::words::{text_of, word};
use law_findings::{Breach, LAWS, Law, LawFigures, LawTallies, Spread, Whose};
use law_verdict::{TaskName, fault_name, law_name, line_name, put_finding, put_traces};
use serde_json::{Value, json};
use std::alloc::{AllocError, Global};

/// Adds how often each law held and was broken, its first breaches, and how late timers fired.
pub fn add_laws(
    alloc: Global,
    report: &mut CheckReport,
    tallies: &LawTallies,
    figures: LawFigures,
    names: &[TaskName],
) -> Result<(), AllocError> {
    let mut laws = Vec::new(alloc);
    for law in LAWS {
        laws.push(law_of(alloc, tallies, law, names)?)?;
    }
    report.add(alloc, "laws", Value::Array(laws))?;
    let late = spread_of(alloc, figures.late)?;
    report.add(alloc, "timers_late", late)
}

fn law_of(
    alloc: Global,
    tallies: &LawTallies,
    law: Law,
    names: &[TaskName],
) -> Result<Value, AllocError> {
    let tally = tallies.of(law);
    let first = breach_or_null(alloc, tally.first, names)?;
    let first_known = breach_or_null(alloc, tally.first_known, names)?;
    json!(in alloc; {
        "law": law_name(law),
        "hold": tally.held,
        "broken": tally.broken,
        "known": tally.known,
        "first": first,
        "first_known": first_known
    })
}

/// How many values there are, and how they spread.
pub(crate) fn spread_of(alloc: Global, spread: Option<Spread>) -> Result<Value, AllocError> {
    match spread {
        Some(spread) => json!(in alloc; {
            "count": spread.count,
            "median_ns": spread.median,
            "most_ns": spread.most
        }),
        None => Ok(Value::Null),
    }
}

fn breach_or_null(
    alloc: Global,
    breach: Option<Breach>,
    names: &[TaskName],
) -> Result<Value, AllocError> {
    match breach {
        Some(breach) => breach_of(alloc, &breach, names),
        None => Ok(Value::Null),
    }
}

/// A breach: where it is, what was found in words and in numbers, and what else lines show of it.
fn breach_of(alloc: Global, breach: &Breach, names: &[TaskName]) -> Result<Value, AllocError> {
    let mut found = Vec::new(alloc);
    put_finding(alloc, &mut found, breach)?;
    let found = text_of(alloc, found.as_slice())?;
    let evidence = evidence_of(alloc, breach)?;
    let subject = whose_of(alloc, breach.whose, names)?;
    let values = values_of(alloc, breach.finding)?;
    let known = match breach.sign {
        Some(sign) => word(alloc, fault_name(sign))?,
        None => Value::Null,
    };
    let place = breach.place;
    json!(in alloc; {
        "line": place.line,
        "at_ns": place.at,
        "cpu": place.cpu,
        "event": line_name(place.kind),
        "subject": subject,
        "found": found,
        "values": values,
        "evidence": evidence,
        "known": known
    })
}

/// What else lines show of a breach; or null.
fn evidence_of(alloc: Global, breach: &Breach) -> Result<Value, AllocError> {
    let mut more = Vec::new(alloc);
    if put_traces(&mut more, breach)? {
        text_of(alloc, more.as_slice())
    } else {
        Ok(Value::Null)
    }
}

fn whose_of(alloc: Global, whose: Whose, names: &[TaskName]) -> Result<Value, AllocError> {
    match whose {
        Whose::Task { pid } => task_of(alloc, pid, names),
        Whose::Server { cpu } => json!(in alloc; {"server": cpu}),
        Whose::Cpu { cpu } => json!(in alloc; {"runqueue": cpu}),
        Whose::Domain => word(alloc, "root domain"),
        Whose::Timer { timer } => json!(in alloc; {"timer": timer}),
    }
}

pub(crate) fn task_of(alloc: Global, pid: u64, names: &[TaskName]) -> Result<Value, AllocError> {
    match names.iter().find(|name| name.pid == pid) {
        Some(name) => {
            let comm = text_of(alloc, name.comm.as_slice())?;
            json!(in alloc; {"pid": pid, "comm": comm})
        }
        None => json!(in alloc; {"pid": pid}),
    }
}
