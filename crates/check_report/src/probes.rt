//! What a check by probes has found.

use crate::record::{cpus_of, kernel_of, lost_of, release_of, tasks_of};
use crate::report::CheckReport;
use crate::words::{lines_of, text_of, word};
use probe_findings::{
    Broken, Comparison, Comparisons, Deviation, ExactRule, ExactValue, KindCounts, Law,
    ProbedFunction, RuleCounts, Subject, Whose, Why, kind_of,
};
use probe_verdict::{
    Evidence, KINDS, MarkCount, ProbeHeading, event_name, function_of, kind_name, put_arithmetic,
    quantity_name, rule_function, rule_name, total_of,
};
use serde_json::{Value, json, put};
use std::alloc::{AllocError, Global};
use trace_data::{Kernel, TimerFunction};

/// What lines of probes came to.
#[derive(Clone, Copy)]
pub struct ProbeAnswers<'a> {
    pub heading: ProbeHeading<'a>,
    pub counts: &'a KindCounts,
    pub rules: &'a RuleCounts,
    pub first: Option<Deviation>,
    pub broken: Option<Broken>,
    pub marks: &'a [MarkCount],
}

/// Adds the record, its marks, and what of it was compared.
pub fn add_probes(
    alloc: Global,
    report: &mut CheckReport,
    found: ProbeAnswers<'_>,
) -> Result<(), AllocError> {
    let record = record_of(alloc, found.heading)?;
    report.add(alloc, "record", record)?;
    let marks = marks_of(alloc, found.marks)?;
    report.add(alloc, "marks", marks)?;
    let rules = rules_of(alloc, found)?;
    report.add(alloc, "rules", rules)
}

fn record_of(alloc: Global, heading: ProbeHeading<'_>) -> Result<Value, AllocError> {
    let kernel = kernel_of(alloc, heading.kernel)?;
    let release = release_of(alloc, heading.release)?;
    let cpus = cpus_of(alloc, heading.domain)?;
    let tasks = tasks_of(alloc, heading.tasks)?;
    let lost = lost_of(alloc, heading.lost)?;
    json!(in alloc; {
        "kernel": kernel,
        "release": release,
        "processors": cpus,
        "tasks": tasks,
        "lines": heading.lines,
        "from_ns": heading.from,
        "to_ns": heading.to,
        "lost": lost
    })
}

pub(crate) fn marks_of(alloc: Global, marks: &[MarkCount]) -> Result<Value, AllocError> {
    let mut values = Vec::new(alloc);
    for mark in marks {
        let name = event_name(mark.event);
        values.push(
            json!(in alloc; {"event": name, "count": mark.count, "first_line": mark.first})?,
        )?;
    }
    Ok(Value::Array(values))
}

fn rules_of(alloc: Global, found: ProbeAnswers<'_>) -> Result<Value, AllocError> {
    let total = total_of(found.counts);
    let kinds = kinds_of(alloc, found.counts)?;
    let first = first_of(alloc, found)?;
    let broken = broken_of(alloc, found.broken)?;
    json!(in alloc; {
        "by": "probes",
        "equal": total.equal,
        "differ": total.differ,
        "speed_unknown": found.rules.of(ExactRule::SpeedUnknown),
        "extra_bw_unknown": found.rules.of(ExactRule::ExtraUnknown),
        "kinds": kinds,
        "first": first,
        "broken": broken
    })
}

/// The counts of each kind of which values were compared.
fn kinds_of(alloc: Global, counts: &KindCounts) -> Result<Value, AllocError> {
    let mut values = Vec::new(alloc);
    for kind in KINDS {
        let Comparisons { equal, differ } = counts.of(kind);
        if equal > 0 || differ > 0 {
            let name = kind_name(kind);
            values.push(json!(in alloc; {"kind": name, "equal": equal, "differ": differ})?)?;
        }
    }
    Ok(Value::Array(values))
}

/// The law *ratio* or *clock* that is broken, with its first line; or null.
fn broken_of(alloc: Global, broken: Option<Broken>) -> Result<Value, AllocError> {
    let Some(broken) = broken else {
        return Ok(Value::Null);
    };
    match broken.law {
        Law::Ratio => json!(in alloc; {
            "law": "ratio",
            "line": broken.line,
            "cpu": broken.cpu,
            "max_bw": broken.max_bw,
            "bw_ratio": broken.bw_ratio
        }),
        Law::Clock => json!(in alloc; {
            "law": "clock",
            "line": broken.line,
            "cpu": broken.cpu,
            "late": broken.late,
            "wakes": broken.wakes,
            "behind_ns": broken.behind
        }),
    }
}

/// The first value that differs; or null.
fn first_of(alloc: Global, found: ProbeAnswers<'_>) -> Result<Value, AllocError> {
    let Some(Deviation { comparison, since }) = found.first else {
        return Ok(Value::Null);
    };
    let subject = subject_of(alloc, comparison.subject)?;
    let rules = value_of(alloc, comparison.rules)?;
    let kernel = value_of(alloc, comparison.kernel)?;
    let since = since_of(alloc, since)?;
    let functions = functions_of(alloc, &comparison, found.first, found.heading.kernel)?;
    let place = comparison.place;
    json!(in alloc; {
        "line": place.line,
        "at_ns": place.at,
        "cpu": place.cpu,
        "event": event_name(place.event),
        "subject": subject,
        "kind": kind_name(kind_of(comparison.quantity)),
        "value": quantity_name(comparison.quantity),
        "rules": rules,
        "kernel": kernel,
        "since": since,
        "functions": functions
    })
}

/// Whose value it is.
fn subject_of(alloc: Global, subject: Subject) -> Result<Value, AllocError> {
    match subject {
        Subject::Entity(whose) => whose_of(alloc, whose),
        Subject::Runqueue(cpu) => json!(in alloc; {"runqueue": cpu}),
        Subject::RootDomain(domain) => json!(in alloc; {"root_domain": domain}),
        Subject::Nobody => Ok(Value::Null),
    }
}

fn whose_of(alloc: Global, whose: Whose) -> Result<Value, AllocError> {
    match whose {
        Whose::Task { pid, .. } => json!(in alloc; {"pid": pid}),
        Whose::Server { cpu } => json!(in alloc; {"server": cpu}),
    }
}

fn timer_word(timer: TimerFunction) -> &'static str {
    match timer {
        TimerFunction::ZeroLag => "inactive_task_timer",
        TimerFunction::Replenish => "dl_task_timer",
        TimerFunction::Other => "other",
    }
}

fn value_of(alloc: Global, value: ExactValue) -> Result<Value, AllocError> {
    match value {
        ExactValue::Unsigned(number) => Ok(Value::from(number)),
        ExactValue::Signed(number) => Ok(Value::from(number)),
        ExactValue::Flag(flag) => Ok(Value::from(flag)),
        ExactValue::AtMost(number) => json!(in alloc; {"at_most": number}),
        ExactValue::Armed(timer) => json!(in alloc; {"armed": timer_word(timer)}),
        ExactValue::NotArmed(timer) => json!(in alloc; {"not_armed": timer_word(timer)}),
        ExactValue::Owner(whose) => whose_of(alloc, whose),
    }
}

/// What changed a value last: a rule, or that root domains were rebuilt; none where it was only seen.
fn change_of(since: Why) -> Option<&'static str> {
    match (since.rule, since.event) {
        (Some(rule), _) => Some(rule_name(rule)),
        (None, ProbedFunction::RebuildTask) => Some("rebuilt"),
        (None, _) => None,
    }
}

/// The line and the rule that changed the value last; null where it was only seen.
fn since_of(alloc: Global, since: Why) -> Result<Value, AllocError> {
    match change_of(since) {
        Some(rule) => json!(in alloc; {
            "line": since.line,
            "event": event_name(since.event),
            "rule": rule
        }),
        None => Ok(Value::Null),
    }
}

/// The kernel's function that changed a value last.
fn function_since(since: Why, kernel: Option<Kernel>) -> Option<&'static str> {
    match (since.rule, since.event) {
        (Some(rule), _) => Some(rule_function(rule, kernel)),
        (None, ProbedFunction::RebuildTask) => Some(function_of(since.event, kernel)),
        (None, _) => None,
    }
}

/// The kernel's functions to look at: that of the line, and that of the rule where it is another.
fn functions_of(
    alloc: Global,
    comparison: &Comparison,
    first: Option<Deviation>,
    kernel: Option<Kernel>,
) -> Result<Value, AllocError> {
    let mut names = Vec::new(alloc);
    let of_line = function_of(comparison.place.event, kernel);
    if let Some(deviation) = first
        && let Some(of_rule) = function_since(deviation.since, kernel)
        && of_rule != of_line
    {
        names.push(word(alloc, of_rule)?)?;
    }
    names.push(word(alloc, of_line)?)?;
    Ok(Value::Array(names))
}

/// Adds what speaks for the first deviation to it, where there is one.
pub fn add_evidence(
    alloc: Global,
    report: &mut CheckReport,
    evidence: Evidence<'_>,
) -> Result<(), AllocError> {
    let mut rule = Vec::new(alloc);
    if let Some(numbers) = evidence.rule {
        put_arithmetic(alloc, &mut rule, numbers)?;
    }
    let arithmetic = lines_of(alloc, rule.as_slice())?;
    let mut lines = Vec::new(alloc);
    for line in evidence.lines {
        lines.push(text_of(alloc, line.as_slice().trim_ascii())?)?;
    }
    let value = json!(in alloc; {
        "arithmetic": arithmetic,
        "last_right_line": evidence.right,
        "lines": Value::Array(lines),
        "more_lines": evidence.more
    })?;
    let Some(rules) = report.object("rules") else {
        return Ok(());
    };
    put(rules, alloc, "evidence", value)
}
