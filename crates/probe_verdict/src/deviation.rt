//! The last lines of a verdict: that each value is the kernel's, or the first that is not.

ghost use Rattle.std.specs.Prelude.{◌≡◌, ◌++◌, IfNone, IfSome, OnOk};
ghost use Rattle.probe_verdict.specs.Texts.{Extends, agreement_text, difference_text};

use crate::heading::{NamedTask, ProbeHeading};
use crate::names::{event_name, function_of, quantity_name, rule_function, rule_name};
use crate::text::total_of;
use crate::writing::{put, put_count, put_seconds, put_subject, put_value};
use probe_findings::{
    Broken, Comparison, Deviation, ExactRule, ExactValue, KindCounts, Law, ProbedFunction,
    ProbedLine, QuantityKind, Why, kind_of,
};
use std::alloc::{AllocError, Global};
use trace_data::Kernel;

/// Appends whether each value is the kernel's and each law holds, or the first that is not, and does not. The functions of the kernel
/// have the names that they have in the record's.
pub fn put_answer(
    alloc: Global,
    out: &mut Vec<u8>,
    heading: ProbeHeading<'_>,
    counts: &KindCounts,
    first: Option<Deviation>,
    broken: Option<Broken>,
) -> Result<(), AllocError>
    ensures agrees { OnOk result (IfNone first
        (out.new.items ≡ out.old.items ++ agreement_text)) }
    ensures differs { OnOk result (IfSome first
        (λ d. Extends (out.old.items ++ difference_text) out.new.items)) }
{
    match first {
        None => put(out, "agrees, bit for bit\n"),
        Some(first) => {
            put(out, "differs: ")?;
            match broken {
                Some(broken) if is_of_law(first) => put_broken(alloc, out, broken),
                _ => {
                    let differ = total_of(counts).differ;
                    put_differs(alloc, out, heading.tasks, heading.kernel, differ, first)
                }
            }
        }
    }
}

/// Whether it is no value that differs, but a law that is broken.
fn is_of_law(first: Deviation) -> bool {
    match kind_of(first.comparison.quantity) {
        QuantityKind::Laws => true,
        _ => false,
    }
}

/// Appends the law that a record breaks though each of its values agrees.
fn put_broken(alloc: Global, out: &mut Vec<u8>, broken: Broken) -> Result<(), AllocError>
    ensures { OnOk result (Extends out.old.items out.new.items) }
{
    let line = broken.line;
    let text = format!(in alloc; "a law is broken, first at line {line}\n  ")?;
    put(out, text.as_str())?;
    match broken.law {
        Law::Ratio => put_ratio(alloc, out, broken),
        Law::Clock => put_clock(alloc, out, broken),
    }
}

fn put_ratio(alloc: Global, out: &mut Vec<u8>, broken: Broken) -> Result<(), AllocError>
    ensures { OnOk result (Extends out.old.items out.new.items) }
{
    let (cpu, max_bw, bw_ratio) = (broken.cpu, broken.max_bw, broken.bw_ratio);
    let text = format!(in alloc;
        "max_bw {max_bw} and bw_ratio {bw_ratio} of CPU {cpu} are not those of the limit of the admission test\n  functions of kernel/sched/deadline.c to look at: init_dl_rq_bw_ratio\n"
    )?;
    put(out, text.as_str())
}

fn put_clock(alloc: Global, out: &mut Vec<u8>, broken: Broken) -> Result<(), AllocError>
    ensures { OnOk result (Extends out.old.items out.new.items) }
{
    let (late, wakes, micros) = (broken.late, broken.wakes, broken.behind / 1000);
    let text = format!(in alloc;
        "{late} of {wakes} wakes by a runqueue's clock that is more than 100 us behind, the first by {micros} us\n  functions to look at: update_rq_clock, ttwu_queue\n"
    )?;
    put(out, text.as_str())
}

fn put_differs(
    alloc: Global,
    out: &mut Vec<u8>,
    names: &[NamedTask],
    kernel: Option<Kernel>,
    differ: u64,
    first: Deviation,
) -> Result<(), AllocError>
    ensures { OnOk result (Extends out.old.items out.new.items) }
{
    put_count(alloc, out, differ)?;
    put_place(alloc, out, first.comparison.place, kernel)?;
    put_comparison(alloc, out, &first.comparison, names)?;
    put_since(
        alloc,
        out,
        first.since,
        first.comparison.place.event,
        kernel,
    )
}

fn put_place(
    alloc: Global,
    out: &mut Vec<u8>,
    place: ProbedLine,
    kernel: Option<Kernel>,
) -> Result<(), AllocError>
    ensures { OnOk result (Extends out.old.items out.new.items) }
{
    let line = place.line;
    let text = format!(in alloc; " of these values, first at line {line}, ")?;
    put(out, text.as_str())?;
    put_seconds(alloc, out, place.at)?;
    put_event(alloc, out, place.event, place.cpu, kernel)
}

fn put_event(
    alloc: Global,
    out: &mut Vec<u8>,
    event: ProbedFunction,
    cpu: u32,
    kernel: Option<Kernel>,
) -> Result<(), AllocError>
    ensures { OnOk result (Extends out.old.items out.new.items) }
{
    let (name, function) = (event_name(event), function_of(event, kernel));
    let text = format!(in alloc; ", {name} ({function}) on CPU {cpu}\n  ")?;
    put(out, text.as_str())
}

fn put_comparison(
    alloc: Global,
    out: &mut Vec<u8>,
    row: &Comparison,
    names: &[NamedTask],
) -> Result<(), AllocError>
    ensures { OnOk result (Extends out.old.items out.new.items) }
{
    put(out, quantity_name(row.quantity))?;
    put(out, " of ")?;
    put_subject(alloc, out, row.subject, names)?;
    put_values(alloc, out, row, names)
}

fn put_values(
    alloc: Global,
    out: &mut Vec<u8>,
    row: &Comparison,
    names: &[NamedTask],
) -> Result<(), AllocError>
    ensures { OnOk result (Extends out.old.items out.new.items) }
{
    put(out, ": ")?;
    put_value(alloc, out, row.rules, names)?;
    put(out, " by the rules, ")?;
    put_value(alloc, out, row.kernel, names)?;
    put_difference(alloc, out, difference(row.rules, row.kernel))
}

/// By how much the kernel's number is above the rules', if both are numbers.
fn difference(rules: ExactValue, kernel: ExactValue) -> Option<i128> {
    match (rules, kernel) {
        (ExactValue::Unsigned(rules), ExactValue::Unsigned(kernel)) => {
            Some(i128::from(kernel) - i128::from(rules))
        }
        (ExactValue::Signed(rules), ExactValue::Signed(kernel)) => {
            Some(i128::from(kernel) - i128::from(rules))
        }
        _ => None,
    }
}

fn put_difference(
    alloc: Global,
    out: &mut Vec<u8>,
    difference: Option<i128>,
) -> Result<(), AllocError>
    ensures { OnOk result (Extends out.old.items out.new.items) }
{
    let Some(difference) = difference else {
        return put(out, " in the kernel\n");
    };
    let amount = difference.unsigned_abs();
    let word = if difference < 0 { "less" } else { "more" };
    let text = format!(in alloc; " in the kernel: {amount} {word}\n")?;
    put(out, text.as_str())
}

/// Appends what changed the value last by the rules, and the kernel's functions to look at.
fn put_since(
    alloc: Global,
    out: &mut Vec<u8>,
    since: Why,
    event: ProbedFunction,
    kernel: Option<Kernel>,
) -> Result<(), AllocError>
    ensures { OnOk result (Extends out.old.items out.new.items) }
{
    match since.rule {
        None => put_unruled(alloc, out, since, event, kernel),
        Some(rule) => {
            put_rule(alloc, out, since, rule)?;
            put_functions(
                alloc,
                out,
                rule_function(rule, kernel),
                function_of(event, kernel),
            )
        }
    }
}

/// No rule of a task has changed the value: it was only seen, or root domains were rebuilt.
fn put_unruled(
    alloc: Global,
    out: &mut Vec<u8>,
    since: Why,
    event: ProbedFunction,
    kernel: Option<Kernel>,
) -> Result<(), AllocError>
    ensures { OnOk result (Extends out.old.items out.new.items) }
{
    match since.event {
        ProbedFunction::RebuildTask => {
            let line = since.line;
            let text = format!(in alloc;
                "  last changed at line {line}, reb, since root domains were rebuilt\n"
            )?;
            put(out, text.as_str())?;
            put_functions(
                alloc,
                out,
                function_of(since.event, kernel),
                function_of(event, kernel),
            )
        }
        _ => put(out, "  no rule has changed it since it was first seen\n"),
    }
}

fn put_rule(alloc: Global, out: &mut Vec<u8>, since: Why, rule: ExactRule) -> Result<(), AllocError>
    ensures { OnOk result (Extends out.old.items out.new.items) }
{
    let line = since.line;
    let (at, name) = (event_name(since.event), rule_name(rule));
    let text = format!(in alloc; "  last changed at line {line}, {at}, by the rule \"{name}\"\n")?;
    put(out, text.as_str())
}

/// Appends the functions to look at: that of the rule, and that of the line where it is another.
fn put_functions(
    alloc: Global,
    out: &mut Vec<u8>,
    first: &str,
    second: &str,
) -> Result<(), AllocError>
    ensures { OnOk result (Extends out.old.items out.new.items) }
{
    let text = format!(in alloc; "  functions of kernel/sched/deadline.c to look at: {first}")?;
    put(out, text.as_str())?;
    put_second(out, first, second)?;
    put(out, "\n")
}

/// Appends a name behind a first one, unless it is the same.
fn put_second(out: &mut Vec<u8>, first: &str, second: &str) -> Result<(), AllocError>
    ensures { OnOk result (Extends out.old.items out.new.items) }
{
    if first == second {
        return Ok(());
    }
    put(out, ", ")?;
    put(out, second)
}
