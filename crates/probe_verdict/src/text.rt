//! The words of a verdict.

use crate::heading::{DroppedLines, ProbeHeading};
use crate::names::{ALL, KINDS, kind_plural, rule_name};
use crate::writing::{put, put_bytes, put_comma, put_count};
use probe_findings::{Comparisons, ExactRule, KindCounts, RuleCounts};
use std::alloc::{AllocError, Global};
use text_bytes::put_number;
use trace_data::Kernel;

/// How many values of all kinds are equal, and how many differ.
#[derive(Clone, Copy)]
pub struct Total {
    pub equal: u64,
    pub differ: u64,
}

/// The counts of all kinds together.
pub fn total_of(counts: &KindCounts) -> Total {
    let mut total = Total {
        equal: 0,
        differ: 0,
    };
    for kind in KINDS {
        let tally = counts.of(kind);
        total = Total {
            equal: total.equal.saturating_add(tally.equal),
            differ: total.differ.saturating_add(tally.differ),
        };
    }
    total
}

/// Whether values of a kind were compared.
fn has_some(tally: Comparisons) -> bool {
    tally.equal > 0 || tally.differ > 0
}

/// Whether one value was compared at least, those of laws aside.
pub fn has_values(counts: &KindCounts) -> bool {
    has_some(counts.budget)
        || has_some(counts.deadline)
        || has_some(counts.flags)
        || has_some(counts.parameters)
        || has_some(counts.this_bw)
        || has_some(counts.running_bw)
        || has_some(counts.extra_bw)
        || has_some(counts.zero_lag)
        || has_some(counts.zero_lag_moment)
        || has_some(counts.timers)
}

/// Appends what was read and compared, and which rules were put to the test.
pub fn put_heading(
    alloc: Global,
    out: &mut Vec<u8>,
    heading: ProbeHeading<'_>,
    counts: &KindCounts,
    rules: &RuleCounts,
) -> Result<(), AllocError> {
    put_record(alloc, out, heading)?;
    put_total(alloc, out, total_of(counts))?;
    put_counts(alloc, out, counts)?;
    put_tested(alloc, out, rules)?;
    put_untested(out, rules)?;
    put_unknown_speeds(alloc, out, rules.of(ExactRule::SpeedUnknown))?;
    put_unknown_extras(alloc, out, rules.of(ExactRule::ExtraUnknown))
}

/// Appends how many charges were not compared, since no line shows how fast the CPU ran.
fn put_unknown_speeds(alloc: Global, out: &mut Vec<u8>, charges: u64) -> Result<(), AllocError> {
    if charges == 0 {
        return Ok(());
    }
    put(out, "speed unknown: ")?;
    put_count(alloc, out, charges)?;
    put(
        out,
        " charges without SCHED_FLAG_RECLAIM took less than their time, and were not compared; scripts/record.sh records the speed of each CPU (fs, cs)\n",
    )
}

/// Appends how many charges were by an `extra_bw` that no line shows, since a function was changing it.
fn put_unknown_extras(alloc: Global, out: &mut Vec<u8>, charges: u64) -> Result<(), AllocError> {
    if charges == 0 {
        return Ok(());
    }
    put(
        out,
        "extra_bw unknown: charges beside marks, by another extra_bw than their lines show: ",
    )?;
    put_count(alloc, out, charges)?;
    put(out, "\n")
}

/// Appends the CPUs of which no root domain is followed, if there are any.
pub fn put_unfollowed(alloc: Global, out: &mut Vec<u8>, cpus: &[u32]) -> Result<(), AllocError> {
    if cpus.is_empty() {
        return Ok(());
    }
    put(out, "not compared: extra_bw and total_bw of ")?;
    put_cpus(alloc, out, cpus)?;
    put(out, ", whose root domain no note tells\n")
}

fn put_record(
    alloc: Global,
    out: &mut Vec<u8>,
    heading: ProbeHeading<'_>,
) -> Result<(), AllocError> {
    put_bytes(out, heading.trace)?;
    put(out, ": ")?;
    put_kernel(alloc, out, heading.kernel, heading.release)?;
    put_cpus(alloc, out, heading.domain)?;
    put_size(alloc, out, heading)?;
    put_lost(out, heading.lost)?;
    put_sums(out, heading.takes_sums)
}

fn put_kernel(
    alloc: Global,
    out: &mut Vec<u8>,
    kernel: Option<Kernel>,
    release: Option<&[u8]>,
) -> Result<(), AllocError> {
    let Some(kernel) = kernel else {
        return Ok(());
    };
    if let Some(release) = release {
        put(out, "kernel ")?;
        put_bytes(out, release)?;
        return put(out, ", ");
    }
    let (major, minor, patch) = (kernel.major, kernel.minor, kernel.patch);
    let text = format!(in alloc; "kernel {major}.{minor}.{patch}, ")?;
    put(out, text.as_str())
}

/// Appends the CPUs of a root domain, as 0-3 where they follow one another.
fn put_cpus(alloc: Global, out: &mut Vec<u8>, cpus: &[u32]) -> Result<(), AllocError> {
    put(out, "processors ")?;
    match (cpus.first(), cpus.last()) {
        (Some(first), Some(last)) => put_range(alloc, out, cpus, *first, *last),
        _ => put(out, "unknown"),
    }
}

fn put_range(
    alloc: Global,
    out: &mut Vec<u8>,
    cpus: &[u32],
    first: u32,
    last: u32,
) -> Result<(), AllocError> {
    let span = u64::from(last).saturating_sub(u64::from(first));
    if span == 0 || span != (cpus.len() as u64).saturating_sub(1) {
        return put_list(out, cpus);
    }
    let text = format!(in alloc; "{first}-{last}")?;
    put(out, text.as_str())
}

fn put_list(out: &mut Vec<u8>, cpus: &[u32]) -> Result<(), AllocError> {
    for cpu in cpus {
        put_comma(out)?;
        put_number(out, b"", u64::from(*cpu))?;
    }
    Ok(())
}

/// Appends how many tasks and lines there are, and from when to when.
fn put_size(alloc: Global, out: &mut Vec<u8>, heading: ProbeHeading<'_>) -> Result<(), AllocError> {
    let tasks = heading.tasks.len();
    let span = heading.to.saturating_sub(heading.from);
    let (whole, tenth) = (span / 1_000_000_000, span % 1_000_000_000 / 100_000_000);
    let text = format!(in alloc; ", tasks {tasks}, {whole}.{tenth} s, ")?;
    put(out, text.as_str())?;
    put_count(alloc, out, heading.lines)?;
    put(out, " lines of probes")
}

fn put_lost(out: &mut Vec<u8>, lost: Option<DroppedLines>) -> Result<(), AllocError> {
    match lost {
        None => put(out, "\n"),
        Some(lost) => put_number_lost(out, lost.lines.saturating_add(lost.hits)),
    }
}

fn put_number_lost(out: &mut Vec<u8>, lost: u64) -> Result<(), AllocError> {
    if lost == 0 {
        return put(out, "; none lost\n");
    }
    put_number(out, b"; ", lost)?;
    put(out, " lost: what differs behind them may be theirs\n")
}

fn put_sums(out: &mut Vec<u8>, takes_sums: bool) -> Result<(), AllocError> {
    if takes_sums {
        put(
            out,
            "sums: taken from the lines, since none shows a dequeue; budgets and deadlines are compared\n",
        )
    } else {
        Ok(())
    }
}

fn put_total(alloc: Global, out: &mut Vec<u8>, total: Total) -> Result<(), AllocError> {
    put_count(alloc, out, total.equal.saturating_add(total.differ))?;
    put(out, " values compared: ")?;
    put_count(alloc, out, total.equal)?;
    put_unequal(alloc, out, total.differ)
}

fn put_unequal(alloc: Global, out: &mut Vec<u8>, differ: u64) -> Result<(), AllocError> {
    if differ == 0 {
        return put(out, " equal\n");
    }
    put(out, " equal, ")?;
    put_count(alloc, out, differ)?;
    put(out, " differ\n")
}

fn put_counts(alloc: Global, out: &mut Vec<u8>, counts: &KindCounts) -> Result<(), AllocError> {
    put(out, "  ")?;
    for kind in KINDS {
        let tally = counts.of(kind);
        let count = tally.equal.saturating_add(tally.differ);
        put_item(alloc, out, kind_plural(kind), count)?;
    }
    put(out, "\n")
}

/// Appends an item of a list and its count, where that is not 0.
fn put_item(alloc: Global, out: &mut Vec<u8>, name: &str, count: u64) -> Result<(), AllocError> {
    if count == 0 {
        return Ok(());
    }
    put_comma(out)?;
    put(out, name)?;
    put(out, " ")?;
    put_count(alloc, out, count)
}

fn put_tested(alloc: Global, out: &mut Vec<u8>, rules: &RuleCounts) -> Result<(), AllocError> {
    put(out, "put to the test: ")?;
    for rule in ALL {
        put_item(alloc, out, rule_name(rule), rules.of(rule))?;
    }
    put(out, "\n")
}

fn put_untested(out: &mut Vec<u8>, rules: &RuleCounts) -> Result<(), AllocError> {
    put(out, "not put to the test: ")?;
    for rule in ALL {
        if rules.of(rule) == 0 {
            put_comma(out)?;
            put(out, rule_name(rule))?;
        }
    }
    put(out, "\n")
}
