//! A law that is broken, beside what the rules say at its line.

use check_record::Gathering;
use law_findings::{LAWS, Law, LawTallies};
use probe_verdict::has_values;
use std::alloc::{AllocError, Global};

/// The laws of which the rules have a value too.
fn is_of_rules(law: Law) -> bool {
    matches!(law, Law::Progress | Law::ZeroLag | Law::Budget | Law::Total)
}

/// What the rules say at the line where a law is broken, by their first deviation. Where they agree, they may not know `total_bw`.
fn told_of(law: Law, line: u64, first: Option<u64>) -> Option<&'static str> {
    match first {
        Some(first) if first == line => Some("the kernel does not follow its rules"),
        None if !matches!(law, Law::Total) => {
            Some("the rules say so, and the law says otherwise: a fault of the rules' source")
        }
        _ => None,
    }
}

/// Appends of each law that is broken, and by no known fault, whether the rules agree at its first line, where they were compared.
pub(crate) fn put_rules_beside(
    alloc: Global,
    out: &mut Vec<u8>,
    gathering: &Gathering<'_>,
    tallies: &LawTallies,
) -> Result<(), AllocError> {
    let Some(played) = &gathering.probes.played else {
        return Ok(());
    };
    if !has_values(&gathering.probes.counts(played)) {
        return Ok(());
    }
    let first = match gathering.probes.first(played) {
        Some(deviation) => Some(deviation.comparison.place.line),
        None => None,
    };
    for law in LAWS {
        if is_of_rules(law)
            && let Some(breach) = tallies.of(law).first
            && let Some(told) = told_of(law, breach.place.line, first)
        {
            let line = breach.place.line;
            let text = format!(in alloc; "  line {line}: {told}\n")?;
            out.extend_from_slice(text.as_bytes())?;
        }
    }
    Ok(())
}
