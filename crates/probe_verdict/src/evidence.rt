//! What speaks for a deviation: where the value was last right, what happened since, and the rule with its numbers.

use crate::arithmetic::{RuleNumbers, put_arithmetic};
use crate::writing::{put, put_bytes, put_count};
use std::alloc::{AllocError, Global};

/// What is told of the first deviation.
#[derive(Clone, Copy)]
pub struct Evidence<'a> {
    /// The last line at which a value of that entity or runqueue was right; 0 where there is none.
    pub right: u64,

    /// Lines of it since then, as they stand in the trace, and how many more there are.
    pub lines: &'a [Vec<u8>],
    pub more: u64,

    /// The rule that changed the value last; none where no rule has.
    pub rule: Option<RuleNumbers>,
}

/// Appends what speaks for a deviation.
pub fn put_evidence(
    alloc: Global,
    out: &mut Vec<u8>,
    evidence: Evidence<'_>,
) -> Result<(), AllocError> {
    if let Some(rule) = evidence.rule {
        put_arithmetic(alloc, out, rule)?;
    }
    put_right(alloc, out, evidence.right)?;
    if evidence.lines.is_empty() {
        return put(out, "\n");
    }
    put(out, "; its lines since then:\n")?;
    for line in evidence.lines {
        put(out, "    ")?;
        put_bytes(out, trimmed(line.as_slice()))?;
        put(out, "\n")?;
    }
    put_more(alloc, out, evidence.more)
}

fn put_right(alloc: Global, out: &mut Vec<u8>, right: u64) -> Result<(), AllocError> {
    if right == 0 {
        return put(out, "  it was right at no line before");
    }
    let text = format!(in alloc; "  it was last right at line {right}")?;
    put(out, text.as_str())
}

fn put_more(alloc: Global, out: &mut Vec<u8>, more: u64) -> Result<(), AllocError> {
    if more == 0 {
        return Ok(());
    }
    put(out, "    and ")?;
    put_count(alloc, out, more)?;
    put(out, " more\n")
}

/// A line without spaces before it.
fn trimmed(line: &[u8]) -> &[u8] {
    match line.iter().position(|byte| *byte != b' ') {
        Some(first) => line.get(first..).unwrap_or(line),
        None => line,
    }
}
