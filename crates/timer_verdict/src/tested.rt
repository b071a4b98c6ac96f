//! Which rules a record put to the test, in words.

use crate::writing::{put, put_count};
use std::alloc::{AllocError, Global};
use timer_play::TimerRuleCounts;

/// Appends a count of a list, with what it counts, where it is one.
pub(crate) fn put_item(
    alloc: Global,
    out: &mut Vec<u8>,
    is_first: bool,
    text: &[u8],
    count: u64,
) -> Result<bool, AllocError> {
    if count == 0 {
        return Ok(is_first);
    }
    if !is_first {
        put(out, b", ")?;
    }
    put(out, text)?;
    put(out, b" ")?;
    put_count(alloc, out, count)?;
    Ok(false)
}

/// Appends which rules the record put to the test.
pub(crate) fn put_tested(
    alloc: Global,
    out: &mut Vec<u8>,
    counts: &TimerRuleCounts,
) -> Result<(), AllocError> {
    put(out, b"put to the test: ")?;
    let first = put_charges_tested(alloc, out, counts)?;
    let first = put_wakes_tested(alloc, out, first, counts)?;
    let first = put_throttles_tested(alloc, out, first, counts)?;
    let first = put_changes_tested(alloc, out, first, counts)?;
    if first {
        put(out, b"nothing")?;
    }
    put(out, b"\n")
}

fn put_charges_tested(
    alloc: Global,
    out: &mut Vec<u8>,
    counts: &TimerRuleCounts,
) -> Result<bool, AllocError> {
    let first = put_item(
        alloc,
        out,
        true,
        b"charges by what is left",
        counts.by_what_is_left,
    )?;
    let first = put_item(
        alloc,
        out,
        first,
        b"charges by the own bandwidth",
        counts.by_bandwidth,
    )?;
    put_item(alloc, out, first, b"charges in full", counts.in_full)
}

fn put_wakes_tested(
    alloc: Global,
    out: &mut Vec<u8>,
    first: bool,
    counts: &TimerRuleCounts,
) -> Result<bool, AllocError> {
    let first = put_item(
        alloc,
        out,
        first,
        b"wakes with a new period",
        counts.renewed,
    )?;
    let first = put_item(
        alloc,
        out,
        first,
        b"wakes before the 0-lag time",
        counts.kept,
    )?;
    let first = put_item(alloc, out, first, b"revised wakes", counts.revised)?;
    put_item(
        alloc,
        out,
        first,
        b"waits for the next period",
        counts.waits,
    )
}

fn put_throttles_tested(
    alloc: Global,
    out: &mut Vec<u8>,
    first: bool,
    counts: &TimerRuleCounts,
) -> Result<bool, AllocError> {
    let first = put_item(alloc, out, first, b"throttles", counts.throttled)?;
    let first = put_item(alloc, out, first, b"yields", counts.yielded)?;
    let first = put_item(alloc, out, first, b"replenishments", counts.replenished)?;
    put_item(
        alloc,
        out,
        first,
        b"replenishments at once",
        counts.replenished_at_once,
    )
}

fn put_changes_tested(
    alloc: Global,
    out: &mut Vec<u8>,
    first: bool,
    counts: &TimerRuleCounts,
) -> Result<bool, AllocError> {
    let first = put_item(alloc, out, first, b"admissions", counts.admitted)?;
    let first = put_item(alloc, out, first, b"changes", counts.changed)?;
    let first = put_item(alloc, out, first, b"leavings", counts.left)?;
    let first = put_item(alloc, out, first, b"ends", counts.ended)?;
    let first = put_item(alloc, out, first, b"moves of ready tasks", counts.moved)?;
    put_item(
        alloc,
        out,
        first,
        b"fair servers that stopped",
        counts.server_stops,
    )
}
