//! How many observations there are and how far off they are, in words.

use crate::numbers::KindNumbers;
use crate::tested::put_item;
use crate::writing::{put, put_count, put_micros};
use std::alloc::{AllocError, Global};

/// Appends how many observations there are, are compared, and agree, and their differences.
pub(crate) fn put_numbers(
    alloc: Global,
    out: &mut Vec<u8>,
    name: &[u8],
    unit: &[u8],
    within: u64,
    numbers: KindNumbers,
) -> Result<(), AllocError> {
    put(out, name)?;
    put(out, b": ")?;
    put_count(alloc, out, numbers.all)?;
    put(out, unit)?;
    put(out, b", ")?;
    put_count(alloc, out, numbers.compared())?;
    put(out, b" compared, ")?;
    put_count(alloc, out, numbers.agree)?;
    put(out, b" agree within ")?;
    put_count(alloc, out, within / 1_000)?;
    put(out, b" us")?;
    put_left_out(alloc, out, numbers)?;
    put(out, b"\n")?;
    if numbers.compared() == 0 {
        return Ok(());
    }
    put_spread(alloc, out, numbers)
}

fn put_left_out(alloc: Global, out: &mut Vec<u8>, numbers: KindNumbers) -> Result<(), AllocError> {
    let left_out = numbers.all.saturating_sub(numbers.compared());
    if left_out == 0 {
        return Ok(());
    }
    put(out, b"; not compared: ")?;
    let first = put_item(alloc, out, true, b"ends", numbers.ends)?;
    let first = put_item(alloc, out, first, b"unknown", numbers.unknown)?;
    let first = put_item(alloc, out, first, b"edges", numbers.edges)?;
    let _ = put_item(alloc, out, first, b"gaps", numbers.gaps)?;
    Ok(())
}

fn put_spread(alloc: Global, out: &mut Vec<u8>, numbers: KindNumbers) -> Result<(), AllocError> {
    put(out, b"  rules - kernel in us: least ")?;
    put_micros(alloc, out, numbers.least)?;
    put(out, b", median ")?;
    put_micros(alloc, out, numbers.median)?;
    put(out, b", 99 % up to ")?;
    put_micros(alloc, out, numbers.high)?;
    put(out, b", greatest ")?;
    put_micros(alloc, out, numbers.greatest)?;
    put(out, b"\n")
}
