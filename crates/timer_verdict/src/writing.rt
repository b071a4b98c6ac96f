//! How numbers are written.

ghost use Rattle.std.specs.Prelude.{◌≡◌, ◌++◌, OnOk};

use std::alloc::{AllocError, Global};
use text_bytes::put_number;

/// Appends a text.
pub(crate) fn put(out: &mut Vec<u8>, text: &[u8]) -> Result<(), AllocError>
    ensures { OnOk result (out.new.items ≡ out.old.items ++ text.now) }
{
    out.extend_from_slice(text)?;
    Ok(())
}

/// Appends a number with commas, as 3,989.
pub(crate) fn put_count(alloc: Global, out: &mut Vec<u8>, n: u64) -> Result<(), AllocError> {
    let text = format!(in alloc; "{n}")?;
    let digits = text.as_bytes();
    for (i, digit) in digits.iter().enumerate() {
        if i > 0 && (digits.len() - i) % 3 == 0 {
            out.push(b',')?;
        }
        out.push(*digit)?;
    }
    Ok(())
}

/// Appends a number below 0 or not.
pub(crate) fn put_signed(alloc: Global, out: &mut Vec<u8>, n: i64) -> Result<(), AllocError> {
    let text = format!(in alloc; "{n}")?;
    put(out, text.as_bytes())
}

/// Appends nanoseconds as microseconds, as -1.514.
pub(crate) fn put_micros(alloc: Global, out: &mut Vec<u8>, nanos: i64) -> Result<(), AllocError> {
    if nanos < 0 {
        out.push(b'-')?;
    }
    let size = nanos.unsigned_abs();
    let whole = size / 1_000;
    let part = size % 1_000;
    let text = format!(in alloc; "{whole}.{part:03}")?;
    put(out, text.as_bytes())
}

/// Appends a moment in seconds, as 1927.760116310.
pub(crate) fn put_seconds(alloc: Global, out: &mut Vec<u8>, nanos: u64) -> Result<(), AllocError> {
    let whole = nanos / 1_000_000_000;
    let part = nanos % 1_000_000_000;
    let text = format!(in alloc; "{whole}.{part:09}")?;
    put(out, text.as_bytes())
}

/// Appends a moment that may be before 0, as -0.004000000.
pub(crate) fn put_signed_seconds(
    alloc: Global,
    out: &mut Vec<u8>,
    nanos: i64,
) -> Result<(), AllocError> {
    if nanos < 0 {
        out.push(b'-')?;
    }
    put_seconds(alloc, out, nanos.unsigned_abs())
}

/// Appends a span in milliseconds, as 3 ms or 0.5 ms.
pub(crate) fn put_millis(alloc: Global, out: &mut Vec<u8>, nanos: u64) -> Result<(), AllocError> {
    let whole = nanos / 1_000_000;
    let part = nanos % 1_000_000;
    put_number(out, b"", whole)?;
    if part > 0 {
        let text = format!(in alloc; ".{part:06}")?;
        put(out, without_zeros(text.as_bytes()))?;
    }
    put(out, b" ms")
}

/// The digits without zeros at the end.
fn without_zeros(digits: &[u8]) -> &[u8] {
    let mut end = 0usize;
    for (i, digit) in digits.iter().enumerate() {
        if *digit != b'0' {
            end = i + 1;
        }
    }
    digits.get(..end).unwrap_or(digits)
}

/// Appends a part of a whole as a percentage, as 29.63 %.
pub(crate) fn put_rate(
    alloc: Global,
    out: &mut Vec<u8>,
    part: i64,
    whole: u64,
) -> Result<(), AllocError> {
    if part < 0 {
        out.push(b'-')?;
    }
    let hundredths = if whole == 0 {
        0
    } else {
        u128::from(part.unsigned_abs()) * 10_000 / u128::from(whole)
    };
    let percent = hundredths / 100;
    let rest = hundredths % 100;
    let text = format!(in alloc; "{percent}.{rest:02} %")?;
    put(out, text.as_bytes())
}

/// Appends CPUs, as 0-3,6.
pub(crate) fn put_cpus(out: &mut Vec<u8>, cpus: &[u32]) -> Result<(), AllocError> {
    let mut from: Option<u32> = None;
    for (i, cpu) in cpus.iter().enumerate() {
        let follows = follows(cpus, i, *cpu);
        match from {
            None => {
                if i > 0 {
                    out.push(b',')?;
                }
                put_number(out, b"", u64::from(*cpu))?;
                from = Some(*cpu);
            }
            Some(first) => {
                if !follows {
                    if first < *cpu {
                        put_number(out, b"-", u64::from(*cpu))?;
                    }
                }
            }
        }
        if !follows {
            from = None;
        }
    }
    Ok(())
}

/// Whether the CPU behind this place of the list is the next one.
fn follows(cpus: &[u32], place: usize, cpu: u32) -> bool {
    match cpus.get(place.saturating_add(1)) {
        Some(next) => *next == cpu.saturating_add(1),
        None => false,
    }
}
