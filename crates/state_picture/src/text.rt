//! How texts and numbers are written into a picture.

use std::alloc::{AllocError, Global};

/// Appends a text.
pub(crate) fn put(out: &mut Vec<u8>, text: &str) -> Result<(), AllocError> {
    out.extend_from_slice(text.as_bytes())?;
    Ok(())
}

/// Appends a text that is about to be seen: what XML could misread is written otherwise, and other bytes than those of ASCII are a `?`.
pub(crate) fn put_seen(out: &mut Vec<u8>, text: &str) -> Result<(), AllocError> {
    for byte in text.as_bytes() {
        match byte {
            b'&' => put(out, "&amp;")?,
            b'<' => put(out, "&lt;")?,
            b'>' => put(out, "&gt;")?,
            b'"' => put(out, "&quot;")?,
            b' '..=b'~' => out.push(*byte)?,
            _ => put(out, "?")?,
        }
    }
    Ok(())
}

/// Appends a moment in seconds, with all its digits, as 1835.045053123.
pub(crate) fn put_seconds(alloc: Global, out: &mut Vec<u8>, nanos: u64) -> Result<(), AllocError> {
    let whole = nanos / 1_000_000_000;
    let part = nanos % 1_000_000_000;
    put(out, format!(in alloc; "{whole}.{part:09}")?.as_str())
}

/// Appends a moment in seconds, with so many digits behind the point, 9 at most.
pub(crate) fn put_rounded(
    alloc: Global,
    out: &mut Vec<u8>,
    nanos: u64,
    digits: usize,
) -> Result<(), AllocError> {
    let whole = nanos / 1_000_000_000;
    let part = nanos % 1_000_000_000;
    let text = format!(in alloc; "{whole}.{part:09}")?;
    let length = if digits == 0 {
        text.len().saturating_sub(10)
    } else {
        text.len().saturating_sub(9usize.saturating_sub(digits))
    };
    out.extend_from_slice(text.as_bytes().get(..length).unwrap_or(&[]))?;
    Ok(())
}

/// Appends a span in the unit that reads best, as 947 us or 1.250 ms.
pub(crate) fn put_length(alloc: Global, out: &mut Vec<u8>, nanos: u64) -> Result<(), AllocError> {
    if nanos < 1_000_000 {
        let (whole, part) = (nanos / 1_000, nanos % 1_000);
        put(out, format!(in alloc; "{whole}.{part:03} us")?.as_str())
    } else {
        let (whole, part) = (nanos / 1_000_000, nanos / 1_000 % 1_000);
        put(out, format!(in alloc; "{whole}.{part:03} ms")?.as_str())
    }
}

/// Appends a bandwidth in percent of a processor, as 4.99 %.
pub(crate) fn put_percent(alloc: Global, out: &mut Vec<u8>, bw: u64) -> Result<(), AllocError> {
    let hundredths = u128::from(bw) * 10_000 >> 20;
    let (whole, part) = (hundredths / 100, hundredths % 100);
    put(out, format!(in alloc; "{whole}.{part:02} %")?.as_str())
}
