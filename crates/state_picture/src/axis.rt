//! The time axis.

use crate::frame::{LEFT, PictureFrame};
use crate::text::{put, put_rounded};
use std::alloc::{AllocError, Global};

/// How many marks an axis has at most.
const MARKS: u64 = 12;

/// How far apart the marks are, 1, 2 or 5 times a power of ten of nanoseconds, and how many digits behind the point their seconds have.
#[derive(Clone, Copy)]
struct Ticks {
    step: u64,
    digits: usize,
}

/// The least of these steps with which so long a span has no more marks than an axis may have.
fn ticks_of(length: u64) -> Ticks {
    let mut ticks = Ticks { step: 1, digits: 9 };
    for digits in 0..19usize {
        for times in [1u64, 2, 5] {
            let step = power(digits).saturating_mul(times);
            if length / step.max(1) < MARKS {
                ticks = Ticks {
                    step,
                    digits: 9usize.saturating_sub(digits),
                };
                return ticks;
            }
        }
    }
    ticks
}

fn power(digits: usize) -> u64 {
    let mut power = 1u64;
    for _ in 0..digits {
        power = power.saturating_mul(10);
    }
    power
}

fn put_tick(
    out: &mut Vec<u8>,
    frame: PictureFrame,
    top: u64,
    y: u64,
    at: u64,
    digits: usize,
) -> Result<(), AllocError> {
    let alloc = *out.allocator();
    let x = frame.x(at);
    let (foot, label) = (y.saturating_add(5), y.saturating_add(18));
    put(
        out,
        format!(in alloc;
            "<path class=\"g\" d=\"M{x} {top}V{y}\"/><path class=\"a\" d=\"M{x} {y}V{foot}\"/>"
        )?.as_str(),
    )?;
    put(
        out,
        format!(in alloc; "<text x=\"{x}\" y=\"{label}\" text-anchor=\"middle\">")?.as_str(),
    )?;
    put_rounded(alloc, out, at, digits)?;
    put(out, "</text>\n")
}

/// The axis at `y`, with a pale line up to `top` from each of its marks.
pub(crate) fn put_axis(
    alloc: Global,
    out: &mut Vec<u8>,
    frame: PictureFrame,
    top: u64,
    y: u64,
) -> Result<(), AllocError> {
    let ticks = ticks_of(frame.span.to.saturating_sub(frame.span.from));
    let step = ticks.step.max(1);
    let first = frame.span.from.div_ceil(step);
    let last = frame.span.to / step;
    for k in first..last.saturating_add(1).min(first.saturating_add(MARKS)) {
        put_tick(out, frame, top, y, k.saturating_mul(step), ticks.digits)?;
    }
    let (right, label) = (frame.right(), y.saturating_add(36));
    put(
        out,
        format!(in alloc; "<path class=\"a\" d=\"M{LEFT} {y}H{right}\"/>\n")?.as_str(),
    )?;
    put(
        out,
        format!(in alloc;
            "<text x=\"{LEFT}\" y=\"{label}\">seconds of the trace</text>\n"
        )?.as_str(),
    )
}
