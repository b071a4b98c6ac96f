//! Scales: the marks of runtimes, of moments and of counts.

ghost use Rattle.std.specs.Prelude.{◌≤◌};

use crate::column::{PANEL, WIDTH};
use crate::stroke::{Stroke, StrokeLook, put_stroke};
use std::alloc::AllocError;
use svg::{LEFT, put_number, put_text};

/// How far apart the marks of a scale are, which ends at `top`: 1, 2 or 5 times a power of ten, such that there are at most `most` beyond 0.
fn step_of(top: u64, most: u64) -> u64 {
    let mut unit = 1u64;
    for _ in 0..18 {
        for times in [1u64, 2, 5] {
            let step = unit.saturating_mul(times).max(1);
            if top / step <= most {
                return step;
            }
        }
        unit = unit.saturating_mul(10);
    }
    top.max(1)
}

/// How far a number lies on a scale of so many pixels that ends at `top`.
pub(crate) fn place_of(number: u64, top: u64, pixels: u64) -> u64
    ensures most { result ≤ pixels }
{
    let part = u128::from(number.min(top));
    let place = part * u128::from(pixels) / u128::from(top.max(1));
    place.min(u128::from(pixels)) as u64
}

/// Writes a number and its unit; `class` says where the text stands beside its place.
fn put_label(
    out: &mut Vec<u8>,
    class: &[u8],
    x: u64,
    y: u64,
    number: u64,
    unit: &str,
) -> Result<(), AllocError> {
    out.extend_from_slice(b"<text class=\"")?;
    out.extend_from_slice(class)?;
    put_number(out, b"\" x=\"", x)?;
    put_number(out, b"\" y=\"", y)?;
    put_number(out, b"\">", number)?;
    put_text(out, unit)?;
    out.extend_from_slice(b"</text>\n")?;
    Ok(())
}

fn axis(x: u64, y: u64, to_x: u64, to_y: u64) -> Stroke {
    Stroke {
        look: StrokeLook::Axis,
        x,
        y,
        to_x,
        to_y,
    }
}

/// The scale of runtimes at the left of a panel, whose bottom is at `base`.
pub(crate) fn put_runtimes(out: &mut Vec<u8>, base: u64, top: u64) -> Result<(), AllocError> {
    let step = step_of(top, 6);
    for k in 0..(top / step.max(1)).saturating_add(1).min(8) {
        let runtime = k.saturating_mul(step);
        let y = base.saturating_sub(place_of(runtime, top, u64::from(PANEL)));
        put_stroke(out, axis(LEFT - 4, y, LEFT, y))?;
        put_label(out, b"n", LEFT - 8, y.saturating_add(4), runtime, "")?;
    }
    put_stroke(
        out,
        axis(LEFT, base.saturating_sub(u64::from(PANEL)), LEFT, base),
    )
}

/// The unit in which moments are told that are so many microseconds apart, and its name.
fn unit_of(step: u64) -> (u64, &'static str) {
    if step >= 1000000 {
        (1000000, " s")
    } else if step >= 1000 {
        (1000, " ms")
    } else {
        (1, " us")
    }
}

/// The marks below a panel: numbers up to `top`, told in a unit.
fn put_below(
    out: &mut Vec<u8>,
    base: u64,
    top: u64,
    unit: u64,
    name: &str,
) -> Result<(), AllocError> {
    let step = step_of(top, 10);
    for k in 0..(top / step.max(1)).saturating_add(1).min(12) {
        let number = k.saturating_mul(step);
        let x = LEFT + place_of(number, top, WIDTH);
        put_stroke(out, axis(x, base, x, base.saturating_add(4)))?;
        put_label(
            out,
            b"t",
            x,
            base.saturating_add(16),
            number / unit.max(1),
            name,
        )?;
    }
    put_stroke(out, axis(LEFT, base, LEFT + WIDTH, base))
}

/// The time since the record began.
pub(crate) fn put_time(out: &mut Vec<u8>, base: u64, span: u64) -> Result<(), AllocError> {
    let (unit, name) = unit_of(step_of(span, 10));
    put_below(out, base, span, unit, name)
}

/// How many jobs may be late.
pub(crate) fn put_counts(out: &mut Vec<u8>, base: u64, most: u64) -> Result<(), AllocError> {
    put_below(out, base, most, 1, " late")
}
