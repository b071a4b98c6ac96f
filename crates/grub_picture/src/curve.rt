//! The curves of a runqueue: its bandwidths over time.

use grub_book::Reading;
use grub_timeline::Step;
use std::alloc::{AllocError, Global};
use svg::{Frame, LEFT, height_of, put_number, put_text};

/// A bandwidth, and how far right a curve comes to it, in pixels.
#[derive(Clone, Copy)]
pub struct CurvePoint {
    pub x: u64,
    pub bandwidth: u32,
}

/// The points of the step curve of a bandwidth of runqueue `r`: running_bw, or this_bw. It begins at the span's left end
/// with 0, and has for each column the last reading of it, where it is another than that before. It is refused where the
/// allocator refused.
pub fn points_of(
    alloc: Global,
    frame: Frame,
    r: u32,
    steps: &[Step],
    running: bool,
) -> Result<Vec<CurvePoint>, AllocError> {
    let mut points = Vec::new(alloc);
    let mut column = LEFT;
    let mut now = 0;
    let mut shown = 0;
    for x in steps {
        if is_read(frame, r, x) {
            let next = frame.x(u64::from(x.told.entry.m));
            if next > column {
                push_point(&mut points, column, shown, now)?;
                shown = now;
                column = next;
            }
            now = bandwidth_in(running, x.reading);
        }
    }
    push_point(&mut points, column, shown, now)?;
    Ok(points)
}

/// Appends a point, where another bandwidth was shown before.
fn push_point(
    points: &mut Vec<CurvePoint>,
    x: u64,
    shown: u32,
    now: u32,
) -> Result<(), AllocError> {
    if shown == now {
        return Ok(());
    }
    points.push(CurvePoint { x, bandwidth: now })?;
    Ok(())
}

fn is_read(frame: Frame, r: u32, x: &Step) -> bool {
    x.queue == r && x.told.entry.m <= frame.to
}

fn bandwidth_in(running: bool, reading: Reading) -> u32 {
    if running {
        reading.running
    } else {
        reading.this
    }
}

/// Appends the curve of these points on the base at `base`.
pub(crate) fn put_curve(
    out: &mut Vec<u8>,
    frame: Frame,
    r: u32,
    points: &[CurvePoint],
    base: u32,
    running: bool,
) -> Result<(), AllocError> {
    let (class, word) = if running {
        ("r", "running_bw")
    } else {
        ("t", "this_bw")
    };
    out.extend_from_slice(b"<path class=\"")?;
    put_text(out, class)?;
    put_number(out, b"\" d=\"M130 ", u64::from(base))?;
    for point in points {
        put_number(out, b"H", point.x)?;
        let height = height_of(point.bandwidth);
        put_number(out, b"V", u64::from(base).saturating_sub(height))?;
    }
    put_number(out, b"H", frame.right())?;
    put_number(out, b"V", u64::from(base))?;
    put_number(out, b"Z\"><title>runqueue ", u64::from(r))?;
    out.extend_from_slice(b": ")?;
    put_text(out, word)?;
    out.extend_from_slice(b"</title></path>\n")?;
    Ok(())
}
