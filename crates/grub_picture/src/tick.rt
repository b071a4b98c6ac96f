//! The ticks of a lane: where deadlines were postponed.

use crate::bars::postponed;
use grub_timeline::Step;
use std::alloc::{AllocError, Global};
use svg::{Frame, put_number, put_text};

/// A deadline that was postponed.
#[derive(Clone, Copy)]
pub struct Tick {
    /// How far right it stands, in pixels.
    pub x: u64,

    /// When the deadline was postponed.
    pub m: u32,

    /// To which moment.
    pub deadline: u32,
}

/// The ticks of a task on runqueue `r`, by the task's own steps: one where its deadline was postponed in the span, and one
/// a column at most. It is refused where the allocator refused.
pub fn ticks_of(
    alloc: Global,
    frame: Frame,
    r: u32,
    own: &[Step],
) -> Result<Vec<Tick>, AllocError> {
    let mut ticks = Vec::new(alloc);
    let mut last = 0;
    for step in own {
        let x = frame.x(u64::from(step.told.entry.m));
        if is_tick(frame, r, step) && last < x {
            ticks.push(tick_of(frame, r, step))?;
            last = x;
        }
    }
    Ok(ticks)
}

fn tick_of(frame: Frame, r: u32, step: &Step) -> Tick {
    let m = step.told.entry.m;
    Tick {
        x: frame.x(u64::from(m)),
        m,
        deadline: postponed(r, step).unwrap_or(0),
    }
}

/// Whether a step of runqueue `r` postponed a deadline in the span.
fn is_tick(frame: Frame, r: u32, step: &Step) -> bool {
    postponed(r, step).is_some() && frame.is_in(step.told.entry.m)
}

/// Appends the ticks of the task of this name, in the lane at `y`.
pub(crate) fn put_ticks(
    out: &mut Vec<u8>,
    name: &str,
    ticks: &[Tick],
    y: u32,
) -> Result<(), AllocError> {
    for tick in ticks {
        put_number(out, b"<path class=\"k\" d=\"M", tick.x)?;
        put_number(out, b" ", u64::from(y))?;
        out.extend_from_slice(b"v16\"><title>")?;
        put_text(out, name)?;
        put_number(out, b": at ", u64::from(tick.m))?;
        put_number(
            out,
            b" its deadline was postponed to ",
            u64::from(tick.deadline),
        )?;
        out.extend_from_slice(b"</title></path>\n")?;
    }
    Ok(())
}
