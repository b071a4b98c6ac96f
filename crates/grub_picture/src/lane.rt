//! Which tasks have a lane on a runqueue.

ghost use Rattle.std.specs.Prelude.{◌<◌, ◌≤◌, All, IfOk, length, vec_len};

use crate::bars::{are_seen, bars_of};
use grub_timeline::Step;
use std::alloc::{AllocError, Global};
use svg::Frame;

/// The tasks that have a lane on runqueue `r`: of the first so many, by the own steps of each, those that are on it at some
/// time of the span. It is refused where the allocator refused.
pub fn lanes_of(
    alloc: Global,
    frame: Frame,
    r: u32,
    owns: &[Vec<Step>],
    tasks: u32,
) -> Result<Vec<u32>, AllocError>
    requires { tasks ≤ length owns.now }
    ensures within { IfOk result (λ v. All (λ t. t < tasks) v.items) }
    ensures most { IfOk result (λ v. vec_len v ≤ tasks) }
{
    let mut lanes = Vec::new(alloc);
    for t in 0..tasks {
        let bars = bars_of(alloc, r, own_of(owns, t), frame)?;
        if are_seen(frame, &bars) {
            lanes.push(t)?;
        }
    }
    Ok(lanes)
}

/// The steps of task `t`, of those of each task.
pub(crate) fn own_of(owns: &[Vec<Step>], t: u32) -> &[Step]
    requires { t < length owns.now }
{
    owns[t as usize].as_slice()
}
