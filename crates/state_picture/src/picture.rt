//! A picture of a record's states.

ghost use Rattle.std.specs.Prelude.{◌<◌, ◌^◌, IfOk, vec_len};

use crate::drawing::put_drawing;
use crate::lane::lanes_of;
use crate::layout::Grain;
use state_history::RecordScene;
use std::alloc::{AllocError, Global};

/// A picture is smaller than 4 MiB.
pub(crate) const MOST: usize = 1 << 22;

/// How much is drawn, in the order in which it is tried: ever wider columns, and then ever fewer lanes.
fn grain_of(trial: u32, lanes: usize) -> Grain {
    Grain {
        unit: 1 << trial.min(10),
        lanes: lanes >> trial.saturating_sub(10).min(63),
    }
}

/// The picture of a record's states: the first of its drawings that is smaller than 4 MiB.
pub fn picture_of(alloc: Global, scene: RecordScene<'_>, trace: &str) -> Result<Vec<u8>, AllocError>
    ensures small { IfOk result (λ v. vec_len v < 2 ^ 22) }
    ensures some { IfOk result (λ v. 0 < vec_len v) }
{
    let lanes = lanes_of(
        alloc,
        &scene.history.states,
        scene.history.cpus(),
        scene.history.tasks(),
    )?;
    for trial in 0..40 {
        let mut out = Vec::new(alloc);
        put_drawing(
            alloc,
            &mut out,
            scene,
            trace,
            &lanes,
            grain_of(trial, lanes.len()),
        )?;
        if !out.is_empty() && out.len() < MOST {
            return Ok(out);
        }
    }
    Vec::from_slice(alloc, NOTHING)
}

/// What is drawn where nothing else is small enough.
const NOTHING: &[u8] =
    b"<svg xmlns=\"http://www.w3.org/2000/svg\"><text y=\"12\">too large to draw</text></svg>\n";
