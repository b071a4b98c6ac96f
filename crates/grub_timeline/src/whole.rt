//! All lines, in their order.
ghost use Rattle.std.specs.Prelude.{◌≡◌, IfOk, length};
ghost use Rattle.grub_plan.specs.Plans.{script_at};
ghost use Rattle.grub_timeline.specs.TimeLines.{AreWithin, DoNotGoBack, IsOneRun, IsOnlyTimeLine, IsTimeLine};

use crate::fault::PlayFault;
use crate::playing::Playing;
use crate::told::TimeLine;
use grub_plan::Plan;
use std::alloc::Global;

/// Plays the scripts of a plan in the order of their moments, by one book. `NoMemory` (48) is meant for a refused growth.
pub fn play(alloc: Global, plan: &Plan) -> Result<TimeLine, PlayFault>
    ensures time_line { IfOk result (λ t. IsTimeLine plan.now t.told.items t.closing.items) }
    ensures only { IfOk result (λ t. IsOnlyTimeLine plan.now t.told.items t.closing.items) }
    ensures moments { IfOk result (λ t. DoNotGoBack t.told.items) }
    ensures one_file { IfOk result (λ t. length plan.now.scripts ≡ 1
        → IsOneRun plan.now.setup (script_at plan.now.scripts 0) t.told.items) }
    ensures within { IfOk result (λ t. AreWithin plan.now.setup t.told.items) }
{
    let mut playing = Playing::new(alloc, plan)?;
    let mut told = Vec::new(alloc);
    while playing.play_on() {
        if told.extend_from_slice(playing.chunk()).is_err() {
            return Err(PlayFault::NoMemory);
        }
    }
    let closing = playing.close();
    Ok(TimeLine { told, closing })
}
