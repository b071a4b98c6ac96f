//! What an answer does to the timers.
ghost use Rattle.std.specs.Prelude.{◌≡◌, ◌<◌, ◌≤◌, ℕ, Some, None, OnOk};
ghost use Rattle.std.specs.FinMap as map;
ghost use Rattle.grub_plan.specs.Timers.{touch_of_call};
ghost use Rattle.grub_plan.specs.inside.Touches.{disarms};
ghost use Rattle.grub_plan.specs.Keeping.{IsBlock, IsBlockBefore, IsNoTimer, IsTouched, WaitsRightly, places_of};

use crate::entry::Answer;
use grub_book::{Op, Reply};
use grub_wheel::Wheel;
use std::alloc::AllocError;

/// Makes a place for the timer that a block may need.
pub fn make_room(wheel: &mut Wheel, op: Op) -> Result<(), AllocError>
    ensures room { OnOk result (IsBlock op → 1 ≤ wheel.new.spare) }
    ensures same { OnOk result ((wheel.new.timers ≡ wheel.old.timers)
        × (wheel.new.last ≡ wheel.old.last)) }
{
    match op {
        Op::Block { .. } => match wheel.reserve_one() {
            Ok(()) => Ok(()),
            Err(_) => Err(AllocError),
        },
        _ => Ok(()),
    }
}

/// Keeps the wheel after an answer to an op of the script. No other answer than these changes it.
pub fn keep(wheel: &mut Wheel, t: u32, op: Op, answer: Answer)
    requires no_timer { IsNoTimer op }
    requires room { IsBlock op → 1 ≤ wheel.old.spare }
    requires waits { WaitsRightly op answer }
    requires later { (z m : ℕ) → wheel.old.last ≡ Some m → IsBlockBefore z op → m < z }
    ensures touched { IsTouched wheel.old.timers wheel.new.timers t (touch_of_call op answer) }
    ensures last { wheel.new.last ≡ wheel.old.last }
    ensures places { places_of wheel.new ≡ places_of wheel.old }
{
    match answer {
        Answer::Replied(Reply::Waiting { ticket, z }) => {
            disarm(wheel, t);
            wheel.arm(z, t, ticket);
        }
        Answer::Replied(Reply::Joined { .. } | Reply::Woken { .. } | Reply::Left { .. }) => {
            disarm(wheel, t);
        }
        _ => {}
    }
}

/// Takes the timer of a task out of the wheel, where one is armed.
fn disarm(wheel: &mut Wheel, t: u32)
    ensures touched { IsTouched wheel.old.timers wheel.new.timers t disarms }
    ensures free { map.get wheel.new.timers t ≡ None }
    ensures spare { wheel.old.spare ≤ wheel.new.spare }
    ensures last { wheel.new.last ≡ wheel.old.last }
    ensures places { places_of wheel.new ≡ places_of wheel.old }
{
    if let Some(timer) = wheel.armed(t) {
        wheel.cancel(t, timer.ticket);
    }
}
