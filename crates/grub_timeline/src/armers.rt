//! Which runqueue's block armed the timer of a task.
ghost use Rattle.std.specs.Prelude.{◌≡◌, ◌<◌, length};
ghost use Rattle.grub_timeline.specs.inside.Playing.{waits_of};

use grub_book::Reply;
use grub_plan::Answer;

/// Remembers the runqueue of a block that waits.
pub(crate) fn note(armers: &mut Vec<u32>, t: u32, r: u32, answer: Answer)
    requires { t < length armers.old.items }
    ensures { armers.new.items ≡ waits_of armers.old.items t r answer }
{
    if let Answer::Replied(Reply::Waiting { .. }) = answer {
        armers[t as usize] = r;
    }
}
