//! A time line that is played on beside other work.

ghost use Rattle.std.specs.Prelude.{◌≡◌, ◌++◌, ◌<◌, ◌≤◌, [], length};
ghost use Rattle.std.specs.Bool.{OnFalse, OnTrue};
ghost use Rattle.grub_book.specs.History.{IsLegal};
ghost use Rattle.grub_timeline.specs.TimeLines.{AreAnswered, AreWithin, history_of};

use grub_timeline::Playing;
use std::thread::{Threads, join_mut};
use text_bytes::MANY_LINES;

/// Asks for the lines that come next while work on so many entries is done, and tells whether there was a line, and what came
/// of the work. Many entries are worth a thread, which asks; after work on few it is asked here.
pub(crate) fn play_beside<R: Threads, F: FnMut() -> T, T>(
    rt: &R,
    playing: &mut Playing<'_>,
    entries: usize,
    work: &mut F,
) -> (bool, T)
    requires { F.pre work.old }
    ensures work { F.step work.old result.1 work.new }
    ensures plan { playing.new.plan ≡ playing.old.plan }
    ensures told { playing.new.told ≡ playing.old.told ++ playing.new.chunk }
    ensures fewer { OnTrue result.0 (playing.new.left < playing.old.left) }
    ensures over { OnFalse result.0 (playing.new.left ≡ 0) }
    ensures none { OnFalse result.0 (playing.new.chunk ≡ []) }
    ensures within { AreWithin playing.new.plan.setup playing.new.chunk }
    ensures legal { IsLegal playing.new.plan.setup (history_of playing.new.told) }
    ensures answered { AreAnswered playing.new.told }
    ensures most { playing.new.most ≡ playing.old.most }
    ensures few { length playing.new.chunk ≤ playing.new.most }
{
    if entries < MANY_LINES {
        let done = work();
        return (playing.play_on(), done);
    }
    join_mut(rt, &mut || playing.play_on(), work)
}
