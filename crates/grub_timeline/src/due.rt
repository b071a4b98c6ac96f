//! Timers that are due.
ghost use Rattle.std.specs.Prelude.{◌≤◌, ◌+◌, vec_len, vec_capacity};
ghost use Rattle.std.specs.FinMap as map;
ghost use Rattle.grub_book.specs.declared.server.TheConstants.{MOMENT_MAX};
ghost use Rattle.grub_plan.specs.Asked.{AsksDue};
ghost use Rattle.grub_timeline.specs.TimeLines.{entries_of};
ghost use Rattle.grub_timeline.specs.inside.Playing.{GoesOnAt, IsNotPast, IsPlaying, Plays};

use crate::player::{Player, put};
use grub_book::Op;

/// Asks for each timer, of whatever runqueue, that is due by this moment.
pub(crate) fn ask_due(player: &mut Player<'_>, m: u32)
    requires playing { IsPlaying player.old }
    requires moment { m ≤ MOMENT_MAX }
    requires not_past { IsNotPast m player.old }
    requires room { vec_len player.old.chunk + map.len player.old.wheel.timers
        ≤ vec_capacity player.old.chunk }
    ensures plays { Plays m player.old player.new }
    ensures asked { AsksDue m (entries_of player.old.told.items)
        (entries_of player.new.told.items) }
    ensures goes_on { GoesOnAt player.old.told.items player.new.told.items }
    ensures most { vec_len player.new.chunk
        ≤ vec_len player.old.chunk + map.len player.old.wheel.timers }
{
    while let Some(timer) = player.wheel.due(m) {
        let op = Op::Timer {
            ticket: timer.ticket,
            m: timer.z,
        };
        let r = player.armers[timer.t as usize];
        put(player, r, timer.z, timer.t, op);
    }
}
