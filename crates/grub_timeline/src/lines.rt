//! The next lines of all files.
ghost use Rattle.std.specs.Prelude.{◌≡◌, ◌<◌, ◌≤◌, ◌+◌, length, vec_len, vec_capacity};
ghost use Rattle.std.specs.Bool.{OnFalse, OnTrue};
ghost use Rattle.grub_plan.specs.Limits.{PlanFits};
ghost use Rattle.grub_timeline.specs.inside.Merge.{IsAhead, IsMidway, IsNext, NoHead};
ghost use Rattle.grub_timeline.specs.Order.{left};

use crate::line::ask_line;
use crate::order::{Lead, PlacedLine, first, leads, take};
use crate::player::Player;
use grub_plan::Plan;

/// Asks for the lines that come next, while what one more asks is sure to have room. It tells whether there was a line.
pub(crate) fn ask_lines(player: &mut Player<'_>, plan: &Plan, done: &mut Vec<usize>) -> bool
    requires midway { IsMidway plan.now player.old done.old.items }
    requires fits { PlanFits plan.now }
    requires room { vec_len player.old.chunk + (length plan.now.setup.tasks + 3)
        ≤ vec_capacity player.old.chunk }
    ensures midway { IsMidway plan.now player.new done.new.items }
    ensures start { player.new.start.value.items ≡ player.old.start.value.items }
    ensures room { vec_capacity player.new.chunk ≡ vec_capacity player.old.chunk }
    ensures fewer { OnTrue result
        (left plan.now.scripts done.new.items < left plan.now.scripts done.old.items) }
    ensures over { OnFalse result (NoHead plan.now.scripts done.new.items) }
    ensures same { OnFalse result (player.new ≡ player.old) }
    ensures undone { OnFalse result (done.new ≡ done.old) }
{
    let Some(lead) = first(plan, done) else {
        return false;
    };
    ask_while_led(player, plan, done, lead);
    while has_room(player) {
        let Some(lead) = first(plan, done) else {
            return true;
        };
        ask_while_led(player, plan, done, lead);
    }
    true
}

/// Whether what a line asks is sure to have room: a timer of each task, and three asks.
fn has_room(player: &Player<'_>) -> bool
    ensures { OnTrue result (vec_len player.now.chunk + (length player.now.armers.items + 3)
        ≤ vec_capacity player.now.chunk) }
{
    player.chunk.capacity() - player.chunk.len() >= player.armers.len() + 3
}

/// Asks for the next line of the file that leads, and for those after it while it leads and there is room.
fn ask_while_led(player: &mut Player<'_>, plan: &Plan, done: &mut [usize], lead: Lead)
    requires midway { IsMidway plan.now player.old done.old }
    requires fits { PlanFits plan.now }
    requires room { vec_len player.old.chunk + (length plan.now.setup.tasks + 3)
        ≤ vec_capacity player.old.chunk }
    requires ahead { IsAhead plan.now.scripts done.old lead }
    requires next { IsNext plan.now.scripts done.old lead }
    ensures midway { IsMidway plan.now player.new done.new }
    ensures start { player.new.start.value.items ≡ player.old.start.value.items }
    ensures room { vec_capacity player.new.chunk ≡ vec_capacity player.old.chunk }
    ensures fewer { left plan.now.scripts done.new < left plan.now.scripts done.old }
{
    ask_next(player, plan, done, lead);
    while has_room(player) && leads(plan, done, lead) {
        ask_next(player, plan, done, lead);
    }
}

/// Asks for the next line of the file that leads.
fn ask_next(player: &mut Player<'_>, plan: &Plan, done: &mut [usize], lead: Lead)
    requires midway { IsMidway plan.now player.old done.old }
    requires fits { PlanFits plan.now }
    requires room { vec_len player.old.chunk + (length plan.now.setup.tasks + 3)
        ≤ vec_capacity player.old.chunk }
    requires ahead { IsAhead plan.now.scripts done.old lead }
    requires next { IsNext plan.now.scripts done.old lead }
    ensures midway { IsMidway plan.now player.new done.new }
    ensures ahead { IsAhead plan.now.scripts done.new lead }
    ensures start { player.new.start.value.items ≡ player.old.start.value.items }
    ensures room { vec_capacity player.new.chunk ≡ vec_capacity player.old.chunk }
    ensures fewer { left plan.now.scripts done.new < left plan.now.scripts done.old }
{
    let line = take(plan, done, lead.runqueue);
    ask_line(
        player,
        PlacedLine {
            runqueue: lead.runqueue,
            line,
        },
    );
}
