//! One line of a file, and what follows from its answer.
ghost use Rattle.std.specs.Prelude.{◌≡◌, ◌<◌, ◌≤◌, ◌+◌, Some, length, vec_len, vec_capacity};
ghost use Rattle.grub_book.specs.declared.server.TheConstants.{MOMENT_MAX};
ghost use Rattle.grub_plan.specs.Limits.{ActFits};
ghost use Rattle.grub_plan.specs.Asked.{Follows, JoinsAfter};
ghost use Rattle.grub_timeline.specs.TimeLines.{AsksPlaced, entries_of};
ghost use Rattle.grub_timeline.specs.inside.Playing.{GoesOnOf, IsLineAsked, IsNotPast, IsPlaying, Plays};

use crate::due::ask_due;
use crate::order::PlacedLine;
use crate::player::{Player, call, look};
use grub_book::{Op, Reply};
use grub_plan::{Act, Answer, Line, call_of};

/// Where a task has left, it joins here.
fn join_here(player: &mut Player<'_>, r: u32, m: u32, t: u32, answer: Answer)
    requires playing { IsPlaying player.old }
    requires task { t < length player.old.book.setup.tasks }
    requires queue { r < length player.old.book.setup.queues }
    requires moment { m ≤ MOMENT_MAX }
    requires last { player.old.wheel.last ≡ Some m }
    requires room { vec_len player.old.chunk + 1 ≤ vec_capacity player.old.chunk }
    ensures plays { Plays m player.old player.new }
    ensures joins { JoinsAfter r m t answer (entries_of player.old.told.items)
        (entries_of player.new.told.items) }
    ensures goes_on { GoesOnOf r player.old.told.items player.new.told.items }
    ensures most { vec_len player.new.chunk ≤ vec_len player.old.chunk + 1 }
{
    match answer {
        Answer::Replied(Reply::Left { .. }) => {
            call(player, r, m, t, Op::Join { r, m });
        }
        _ => {}
    }
}

/// Where a wake was answered that the task is on another runqueue, the task moves here.
fn follow(player: &mut Player<'_>, r: u32, m: u32, act: Act, answer: Answer)
    requires playing { IsPlaying player.old }
    requires act { ActFits (length player.old.book.setup.tasks) act }
    requires queue { r < length player.old.book.setup.queues }
    requires moment { m ≤ MOMENT_MAX }
    requires last { player.old.wheel.last ≡ Some m }
    requires room { vec_len player.old.chunk + 2 ≤ vec_capacity player.old.chunk }
    ensures plays { Plays m player.old player.new }
    ensures follows { Follows r m act answer (entries_of player.old.told.items)
        (entries_of player.new.told.items) }
    ensures goes_on { GoesOnOf r player.old.told.items player.new.told.items }
    ensures most { vec_len player.new.chunk ≤ vec_len player.old.chunk + 2 }
{
    match (act, answer) {
        (Act::Wake(t), Answer::Replied(Reply::Elsewhere(_))) => {
            let left = call(player, r, m, t, Op::Leave);
            join_here(player, r, m, t, left);
        }
        _ => {}
    }
}

/// Asks for a line, and for what follows from its answer.
fn ask(player: &mut Player<'_>, r: u32, line: Line)
    requires playing { IsPlaying player.old }
    requires act { ActFits (length player.old.book.setup.tasks) line.act }
    requires queue { r < length player.old.book.setup.queues }
    requires moment { line.m ≤ MOMENT_MAX }
    requires last { player.old.wheel.last ≡ Some line.m }
    requires room { vec_len player.old.chunk + 3 ≤ vec_capacity player.old.chunk }
    ensures plays { Plays line.m player.old player.new }
    ensures line { IsLineAsked r line (entries_of player.old.told.items)
        (entries_of player.new.told.items) }
    ensures goes_on { GoesOnOf r player.old.told.items player.new.told.items }
    ensures most { vec_len player.new.chunk ≤ vec_len player.old.chunk + 3 }
{
    let Line { m, act } = line;
    match call_of(r, m, act) {
        None => look(player, r, m),
        Some((t, op)) => {
            let answer = call(player, r, m, t, op);
            follow(player, r, m, act, answer);
        }
    }
}

/// Asks for the timers that are due before a line, for the line, and for what follows from its answer.
pub(crate) fn ask_line(player: &mut Player<'_>, placed: PlacedLine)
    requires playing { IsPlaying player.old }
    requires act { ActFits (length player.old.book.setup.tasks) placed.line.act }
    requires queue { placed.runqueue < length player.old.book.setup.queues }
    requires moment { placed.line.m ≤ MOMENT_MAX }
    requires not_past { IsNotPast placed.line.m player.old }
    requires room { vec_len player.old.chunk + (length player.old.book.setup.tasks + 3)
        ≤ vec_capacity player.old.chunk }
    ensures plays { Plays placed.line.m player.old player.new }
    ensures asked { AsksPlaced player.old.told.items placed player.new.told.items }
{
    ask_due(player, placed.line.m);
    ask(player, placed.runqueue, placed.line);
}
