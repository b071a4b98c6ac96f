//! One entry more.
ghost use Rattle.std.specs.Prelude.{◌≡◌, ◌<◌, ◌≤◌, ◌+◌, ◌++◌, ◌∷◌, [], Some, length, vec_len, vec_capacity};
ghost use Rattle.grub_book.specs.Op.{IsOp};
ghost use Rattle.grub_plan.specs.declared.entry.Ask.TheVariants.{Call, Read};
ghost use Rattle.grub_plan.specs.Keeping.{WaitsRightly};
ghost use Rattle.grub_plan.specs.inside.Keeping.{IsLineOp};
ghost use Rattle.grub_timeline.specs.inside.TimeLines.{told_of};
ghost use Rattle.grub_timeline.specs.inside.Playing.{IsLookedAt, IsOfBlock, IsPlaying, IsToldBy, Plays};

use crate::armers::note;
use crate::log::Log;
use crate::told::ToldEntry;
use grub_book::{Book, Op};
use grub_plan::{Answer, Ask, Entry, keep};
use grub_wheel::Wheel;
use std::snapshot::Snapshot;

/// What is kept between two asks: the book, the latest entries, the timers of all runqueues, and for each task the runqueue
/// whose block last armed its timer.
#[derive(Drop)]
pub struct Player<'a> {
    pub book: Book<'a>,

    /// All entries so far, for clauses alone.
    pub told: Log,

    /// And those before the latest.
    pub start: Snapshot<Log>,

    /// The latest entries.
    pub chunk: Vec<ToldEntry>,
    pub wheel: Wheel,
    pub armers: Vec<u32>,
}

/// Asks the book, and makes the entry of it, which is of runqueue `r`.
pub(crate) fn put(player: &mut Player<'_>, r: u32, m: u32, t: u32, op: Op) -> Answer
    requires told { IsToldBy player.old }
    requires task { t < length player.old.book.setup.tasks }
    requires queue { r < length player.old.book.setup.queues }
    requires op { IsOp player.old.book.setup op }
    requires room { vec_len player.old.chunk + 1 ≤ vec_capacity player.old.chunk }
    ensures told { IsToldBy player.new }
    ensures setup { player.new.book.setup ≡ player.old.book.setup }
    ensures list { player.new.told.items
        ≡ player.old.told.items ++ told_of r m (Call t op) result ∷ [] }
    ensures chunk { player.new.chunk.items
        ≡ player.old.chunk.items ++ told_of r m (Call t op) result ∷ [] }
    ensures start { player.new.start.value.items ≡ player.old.start.value.items }
    ensures waits { WaitsRightly op result }
    ensures wheel { player.new.wheel ≡ player.old.wheel }
    ensures armers { player.new.armers.items ≡ player.old.armers.items }
    ensures one { vec_len player.new.chunk ≡ vec_len player.old.chunk + 1 }
    ensures room { vec_capacity player.new.chunk ≡ vec_capacity player.old.chunk }
{
    let reply = player.book.apply(t, op);
    let answer = Answer::Replied(reply);
    let told = ToldEntry {
        runqueue: r,
        entry: Entry {
            m,
            ask: Ask::Call { t, op },
            answer,
        },
    };
    player.told = player.told.and(&told);
    player.chunk.push_reserved(told);
    answer
}

/// Asks for a line of runqueue `r` at this moment, and keeps the timers.
pub(crate) fn call(player: &mut Player<'_>, r: u32, m: u32, t: u32, op: Op) -> Answer
    requires playing { IsPlaying player.old }
    requires task { t < length player.old.book.setup.tasks }
    requires queue { r < length player.old.book.setup.queues }
    requires op { IsOp player.old.book.setup op }
    requires line { IsLineOp m op }
    requires block { IsOfBlock r op }
    requires last { player.old.wheel.last ≡ Some m }
    requires room { vec_len player.old.chunk + 1 ≤ vec_capacity player.old.chunk }
    ensures plays { Plays m player.old player.new }
    ensures list { player.new.told.items
        ≡ player.old.told.items ++ told_of r m (Call t op) result ∷ [] }
    ensures one { vec_len player.new.chunk ≡ vec_len player.old.chunk + 1 }
{
    let answer = put(player, r, m, t, op);
    keep(&mut player.wheel, t, op, answer);
    note(&mut player.armers, t, r, answer);
    answer
}

/// Reads runqueue `r`, and makes the entry of it.
pub(crate) fn look(player: &mut Player<'_>, r: u32, m: u32)
    requires playing { IsPlaying player.old }
    requires queue { r < length player.old.book.setup.queues }
    requires last { player.old.wheel.last ≡ Some m }
    requires room { vec_len player.old.chunk + 1 ≤ vec_capacity player.old.chunk }
    ensures plays { Plays m player.old player.new }
    ensures looked { IsLookedAt r m player.old.told.items player.new.told.items }
    ensures one { vec_len player.new.chunk ≡ vec_len player.old.chunk + 1 }
{
    let reading = player.book.read(r);
    let told = ToldEntry {
        runqueue: r,
        entry: Entry {
            m,
            ask: Ask::Read,
            answer: Answer::Seen(reading),
        },
    };
    player.told = player.told.and(&told);
    player.chunk.push_reserved(told);
}
