//! A time line that is played, some lines at a time.
ghost use Rattle.std.specs.Prelude.{◌≡◌, ◌+◌, ◌++◌, ◌<◌, ◌≤◌, [], IfOk, length, vec_capacity};
ghost use Rattle.std.specs.Bool.{OnFalse, OnTrue};
ghost use Rattle.grub_book.specs.History.{IsLegal};
ghost use Rattle.grub_plan.specs.Plans.{script_at};
ghost use Rattle.grub_timeline.specs.TimeLines.{AreAnswered, AreWithin, DoNotGoBack, IsOneRun, IsOnlyTimeLine, IsTimeLine, history_of};

use crate::closing::fill_readings;
use crate::fault::PlayFault;
use crate::lines::ask_lines;
use crate::opening::player_of;
use crate::player::Player;
use crate::told::ToldEntry;
use grub_book::Reading;
use grub_plan::Plan;
use std::alloc::{AllocError, Global};
use std::marker::Model;
use std::mem;
use std::snapshot::Snapshot;

/// The scripts of a plan while they are played in the order of their moments, by one book. All memory is taken before the
/// first line, so nothing is refused while it goes on.
#[derive(Drop)]
pub struct Playing<'a> {
    plan: &'a Plan,
    player: Player<'a>,

    /// How many lines of each file were asked.
    done: Vec<usize>,

    /// Room for the closing readings.
    closing: Vec<Reading>,
}

impl<'a> Model for Playing<'a> {
    ghost use Rattle.std.specs.Prelude.{vec_capacity};
    ghost use Rattle.grub_timeline.specs.Order.{left};
    ghost use Rattle.grub_timeline.specs.TimeLines.{PlayState};
    ghost use Rattle.grub_timeline.specs.inside.Merge.{IsUnderWay};

    ghost Value = { PlayState };

    ghost view = { λ x. record {
      plan = x.plan.now;
      told = x.player.told.items;
      chunk = x.player.chunk.items;
      most = vec_capacity x.player.chunk;
      left = left x.plan.now.scripts x.done.items;
    } };

    ghost invariant = { λ x. IsUnderWay x.plan.now x.player x.done.items x.closing };
}

impl<'a> Playing<'a> {
    /// Nothing was asked yet. A refused growth gives `NoMemory` (48).
    pub fn new(alloc: Global, plan: &'a Plan) -> Result<Playing<'a>, PlayFault>
        ensures plan { IfOk result (λ x. x.plan ≡ plan.now) }
        ensures nothing { IfOk result (λ x. x.told ≡ []) }
    {
        playing_of(alloc, plan).map_err(|_| PlayFault::NoMemory)
    }

    /// Asks for the lines that come next, some thousand entries, and tells whether there was a line.
    pub fn play_on(&mut self) -> bool
        ensures plan { self.new.plan ≡ self.old.plan }
        ensures told { self.new.told ≡ self.old.told ++ self.new.chunk }
        ensures fewer { OnTrue result (self.new.left < self.old.left) }
        ensures over { OnFalse result (self.new.left ≡ 0) }
        ensures none { OnFalse result (self.new.chunk ≡ []) }
        ensures within { AreWithin self.new.plan.setup self.new.chunk }
        ensures legal { IsLegal self.new.plan.setup (history_of self.new.told) }
        ensures answered { AreAnswered self.new.told }
        ensures most { self.new.most ≡ self.old.most }
        ensures few { length self.new.chunk ≤ self.new.most }
    {
        let Playing {
            plan,
            player,
            done,
            ..
        } = self;
        player.chunk.clear();
        player.start = Snapshot::of(&player.told);
        ask_lines(player, plan, done)
    }

    /// The entries of the lines that were asked for last.
    pub fn chunk(&self) -> &[ToldEntry]
        ensures { result.now ≡ self.now.chunk }
    {
        &self.player.chunk
    }

    /// How many entries are asked for at a time at most. There is room for those of any line.
    pub fn most(&self) -> usize
        ensures most { result ≡ self.now.most }
        ensures room { length self.now.plan.setup.tasks + 3 ≤ result }
    {
        self.player.chunk.capacity()
    }

    /// Exchanges the vector of the entries of the lines that were asked for last with another, so that these may be read while
    /// the next lines are asked for. The other's entries are dropped. It has to have room for those of a line: a timer of each
    /// task, and three asks.
    pub fn exchange(&mut self, other: &mut Vec<ToldEntry>)
        requires room { length self.old.plan.setup.tasks + 3 ≤ vec_capacity other.old }
        ensures chunk { other.new.items ≡ self.old.chunk }
        ensures none { self.new.chunk ≡ [] }
        ensures plan { self.new.plan ≡ self.old.plan }
        ensures told { self.new.told ≡ self.old.told }
        ensures left { self.new.left ≡ self.old.left }
        ensures most { self.new.most ≡ vec_capacity other.old }
        ensures other { vec_capacity other.new ≡ self.old.most }
        ensures room { length self.new.plan.setup.tasks + 3 ≤ vec_capacity other.new }
    {
        mem::swap(&mut self.player.chunk, other);
        self.player.chunk.clear();
        self.player.start = Snapshot::of(&self.player.told);
    }

    /// The closing readings, where no line is left.
    pub fn close(self) -> Vec<Reading>
        requires over { self.left ≡ 0 }
        ensures time_line { IsTimeLine self.entry.plan self.entry.told result.items }
        ensures only { IsOnlyTimeLine self.entry.plan self.entry.told result.items }
        ensures moments { DoNotGoBack self.entry.told }
        ensures one_file { length self.entry.plan.scripts ≡ 1
            → IsOneRun self.entry.plan.setup (script_at self.entry.plan.scripts 0) self.entry.told }
        ensures within { AreWithin self.entry.plan.setup self.entry.told }
    {
        let mut closing = self.closing;
        fill_readings(&mut closing, &self.player.book, self.plan.files());
        closing
    }
}

/// `Playing::new`, with the allocator's own refusal.
fn playing_of<'a>(alloc: Global, plan: &'a Plan) -> Result<Playing<'a>, AllocError>
    ensures plan { IfOk result (λ x. x.plan ≡ plan.now) }
    ensures nothing { IfOk result (λ x. x.told ≡ []) }
{
    let files = plan.files() as usize;
    let done = vec![in alloc; 0; files]?;
    let closing = Vec::with_capacity(alloc, files)?;
    let player = player_of(alloc, plan)?;
    Ok(Playing {
        plan,
        player,
        done,
        closing,
    })
}
