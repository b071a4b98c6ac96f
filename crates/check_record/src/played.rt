//! Lines of probes that are played.

ghost use Rattle.std.specs.Prelude.{◌≡◌, ◌∷◌, ◌++◌, [], IfOk, IsTrue, OnOk};
ghost use Rattle.probe_explain.specs.Taken.{IsExplainedWhere};
ghost use Rattle.check_record.specs.Playing.{AreSeenBy, IsPlayedBy};

use crate::names::Names;
use kernel_rules::ChargeLaw;
use probe_explain::{Player, ProbeLine};
use probe_search::ProbeSearch;
use probe_start::{Assumed, RecordLook, StartNotes};
use probe_verdict::put_row;
use std::alloc::{AllocError, Global};

/// A search sees so many lines behind the next one.
pub const AHEAD: usize = 4096;

/// What lines of probes came to so far.
#[derive(Drop)]
pub struct Played {
    pub player: Player,
    search: ProbeSearch,
    assumed: Assumed,

    /// How many lines there were, and the moments of the first and the last one.
    pub lines: u64,
    pub from: u64,
    pub to: u64,
}

impl Played {
    /// No line was played, of a record of which this was seen and told.
    pub(crate) fn new(
        alloc: Global,
        law: ChargeLaw,
        look: &RecordLook,
        notes: &StartNotes,
        keeps_rows: bool,
    ) -> Result<Played, AllocError>
        ensures { IfOk result (λ p. p.player.lines ≡ []) }
    {
        let rules = look.rules(law, None, notes);
        let start = look.start(alloc, notes)?;
        let from = look.first_moment();
        let assumed = look.assume(alloc, notes)?;
        let search = ProbeSearch::new(alloc, rules, look.shows_spans());
        let player = Player::new(alloc, rules, start, AHEAD, keeps_rows)?;
        Ok(Played {
            player,
            search,
            assumed,
            lines: 0,
            from,
            to: from,
        })
    }

    /// Plays a line.
    pub(crate) fn take(&mut self, line: &ProbeLine) -> Result<(), AllocError>
        ensures { OnOk result (self.new.player.lines ≡ self.old.player.lines ++ line.now ∷ []) }
    {
        self.lines = self.lines.saturating_add(1);
        self.to = line.place.at;
        self.player.take(&mut self.search, line)
    }

    /// Plays lines, in their order, and appends the rows of their comparisons.
    pub(crate) fn take_all(
        &mut self,
        alloc: Global,
        lines: &[ProbeLine],
        rows: &mut Vec<u8>,
        names: &Names,
    ) -> Result<(), AllocError>
        ensures { OnOk result (self.new.player.lines ≡ self.old.player.lines ++ lines.now) }
    {
        for line in lines {
            self.take(line)?;
            self.put_rows(alloc, rows, names)?;
        }
        Ok(())
    }

    /// No more lines come.
    pub(crate) fn end(&mut self) -> Result<(), AllocError>
        ensures rules { OnOk result (self.new.player.rules ≡ self.old.player.rules) }
        ensures lines { OnOk result (self.new.player.lines ≡ self.old.player.lines) }
        ensures explained { OnOk result (IsExplainedWhere self.new.player) }
    {
        self.player.finish(&mut self.search)
    }

    /// Whether it was begun by this law, with no rule changed, and what was taken for granted then is borne out: what lines show is
    /// compared.
    pub(crate) fn is_borne_out(&self, law: ChargeLaw, look: &RecordLook, notes: &StartNotes) -> bool
        ensures rules { IsTrue result → IsPlayedBy law self.now.player.rules }
        ensures seen { IsTrue result → AreSeenBy look.now self.now.player.rules }
    {
        let rules = self.player.rules();
        is_same_law(rules.law, law)
            && rules.change.is_none()
            && rules.has_dequeues == look.has_dequeues
            && rules.has_timers == look.has_timers
            && look.bears_out(&self.assumed, notes)
    }

    /// Appends the rows of the comparisons since the last time.
    pub(crate) fn put_rows(
        &mut self,
        alloc: Global,
        rows: &mut Vec<u8>,
        names: &Names,
    ) -> Result<(), AllocError>
        ensures { self.new.player ≡ self.old.player }
    {
        for row in self.player.run().rows() {
            put_row(alloc, rows, row, &names.tasks)?;
        }
        self.player.clear_rows();
        Ok(())
    }
}

fn is_same_law(one: ChargeLaw, other: ChargeLaw) -> bool
    ensures { IsTrue result → one ≡ other }
{
    match one {
        ChargeLaw::LinuxBefore65 => matches!(other, ChargeLaw::LinuxBefore65),
        ChargeLaw::LinuxFrom65 => matches!(other, ChargeLaw::LinuxFrom65),
        ChargeLaw::Documentation => matches!(other, ChargeLaw::Documentation),
    }
}
