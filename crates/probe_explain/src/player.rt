//! A player takes a record line by line, and knows what it took.

ghost use Rattle.std.specs.Prelude.{◌≡◌, ◌∷◌, ◌++◌, [], IfOk, OnOk};
ghost use Rattle.probe_run.specs.Runs.{state_of};
ghost use Rattle.probe_explain.specs.Taken.{IsExplainedWhere, IsExplainedSoFarWhere};

use crate::play::Play;
use crate::search::{ProbeLine, Search};
use crate::taken::TakenLines;
use probe_run::{PlayRules, Run, RunStart};
use std::alloc::{AllocError, Global};
use std::marker::Model;
use std::snapshot::Snapshot;

/// A record that is being played, and which lines of it were taken so far. Behind a call that fails `finish` fails too.
#[derive(Drop)]
pub struct Player {
    rules: PlayRules,
    play: Play,

    /// With what it began, and the lines since, for clauses alone.
    start: Snapshot<RunStart>,
    taken: TakenLines,

    /// Memory ran out while a line was played, so nothing is known of the run.
    has_failed: bool,
}

impl Model for Player {
    ghost use Rattle.std.specs.Prelude.{◌≡◌, false};
    ghost use Rattle.probe_run.specs.Start.{start_of};
    ghost use Rattle.probe_explain.specs.Taken.{Taken};
    ghost use Rattle.probe_explain.specs.inside.Playing.{HasTaken, come_to};

    ghost Value = { Taken };

    ghost view = { λ p. record {
      rules = p.rules;
      start = p.start.value;
      lines = p.taken.lines;
      first = (come_to p.play).first;
    } };

    ghost invariant = { λ p. p.has_failed ≡ false →
        HasTaken p.play p.rules (start_of p.start.value) p.taken.lines };
}

impl Player {
    /// Nothing was taken. A search sees at most `ahead` lines behind the next one. With `keeps_rows` each comparison is kept until
    /// `clear_rows`.
    pub fn new(
        alloc: Global,
        rules: PlayRules,
        start: RunStart,
        ahead: usize,
        keeps_rows: bool,
    ) -> Result<Player, AllocError>
        ensures rules { IfOk result (λ player. player.rules ≡ rules) }
        ensures start { IfOk result (λ player. player.start ≡ start) }
        ensures lines { IfOk result (λ player. player.lines ≡ []) }
    {
        let began = Snapshot::of(&start);
        let play = Play::new(alloc, rules, start, ahead, keeps_rows)?;
        Ok(Player {
            rules,
            play,
            start: began,
            taken: TakenLines::new(),
            has_failed: false,
        })
    }

    /// The run so far.
    pub fn run(&self) -> &Run
        ensures { (state_of result.now).first ≡ self.now.first }
    {
        self.play.run()
    }

    /// By which rules it is played.
    pub fn rules(&self) -> PlayRules
        ensures { result ≡ self.now.rules }
    {
        self.rules
    }

    /// Forgets the comparisons that were kept.
    pub fn clear_rows(&mut self)
        ensures { self.new ≡ self.old }
    {
        self.play.clear_rows();
    }

    /// Takes the next line of the record.
    pub fn take<S: Search>(&mut self, search: &mut S, line: &ProbeLine) -> Result<(), AllocError>
        ensures rules { OnOk result (self.new.rules ≡ self.old.rules) }
        ensures start { OnOk result (self.new.start ≡ self.old.start) }
        ensures lines { OnOk result (self.new.lines ≡ self.old.lines ++ line.now ∷ []) }
    {
        match self.play.take(search, line) {
            Ok(()) => {
                self.taken = self.taken.and(line);
                Ok(())
            }
            Err(AllocError) => {
                self.has_failed = true;
                Err(AllocError)
            }
        }
    }

    /// Plays the lines that wait: no more come. Where nothing differs, all lines that were taken are explained, and so is each
    /// beginning of theirs.
    pub fn finish<S: Search>(&mut self, search: &mut S) -> Result<(), AllocError>
        ensures rules { OnOk result (self.new.rules ≡ self.old.rules) }
        ensures start { OnOk result (self.new.start ≡ self.old.start) }
        ensures lines { OnOk result (self.new.lines ≡ self.old.lines) }
        ensures all { OnOk result (IsExplainedWhere self.new) }
        ensures so_far { OnOk result (IsExplainedSoFarWhere self.new) }
    {
        if self.has_failed {
            return Err(AllocError);
        }
        match self.play.finish(search) {
            Ok(()) => Ok(()),
            Err(AllocError) => {
                self.has_failed = true;
                Err(AllocError)
            }
        }
    }
}
