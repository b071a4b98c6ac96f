//! A record is played: line by line, with the choices of a search.

ghost use Rattle.std.specs.Prelude.{◌≡◌, ◌∷◌, [], OnOk, IfOk};
ghost use Rattle.probe_run.specs.Runs.{state_of};
ghost use Rattle.probe_run.specs.Start.{start_of};
ghost use Rattle.probe_explain.specs.inside.Playing.{IsPlayed, come_to, HasTaken, TakesNothing, TakesLine, Finishes};

use crate::search::{ProbeLine, Search, Step};
use probe_findings::{FIRST_SEEN, ProbedLine};
use probe_lines::play_line;
use probe_run::{PlayRules, Run, RunMove, RunStart};
use probe_tasks::{AS_SHOWN, LineChoice};
use std::alloc::{AllocError, Global};
use std::collections::VecDeque;

/// More moves than this before one line are not made.
const MOST_MOVES: usize = 65_536;

/// A record that is being played.
#[derive(Drop)]
pub(crate) struct Play {
    rules: PlayRules,
    run: Run,

    /// Lines that were taken and not played yet.
    waiting: VecDeque<ProbeLine>,

    /// How many lines wait at most.
    ahead: usize,

    /// Where the last line stands that was played.
    last: ProbedLine,
}

/// Makes a move that a search chose.
#[tactic(auto, using(crate::proofs::Moves::move_played))]
fn make_move(
    run: &mut Run,
    rules: PlayRules,
    place: ProbedLine,
    chosen: RunMove,
) -> Result<(), AllocError>
    ensures { OnOk result (IsPlayed rules (state_of run.old) [] (state_of run.new)) }
{
    run.make(rules, place, chosen)
}

/// Makes the moves that a search chooses before a line, and gives what it chooses of the line.
#[tactic(auto, using(crate::proofs::Moves::none_played, crate::proofs::Moves::moves_on))]
fn make_moves<S: Search>(
    run: &mut Run,
    rules: PlayRules,
    search: &mut S,
    next: &ProbeLine,
    ahead: &VecDeque<ProbeLine>,
) -> Result<LineChoice, AllocError>
    ensures { OnOk result (IsPlayed rules (state_of run.old) [] (state_of run.new)) }
{
    'moves: for _ in 0..MOST_MOVES {
        match search.choose(&*run, next, ahead)? {
            Step::Line(choice) => return Ok(choice),
            Step::Move(chosen) => make_move(run, rules, next.place, chosen)?,
        }
    }
    Ok(AS_SHOWN)
}

/// Plays a line with what a search chose of it.
fn play_chosen(
    run: &mut Run,
    rules: PlayRules,
    next: &ProbeLine,
    choice: LineChoice,
) -> Result<(), AllocError>
    ensures { OnOk result (IsPlayed rules (state_of run.old) (next.now ∷ []) (state_of run.new)) }
{
    play_line(run, rules, next.place, &next.probe, choice)?;
    Ok(())
}

/// Plays a line, with the choices of a search.
#[tactic(auto, using(crate::proofs::Moves::moves_on))]
fn play_with<S: Search>(
    run: &mut Run,
    rules: PlayRules,
    search: &mut S,
    next: &ProbeLine,
    ahead: &VecDeque<ProbeLine>,
) -> Result<(), AllocError>
    ensures { OnOk result (IsPlayed rules (state_of run.old) (next.now ∷ []) (state_of run.new)) }
{
    let choice = make_moves(run, rules, search, next, ahead)?;
    play_chosen(run, rules, next, choice)?;
    Ok(())
}

/// Makes the moves that a search chooses behind the last line.
#[tactic(auto, using(crate::proofs::Moves::none_played, crate::proofs::Moves::moves_on))]
fn end_moves<S: Search>(
    run: &mut Run,
    rules: PlayRules,
    search: &mut S,
    last: ProbedLine,
) -> Result<(), AllocError>
    ensures { OnOk result (IsPlayed rules (state_of run.old) [] (state_of run.new)) }
{
    'moves: for _ in 0..MOST_MOVES {
        match search.end(&*run)? {
            None => return Ok(()),
            Some(chosen) => make_move(run, rules, last, chosen)?,
        }
    }
    Ok(())
}

impl Play {
    /// Nothing was taken. A search sees at most `ahead` lines behind the next one. With `keeps_rows` each comparison is kept until
    /// `clear_rows`.
    pub fn new(
        alloc: Global,
        rules: PlayRules,
        start: RunStart,
        ahead: usize,
        keeps_rows: bool,
    ) -> Result<Play, AllocError>
        ensures { IfOk result (λ play. HasTaken play rules (start_of start) []) }
    {
        Ok(Play {
            rules,
            run: Run::new(alloc, start, keeps_rows)?,
            waiting: VecDeque::new(alloc),
            ahead,
            last: ProbedLine {
                line: 0,
                at: 0,
                cpu: 0,
                pid: 0,
                event: FIRST_SEEN.event,
            },
        })
    }

    /// The run so far.
    pub fn run(&self) -> &Run
        ensures { state_of result.now ≡ come_to self.now }
    {
        &self.run
    }

    /// Forgets the comparisons that were kept.
    pub fn clear_rows(&mut self)
        ensures state { come_to self.new ≡ come_to self.old }
        ensures lines { TakesNothing self.old self.new }
    {
        self.run.clear_rows();
    }

    /// Takes the next line of the record.
    #[tactic(auto, using(crate::proofs::Taking::line_then))]
    pub fn take<S: Search>(&mut self, search: &mut S, line: &ProbeLine) -> Result<(), AllocError>
        ensures { OnOk result (TakesLine self.old line.now self.new) }
    {
        self.wait(line)?;
        self.play_due(search)?;
        Ok(())
    }

    #[tactic(auto, using(crate::proofs::Taking::pushed))]
    fn wait(&mut self, line: &ProbeLine) -> Result<(), AllocError>
        ensures { OnOk result (TakesLine self.old line.now self.new) }
    {
        self.waiting.push_back(*line)?;
        Ok(())
    }

    /// Plays the first line that waits, where more wait than a search is to see.
    fn play_due<S: Search>(&mut self, search: &mut S) -> Result<(), AllocError>
        ensures { OnOk result (TakesNothing self.old self.new) }
    {
        if self.waiting.len() > self.ahead {
            self.play_first(search)
        } else {
            Ok(())
        }
    }

    fn play_first<S: Search>(&mut self, search: &mut S) -> Result<(), AllocError>
        ensures { OnOk result (TakesNothing self.old self.new) }
    {
        match self.waiting.pop_front() {
            Some(next) => {
                play_with(&mut self.run, self.rules, search, &next, &self.waiting)?;
                self.last = next.place;
                Ok(())
            }
            None => Ok(()),
        }
    }

    #[tactic(auto, using(crate::proofs::Taking::same, crate::proofs::Taking::one_then))]
    fn play_all<S: Search>(&mut self, search: &mut S) -> Result<(), AllocError>
        ensures { OnOk result (TakesNothing self.old self.new) }
    {
        'lines: for _ in 0..self.waiting.len() {
            self.play_first(search)?;
        }
        Ok(())
    }

    fn move_at_end<S: Search>(&mut self, search: &mut S) -> Result<(), AllocError>
        ensures { OnOk result (TakesNothing self.old self.new) }
    {
        end_moves(&mut self.run, self.rules, search, self.last)?;
        Ok(())
    }

    /// Plays the lines that wait: no more come.
    pub fn finish<S: Search>(&mut self, search: &mut S) -> Result<(), AllocError>
        ensures all { OnOk result (Finishes self.old self.new) }
        ensures same { OnOk result (TakesNothing self.old self.new) }
    {
        self.play_all(search)?;
        self.move_at_end(search)?;
        self.end()?;
        Ok(())
    }

    /// What was read and has no point, and a line that was not played, is a deviation.
    fn end(&mut self) -> Result<(), AllocError>
        ensures all { OnOk result (Finishes self.old self.new) }
        ensures same { OnOk result (TakesNothing self.old self.new) }
    {
        if self.waiting.is_empty() && self.run.claims().is_empty() {
            Ok(())
        } else {
            self.refuse_last()
        }
    }

    /// Counts a deviation at the last line.
    fn refuse_last(&mut self) -> Result<(), AllocError>
        ensures all { OnOk result (Finishes self.old self.new) }
        ensures same { OnOk result (TakesNothing self.old self.new) }
    {
        self.run.refuse(self.last)?;
        Ok(())
    }
}
