//! Whether a kernel's timers are where its rules put them.

ghost use Rattle.std.specs.Prelude.{◌≡◌, ◌↔◌, All, IsTrue, IfOk, false, position};
ghost use Rattle.timer_play.specs.Playing.{observations_of};
ghost use Rattle.timer_verdict.specs.Verdicts.{IsJudged, deviates, is_deviation};

use std::alloc::{AllocError, Global};
use timer_play::{RecordOutcome, RecordSetup, RecordStart, Watch, play};
use timer_record::KeptLines;
use timer_tasks::{Observation, ObservedAnswer};

/// A record that was judged.
#[derive(Drop)]
pub struct Judged {
    /// With the charges of the first deviation's task since its last wake.
    pub outcome: RecordOutcome,

    /// The first observation that differs, by its place.
    pub first: Option<usize>,

    /// How many are left out, since no line tells the speed of their charges.
    pub speed_unknown: u64,
}

pub(crate) fn differs(answer: ObservedAnswer) -> bool
    ensures { result ≡ is_deviation answer }
{
    match answer {
        ObservedAnswer::Differs => true,
        ObservedAnswer::Agrees
        | ObservedAnswer::End
        | ObservedAnswer::Unknown
        | ObservedAnswer::Edge
        | ObservedAnswer::Gap => false,
    }
}

/// The first observation that differs, by its place.
pub fn first_deviation(observations: &[Observation]) -> Option<usize>
    ensures { result ≡ position deviates observations.now }
{
    observations.iter().position(|o| differs(o.answer))
}

/// Whether each observation that is compared agrees: none differs.
pub fn agrees(observations: &[Observation]) -> bool
    ensures { IsTrue result ↔ All (λ o. deviates o ≡ false) observations.now }
{
    observations.iter().all(|o| !differs(o.answer))
}

/// Judges what a record came to.
pub fn judged_of(outcome: RecordOutcome) -> Judged
    ensures judged { IsJudged result }
    ensures same { result.outcome ≡ outcome }
{
    let first = first_deviation(&outcome.observations);
    Judged {
        outcome,
        first,
        speed_unknown: 0,
    }
}

/// Plays a record and judges it; where it differs, it is played again, to tell the charges before the first deviation.
pub fn judge(
    alloc: Global,
    setup: RecordSetup,
    start: &RecordStart,
    lines: &KeptLines,
    within: u64,
) -> Result<Judged, AllocError>
    ensures judged { IfOk result (λ j. IsJudged j) }
    ensures observed { IfOk result (λ j. j.outcome.observations.items
        ≡ observations_of setup start.now lines.now within) }
{
    let judged = judged_of(play(alloc, setup, start, lines, within, None)?);
    let Some(watch) = watch_of(&judged) else {
        return Ok(judged);
    };
    let outcome = play(alloc, setup, start, lines, within, Some(watch))?;
    Ok(judged_of(outcome))
}

/// The task of the first deviation, and its line.
pub(crate) fn watch_of(judged: &Judged) -> Option<Watch> {
    let first = judged.first?;
    let observation = judged.outcome.observations.get(first)?;
    Some(Watch {
        task: observation.task,
        line: observation.line,
    })
}
