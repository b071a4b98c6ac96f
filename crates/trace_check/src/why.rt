//! A record is played again, with one rule changed at a time.

use crate::showing::TimerPlay;
use check_record::{AHEAD, Gathering};
use kernel_changes::{ALL, RuleChange};
use probe_explain::Player;
use probe_search::ProbeSearch;
use probe_verdict::{Trial, total_of};
use std::alloc::{AllocError, Global};
use timer_changes::put_explanation;
use timer_tasks::ObservedAnswer;
use timer_verdict::Judged;
use trace_options::CheckOptions;

/// What the plays of a record come to, each with another rule changed.
pub(crate) fn tried(
    alloc: Global,
    options: &CheckOptions<'_>,
    gathering: &Gathering<'_>,
) -> Result<Vec<Trial>, AllocError> {
    let mut trials = Vec::new(alloc);
    for change in ALL {
        let trial = trial_of(alloc, options, gathering, change)?;
        trials.push(trial)?;
    }
    Ok(trials)
}

/// The play with this rule changed.
fn trial_of(
    alloc: Global,
    options: &CheckOptions<'_>,
    gathering: &Gathering<'_>,
    change: RuleChange,
) -> Result<Trial, AllocError> {
    let head = &gathering.head;
    let look = &gathering.probes.look;
    let notes = head.start_notes(alloc, options, gathering.has_older)?;
    let rules = look.rules(head.law(options), Some(change), &notes);
    let mut search = ProbeSearch::new(alloc, rules, look.shows_spans());
    let mut player = Player::new(alloc, rules, look.start(alloc, &notes)?, AHEAD, false)?;
    for line in &gathering.probes.kept {
        player.take(&mut search, line)?;
    }
    player.finish(&mut search)?;
    let differ = total_of(&player.run().counts()).differ;
    Ok(Trial {
        change,
        agrees: player.run().agrees() && gathering.probes.keeps_laws(),
        differ: differ.saturating_add(gathering.probes.broken_laws()),
    })
}

/// Appends which changed rule explains what timers show, where they differ.
pub(crate) fn put_timer_explanation(
    alloc: Global,
    out: &mut Vec<u8>,
    options: &CheckOptions<'_>,
    play: TimerPlay<'_>,
) -> Result<(), AllocError> {
    if play.judged.first.is_none() {
        return Ok(());
    }
    let trials = timer_changes::tried(alloc, play.setup, play.start, play.lines, options.within)?;
    put_explanation(alloc, out, differ(play.judged), &trials)
}

/// How many timers differ.
fn differ(judged: &Judged) -> u64 {
    let mut differ = 0u64;
    for observation in &judged.outcome.observations {
        if let ObservedAnswer::Differs = observation.answer {
            differ = differ.saturating_add(1);
        }
    }
    differ
}
