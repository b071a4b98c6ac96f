//! What the plays of a record come to, each with another rule changed.

use crate::play::Play;
use kernel_changes::RuleChange;
use probe_verdict::Trial;
use std::alloc::{AllocError, Global};
use std::collections::HashMap;
use timer_play::{RecordSetup, RecordStart, TimedMachine};
use timer_record::KeptLines;

/// The changes that timers can show.
pub const CHANGES: [RuleChange; 33] = [
    RuleChange::InactiveIsRunning,
    RuleChange::WithoutExtra,
    RuleChange::WithoutInactive,
    RuleChange::ItselfInactive,
    RuleChange::InFull,
    RuleChange::FlagIgnored,
    RuleChange::EquationBefore65,
    RuleChange::EquationFrom65,
    RuleChange::RatioPlusOne,
    RuleChange::OwnBandwidth,
    RuleChange::WhatIsLeft,
    RuleChange::ZeroLagByDeadline,
    RuleChange::ZeroLagShorter,
    RuleChange::ZeroLagLonger,
    RuleChange::ZeroLagNever,
    RuleChange::PastRunsOn,
    RuleChange::WakeTurned,
    RuleChange::WakeByPeriod,
    RuleChange::WakeNotRevised,
    RuleChange::WakeByBandwidth,
    RuleChange::WakeRenews,
    RuleChange::WakeEarly,
    RuleChange::NotConstrained,
    RuleChange::UntilDeadline,
    RuleChange::BudgetSet,
    RuleChange::OnePeriod,
    RuleChange::YieldKeeps,
    RuleChange::MoveWakes,
    RuleChange::AdmissionTakesNothing,
    RuleChange::ChangeFreesNothing,
    RuleChange::EndFreesNothing,
    RuleChange::LeavingFreesNothing,
    RuleChange::ServerRunsOn,
];

/// What the plays of a record come to, each with another rule changed; timers that are at most `within` nanoseconds from the
/// prediction agree.
pub fn tried(
    alloc: Global,
    setup: RecordSetup,
    start: &RecordStart,
    lines: &KeptLines,
    within: u64,
) -> Result<Vec<Trial>, AllocError> {
    let mut trials = Vec::new(alloc);
    for change in CHANGES {
        let machine = TimedMachine::new(alloc, setup, start, lines, within, None)?;
        let mut play = Play {
            change,
            setup,
            begins: lines.begins.unwrap_or(0),
            within,
            machine,
            answers: HashMap::new(alloc),
        };
        play.play_lines(lines)?;
        let differ = play.differ();
        trials.push(Trial {
            change,
            agrees: differ == 0,
            differ,
        })?;
    }
    Ok(trials)
}
