//! The names of changed rules.

use kernel_changes::RuleChange;

/// A rule in place of the kernel's.
pub fn change_name(change: RuleChange) -> &'static str {
    match change {
        RuleChange::InactiveIsRunning => "charge: running_bw as the inactive bandwidth",
        RuleChange::WithoutExtra => "charge: without extra_bw",
        RuleChange::WithoutInactive => "charge: without the inactive bandwidth",
        RuleChange::ItselfInactive => "charge: the task itself inactive",
        RuleChange::InFull => "charge: in full",
        RuleChange::FlagIgnored => "charge: by the rule without the flag too",
        RuleChange::EquationBefore65 => "charge: the equation before 6.5",
        RuleChange::EquationFrom65 => "charge: the equation from 6.5 on",
        RuleChange::RatioPlusOne => "charge: bw_ratio one more",
        RuleChange::OwnBandwidth => "charge: by the own bandwidth only",
        RuleChange::WhatIsLeft => "charge: by what is left only",
        RuleChange::ZeroLagByDeadline => "0-lag time: by the deadline",
        RuleChange::ZeroLagShorter => "0-lag time: the wait times 0.95",
        RuleChange::ZeroLagLonger => "0-lag time: the wait times 1.01",
        RuleChange::ZeroLagNever => "0-lag time: never waited for",
        RuleChange::PastRunsOn => "a block past the 0-lag time leaves running_bw",
        RuleChange::TimerStays => "a wake leaves the 0-lag timer",
        RuleChange::WakeTurned => "wake: the test turned",
        RuleChange::WakeByPeriod => "wake: the test by the period",
        RuleChange::WakeNotRevised => "wake: never revised",
        RuleChange::WakeByBandwidth => "wake: revised by the bandwidth",
        RuleChange::WakeRenews => "wake: always a new period",
        RuleChange::WakeEarly => "wake: a new period 1 ms early",
        RuleChange::NotConstrained => "constrained: never throttled",
        RuleChange::UntilDeadline => "throttled until the deadline",
        RuleChange::BudgetSet => "replenish: the budget set, not added",
        RuleChange::OnePeriod => "replenish: one period only",
        RuleChange::YieldKeeps => "replenish: a yield keeps what is left",
        RuleChange::BlockedStays => "replenish: not of a blocked task",
        RuleChange::RestoreStays => "restore: budget and deadline stay",
        RuleChange::MoveWakes => "a move as a wake",
        RuleChange::AdmissionTakesNothing => "extra_bw: an admission takes nothing",
        RuleChange::ChangeFreesNothing => "extra_bw: a change gives nothing back",
        RuleChange::EndFreesNothing => "extra_bw: an end gives nothing back",
        RuleChange::LeavingFreesNothing => "extra_bw: leaving gives nothing back",
        RuleChange::MoveLeavesThis => "this_bw: a move leaves it",
        RuleChange::MoveLeavesRunning => "running_bw: a move leaves it",
        RuleChange::WakeElsewhereAddsNothing => "this_bw: a wake elsewhere adds nothing",
        RuleChange::LeavesAtOnce => "leaves the class without the 0-lag state",
        RuleChange::ServerRunsOn => "a fair server never leaves running_bw",
    }
}
