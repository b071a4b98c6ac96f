//! The rules that are changed.

/// A rule in place of the kernel's.
#[derive(Clone, Copy, PartialEq, Eq)]
pub enum RuleChange {
    /// `grub_reclaim` takes `running_bw` for the inactive bandwidth.
    InactiveIsRunning,

    /// `grub_reclaim` leaves out `extra_bw`.
    WithoutExtra,

    /// `grub_reclaim` leaves out the inactive bandwidth.
    WithoutInactive,

    /// `grub_reclaim` takes the entity itself for inactive.
    ItselfInactive,

    /// A run is charged in full.
    InFull,

    /// A run is charged as with SCHED_FLAG_RECLAIM, also without it.
    FlagIgnored,

    /// The equation of Linux before 6.5.
    EquationBefore65,

    /// The equation of Linux from 6.5 on.
    EquationFrom65,

    /// `bw_ratio` is one more.
    RatioPlusOne,

    /// A run is charged by the own bandwidth alone.
    OwnBandwidth,

    /// A run is charged by what is left alone.
    WhatIsLeft,

    /// The 0-lag time is reckoned by the deadline in place of the period.
    ZeroLagByDeadline,

    /// The wait for the 0-lag time is 0.95 of what it is.
    ZeroLagShorter,

    /// The wait for the 0-lag time is 1.01 of what it is.
    ZeroLagLonger,

    /// The 0-lag time is never waited for.
    ZeroLagNever,

    /// A block past the 0-lag time leaves `running_bw`.
    PastRunsOn,

    /// A wake does not cancel the 0-lag timer.
    TimerStays,

    /// The test of a wake is turned.
    WakeTurned,

    /// The test of a wake takes the period for the deadline.
    WakeByPeriod,

    /// A wake never revises the budget.
    WakeNotRevised,

    /// A wake revises the budget by the bandwidth.
    WakeByBandwidth,

    /// A wake always begins a new period.
    WakeRenews,

    /// A wake begins a new period a millisecond before the deadline.
    WakeEarly,

    /// A constrained task is not throttled at a wake.
    NotConstrained,

    /// A throttled task waits until its deadline, not until its next period.
    UntilDeadline,

    /// A replenishment sets the budget.
    BudgetSet,

    /// A replenishment is of one period alone.
    OnePeriod,

    /// A yield keeps what is left of the budget.
    YieldKeeps,

    /// A blocked task is not replenished.
    BlockedStays,

    /// A restore never begins a new period.
    RestoreStays,

    /// A move is a wake.
    MoveWakes,

    /// An admission takes nothing from `extra_bw`.
    AdmissionTakesNothing,

    /// A change of bandwidth gives nothing back to `extra_bw`.
    ChangeFreesNothing,

    /// The end of a task gives nothing back to `extra_bw`.
    EndFreesNothing,

    /// Leaving the class gives nothing back to `extra_bw`.
    LeavingFreesNothing,

    /// A move leaves `this_bw`.
    MoveLeavesThis,

    /// A move leaves `running_bw`.
    MoveLeavesRunning,

    /// A wake on another processor adds nothing to `this_bw`.
    WakeElsewhereAddsNothing,

    /// A task leaves the class without the 0-lag state.
    LeavesAtOnce,

    /// A fair server never leaves `running_bw`.
    ServerRunsOn,
}

/// How many changes there are.
pub const CHANGES: usize = 40;

/// All of them, each once.
pub const ALL: [RuleChange; CHANGES] = [
    RuleChange::InactiveIsRunning,
    RuleChange::WithoutExtra,
    RuleChange::WithoutInactive,
    RuleChange::ItselfInactive,
    RuleChange::InFull,
    RuleChange::FlagIgnored,
    RuleChange::EquationBefore65,
    RuleChange::EquationFrom65,
    RuleChange::RatioPlusOne,
    RuleChange::OwnBandwidth,
    RuleChange::WhatIsLeft,
    RuleChange::ZeroLagByDeadline,
    RuleChange::ZeroLagShorter,
    RuleChange::ZeroLagLonger,
    RuleChange::ZeroLagNever,
    RuleChange::PastRunsOn,
    RuleChange::TimerStays,
    RuleChange::WakeTurned,
    RuleChange::WakeByPeriod,
    RuleChange::WakeNotRevised,
    RuleChange::WakeByBandwidth,
    RuleChange::WakeRenews,
    RuleChange::WakeEarly,
    RuleChange::NotConstrained,
    RuleChange::UntilDeadline,
    RuleChange::BudgetSet,
    RuleChange::OnePeriod,
    RuleChange::YieldKeeps,
    RuleChange::BlockedStays,
    RuleChange::RestoreStays,
    RuleChange::MoveWakes,
    RuleChange::AdmissionTakesNothing,
    RuleChange::ChangeFreesNothing,
    RuleChange::EndFreesNothing,
    RuleChange::LeavingFreesNothing,
    RuleChange::MoveLeavesThis,
    RuleChange::MoveLeavesRunning,
    RuleChange::WakeElsewhereAddsNothing,
    RuleChange::LeavesAtOnce,
    RuleChange::ServerRunsOn,
];
