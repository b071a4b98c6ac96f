//! Words for what is compared, and the kernel's functions behind them.

use kernel_rules::{UpdateFunction, has_servers, release_of};
use probe_findings::{ExactRule, ProbedFunction, Quantity, QuantityKind};
use trace_data::Kernel;

/// The name of a line's event.
pub fn event_name(event: ProbedFunction) -> &'static str {
    match event {
        ProbedFunction::Enqueue => "enq",
        ProbedFunction::Update => "upd",
        ProbedFunction::Dequeue => "deq",
        ProbedFunction::Migrate => "mig",
        ProbedFunction::Leave => "sfr",
        ProbedFunction::Admit => "adm",
        ProbedFunction::ZeroLagFires => "ina",
        ProbedFunction::ReplenishFires => "dlt",
        ProbedFunction::TimerStarts => "hst",
        ProbedFunction::ServerStarts => "ede",
        ProbedFunction::Pick => "pck",
        ProbedFunction::ServerStops => "dls",
        ProbedFunction::ServerIdles => "idl",
        ProbedFunction::IdleEnds => "pid",
        ProbedFunction::AttachDomain => "att",
        ProbedFunction::TakeBandwidth => "bwa",
        ProbedFunction::FreeBandwidth => "bwf",
        ProbedFunction::HandleLimit => "lim",
        ProbedFunction::RebuildTask => "reb",
        ProbedFunction::SetAffinity => "aff",
        ProbedFunction::ChangeServer => "sap",
        ProbedFunction::DeactivateCpu => "off",
        ProbedFunction::ActivateCpu => "onl",
    }
}

/// Whether a kernel runs fair servers; where none is told it is a current one.
fn runs_servers(kernel: Option<Kernel>) -> bool {
    match kernel {
        Some(kernel) => has_servers(kernel),
        None => true,
    }
}

/// Whether a kernel charges by `update_curr_dl`; where none is told it is a current one.
fn charges_by_class(kernel: Option<Kernel>) -> bool {
    match kernel {
        Some(kernel) => release_of(kernel).update == UpdateFunction::UpdateCurrDl,
        None => false,
    }
}

/// The function that charges a task for its run: before 6.8 no other entity than a task has a budget.
fn charging_function(kernel: Option<Kernel>) -> &'static str {
    if charges_by_class(kernel) {
        "update_curr_dl"
    } else {
        "update_curr_dl_se"
    }
}

/// The function whose entry a line of this event shows, by its name in this kernel.
pub fn function_of(event: ProbedFunction, kernel: Option<Kernel>) -> &'static str {
    match event {
        ProbedFunction::Enqueue => "enqueue_task_dl",
        ProbedFunction::Update => charging_function(kernel),
        ProbedFunction::Dequeue => "dequeue_task_dl",
        ProbedFunction::Migrate => "migrate_task_rq_dl",
        ProbedFunction::Leave => "switched_from_dl",
        ProbedFunction::Admit => "sched_dl_overflow",
        ProbedFunction::ZeroLagFires => "inactive_task_timer",
        ProbedFunction::ReplenishFires => "dl_task_timer",
        ProbedFunction::TimerStarts => "hrtimer_start_range_ns",
        ProbedFunction::ServerStarts => "enqueue_dl_entity",
        ProbedFunction::Pick => "pick_task_dl",
        ProbedFunction::ServerStops => "dl_server_stop",
        ProbedFunction::ServerIdles => "dl_server_update_idle_time",
        ProbedFunction::IdleEnds => "put_prev_task_idle",
        ProbedFunction::AttachDomain => "rq_attach_root",
        ProbedFunction::TakeBandwidth => "dl_bw_alloc",
        ProbedFunction::FreeBandwidth => "dl_bw_free",
        ProbedFunction::HandleLimit => "sched_rt_handler",
        ProbedFunction::RebuildTask => "dl_add_task_root_domain",
        ProbedFunction::SetAffinity => "set_cpus_allowed_dl",
        ProbedFunction::ChangeServer => "dl_server_apply_params",
        ProbedFunction::DeactivateCpu => "sched_cpu_deactivate",
        ProbedFunction::ActivateCpu => "sched_cpu_activate",
    }
}

/// The word of a kind in a table.
pub fn kind_name(kind: QuantityKind) -> &'static str {
    match kind {
        QuantityKind::Budget => "budget",
        QuantityKind::Deadline => "deadline",
        QuantityKind::Flags => "flags",
        QuantityKind::Parameters => "parameters",
        QuantityKind::ThisBw => "this_bw",
        QuantityKind::RunningBw => "running_bw",
        QuantityKind::ExtraBw => "extra_bw",
        QuantityKind::ZeroLag => "0-lag moment",
        QuantityKind::ZeroLagMoment => "0-lag moment, us",
        QuantityKind::Timers => "timers armed",
        QuantityKind::TotalBw => "total_bw",
        QuantityKind::Capacities => "capacity",
        QuantityKind::Addresses => "addresses",
        QuantityKind::Choices => "choices",
        QuantityKind::Laws => "laws",
    }
}

/// The word of a kind in a verdict.
pub(crate) fn kind_plural(kind: QuantityKind) -> &'static str {
    match kind {
        QuantityKind::Budget => "budgets",
        QuantityKind::Deadline => "deadlines",
        QuantityKind::Flags => "flags",
        QuantityKind::Parameters => "parameters",
        QuantityKind::ThisBw => "this_bw",
        QuantityKind::RunningBw => "running_bw",
        QuantityKind::ExtraBw => "extra_bw",
        QuantityKind::ZeroLag => "0-lag moments",
        QuantityKind::ZeroLagMoment => "0-lag moments to a microsecond",
        QuantityKind::Timers => "timers",
        QuantityKind::TotalBw => "total_bw",
        QuantityKind::Capacities => "capacities",
        QuantityKind::Addresses => "addresses",
        QuantityKind::Choices => "choices",
        QuantityKind::Laws => "laws",
    }
}

/// A value by its name in the kernel.
pub fn quantity_name(quantity: Quantity) -> &'static str {
    match quantity {
        Quantity::Runtime => "runtime",
        Quantity::Deadline => "deadline",
        Quantity::Throttled => "dl_throttled",
        Quantity::Yielded => "dl_yielded",
        Quantity::NonContending => "dl_non_contending",
        Quantity::DlRuntime => "dl_runtime",
        Quantity::DlDeadline => "dl_deadline",
        Quantity::DlPeriod => "dl_period",
        Quantity::SchedFlags => "flags",
        Quantity::ThisBw => "this_bw",
        Quantity::RunningBw => "running_bw",
        Quantity::ExtraBw => "extra_bw",
        Quantity::ZeroLag | Quantity::ZeroLagMoment => "the 0-lag time",
        Quantity::TotalBw => "total_bw",
        Quantity::Capacity => "cpu_scale",
        Quantity::Timer => "the timer",
        Quantity::Address => "the address",
        Quantity::Choice => "the order of effects",
        Quantity::BwRatio => "bw_ratio",
        Quantity::MaxBw => "max_bw",
        Quantity::ClockLag => "the runqueue's clock, in nanoseconds behind,",
    }
}

/// What a rule does.
pub fn rule_name(rule: ExactRule) -> &'static str {
    match rule {
        ExactRule::ChargeInFull => "charge in full",
        ExactRule::ChargeByItsBandwidth => "charge by its bandwidth",
        ExactRule::ChargeByWhatIsLeft => "charge by what is left",
        ExactRule::Throttled => "throttled",
        ExactRule::Yielded => "yield",
        ExactRule::ReplenishedAtOnce => "replenished at once",
        ExactRule::Replenished => "replenished",
        ExactRule::ReplenishedBlocked => "replenished while blocked",
        ExactRule::ReplenishedBlockedLate => "new period while blocked",
        ExactRule::WakeKept => "wake: kept",
        ExactRule::WakeRevised => "wake: revised",
        ExactRule::WakeNewPeriod => "wake: new period",
        ExactRule::WakeThrottled => "wake: throttled",
        ExactRule::WakeBeforeZeroLag => "wake before the 0-lag time",
        ExactRule::WakeAfterZeroLag => "wake after the 0-lag time",
        ExactRule::Constrained => "constrained: throttled",
        ExactRule::Boosted => "boosted",
        ExactRule::BoostEnds => "end of a boost",
        ExactRule::MovedIn => "moved in",
        ExactRule::MovedOut => "moved out",
        ExactRule::MovedAtWake => "moved at a wake",
        ExactRule::Restored => "restored",
        ExactRule::RestoredNewPeriod => "restored: new period",
        ExactRule::Saved => "saved",
        ExactRule::ZeroLagArmed => "0-lag timer armed",
        ExactRule::ZeroLagPast => "0-lag time past",
        ExactRule::ZeroLagFired => "0-lag timer fired",
        ExactRule::Admitted => "admitted",
        ExactRule::Refused => "refused",
        ExactRule::BandwidthChanged => "bandwidth changed",
        ExactRule::BackBeforeZeroLag => "back before its 0-lag time",
        ExactRule::LeftClass => "left the class",
        ExactRule::ServerStarted => "server started",
        ExactRule::ServerStopped => "server stopped",
        ExactRule::BeforeItsLock => "effect between a line and its lock",
        ExactRule::ExtraReadLater => "extra_bw read after its line",
        ExactRule::SpeedUnknown => "charge at an unknown speed",
        ExactRule::ChargeReadLater => "charge with an extra_bw read later",
        ExactRule::ExtraUnknown => "charge with an unknown extra_bw",
    }
}

/// The function that takes a task's bandwidth in or out as it is queued: before 6.8 that of the class, later that of the entity.
fn queueing_function(
    kernel: Option<Kernel>,
    of_class: &'static str,
    of_entity: &'static str,
) -> &'static str {
    if charges_by_class(kernel) {
        of_class
    } else {
        of_entity
    }
}

/// The kernel's function that has a rule, by its name in this kernel.
pub fn rule_function(rule: ExactRule, kernel: Option<Kernel>) -> &'static str {
    match rule {
        ExactRule::ChargeInFull | ExactRule::SpeedUnknown => {
            if !runs_servers(kernel) {
                charging_function(kernel)
            } else {
                "dl_scaled_delta_exec"
            }
        }
        ExactRule::ChargeByItsBandwidth
        | ExactRule::ChargeByWhatIsLeft
        | ExactRule::ChargeReadLater
        | ExactRule::ExtraUnknown => { "grub_reclaim" }
        ExactRule::Throttled | ExactRule::Yielded => charging_function(kernel),
        ExactRule::ReplenishedAtOnce
        | ExactRule::Replenished
        | ExactRule::ReplenishedBlocked
        | ExactRule::ReplenishedBlockedLate => "replenish_dl_entity",
        ExactRule::WakeKept | ExactRule::WakeNewPeriod => "update_dl_entity",
        ExactRule::WakeRevised => "update_dl_revised_wakeup",
        ExactRule::WakeThrottled | ExactRule::MovedIn | ExactRule::Restored => {
            queueing_function(kernel, "enqueue_task_dl", "enqueue_dl_entity")
        }
        ExactRule::RestoredNewPeriod => "enqueue_dl_entity",
        ExactRule::WakeBeforeZeroLag | ExactRule::WakeAfterZeroLag => "task_contending",
        ExactRule::Constrained => "dl_check_constrained_dl",
        ExactRule::Boosted | ExactRule::BoostEnds => "enqueue_task_dl",
        ExactRule::MovedOut | ExactRule::Saved => {
            queueing_function(kernel, "dequeue_task_dl", "dequeue_dl_entity")
        }
        ExactRule::MovedAtWake => "migrate_task_rq_dl",
        ExactRule::ZeroLagArmed | ExactRule::ZeroLagPast => "task_non_contending",
        ExactRule::ZeroLagFired => "inactive_task_timer",
        ExactRule::Admitted
        | ExactRule::Refused
        | ExactRule::BackBeforeZeroLag
        | ExactRule::ExtraReadLater => { "sched_dl_overflow" }
        ExactRule::BandwidthChanged => "dl_change_utilization",
        ExactRule::LeftClass => "switched_from_dl",
        ExactRule::ServerStarted => "dl_server_start",
        ExactRule::ServerStopped => "dl_server_stop",
        ExactRule::BeforeItsLock => "add_running_bw",
    }
}

/// Every rule, in the order in which a verdict names them.
pub(crate) const ALL: [ExactRule; 37] = [
    ExactRule::ChargeByWhatIsLeft,
    ExactRule::ChargeByItsBandwidth,
    ExactRule::ChargeInFull,
    ExactRule::WakeKept,
    ExactRule::WakeNewPeriod,
    ExactRule::WakeRevised,
    ExactRule::WakeThrottled,
    ExactRule::WakeBeforeZeroLag,
    ExactRule::WakeAfterZeroLag,
    ExactRule::Throttled,
    ExactRule::Yielded,
    ExactRule::Constrained,
    ExactRule::Replenished,
    ExactRule::ReplenishedAtOnce,
    ExactRule::ReplenishedBlocked,
    ExactRule::ReplenishedBlockedLate,
    ExactRule::ZeroLagArmed,
    ExactRule::ZeroLagPast,
    ExactRule::ZeroLagFired,
    ExactRule::MovedIn,
    ExactRule::MovedOut,
    ExactRule::MovedAtWake,
    ExactRule::Saved,
    ExactRule::Restored,
    ExactRule::RestoredNewPeriod,
    ExactRule::Admitted,
    ExactRule::Refused,
    ExactRule::BandwidthChanged,
    ExactRule::BackBeforeZeroLag,
    ExactRule::LeftClass,
    ExactRule::Boosted,
    ExactRule::BoostEnds,
    ExactRule::ServerStarted,
    ExactRule::ServerStopped,
    ExactRule::BeforeItsLock,
    ExactRule::ExtraReadLater,
    ExactRule::ChargeReadLater,
];

/// Every kind, in the order in which a verdict names them.
pub const KINDS: [QuantityKind; 15] = [
    QuantityKind::Budget,
    QuantityKind::Deadline,
    QuantityKind::Flags,
    QuantityKind::Parameters,
    QuantityKind::ThisBw,
    QuantityKind::RunningBw,
    QuantityKind::ExtraBw,
    QuantityKind::TotalBw,
    QuantityKind::ZeroLag,
    QuantityKind::ZeroLagMoment,
    QuantityKind::Timers,
    QuantityKind::Capacities,
    QuantityKind::Addresses,
    QuantityKind::Choices,
    QuantityKind::Laws,
];
