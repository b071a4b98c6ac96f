//! Which fields each probe has, in their order, and what they show.

ghost use Rattle.std.specs.Prelude.{◌≡◌};
ghost use Rattle.trace_data.specs.declared.probe.Ran.TheVariants.{Clocks, Span};
ghost use Rattle.trace_probes.specs.declared.field.Field.TheVariants.{ClockTask, DeltaExec, Entity, ExecStart, MaxBw, MaxBwShown};
ghost use Rattle.trace_probes.specs.Tables.{admitted, armed_by, budget, dequeued, donor, enqueued, left_class, migrating, parameters, picked, server_idled, server_started, server_stopped, shown_at, signed_at, speed, sums, unsigned_at, updated_by};

use crate::field::Field;
use crate::values::Values;
use trace_data::{
    Admitted, Armed, Budget, CpuSpeed, Dequeued, Donor, Enqueued, Expiry, IdleCharge, LeftClass,
    Migrating, Parameters, Picked, Ran, ServerIdled, ServerStarted, ServerStopped, Sums, Updated,
};

/// enqueue_task_dl.
pub(crate) const ENQUEUED: [Field; 23] = [
    Field::Pid,
    Field::Cpu,
    Field::Flags,
    Field::Clock,
    Field::Runtime,
    Field::Deadline,
    Field::Throttled,
    Field::Yielded,
    Field::NonContending,
    Field::DlRuntime,
    Field::DlDeadline,
    Field::DlPeriod,
    Field::SchedFlags,
    Field::OnRq,
    Field::NormalPrio,
    Field::Entity,
    Field::ServedBy,
    Field::DonorRuntime,
    Field::DonorDeadline,
    Field::DonorPeriod,
    Field::ThisBw,
    Field::RunningBw,
    Field::ExtraBw,
];

/// update_curr_dl_se: kernels that show the span of a run.
pub(crate) const UPDATED_BY_SPAN: [Field; 16] = [
    Field::IsServer,
    Field::Pid,
    Field::Cpu,
    Field::Clock,
    Field::DeltaExec,
    Field::Runtime,
    Field::Deadline,
    Field::Throttled,
    Field::Yielded,
    Field::ThisBw,
    Field::RunningBw,
    Field::ExtraBw,
    Field::MaxBw,
    Field::BwRatio,
    Field::FrequencyScale,
    Field::CpuScale,
];

/// update_curr_dl: kernels that show the clock and the start of a run.
pub(crate) const UPDATED_BY_CLOCKS: [Field; 17] = [
    Field::Pid,
    Field::Cpu,
    Field::Clock,
    Field::ClockTask,
    Field::ExecStart,
    Field::Runtime,
    Field::Deadline,
    Field::Throttled,
    Field::Yielded,
    Field::Entity,
    Field::ThisBw,
    Field::RunningBw,
    Field::ExtraBw,
    Field::MaxBwShown,
    Field::BwRatio,
    Field::FrequencyScale,
    Field::CpuScale,
];

/// dequeue_task_dl.
pub(crate) const DEQUEUED: [Field; 15] = [
    Field::Pid,
    Field::Cpu,
    Field::Flags,
    Field::Clock,
    Field::Runtime,
    Field::Deadline,
    Field::Throttled,
    Field::Yielded,
    Field::NonContending,
    Field::OnRq,
    Field::State,
    Field::Current,
    Field::ThisBw,
    Field::RunningBw,
    Field::ExtraBw,
];

/// migrate_task_rq_dl.
pub(crate) const MIGRATING: [Field; 2] = [Field::Pid, Field::State];

/// switched_from_dl.
pub(crate) const LEFT_CLASS: [Field; 10] = [
    Field::Pid,
    Field::Cpu,
    Field::Clock,
    Field::Runtime,
    Field::Deadline,
    Field::NonContending,
    Field::OnRq,
    Field::ThisBw,
    Field::RunningBw,
    Field::ExtraBw,
];

/// sched_dl_overflow.
pub(crate) const ADMITTED: [Field; 11] = [
    Field::Pid,
    Field::Cpu,
    Field::PolicyBefore,
    Field::PolicyWanted,
    Field::DlRuntime,
    Field::DlDeadline,
    Field::DlPeriod,
    Field::SchedFlags,
    Field::OnRq,
    Field::TotalBw,
    Field::DomainBw,
];

/// sched_dl_overflow where tasks may be dequeued late.
pub(crate) const ADMITTED_DELAYED: [Field; 12] = [
    Field::Pid,
    Field::Cpu,
    Field::PolicyBefore,
    Field::PolicyWanted,
    Field::DlRuntime,
    Field::DlDeadline,
    Field::DlPeriod,
    Field::SchedFlags,
    Field::OnRq,
    Field::Delayed,
    Field::TotalBw,
    Field::DomainBw,
];

/// hrtimer_start_range_ns, by its argument.
pub(crate) const ARMED_FROM_NOW: [Field; 3] = [Field::Timer, Field::FromNow, Field::Function];

/// hrtimer_start, by its event.
pub(crate) const ARMED_UNTIL: [Field; 3] = [Field::Timer, Field::Expires, Field::Function];

/// inactive_task_timer.
pub(crate) const ZERO_LAG_FIRED: [Field; 1] = [Field::Timer];

/// dl_task_timer.
pub(crate) const REPLENISH_FIRED: [Field; 2] = [Field::Timer, Field::TimerServedBy];

/// enqueue_dl_entity.
pub(crate) const SERVER_STARTED: [Field; 10] = [
    Field::Server,
    Field::Cpu,
    Field::Flags,
    Field::Clock,
    Field::DlRuntime,
    Field::DlPeriod,
    Field::NonContending,
    Field::ThisBw,
    Field::RunningBw,
    Field::ExtraBw,
];

/// pick_task_dl.
pub(crate) const PICKED: [Field; 14] = [
    Field::Cpu,
    Field::Clock,
    Field::FairTasks,
    Field::Earliest,
    Field::Active,
    Field::Throttled,
    Field::Runtime,
    Field::Deadline,
    Field::DlRuntime,
    Field::DlPeriod,
    Field::NonContending,
    Field::ThisBw,
    Field::RunningBw,
    Field::ExtraBw,
];

/// dl_server_stop.
pub(crate) const SERVER_STOPPED: [Field; 11] = [
    Field::Cpu,
    Field::Clock,
    Field::Active,
    Field::Runtime,
    Field::Deadline,
    Field::DlRuntime,
    Field::DlPeriod,
    Field::NonContending,
    Field::ThisBw,
    Field::RunningBw,
    Field::ExtraBw,
];

/// dl_server_update_idle_time and put_prev_task_idle.
pub(crate) const SERVER_IDLED: [Field; 8] = [
    Field::Cpu,
    Field::Clock,
    Field::ClockTask,
    Field::ExecStart,
    Field::Runtime,
    Field::Deadline,
    Field::Throttled,
    Field::Active,
];

/// rq_attach_root.
pub(crate) const DOMAIN_ATTACHED: [Field; 2] = [Field::Cpu, Field::RootDomain];

/// dl_bw_alloc, dl_bw_free, sched_cpu_deactivate and sched_cpu_activate.
pub(crate) const OF_CPU: [Field; 1] = [Field::Cpu];

/// sched_rt_handler.
pub(crate) const LIMIT_HANDLED: [Field; 1] = [Field::Write];

/// dl_add_task_root_domain.
pub(crate) const TASK_REBUILT: [Field; 2] = [Field::Pid, Field::PolicyWanted];

/// The same of a probe that writes tasks of SCHED_DEADLINE alone.
pub(crate) const DEADLINE_TASK_REBUILT: [Field; 1] = [Field::Pid];

/// set_cpus_allowed_dl.
pub(crate) const AFFINITY_SET: [Field; 2] = [Field::Pid, Field::Cpu];

/// dl_server_apply_params.
pub(crate) const SERVER_CHANGED: [Field; 3] = [Field::Cpu, Field::DlRuntime, Field::DlPeriod];

pub(crate) fn parameters(values: &Values) -> Parameters
    ensures { result ≡ parameters values.now.items }
{
    Parameters {
        dl_runtime: values.unsigned(Field::DlRuntime),
        dl_deadline: values.unsigned(Field::DlDeadline),
        dl_period: values.unsigned(Field::DlPeriod),
        flags: values.unsigned(Field::SchedFlags),
    }
}

pub(crate) fn budget(values: &Values) -> Budget
    ensures { result ≡ budget values.now.items }
{
    Budget {
        runtime: values.signed(Field::Runtime),
        deadline: values.unsigned(Field::Deadline),
        is_throttled: values.is_set(Field::Throttled),
        is_yielded: values.is_set(Field::Yielded),
    }
}

pub(crate) fn donor(values: &Values) -> Donor
    ensures { result ≡ donor values.now.items }
{
    Donor {
        dl_runtime: values.unsigned(Field::DonorRuntime),
        dl_deadline: values.unsigned(Field::DonorDeadline),
        dl_period: values.unsigned(Field::DonorPeriod),
    }
}

pub(crate) fn sums(values: &Values) -> Sums
    ensures { result ≡ sums values.now.items }
{
    Sums {
        this_bw: values.unsigned(Field::ThisBw),
        running_bw: values.unsigned(Field::RunningBw),
        extra_bw: values.unsigned(Field::ExtraBw),
    }
}

pub(crate) fn speed(values: &Values) -> CpuSpeed
    ensures { result ≡ speed values.now.items }
{
    CpuSpeed {
        frequency: values.shown(Field::FrequencyScale),
        capacity: values.shown(Field::CpuScale),
    }
}

pub(crate) fn enqueued(values: &Values) -> Enqueued
    ensures { result ≡ enqueued values.now.items }
{
    Enqueued {
        pid: values.unsigned(Field::Pid),
        cpu: values.cpu(),
        flags: values.unsigned(Field::Flags),
        clock: values.unsigned(Field::Clock),
        budget: budget(values),
        is_non_contending: values.is_set(Field::NonContending),
        parameters: parameters(values),
        on_rq: values.unsigned(Field::OnRq),
        normal_prio: values.signed(Field::NormalPrio),
        entity: values.unsigned(Field::Entity),
        served_by: values.unsigned(Field::ServedBy),
        donor: donor(values),
        sums: sums(values),
    }
}

fn updated_by(values: &Values, ran: Ran) -> Updated
    ensures { result ≡ updated_by values.now.items ran }
{
    Updated {
        is_server: values.unsigned(Field::IsServer) > 0,
        pid: values.unsigned(Field::Pid),
        cpu: values.cpu(),
        clock: values.unsigned(Field::Clock),
        ran,
        budget: budget(values),
        sums: sums(values),
        bw_ratio: values.unsigned(Field::BwRatio),
        speed: speed(values),
    }
}

/// A charge of a kernel that shows the span of a run.
pub(crate) fn updated_by_span(values: &Values) -> Updated
    ensures { result ≡ updated_by values.now.items
        (Span (signed_at DeltaExec values.now.items) (unsigned_at MaxBw values.now.items)) }
{
    let ran = Ran::Span {
        delta: values.signed(Field::DeltaExec),
        max_bw: values.unsigned(Field::MaxBw),
    };
    updated_by(values, ran)
}

/// A charge of a kernel that shows the clock and the start of a run.
pub(crate) fn updated_by_clocks(values: &Values) -> Updated
    ensures { result ≡ updated_by values.now.items (Clocks (unsigned_at ClockTask values.now.items)
        (unsigned_at ExecStart values.now.items) (unsigned_at Entity values.now.items)
        (shown_at MaxBwShown values.now.items)) }
{
    let ran = Ran::Clocks {
        now: values.unsigned(Field::ClockTask),
        start: values.unsigned(Field::ExecStart),
        entity: values.unsigned(Field::Entity),
        max_bw: values.shown(Field::MaxBwShown),
    };
    updated_by(values, ran)
}

pub(crate) fn dequeued(values: &Values) -> Dequeued
    ensures { result ≡ dequeued values.now.items }
{
    Dequeued {
        pid: values.unsigned(Field::Pid),
        cpu: values.cpu(),
        flags: values.unsigned(Field::Flags),
        clock: values.unsigned(Field::Clock),
        budget: budget(values),
        is_non_contending: values.is_set(Field::NonContending),
        on_rq: values.unsigned(Field::OnRq),
        state: values.unsigned(Field::State),
        current: values.unsigned(Field::Current),
        sums: sums(values),
    }
}

pub(crate) fn migrating(values: &Values) -> Migrating
    ensures { result ≡ migrating values.now.items }
{
    Migrating {
        pid: values.unsigned(Field::Pid),
        state: values.unsigned(Field::State),
    }
}

pub(crate) fn left_class(values: &Values) -> LeftClass
    ensures { result ≡ left_class values.now.items }
{
    LeftClass {
        pid: values.unsigned(Field::Pid),
        cpu: values.cpu(),
        clock: values.unsigned(Field::Clock),
        runtime: values.signed(Field::Runtime),
        deadline: values.unsigned(Field::Deadline),
        is_non_contending: values.is_set(Field::NonContending),
        on_rq: values.unsigned(Field::OnRq),
        sums: sums(values),
    }
}

pub(crate) fn admitted(values: &Values) -> Admitted
    ensures { result ≡ admitted values.now.items }
{
    Admitted {
        pid: values.unsigned(Field::Pid),
        cpu: values.cpu(),
        policy_before: values.unsigned(Field::PolicyBefore),
        policy: values.unsigned(Field::PolicyWanted),
        parameters: parameters(values),
        on_rq: values.unsigned(Field::OnRq),
        is_delayed: values.is_set(Field::Delayed),
        total_bw: values.unsigned(Field::TotalBw),
        limit: values.unsigned(Field::DomainBw),
    }
}

pub(crate) fn armed_by(values: &Values, expiry: Expiry) -> Armed
    ensures { result ≡ armed_by values.now.items expiry }
{
    Armed {
        timer: values.unsigned(Field::Timer),
        function: values.function(Field::Function),
        expiry,
    }
}

pub(crate) fn server_started(values: &Values) -> ServerStarted
    ensures { result ≡ server_started values.now.items }
{
    ServerStarted {
        is_server: values.is_set(Field::Server),
        cpu: values.cpu(),
        flags: values.unsigned(Field::Flags),
        clock: values.unsigned(Field::Clock),
        dl_runtime: values.unsigned(Field::DlRuntime),
        dl_period: values.unsigned(Field::DlPeriod),
        is_non_contending: values.is_set(Field::NonContending),
        sums: sums(values),
    }
}

pub(crate) fn picked(values: &Values) -> Picked
    ensures { result ≡ picked values.now.items }
{
    Picked {
        cpu: values.cpu(),
        clock: values.unsigned(Field::Clock),
        fair_tasks: values.unsigned(Field::FairTasks),
        earliest: values.unsigned(Field::Earliest),
        is_active: values.is_set(Field::Active),
        is_throttled: values.is_set(Field::Throttled),
        runtime: values.signed(Field::Runtime),
        deadline: values.unsigned(Field::Deadline),
        dl_runtime: values.unsigned(Field::DlRuntime),
        dl_period: values.unsigned(Field::DlPeriod),
        is_non_contending: values.is_set(Field::NonContending),
        sums: sums(values),
    }
}

pub(crate) fn server_stopped(values: &Values) -> ServerStopped
    ensures { result ≡ server_stopped values.now.items }
{
    ServerStopped {
        cpu: values.cpu(),
        clock: values.unsigned(Field::Clock),
        is_active: values.is_set(Field::Active),
        runtime: values.signed(Field::Runtime),
        deadline: values.unsigned(Field::Deadline),
        dl_runtime: values.unsigned(Field::DlRuntime),
        dl_period: values.unsigned(Field::DlPeriod),
        is_non_contending: values.is_set(Field::NonContending),
        sums: sums(values),
    }
}

pub(crate) fn server_idled(values: &Values, charge: IdleCharge) -> ServerIdled
    ensures { result ≡ server_idled values.now.items charge }
{
    ServerIdled {
        charge,
        cpu: values.cpu(),
        clock: values.unsigned(Field::Clock),
        now: values.unsigned(Field::ClockTask),
        start: values.unsigned(Field::ExecStart),
        runtime: values.signed(Field::Runtime),
        deadline: values.unsigned(Field::Deadline),
        is_throttled: values.is_set(Field::Throttled),
        is_active: values.is_set(Field::Active),
    }
}
