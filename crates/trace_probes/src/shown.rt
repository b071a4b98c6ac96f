//! What a line of a probe shows.

ghost use Rattle.std.specs.Prelude.{◌≡◌};
ghost use Rattle.text_bytes.specs.Lines.{words_of};
ghost use Rattle.trace_probes.specs.Fields.{has_field};
ghost use Rattle.trace_probes.specs.Shown.{event_named, of_cpu, probe_of, show_admission, show_admitted, show_admitted_delayed, show_affinity, show_armed, show_armed_from_now, show_armed_until, show_attached, show_dequeued, show_enqueued, show_idled, show_left_class, show_limit, show_mark, show_migrating, show_picked, show_rebuilt, show_rebuilt_any, show_rebuilt_deadline, show_replenish_fired, show_server_changed, show_server_started, show_server_stopped, show_updated, show_updated_by_clocks, show_updated_by_span, show_zero_lag_fired, server_event_named, mark_named};

use crate::field::Field;
use crate::tables::{
    ADMITTED, ADMITTED_DELAYED, AFFINITY_SET, ARMED_FROM_NOW, ARMED_UNTIL, DEADLINE_TASK_REBUILT,
    DEQUEUED, DOMAIN_ATTACHED, ENQUEUED, LEFT_CLASS, LIMIT_HANDLED, MIGRATING, OF_CPU, PICKED,
    REPLENISH_FIRED, SERVER_CHANGED, SERVER_IDLED, SERVER_STARTED, SERVER_STOPPED, TASK_REBUILT,
    UPDATED_BY_CLOCKS, UPDATED_BY_SPAN, ZERO_LAG_FIRED, admitted, armed_by, dequeued, enqueued,
    left_class, migrating, picked, server_idled, server_started, server_stopped, updated_by_clocks,
    updated_by_span,
};
use crate::values::{Values, has_field};
use trace_data::{Expiry, IdleCharge, Mark, Probe};

/// A function that changes sums by no rule of a task.
#[derive(Clone, Copy)]
pub enum MarkEvent {
    /// `att`: rq_attach_root.
    Att,

    /// `bwa`: dl_bw_alloc.
    Bwa,

    /// `bwf`: dl_bw_free.
    Bwf,

    /// `lim`: sched_rt_handler.
    Lim,

    /// `reb`: dl_add_task_root_domain.
    Reb,

    /// `aff`: set_cpus_allowed_dl.
    Aff,

    /// `sap`: dl_server_apply_params.
    Sap,

    /// `off`: sched_cpu_deactivate.
    Off,

    /// `onl`: sched_cpu_activate.
    Onl,
}

/// The event of a probe: which function of the kernel it stands in.
#[derive(Clone, Copy)]
pub enum ProbeEvent {
    /// `enq`: enqueue_task_dl.
    Enq,

    /// `upd`: update_curr_dl_se, or update_curr_dl.
    Upd,

    /// `deq`: dequeue_task_dl.
    Deq,

    /// `mig`: migrate_task_rq_dl.
    Mig,

    /// `sfr`: switched_from_dl.
    Sfr,

    /// `adm`: sched_dl_overflow.
    Adm,

    /// `ina`: inactive_task_timer.
    Ina,

    /// `dlt`: dl_task_timer.
    Dlt,

    /// `hst`: hrtimer_start_range_ns.
    Hst,

    /// `ede`: enqueue_dl_entity.
    Ede,

    /// `pck`: pick_task_dl.
    Pck,

    /// `dls`: dl_server_stop.
    Dls,

    /// `idl`: dl_server_update_idle_time.
    Idl,

    /// `pid`: put_prev_task_idle.
    Pid,
    Mark(MarkEvent),
}

fn mark_named(name: &[u8]) -> Option<MarkEvent>
    ensures { result ≡ mark_named name.now }
{
    if name == b"att".as_slice() {
        Some(MarkEvent::Att)
    } else if name == b"bwa".as_slice() {
        Some(MarkEvent::Bwa)
    } else if name == b"bwf".as_slice() {
        Some(MarkEvent::Bwf)
    } else if name == b"lim".as_slice() {
        Some(MarkEvent::Lim)
    } else if name == b"reb".as_slice() {
        Some(MarkEvent::Reb)
    } else if name == b"aff".as_slice() {
        Some(MarkEvent::Aff)
    } else if name == b"sap".as_slice() {
        Some(MarkEvent::Sap)
    } else if name == b"off".as_slice() {
        Some(MarkEvent::Off)
    } else if name == b"onl".as_slice() {
        Some(MarkEvent::Onl)
    } else {
        None
    }
}

fn server_event_named(name: &[u8]) -> Option<ProbeEvent>
    ensures { result ≡ server_event_named name.now }
{
    if name == b"ede".as_slice() {
        Some(ProbeEvent::Ede)
    } else if name == b"pck".as_slice() {
        Some(ProbeEvent::Pck)
    } else if name == b"dls".as_slice() {
        Some(ProbeEvent::Dls)
    } else if name == b"idl".as_slice() {
        Some(ProbeEvent::Idl)
    } else if name == b"pid".as_slice() {
        Some(ProbeEvent::Pid)
    } else {
        Some(ProbeEvent::Mark(mark_named(name)?))
    }
}

/// The event of this name.
pub fn event_named(name: &[u8]) -> Option<ProbeEvent>
    ensures { result ≡ event_named name.now }
{
    if name == b"enq".as_slice() {
        Some(ProbeEvent::Enq)
    } else if name == b"upd".as_slice() {
        Some(ProbeEvent::Upd)
    } else if name == b"deq".as_slice() {
        Some(ProbeEvent::Deq)
    } else if name == b"mig".as_slice() {
        Some(ProbeEvent::Mig)
    } else if name == b"sfr".as_slice() {
        Some(ProbeEvent::Sfr)
    } else if name == b"adm".as_slice() {
        Some(ProbeEvent::Adm)
    } else if name == b"ina".as_slice() {
        Some(ProbeEvent::Ina)
    } else if name == b"dlt".as_slice() {
        Some(ProbeEvent::Dlt)
    } else if name == b"hst".as_slice() {
        Some(ProbeEvent::Hst)
    } else {
        server_event_named(name)
    }
}

#[inline(never)]
fn show_enqueued(text: &[u8]) -> Option<Probe>
    ensures { result ≡ show_enqueued (words_of text.now) }
{
    let mut values = Values::none();
    values.take(&ENQUEUED, text)?;
    Some(Probe::Enqueued(enqueued(&values)))
}

#[inline(never)]
fn show_updated_by_span(text: &[u8]) -> Option<Probe>
    ensures { result ≡ show_updated_by_span (words_of text.now) }
{
    let mut values = Values::none();
    values.take(&UPDATED_BY_SPAN, text)?;
    Some(Probe::Updated(updated_by_span(&values)))
}

#[inline(never)]
fn show_updated_by_clocks(text: &[u8]) -> Option<Probe>
    ensures { result ≡ show_updated_by_clocks (words_of text.now) }
{
    let mut values = Values::none();
    values.take(&UPDATED_BY_CLOCKS, text)?;
    Some(Probe::Updated(updated_by_clocks(&values)))
}

#[inline(never)]
fn show_dequeued(text: &[u8]) -> Option<Probe>
    ensures { result ≡ show_dequeued (words_of text.now) }
{
    let mut values = Values::none();
    values.take(&DEQUEUED, text)?;
    Some(Probe::Dequeued(dequeued(&values)))
}

#[inline(never)]
fn show_migrating(text: &[u8]) -> Option<Probe>
    ensures { result ≡ show_migrating (words_of text.now) }
{
    let mut values = Values::none();
    values.take(&MIGRATING, text)?;
    Some(Probe::Migrating(migrating(&values)))
}

#[inline(never)]
fn show_left_class(text: &[u8]) -> Option<Probe>
    ensures { result ≡ show_left_class (words_of text.now) }
{
    let mut values = Values::none();
    values.take(&LEFT_CLASS, text)?;
    Some(Probe::LeftClass(left_class(&values)))
}

#[inline(never)]
fn show_admitted(text: &[u8]) -> Option<Probe>
    ensures { result ≡ show_admitted (words_of text.now) }
{
    let mut values = Values::none();
    values.take(&ADMITTED, text)?;
    Some(Probe::Admitted(admitted(&values)))
}

#[inline(never)]
fn show_admitted_delayed(text: &[u8]) -> Option<Probe>
    ensures { result ≡ show_admitted_delayed (words_of text.now) }
{
    let mut values = Values::none();
    values.take(&ADMITTED_DELAYED, text)?;
    Some(Probe::Admitted(admitted(&values)))
}

#[inline(never)]
fn show_zero_lag_fired(text: &[u8]) -> Option<Probe>
    ensures { result ≡ show_zero_lag_fired (words_of text.now) }
{
    let mut values = Values::none();
    values.take(&ZERO_LAG_FIRED, text)?;
    Some(Probe::ZeroLagFired {
        timer: values.unsigned(Field::Timer),
    })
}

#[inline(never)]
fn show_replenish_fired(text: &[u8]) -> Option<Probe>
    ensures { result ≡ show_replenish_fired (words_of text.now) }
{
    let mut values = Values::none();
    values.take(&REPLENISH_FIRED, text)?;
    Some(Probe::ReplenishFired {
        timer: values.unsigned(Field::Timer),
        served_by: values.shown(Field::TimerServedBy),
    })
}

#[inline(never)]
fn show_armed_from_now(text: &[u8]) -> Option<Probe>
    ensures { result ≡ show_armed_from_now (words_of text.now) }
{
    let mut values = Values::none();
    values.take(&ARMED_FROM_NOW, text)?;
    let expiry = Expiry::After(values.signed(Field::FromNow));
    Some(Probe::Armed(armed_by(&values, expiry)))
}

#[inline(never)]
fn show_armed_until(text: &[u8]) -> Option<Probe>
    ensures { result ≡ show_armed_until (words_of text.now) }
{
    let mut values = Values::none();
    values.take(&ARMED_UNTIL, text)?;
    let expiry = Expiry::At(values.signed(Field::Expires));
    Some(Probe::Armed(armed_by(&values, expiry)))
}

#[inline(never)]
fn show_server_started(text: &[u8]) -> Option<Probe>
    ensures { result ≡ show_server_started (words_of text.now) }
{
    let mut values = Values::none();
    values.take(&SERVER_STARTED, text)?;
    Some(Probe::ServerStarted(server_started(&values)))
}

#[inline(never)]
fn show_picked(text: &[u8]) -> Option<Probe>
    ensures { result ≡ show_picked (words_of text.now) }
{
    let mut values = Values::none();
    values.take(&PICKED, text)?;
    Some(Probe::Picked(picked(&values)))
}

fn show_updated(text: &[u8]) -> Option<Probe>
    ensures { result ≡ show_updated (words_of text.now) }
{
    if has_field(Field::DeltaExec, Some(text)) {
        show_updated_by_span(text)
    } else {
        show_updated_by_clocks(text)
    }
}

fn show_admission(text: &[u8]) -> Option<Probe>
    ensures { result ≡ show_admission (words_of text.now) }
{
    if has_field(Field::Delayed, Some(text)) {
        show_admitted_delayed(text)
    } else {
        show_admitted(text)
    }
}

fn show_armed(text: &[u8]) -> Option<Probe>
    ensures { result ≡ show_armed (words_of text.now) }
{
    if has_field(Field::FromNow, Some(text)) {
        show_armed_from_now(text)
    } else {
        show_armed_until(text)
    }
}

#[inline(never)]
fn show_server_stopped(text: &[u8]) -> Option<Probe>
    ensures { result ≡ show_server_stopped (words_of text.now) }
{
    let mut values = Values::none();
    values.take(&SERVER_STOPPED, text)?;
    Some(Probe::ServerStopped(server_stopped(&values)))
}

#[inline(never)]
fn show_idled(charge: IdleCharge, text: &[u8]) -> Option<Probe>
    ensures { result ≡ show_idled charge (words_of text.now) }
{
    let mut values = Values::none();
    values.take(&SERVER_IDLED, text)?;
    Some(Probe::ServerIdled(server_idled(&values, charge)))
}

fn show_attached(text: &[u8]) -> Option<Mark>
    ensures { result ≡ show_attached (words_of text.now) }
{
    let mut values = Values::none();
    values.take(&DOMAIN_ATTACHED, text)?;
    Some(Mark::DomainAttached {
        cpu: values.cpu(),
        domain: values.unsigned(Field::RootDomain),
    })
}

/// The CPU of a line that shows nothing else.
fn of_cpu(text: &[u8]) -> Option<u32>
    ensures { result ≡ of_cpu (words_of text.now) }
{
    let mut values = Values::none();
    values.take(&OF_CPU, text)?;
    Some(values.cpu())
}

fn show_limit(text: &[u8]) -> Option<Mark>
    ensures { result ≡ show_limit (words_of text.now) }
{
    let mut values = Values::none();
    values.take(&LIMIT_HANDLED, text)?;
    Some(Mark::LimitHandled {
        is_write: values.is_set(Field::Write),
    })
}

/// A probe with a filter on the policy shows the pid alone.
fn show_rebuilt_deadline(text: &[u8]) -> Option<Mark>
    ensures { result ≡ show_rebuilt_deadline (words_of text.now) }
{
    let mut values = Values::none();
    values.take(&DEADLINE_TASK_REBUILT, text)?;
    Some(Mark::TaskRebuilt {
        pid: values.unsigned(Field::Pid),
        policy: 6,
    })
}

fn show_rebuilt_any(text: &[u8]) -> Option<Mark>
    ensures { result ≡ show_rebuilt_any (words_of text.now) }
{
    let mut values = Values::none();
    values.take(&TASK_REBUILT, text)?;
    Some(Mark::TaskRebuilt {
        pid: values.unsigned(Field::Pid),
        policy: values.unsigned(Field::PolicyWanted),
    })
}

fn show_rebuilt(text: &[u8]) -> Option<Mark>
    ensures { result ≡ show_rebuilt (words_of text.now) }
{
    if has_field(Field::PolicyWanted, Some(text)) {
        show_rebuilt_any(text)
    } else {
        show_rebuilt_deadline(text)
    }
}

fn show_affinity(text: &[u8]) -> Option<Mark>
    ensures { result ≡ show_affinity (words_of text.now) }
{
    let mut values = Values::none();
    values.take(&AFFINITY_SET, text)?;
    Some(Mark::AffinitySet {
        pid: values.unsigned(Field::Pid),
        cpu: values.cpu(),
    })
}

fn show_server_changed(text: &[u8]) -> Option<Mark>
    ensures { result ≡ show_server_changed (words_of text.now) }
{
    let mut values = Values::none();
    values.take(&SERVER_CHANGED, text)?;
    Some(Mark::ServerChanged {
        cpu: values.cpu(),
        dl_runtime: values.unsigned(Field::DlRuntime),
        dl_period: values.unsigned(Field::DlPeriod),
    })
}

#[inline(never)]
fn show_mark(event: MarkEvent, text: &[u8]) -> Option<Mark>
    ensures { result ≡ show_mark event (words_of text.now) }
{
    match event {
        MarkEvent::Att => show_attached(text),
        MarkEvent::Bwa => Some(Mark::BandwidthTaken { cpu: of_cpu(text)? }),
        MarkEvent::Bwf => Some(Mark::BandwidthFreed { cpu: of_cpu(text)? }),
        MarkEvent::Lim => show_limit(text),
        MarkEvent::Reb => show_rebuilt(text),
        MarkEvent::Aff => show_affinity(text),
        MarkEvent::Sap => show_server_changed(text),
        MarkEvent::Off => Some(Mark::CpuDeactivated { cpu: of_cpu(text)? }),
        MarkEvent::Onl => Some(Mark::CpuActivated { cpu: of_cpu(text)? }),
    }
}

/// What a line of a probe shows, by the text behind its event; none where a field is missing or wrong, or out of its order.
pub fn probe_of(event: ProbeEvent, text: &[u8]) -> Option<Probe>
    ensures { result ≡ probe_of event (words_of text.now) }
{
    match event {
        ProbeEvent::Enq => show_enqueued(text),
        ProbeEvent::Upd => show_updated(text),
        ProbeEvent::Deq => show_dequeued(text),
        ProbeEvent::Mig => show_migrating(text),
        ProbeEvent::Sfr => show_left_class(text),
        ProbeEvent::Adm => show_admission(text),
        ProbeEvent::Ina => show_zero_lag_fired(text),
        ProbeEvent::Dlt => show_replenish_fired(text),
        ProbeEvent::Hst => show_armed(text),
        ProbeEvent::Ede => show_server_started(text),
        ProbeEvent::Pck => show_picked(text),
        ProbeEvent::Dls => show_server_stopped(text),
        ProbeEvent::Idl => show_idled(IdleCharge::Update, text),
        ProbeEvent::Pid => show_idled(IdleCharge::EndOfIdle, text),
        ProbeEvent::Mark(event) => Some(Probe::Mark(show_mark(event, text)?)),
    }
}
