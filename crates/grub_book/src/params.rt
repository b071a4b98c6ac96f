//! The reservation of a task.

ghost use Rattle.std.specs.Prelude.{◌≡◌, ◌≤◌, ◌<◌, ◌↔◌, IsTrue, IsOk, IsErrOf, IfOk};
ghost use Rattle.grub_book.specs.Bandwidth.{bandwidth_of, IsReservation, IsPeriod, IsRuntime};
ghost use Rattle.grub_book.specs.declared.queue.TheConstants.{BW_UNIT};

use std::error::Error;
use std::fmt;
use std::marker::Model;

/// The fractional bits of a bandwidth, as in the kernel.
const UNIT_BITS: u32 = 20;

/// The longest period, and so the longest runtime.
pub const PERIOD_MAX: u32 = 16777216;

/// Why a reservation is refused, in the order of the tests.
#[derive(Clone, Copy, Debug, PartialEq, Eq)]
pub enum ParamFault {
    /// 1: the period is not 1 to 16777216.
    PeriodOutOfRange,

    /// 2: the runtime is not 1 to the period.
    RuntimeOutOfRange,

    /// 3: the bandwidth is rounded down to 0.
    TooSmall,
}

impl fmt::Display for ParamFault {
    ghost use Rattle.std.specs.Prelude.{Some};
    ghost use Rattle.grub_book.specs.Messages.{param_fault_text};

    ghost output = { λ fault. Some (param_fault_text fault) };

    fn fmt<W: fmt::Write>(&self, f: &mut fmt::Formatter<W>) -> fmt::Result {
        f.write_str(match self {
            ParamFault::PeriodOutOfRange => "1 PeriodOutOfRange",
            ParamFault::RuntimeOutOfRange => "2 RuntimeOutOfRange",
            ParamFault::TooSmall => "3 TooSmall",
        })
    }
}

impl Error for ParamFault {}

/// The reservation of a task: a runtime in each period (`sched(7)`, where the deadline is the period).
#[derive(Clone, Copy, Debug, PartialEq, Eq)]
pub struct Params {
    runtime: u32,
    period: u32,
}

impl Model for Params {
    ghost use Rattle.grub_book.specs.Bandwidth.{Reservation, IsReservation};

    ghost Value = { Reservation };

    ghost view = { λ p. record { runtime = p.runtime; period = p.period } };

    ghost invariant = { λ p. IsReservation (record { runtime = p.runtime; period = p.period }) };

    ghost inverse = { λ v. record { runtime = v.runtime; period = v.period } };
}

impl Params {
    /// A reservation of `runtime` in each `period`. It is refused with 1 where the period is not 1 to 16777216, then
    /// with 2 where the runtime is not 1 to the period, and then with 3 where its bandwidth is rounded down to 0.
    pub fn new(runtime: u32, period: u32) -> Result<Params, ParamFault>
        ensures ok { IfOk result (λ p. p ≡ record { runtime = runtime; period = period }) }
        ensures accepted { IsOk result
            ↔ IsReservation (record { runtime = runtime; period = period }) }

        // Each fault where the ones before it do not stand.
        ensures period { IsErrOf result ParamFault.PeriodOutOfRange ↔ ¬ IsPeriod period }
        ensures runtime { IsErrOf result ParamFault.RuntimeOutOfRange
            ↔ IsPeriod period × ¬ IsRuntime runtime period }
        ensures small { IsErrOf result ParamFault.TooSmall
            ↔ IsPeriod period × IsRuntime runtime period
            × (bandwidth_of (record { runtime = runtime; period = period }) ≡ 0) }
    {
        if period == 0 || period > PERIOD_MAX {
            return Err(ParamFault::PeriodOutOfRange);
        }
        if runtime == 0 || runtime > period {
            return Err(ParamFault::RuntimeOutOfRange);
        }
        if is_too_small(runtime, period) {
            return Err(ParamFault::TooSmall);
        }
        Ok(Params { runtime, period })
    }

    /// Whether `new` makes a reservation of these numbers.
    pub fn fits(runtime: u32, period: u32) -> bool
        ensures { IsTrue result ↔ IsReservation (record { runtime = runtime; period = period }) }
    {
        Params::new(runtime, period).is_ok()
    }

    /// The runtime in each period, which is the full budget.
    pub fn runtime(&self) -> u32
        ensures value { result ≡ self.now.runtime }
        ensures limits { IsReservation self.now }
    {
        self.runtime
    }

    /// The period, which is the relative deadline too.
    pub fn period(&self) -> u32
        ensures value { result ≡ self.now.period }
        ensures limits { IsReservation self.now }
    {
        self.period
    }

    /// The bandwidth in 1/2^20, rounded down: `runtime * 2^20 / period`.
    pub fn bw(&self) -> u32
        ensures value { result ≡ bandwidth_of self.now }
        ensures some { 1 ≤ result }
        ensures most { result ≤ BW_UNIT }
        ensures limits { IsReservation self.now }
    {
        bandwidth(self.runtime, self.period)
    }
}

/// Whether the bandwidth is rounded down to 0. A division is dear, so none is made for it.
fn is_too_small(runtime: u32, period: u32) -> bool
    requires { 1 ≤ period }
    ensures { IsTrue result
        ↔ (bandwidth_of (record { runtime = runtime; period = period }) ≡ 0) }
{
    (u64::from(runtime) << UNIT_BITS) < u64::from(period)
}

/// The bandwidth in 1/2^20 of a runtime in each period.
fn bandwidth(runtime: u32, period: u32) -> u32
    requires period { 1 ≤ period }
    requires runtime { runtime ≤ period }
    ensures { result ≡ bandwidth_of (record { runtime = runtime; period = period }) }
{
    ((u64::from(runtime) << UNIT_BITS) / u64::from(period)) as u32
}
