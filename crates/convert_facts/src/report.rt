//! What a line says of an event that each kernel has.

ghost use Rattle.std.specs.Prelude.{◌≡◌};
ghost use Rattle.convert_facts.specs.Given.{is_zero_lag, other_cpu};

use trace_data::{Fixed, TimerFunction};
use trace_fields::Shown;

/// What a line says of such an event; `T` is a text.
#[derive(Clone, Copy)]
pub struct EventReport<T> {
    /// The moment, in nanoseconds.
    pub at: u64,

    /// The CPU that wrote the line.
    pub cpu: u32,

    /// The task that ran there.
    pub pid: u64,

    pub event: Fixed,

    /// The task that the line shows by comm and pid.
    pub shown: Option<Shown<T>>,
}

/// Whether a timer tells of a 0-lag time.
pub(crate) fn is_zero_lag(function: TimerFunction) -> bool
    ensures { result ≡ is_zero_lag function }
{
    matches!(function, TimerFunction::ZeroLag)
}

/// The CPU that an event names beside its line's, or 0.
pub(crate) fn other_cpu(event: &Fixed) -> u32
    ensures { result ≡ other_cpu event.now }
{
    match *event {
        Fixed::Woken { cpu, .. } | Fixed::Migrated { cpu, .. } => cpu,
        _ => 0,
    }
}
