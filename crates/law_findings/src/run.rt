//! The run: a charge is the time that the task ran, and each moment of a CPU is charged once
//! (Documentation/scheduler/sched-deadline.rst, section 2.1).

ghost use Rattle.std.specs.Prelude.{◌≡◌, ◌↔◌, IsTrue};
ghost use Rattle.law_findings.specs.Run.{IsApart, BeginsAtSwitch, nanos_of};

use trace_data::Ran;

/// For so long the clock may be behind the line of the switch.
const SLACK: u64 = 300_000;

/// Whether the span that begins at the second moment does not overlap the one that ends at the first.
pub fn is_apart(ends: u64, begins: u64) -> bool
    ensures { IsTrue result ↔ IsApart ends begins }
{
    ends <= begins
}

/// Whether the first charge of a run begins between the last line of its runqueue before the switch and the switch.
pub fn begins_at_switch(before: u64, begins: u64, switch: u64) -> bool
    ensures { IsTrue result ↔ BeginsAtSwitch before begins switch }
{
    before <= begins && (begins <= switch || begins - switch <= SLACK)
}

/// How long a task ran by a charge, in nanoseconds.
pub fn nanos_of(ran: Ran) -> i64
    ensures { result ≡ nanos_of ran }
{
    match ran {
        Ran::Span { delta, .. } => delta,
        Ran::Clocks { now, start, .. } => now.wrapping_sub(start).cast_signed(),
    }
}
