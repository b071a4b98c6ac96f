//! By which clock the moments of a record are.

ghost use Rattle.std.specs.Prelude.{◌≡◌};
ghost use Rattle.trace_lines.specs.Clock.{clock_by, drift, far_off, halt_of_clock, said_drift};

use crate::reader::Halt;
use trace_data::{Fixed, Flaw, RecordLine, Said, TimerFunction};

/// How far the `now` of a 0-lag timer that fires may lie from the moment of its line, in nanoseconds. A guest's processor that stands
/// still makes some lie farther: of a record by CLOCK_MONOTONIC not all do.
pub const CLOCK_MAX: u64 = 1000000;

/// What the 0-lag timers that fired say of the clock of the moments.
#[derive(Clone, Copy)]
pub enum Clock {
    /// None has fired.
    Untold,

    /// One lay near the moment of its line.
    Right,

    /// All lay farther off, the first at this line.
    Wrong(u64),
}

/// How far the `now` of a 0-lag timer that fires lies from the moment of its line, in nanoseconds.
fn said_drift(at: u64, said: &Said) -> Option<u64>
    ensures { result ≡ said_drift at said.now }
{
    match *said {
        Said::Fixed(
            Fixed::TimerFired {
                function: TimerFunction::ZeroLag,
                now,
                ..
            },
        ) => Some(now.abs_diff(at)),
        _ => None,
    }
}

fn drift(line: &RecordLine) -> Option<u64>
    ensures { result ≡ drift line.now }
{
    match line {
        RecordLine::Event { at, said, .. } => said_drift(*at, said),
        _ => None,
    }
}

fn far_off(line: u64, clock: Clock) -> Clock
    ensures { result ≡ far_off line clock }
{
    match clock {
        Clock::Untold => Clock::Wrong(line),
        Clock::Right => Clock::Right,
        Clock::Wrong(first) => Clock::Wrong(first),
    }
}

fn clock_by(drift: Option<u64>, line: u64, clock: Clock) -> Clock
    ensures { result ≡ clock_by drift line clock }
{
    match drift {
        None => clock,
        Some(drift) => {
            if drift > CLOCK_MAX {
                far_off(line, clock)
            } else {
                Clock::Right
            }
        }
    }
}

/// What is known of the clock behind the line of this number.
pub(crate) fn clock_behind(told: &RecordLine, line: u64, clock: Clock) -> Clock
    ensures { result ≡ clock_by (drift told.now) line clock }
{
    clock_by(drift(told), line, clock)
}

/// Where a whole text halts by its clock.
pub(crate) fn halt_of_clock(clock: Clock) -> Option<Halt>
    ensures { result ≡ halt_of_clock clock }
{
    match clock {
        Clock::Wrong(line) => Some(Halt {
            line,
            flaw: Some(Flaw::WrongClock),
        }),
        Clock::Untold | Clock::Right => None,
    }
}
