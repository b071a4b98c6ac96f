//! A line of a record.

use crate::fixed::Fixed;
use crate::note::TraceNote;
use crate::probe::Probe;

/// What is wrong with a line, whatever tasks were given.
#[derive(Clone, Copy)]
pub enum Flaw {
    /// 51: the `now` of a 0-lag timer that fires is more than a millisecond from the moment of its line.
    WrongClock,

    /// 52: events were lost.
    LostEvents,

    /// 54: a CPU above 8191.
    TooLong,

    /// 55: a field is missing or no number.
    BadTraceLine,
}

/// What a line of an event says.
#[derive(Clone, Copy)]
pub enum Said {
    Fixed(Fixed),
    Probe(Probe),
}

/// A line of a record.
#[derive(Clone, Copy)]
pub enum RecordLine {
    /// It says nothing that is read.
    Quiet,
    Note(TraceNote),

    /// A line of an event.
    Event {
        /// The moment, in nanoseconds.
        at: u64,

        /// How far the moment may be off: 1 for nanoseconds, 1000 for microseconds.
        grain: u64,

        /// The CPU that wrote the line.
        cpu: u32,

        /// The task that ran there.
        pid: u64,
        said: Said,
    },
    Flawed(Flaw),
}
