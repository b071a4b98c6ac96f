//! What is wrong with a line of a trace.

use trace_data::Flaw;
use trace_lines::Halt;

/// What is wrong with a line.
#[derive(Debug, Drop)]
pub enum Wrong {
    /// 50: a SCHED_DEADLINE task wakes that was not given.
    UnknownTask { comm: Vec<u8>, pid: u64 },

    /// 51: the `now` of a 0-lag timer that fires is more than a millisecond from the moment of its line.
    WrongClock,

    /// 52: events were lost.
    LostEvents,

    /// 54: a CPU that is no runqueue's, or a note of a reservation that event files cannot have.
    TooLong,

    /// 55: a field is missing or no number, or the last line has no byte that ends it.
    BadTraceLine,
}

/// The first line with a fault.
#[derive(Debug, Drop)]
pub struct LineFault {
    /// Which line, from 1.
    pub line: u64,

    pub wrong: Wrong,
}

impl Wrong {
    /// The fault of a line that has a flaw.
    pub(crate) fn of_flaw(flaw: Flaw) -> Wrong {
        match flaw {
            Flaw::WrongClock => Wrong::WrongClock,
            Flaw::LostEvents => Wrong::LostEvents,
            Flaw::TooLong => Wrong::TooLong,
            Flaw::BadTraceLine => Wrong::BadTraceLine,
        }
    }
}

/// The first fault of a text: that of its lines by the tasks that were given, else that of the line at which it halts.
pub(crate) fn first_fault(own: Option<LineFault>, halt: Option<Halt>) -> Option<LineFault> {
    if let Some(fault) = own {
        return Some(fault);
    }
    let halt = halt?;
    Some(LineFault {
        line: halt.line,
        wrong: Wrong::of_flaw(halt.flaw?),
    })
}
