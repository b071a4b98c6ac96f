//! The fault of a trace's line.

use convert_facts::{LineFault, Wrong};
use trace_data::Flaw;
use trace_options::Fault;

/// The fault of the first line with one.
pub(crate) fn fault_from<'a>(fault: LineFault) -> Fault<'a> {
    let LineFault { line, wrong } = fault;
    match wrong {
        Wrong::UnknownTask { comm, pid } => Fault::UnknownTask { line, pid, comm },
        Wrong::WrongClock => Fault::Line {
            line,
            flaw: Flaw::WrongClock,
        },
        Wrong::LostEvents => Fault::Line {
            line,
            flaw: Flaw::LostEvents,
        },
        Wrong::TooLong => Fault::Line {
            line,
            flaw: Flaw::TooLong,
        },
        Wrong::BadTraceLine => Fault::Line {
            line,
            flaw: Flaw::BadTraceLine,
        },
    }
}
