//! A taker that counts lines.

use std::alloc::{AllocError, Global};
use trace_data::{Flaw, RecordLine};
use trace_lines::{Halt, Lines, RecordReader, ToldLine};

/// How many lines were taken of each kind.
#[derive(Drop)]
pub struct Counted {
    pub quiet: u64,
    pub notes: u64,
    pub events: u64,

    /// The number of the last line, and the sum of the moments.
    pub last: u64,
    pub moments: u64,
}

impl Lines for Counted {
    type Fault = AllocError;

    ghost use Rattle.std.specs.Prelude.{ℕ, true};

    ghost Seen = { ℕ };

    ghost seen = { λ counted. 0 };

    ghost step = { λ n told seen. record { more = true; seen = 0 } };

    fn take(&mut self, number: u64, told: &ToldLine<&[u8]>) -> Result<bool, AllocError> {
        self.last = number;
        match told.line {
            RecordLine::Note(_) => self.notes = self.notes.saturating_add(1),
            RecordLine::Event { at, .. } => {
                self.events = self.events.saturating_add(1);
                self.moments = self.moments.saturating_add(at);
            }
            _ => self.quiet = self.quiet.saturating_add(1),
        }
        Ok(true)
    }
}

/// The counts of a text in pieces of so many bytes, and where it halts.
pub(crate) fn read(
    alloc: Global,
    text: &[u8],
    size: usize,
) -> Result<(Counted, Option<Halt>), AllocError> {
    let mut counted = Counted {
        quiet: 0,
        notes: 0,
        events: 0,
        last: 0,
        moments: 0,
    };
    let mut reader = RecordReader::new(alloc);
    for piece in text.chunks(size.max(1)) {
        reader.feed(&mut counted, piece)?;
    }
    Ok((counted, reader.end()))
}

/// The line at which a text halts, and the number of what is wrong with it.
pub(crate) fn numbers_of(halt: Option<Halt>) -> (u64, u64) {
    match halt {
        None => (0, 0),
        Some(halt) => match halt.flaw {
            None => (halt.line, 0),
            Some(Flaw::WrongClock) => (halt.line, 51),
            Some(Flaw::LostEvents) => (halt.line, 52),
            Some(Flaw::TooLong) => (halt.line, 54),
            Some(Flaw::BadTraceLine) => (halt.line, 55),
        },
    }
}
