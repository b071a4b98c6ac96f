//! A writer that compares what it is given, and may fail.

use std::io;
use std::io::{ErrorKind, Write};

/// How a writer goes on after its calls, or its room, are used up.
#[derive(Clone, Copy)]
pub enum Then {
    Fails,
    TakesNothing,
    FailsInFlush,
}

/// Takes so many bytes in each of so many calls, up to its room, and keeps whether they are those of a text. It owns
/// nothing, so that tests have nothing to drop.
#[derive(Clone, Copy)]
pub struct Expecting<'a> {
    pub rest: &'a [u8],
    pub is_right: bool,
    pub each: usize,
    pub calls: usize,
    pub room: usize,
    pub then: Then,
}

impl<'a> Expecting<'a> {
    /// Takes whatever it is given.
    pub(crate) fn new(text: &'a [u8]) -> Expecting<'a> {
        Expecting {
            rest: text,
            is_right: true,
            each: usize::MAX,
            calls: usize::MAX,
            room: usize::MAX,
            then: Then::Fails,
        }
    }

    /// Whether it took none of this text, which it expects, and nothing else.
    pub(crate) fn is_untouched(&self, text: &str) -> bool {
        self.is_right && self.rest.len() == text.len()
    }

    /// Whether it took the whole text, and nothing else.
    pub(crate) fn is_met(&self) -> bool {
        self.is_right && self.rest.is_empty()
    }
}

impl Write for Expecting<'_> {
    fn write(&mut self, buf: &[u8]) -> io::Result<usize> {
        if self.calls == 0 || self.room == 0 {
            return match self.then {
                Then::TakesNothing => Ok(0),
                _ => Err(io::Error::from(ErrorKind::Other)),
            };
        }
        let count = self.each.min(self.room).min(buf.len());
        self.calls -= 1;
        self.room -= count;
        match self.rest.strip_prefix(&buf[..count]) {
            Some(rest) => self.rest = rest,
            None => self.is_right = false,
        }
        Ok(count)
    }

    fn flush(&mut self) -> io::Result<()> {
        match self.then {
            Then::FailsInFlush => Err(io::Error::from(ErrorKind::Other)),
            _ => Ok(()),
        }
    }
}
