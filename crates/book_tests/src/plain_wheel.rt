//! The plain wheel, which searches all its timers for each answer. Tests compare `Wheel` with it.

use grub_wheel::Timer;
use std::alloc::{AllocError, Global};

/// The armed timers, in no order.
#[derive(Drop)]
pub(crate) struct PlainWheel {
    timers: Vec<Timer>,
}

impl PlainWheel {
    pub(crate) fn new(alloc: Global) -> PlainWheel {
        PlainWheel {
            timers: Vec::new(alloc),
        }
    }

    pub(crate) fn armed(&self, t: u32) -> Option<Timer> {
        self.timers.iter().copied().find(|x| x.t == t)
    }

    pub(crate) fn arm(&mut self, timer: Timer) -> Result<(), AllocError> {
        self.timers.push(timer)?;
        Ok(())
    }

    pub(crate) fn cancel(&mut self, t: u32, ticket: u32) -> bool {
        let Some(i) = self
            .timers
            .iter()
            .position(|x| x.t == t && x.ticket == ticket)
        else {
            return false;
        };
        let _ = self.timers.swap_remove(i);
        true
    }

    pub(crate) fn due(&mut self, m: u32) -> Option<Timer> {
        let due = self.timers.iter().copied().filter(|x| x.z <= m);
        let timer = due.min_by_key(|x| (x.z, x.t, x.ticket))?;
        self.cancel(timer.t, timer.ticket);
        Some(timer)
    }
}
