//! The moments of events.

ghost use Rattle.std.specs.Prelude.{◌≡◌, ◌<◌, ◌^◌, false};

use crate::event::{EventSource, TaskAct, TaskEvent, TimedEvent};
use crate::lists::{at, put};
use grub_book::{MOMENT_MAX, RUN_MAX};
use std::alloc::{AllocError, Global};

/// The moment of the first wake in the event files, in microseconds.
pub const FIRST_WAKE: u64 = 2000;

/// Where a task's last event stands: at a moment, in the file of a runqueue.
#[derive(Clone, Copy, Debug, PartialEq, Eq)]
pub struct EventPlace {
    pub moment: u32,
    pub runqueue: u32,
}

/// Before a task's first event.
const NOWHERE: EventPlace = EventPlace {
    moment: 0,
    runqueue: 0,
};

/// Why events have no moments.
#[derive(Clone, Copy, Debug, PartialEq, Eq)]
pub enum OrderFault {
    /// 54: the event of this line of the trace passes the limits of event files.
    TooLong { line: u64 },
    /// The allocator refused.
    NoMemory,
}

impl EventPlace {
    /// The least moment at which a line in the file of a runqueue stands after this one: lines stand in the order of
    /// their moments, then of their files, then in that of the file.
    fn next_in(self, runqueue: u32) -> u64 {
        if runqueue < self.runqueue {
            u64::from(self.moment) + 1
        } else {
            u64::from(self.moment)
        }
    }
}

/// A moment of the trace's clock in nanoseconds as a moment of the event files, where the first wake is at `first`.
fn own_moment(first: u64, at: u64) -> u64 {
    (at / 1000 + FIRST_WAKE).saturating_sub(first / 1000)
}

/// Whether an event comes from a task that is first seen as it blocks.
fn is_opening(source: EventSource) -> bool {
    matches!(source, EventSource::Opening)
}

/// The moment of an event, where its file's last event and its task's last event stand there.
fn moment_of(first: u64, file: u32, place: EventPlace, event: &TaskEvent) -> u64 {
    if is_opening(event.source) {
        0
    } else {
        own_moment(first, event.at)
            .max(u64::from(file))
            .max(place.next_in(event.runqueue))
    }
}

/// Whether an event at this moment passes the limits of event files, or names none of so many runqueues.
fn is_beyond(runqueues: u32, moment: u64, event: &TaskEvent) -> bool
    ensures { result ≡ false → moment < 2 ^ 32 }
{
    let is_long = match event.act {
        TaskAct::Run { micros } => u64::from(RUN_MAX) < micros,
        _ => false,
    };
    runqueues <= event.runqueue || u64::from(MOMENT_MAX) < moment || is_long
}

/// Puts an event at its moment.
fn push(placed: &mut Vec<TimedEvent>, moment: u32, event: &TaskEvent) -> Result<(), AllocError> {
    placed.push(TimedEvent {
        moment,
        event: *event,
    })?;
    Ok(())
}

/// Notes the moment of an event as its file's last one.
fn advance(files: &mut Vec<u32>, moment: u32, event: &TaskEvent) {
    if !is_opening(event.source) {
        put(files, event.runqueue as usize, moment);
    }
}

/// The moments of events, in the order of the events: each is the least one, not before its fact's, at which its line
/// stands after the line before it in its file, and after its task's line before it in the order of all files.
/// It is refused with 54 for the first event that passes the limits.
pub(crate) fn place_all(
    alloc: Global,
    first: u64,
    runqueues: u32,
    tasks: usize,
    events: &[TaskEvent],
) -> Result<Vec<TimedEvent>, OrderFault> {
    let Ok(mut files) = Vec::from_elem(alloc, 0u32, runqueues as usize) else {
        return Err(OrderFault::NoMemory);
    };
    let Ok(mut places) = Vec::from_elem(alloc, NOWHERE, tasks) else {
        return Err(OrderFault::NoMemory);
    };
    let mut placed = Vec::new(alloc);
    for event in events {
        let runqueue = event.runqueue as usize;
        let place = at(&places, event.task, NOWHERE);
        let moment = moment_of(first, at(&files, runqueue, 0), place, event);
        if is_beyond(runqueues, moment, event) {
            return Err(OrderFault::TooLong { line: event.line });
        }
        let moment = moment as u32;
        if push(&mut placed, moment, event).is_err() {
            return Err(OrderFault::NoMemory);
        }
        advance(&mut files, moment, event);
        let place = EventPlace {
            moment,
            runqueue: event.runqueue,
        };
        put(&mut places, event.task, place);
    }
    Ok(placed)
}
