//! From the facts of a trace to events at their moments.

use crate::event::TimedEvent;
use crate::order::{OrderFault, place_all};
use crate::rules::events_of;
use convert_facts::{Fact, What};
use std::alloc::Global;

/// The moment of the first wake, in nanoseconds; 0 where there is none.
fn first_wake(facts: &[Fact]) -> u64 {
    for fact in facts {
        if matches!(fact.what, What::Wakes { .. }) {
            return fact.at;
        }
    }
    0
}

/// The events that the facts of so many tasks tell, on so many runqueues, at their moments and in the order of the facts.
/// It is refused with 54 for the first event that passes the limits of event files, or that names no runqueue.
pub fn place_facts(
    alloc: Global,
    runqueues: u32,
    tasks: usize,
    facts: &[Fact],
) -> Result<Vec<TimedEvent>, OrderFault> {
    let Ok(events) = events_of(alloc, tasks, facts) else {
        return Err(OrderFault::NoMemory);
    };
    place_all(alloc, first_wake(facts), runqueues, tasks, &events)
}
