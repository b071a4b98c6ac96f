//! What the deviations of a record look like.

use crate::numbers::is_of;
use timer_tasks::{Observation, ObservedAnswer, TimerKind};

/// What the deviations of a record look like.
#[derive(Clone, Copy)]
pub enum Cause {
    /// A sum is wrong: several tasks deviate, to one side.
    Sum,

    /// A budget is wrong: one task deviates, at block after block.
    Budget,

    /// A moment is late: the task's next block agrees.
    Moment,

    /// None of them.
    Mixed,
}

/// How the observations beside the first deviation are.
#[derive(Clone, Copy)]
struct Beside {
    /// Deviations of other tasks to its side, and to the other.
    same_side: u64,
    other_side: u64,

    /// The task's own further deviations.
    own: u64,

    /// What comes of the task's next block.
    next: Option<ObservedAnswer>,
}

fn is_deviation(answer: ObservedAnswer) -> bool {
    match answer {
        ObservedAnswer::Differs => true,
        ObservedAnswer::Agrees
        | ObservedAnswer::End
        | ObservedAnswer::Unknown
        | ObservedAnswer::Edge
        | ObservedAnswer::Gap => false,
    }
}

fn is_agreement(answer: Option<ObservedAnswer>) -> bool {
    match answer {
        Some(ObservedAnswer::Agrees) => true,
        _ => false,
    }
}

fn is_after(first: &Observation, observation: &Observation) -> bool {
    observation.line > first.line
}

fn next_of(
    first: &Observation,
    observation: &Observation,
    next: Option<ObservedAnswer>,
) -> Option<ObservedAnswer> {
    let is_next = next.is_none()
        && observation.task == first.task
        && is_of(TimerKind::Block, observation)
        && is_after(first, observation);
    if is_next {
        Some(observation.answer)
    } else {
        next
    }
}

fn more(count: u64, is_one: bool) -> u64 {
    if is_one {
        count.saturating_add(1)
    } else {
        count
    }
}

fn beside_with(first: &Observation, observation: &Observation, beside: Beside) -> Beside {
    let next = next_of(first, observation, beside.next);
    let differs = is_deviation(observation.answer) && is_after(first, observation);
    let is_own = observation.task == first.task;
    let is_same_side = (observation.difference < 0) == (first.difference < 0);
    Beside {
        same_side: more(beside.same_side, differs && !is_own && is_same_side),
        other_side: more(beside.other_side, differs && !is_own && !is_same_side),
        own: more(beside.own, differs && is_own),
        next,
    }
}

fn beside_of(first: &Observation, observations: &[Observation]) -> Beside {
    let mut beside = Beside {
        same_side: 0,
        other_side: 0,
        own: 0,
        next: None,
    };
    for observation in observations {
        beside = beside_with(first, observation, beside);
    }
    beside
}

/// What the deviations of a record look like, whose first is this.
pub fn cause_of(first: &Observation, observations: &[Observation]) -> Cause {
    let beside = beside_of(first, observations);
    if beside.same_side > 0 && beside.other_side <= beside.same_side / 8 {
        Cause::Sum
    } else if is_agreement(beside.next) {
        Cause::Moment
    } else if beside.own > 0 && beside.same_side == 0 && beside.other_side == 0 {
        Cause::Budget
    } else {
        Cause::Mixed
    }
}
