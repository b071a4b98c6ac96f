//! When a task was on a runqueue, and in which state.

use grub_book::{Place, Reply, State};
use grub_plan::Answer;
use grub_timeline::{Change, Step};
use std::alloc::{AllocError, Global};
use svg::{Bar, Frame};

/// A bar that has begun and not ended.
#[derive(Clone, Copy)]
struct Begun {
    state: State,
    from: u32,
}

/// The bars of a task on runqueue `r` up to the end of a picture, by the task's own steps. Neighbours of one state are
/// one bar. It is refused where the allocator refused.
pub fn bars_of(alloc: Global, r: u32, own: &[Step], frame: Frame) -> Result<Vec<Bar>, AllocError> {
    let mut bars = Vec::new(alloc);
    let mut current: Option<Begun> = None;
    for x in own {
        let next = state_on(r, x.change);
        push_ended(&mut bars, current, next, x.told.entry.m)?;
        current = begun_after(current, next, x.told.entry.m);
    }
    push_last(&mut bars, current, frame.to)?;
    Ok(bars)
}

/// Ends a bar where the task comes to another state.
fn push_ended(
    bars: &mut Vec<Bar>,
    current: Option<Begun>,
    next: Option<State>,
    m: u32,
) -> Result<(), AllocError> {
    let Some(Begun { state, from }) = current else {
        return Ok(());
    };
    if is_still(state, next) {
        return Ok(());
    }
    bars.push(Bar { state, from, to: m })?;
    Ok(())
}

/// Ends the last bar.
fn push_last(bars: &mut Vec<Bar>, current: Option<Begun>, end: u32) -> Result<(), AllocError> {
    if let Some(Begun { state, from }) = current {
        bars.push(Bar {
            state,
            from,
            to: end,
        })?;
    }
    Ok(())
}

/// The bar that goes on or begins where the task comes to a state.
fn begun_after(current: Option<Begun>, next: Option<State>, m: u32) -> Option<Begun> {
    match current {
        Some(begun) => {
            if is_still(begun.state, next) {
                Some(begun)
            } else {
                opened(next, m)
            }
        }
        None => opened(next, m),
    }
}

fn opened(state: Option<State>, m: u32) -> Option<Begun> {
    Some(Begun {
        state: state?,
        from: m,
    })
}

fn is_still(state: State, next: Option<State>) -> bool {
    match next {
        Some(now) => is_state(state, now),
        None => false,
    }
}

fn is_state(a: State, b: State) -> bool {
    match a {
        State::Contending => match b {
            State::Contending => true,
            State::NonContending | State::Inactive => false,
        },
        State::NonContending => match b {
            State::NonContending => true,
            State::Contending | State::Inactive => false,
        },
        State::Inactive => match b {
            State::Inactive => true,
            State::Contending | State::NonContending => false,
        },
    }
}

/// The state of a task on runqueue `r` after a step of its own.
fn state_on(r: u32, change: Option<Change>) -> Option<State> {
    state_at(r, change?.place)
}

fn state_at(r: u32, place: Place) -> Option<State> {
    match place {
        Place::On(s, state) => { if s == r { Some(state) } else { None } }
        Place::Away | Place::Gone => None,
    }
}

/// Whether one of the bars lies in the span of a picture, if only in part.
pub(crate) fn are_seen(frame: Frame, bars: &[Bar]) -> bool {
    for bar in bars {
        if is_seen(frame, *bar) {
            return true;
        }
    }
    false
}

fn is_seen(frame: Frame, bar: Bar) -> bool {
    bar.from <= frame.to && frame.from <= bar.to
}

/// The deadline that a step of runqueue `r` postponed to.
pub(crate) fn postponed(r: u32, x: &Step) -> Option<u32> {
    if x.queue != r {
        return None;
    }
    match x.told.entry.answer {
        Answer::Replied(Reply::Charged { k, d, .. }) => { if k > 0 { Some(d) } else { None } }
        _ => None,
    }
}
