//! Why nothing of a record was compared.

ghost use Rattle.std.specs.Prelude.{◌≡◌, is_none};
ghost use Rattle.std.specs.List.{list_any};
ghost use Rattle.timer_verdict.specs.Numbers.{is_compared};

use crate::numbers::{is_answer, is_compared};
use timer_tasks::{Observation, ObservedAnswer};

/// How many blocks and replenishment timers are left out, and why.
#[derive(Clone, Copy)]
pub struct LeftOut {
    /// The task ends.
    pub ends: u64,

    /// Its budget and deadline are not known.
    pub unknown: u64,

    /// The kernel may have answered a wake either way.
    pub edges: u64,

    /// Lines are missing.
    pub gaps: u64,
}

/// How many observations come to an answer.
fn count(observations: &[Observation], answer: ObservedAnswer) -> u64 {
    observations.iter().filter(|o| is_answer(answer, o)).count() as u64
}

/// Whether one observation at least is compared.
fn has_compared(observations: &[Observation]) -> bool
    ensures { result ≡ list_any is_compared observations.now }
{
    observations.iter().any(|o| is_compared(o))
}

/// What is left out of a record of which not one block or timer is compared; none where one is.
pub fn left_out(observations: &[Observation]) -> Option<LeftOut>
    ensures { is_none result ≡ list_any is_compared observations.now }
{
    if has_compared(observations) {
        return None;
    }
    Some(LeftOut {
        ends: count(observations, ObservedAnswer::End),
        unknown: count(observations, ObservedAnswer::Unknown),
        edges: count(observations, ObservedAnswer::Edge),
        gaps: count(observations, ObservedAnswer::Gap),
    })
}
