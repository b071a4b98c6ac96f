//! How many observations there are, and how far they lie from the kernel's timers.

ghost use Rattle.std.specs.Prelude.{◌≡◌, ◌==◌, IfOk, IsPermutation, IsSorted, count_by};
ghost use Rattle.std.specs.Ordering.{int_cmp};
ghost use Rattle.timer_verdict.specs.Numbers.{AreNumbers, at, comes_to_of, compared_of, differences_of, is_compared, is_compared_kind, is_kind, number_of};

use std::alloc::{AllocError, Global};
use timer_tasks::{Observation, ObservedAnswer, TimerKind};

/// Of the observations of one kind. Differences are nanoseconds.
#[derive(Clone, Copy)]
pub struct KindNumbers {
    pub all: u64,
    pub agree: u64,
    pub differ: u64,
    pub ends: u64,
    pub unknown: u64,
    pub edges: u64,
    pub gaps: u64,

    /// Of those that are compared; 0 where none is.
    pub least: i64,
    pub median: i64,
    pub high: i64,
    pub greatest: i64,
}

impl KindNumbers {
    /// How many are compared.
    pub fn compared(self) -> u64
        ensures { result ≡ compared_of self }
    {
        self.agree.saturating_add(self.differ)
    }
}

/// Whether it is compared.
pub(crate) fn is_compared(observation: &Observation) -> bool
    ensures { result ≡ is_compared observation.now }
{
    match observation.answer {
        ObservedAnswer::Agrees | ObservedAnswer::Differs => true,
        ObservedAnswer::End
        | ObservedAnswer::Unknown
        | ObservedAnswer::Edge
        | ObservedAnswer::Gap => false,
    }
}

/// Whether it is of this kind.
pub(crate) fn is_of(kind: TimerKind, observation: &Observation) -> bool
    ensures { result ≡ is_kind kind observation.now }
{
    match (kind, observation.kind) {
        (TimerKind::Block, TimerKind::Block) | (TimerKind::Replenish, TimerKind::Replenish) => true,
        (TimerKind::Block, TimerKind::Replenish) | (TimerKind::Replenish, TimerKind::Block) =>
            false,
    }
}

/// Answers by number.
fn number(answer: ObservedAnswer) -> u8
    ensures { result ≡ number_of answer }
{
    match answer {
        ObservedAnswer::Agrees => 0,
        ObservedAnswer::Differs => 1,
        ObservedAnswer::End => 2,
        ObservedAnswer::Unknown => 3,
        ObservedAnswer::Edge => 4,
        ObservedAnswer::Gap => 5,
    }
}

/// Whether an observation comes to an answer.
pub(crate) fn is_answer(answer: ObservedAnswer, observation: &Observation) -> bool
    ensures { result ≡ (number_of observation.now.answer == number_of answer) }
{
    number(observation.answer) == number(answer)
}

/// Whether an observation of a kind comes to an answer.
fn comes_to(kind: TimerKind, answer: ObservedAnswer, observation: &Observation) -> bool
    ensures { result ≡ comes_to_of kind answer observation.now }
{
    is_of(kind, observation) && is_answer(answer, observation)
}

/// How many observations of a kind there are.
fn count_all(observations: &[Observation], kind: TimerKind) -> u64
    ensures { result ≡ count_by (is_kind kind) observations.now }
{
    observations.iter().filter(|o| is_of(kind, o)).count() as u64
}

/// How many of them come to an answer.
fn count(observations: &[Observation], kind: TimerKind, answer: ObservedAnswer) -> u64
    ensures { result ≡ count_by (comes_to_of kind answer) observations.now }
{
    observations
        .iter()
        .filter(|o| comes_to(kind, answer, o))
        .count() as u64
}

/// Whether it is of this kind, and compared.
fn is_compared_kind(kind: TimerKind, observation: &Observation) -> bool
    ensures { result ≡ is_compared_kind kind observation.now }
{
    is_of(kind, observation) && is_compared(observation)
}

/// The differences of those of a kind that are compared.
fn differences(
    alloc: Global,
    observations: &[Observation],
    kind: TimerKind,
) -> Result<Vec<i64>, AllocError>
    ensures { IfOk result (λ ds. ds.items ≡ differences_of kind observations.now) }
{
    observations
        .iter()
        .filter(|o| is_compared_kind(kind, o))
        .map(|o| o.difference)
        .collect(alloc)
}

/// The differences from the least to the greatest.
fn sorted(mut differences: Vec<i64>) -> Vec<i64>
    ensures ascending { IsSorted int_cmp result.items }
    ensures same { IsPermutation differences.items result.items }
{
    differences.sort_unstable();
    differences
}

fn at(sorted: &[i64], place: usize) -> i64
    ensures { result ≡ at place sorted.now }
{
    sorted.get(place).copied().unwrap_or(0)
}

/// The numbers of the observations of one kind.
pub fn numbers_of(
    alloc: Global,
    observations: &[Observation],
    kind: TimerKind,
) -> Result<KindNumbers, AllocError>
    ensures { IfOk result (λ n. AreNumbers n kind observations.now) }
{
    let sorted = sorted(differences(alloc, observations, kind)?);
    let last = sorted.len().saturating_sub(1);
    Ok(KindNumbers {
        all: count_all(observations, kind),
        agree: count(observations, kind, ObservedAnswer::Agrees),
        differ: count(observations, kind, ObservedAnswer::Differs),
        ends: count(observations, kind, ObservedAnswer::End),
        unknown: count(observations, kind, ObservedAnswer::Unknown),
        edges: count(observations, kind, ObservedAnswer::Edge),
        gaps: count(observations, kind, ObservedAnswer::Gap),
        least: at(&sorted, 0),
        median: at(&sorted, sorted.len() / 2),
        high: at(&sorted, last - last / 100),
        greatest: at(&sorted, last),
    })
}
