//! What a wake does, and whether the kernel may have answered otherwise.

ghost use Rattle.std.specs.Prelude.{◌≡◌};
ghost use Rattle.timer_tasks.specs.Wakes.{awakened_by, differs_between_of, differs_within_of, is_edge_of, is_sure_since, is_tested_of, kind_of, known_after_by, tested_by, waits_of, waking_by};

use crate::activity::{Knowledge, is_known, is_unseen};
use crate::task::DeadlineTask;
use crate::throttle::{is_constrained, waiting};
use kernel_rules::{ChargeLaw, Entity, Wake, is_before, renewed, waking, woken};

/// What a wake does.
#[derive(Clone, Copy)]
pub enum Waking {
    /// It is throttled already, and stays so.
    StaysThrottled,

    /// Its deadline is over and its next period not begun: it waits for that (`dl_check_constrained_dl`).
    Waits,

    /// Nothing is known of its budget and deadline, and this wake does not tell.
    Guessed,

    /// A new period begins, whatever budget and deadline were.
    Sure,

    /// What the kernel's test says (`update_dl_entity`).
    Tested(Wake),
}

/// So far the clock of a wake may be off.
const CLOCK_SLACK: u64 = 1_000;

/// And so far where the wake is near to the deadline.
const DEADLINE_SLACK: u64 = 2_000;

/// Whether a task wakes between its deadline and its next period (`dl_check_constrained_dl`).
fn waits(entity: Entity, clock: u64) -> bool
    ensures { result ≡ waits_of entity clock }
{
    let next = entity
        .budget
        .deadline
        .wrapping_sub(entity.parameters.dl_deadline)
        .wrapping_add(entity.parameters.dl_period);
    is_constrained(entity) && is_before(entity.budget.deadline, clock) && is_before(clock, next)
}

/// What the kernel's rules say of a wake at this clock.
fn tested(law: ChargeLaw, entity: Entity, clock: u64) -> Waking
    ensures { result ≡ tested_by law entity clock }
{
    if waits(entity, clock) {
        Waking::Waits
    } else {
        Waking::Tested(waking(law, entity, clock))
    }
}

/// Whether a wake begins a new period whatever budget and deadline were: the 0-lag time after the last block has come, and the period ends
/// with the deadline; or a period has passed since that block; or, of a task that was not seen, since the record began.
fn is_sure(task: DeadlineTask, begins: u64, clock: u64) -> bool
    ensures { result ≡ is_sure_since task.blocked task begins clock }
{
    let period = task.entity.parameters.dl_period;
    match task.blocked {
        Some(blocked) => {
            task.is_lag_over && !is_constrained(task.entity)
                || clock.saturating_sub(blocked) > period
        }
        None => is_unseen(task.knowledge) && clock.saturating_sub(begins) >= period,
    }
}

/// What a wake at this clock does to a task of a record that begins then.
pub fn waking_of(law: ChargeLaw, task: DeadlineTask, begins: u64, clock: u64) -> Waking
    ensures { result ≡ waking_by law task begins clock }
{
    if task.entity.budget.is_throttled {
        Waking::StaysThrottled
    } else if is_known(task.knowledge) {
        tested(law, task.entity, clock)
    } else if is_sure(task, begins, clock) {
        Waking::Sure
    } else {
        Waking::Guessed
    }
}

/// Whether the kernel's test was made.
pub fn is_tested(waking: Waking) -> bool
    ensures { result ≡ is_tested_of waking }
{
    match waking {
        Waking::Tested(_) | Waking::Waits => true,
        Waking::StaysThrottled | Waking::Guessed | Waking::Sure => false,
    }
}

/// A number of each answer of the test.
fn kind(waking: Waking) -> u8
    ensures { result ≡ kind_of waking }
{
    match waking {
        Waking::Tested(Wake::Kept) => 0,
        Waking::Tested(Wake::Revised) => 1,
        Waking::Tested(Wake::Renewed) => 2,
        Waking::Waits => 3,
        Waking::StaysThrottled | Waking::Guessed | Waking::Sure => 4,
    }
}

/// Whether the rules say otherwise at these two clocks.
#[tactic(auto, unfolding(crate::specs::Wakes::differs_between_of))]
fn differs_between(law: ChargeLaw, entity: Entity, one: u64, other: u64) -> bool
    ensures { result ≡ differs_between_of law entity one other }
{
    kind(tested(law, entity, one)) != kind(tested(law, entity, other))
}

/// Whether the rules say otherwise of a clock that lies so far before or after.
fn differs_within(law: ChargeLaw, entity: Entity, clock: u64, slack: u64) -> bool
    ensures { result ≡ differs_within_of law entity clock slack }
{
    differs_between(law, entity, clock.saturating_sub(slack), clock)
        || differs_between(law, entity, clock.saturating_add(slack), clock)
}

/// Whether the kernel may have answered a wake otherwise, since its clock is not known to the nanosecond.
pub fn is_edge(law: ChargeLaw, entity: Entity, clock: u64) -> bool
    ensures { result ≡ is_edge_of law entity clock }
{
    differs_within(law, entity, clock, CLOCK_SLACK)
        || entity.budget.deadline.abs_diff(clock) <= DEADLINE_SLACK
            && differs_within(law, entity, clock, DEADLINE_SLACK)
}

/// The entity after a wake.
pub(crate) fn awakened(entity: Entity, clock: u64, waking: Waking) -> Entity
    ensures { result ≡ awakened_by entity clock waking }
{
    match waking {
        Waking::StaysThrottled => entity,
        Waking::Waits => waiting(entity),
        Waking::Guessed | Waking::Sure => renewed(entity, clock),
        Waking::Tested(wake) => woken(entity, clock, wake),
    }
}

/// What is known of a task after a wake.
pub(crate) fn known_after(knowledge: Knowledge, waking: Waking, is_edge: bool) -> Knowledge
    ensures { result ≡ known_after_by knowledge waking is_edge }
{
    match waking {
        Waking::Sure => Knowledge::Known,
        Waking::Guessed | Waking::StaysThrottled => {
            if is_unseen(knowledge) {
                Knowledge::Unknown
            } else {
                knowledge
            }
        }
        Waking::Tested(_) | Waking::Waits => { if is_edge { Knowledge::Edge } else { knowledge } }
    }
}
