//! Contending and not: what a block and a wake do to the bandwidth that runs.

ghost use Rattle.std.specs.Prelude.{◌≡◌};
ghost use Rattle.kernel_rules.specs.Activity.{zero_lag_of, blocking_of, blocked_of, blocking_change_of, contending_of, contended_of, contending_change_of, running_again_of, ends_of};

use crate::clock::quotient;
use crate::entity::Entity;
use crate::flags::{MIGRATED, has};
use crate::reservation::cleared;
use crate::sums::{SumsChange, unchanged};

/// What a block comes to.
#[derive(Clone, Copy, PartialEq, Eq)]
pub enum Block {
    /// Nothing is reserved.
    Unreserved,

    /// Its bandwidth runs on until the 0-lag time, so many nanoseconds from now.
    ZeroLagTimer(i64),

    /// The 0-lag time is past: its bandwidth runs no more.
    Past,
}

/// What a wake comes to.
#[derive(Clone, Copy, PartialEq, Eq)]
pub enum Contention {
    /// Nothing is reserved.
    Unreserved,

    /// Before its 0-lag time: its bandwidth still runs.
    StillRuns,

    /// After its 0-lag time: its bandwidth runs again.
    RunsAgain,
}

/// The 0-lag time from this clock on, in nanoseconds (`task_non_contending`).
#[tactic(auto, unfolding(crate::specs::Activity::zero_lag_of))]
pub fn zero_lag(entity: Entity, clock: u64) -> i64
    ensures { result ≡ zero_lag_of entity clock }
{
    let parameters = entity.parameters;
    let work = entity
        .budget
        .runtime
        .wrapping_mul(parameters.dl_period.cast_signed());
    let span = quotient(work, parameters.dl_runtime);
    entity
        .budget
        .deadline
        .wrapping_sub(span.cast_unsigned())
        .wrapping_sub(clock)
        .cast_signed()
}

/// What a block at this clock comes to (`task_non_contending`).
#[tactic(auto, unfolding(crate::specs::Activity::blocking_of))]
pub fn blocking(entity: Entity, clock: u64) -> Block
    ensures { result ≡ blocking_of entity clock }
{
    if entity.parameters.dl_runtime == 0 {
        return Block::Unreserved;
    }
    let zero_lag = zero_lag(entity, clock);
    if zero_lag >= 0 && !entity.has_inactive_timer {
        Block::ZeroLagTimer(zero_lag)
    } else {
        Block::Past
    }
}

/// Whether the reservation ends with a block: of a task that has left the class, or has ended.
fn ends(entity: Entity) -> bool
    ensures { result ≡ ends_of entity }
{
    !entity.is_server && (!entity.is_in_class || entity.is_dead)
}

/// The entity after such a block.
pub fn blocked(entity: Entity, block: Block) -> Entity
    ensures { result ≡ blocked_of entity block }
{
    match block {
        Block::Unreserved => entity,
        Block::ZeroLagTimer(_) => Entity {
            is_non_contending: true,
            has_inactive_timer: true,
            ..entity
        },
        Block::Past => {
            if ends(entity) {
                cleared(entity)
            } else {
                entity
            }
        }
    }
}

/// What such a block does to the sums, by the entity before it.
pub fn blocking_change(entity: Entity, block: Block) -> SumsChange
    ensures { result ≡ blocking_change_of entity block }
{
    match block {
        Block::Unreserved | Block::ZeroLagTimer(_) => unchanged(),
        Block::Past => {
            let off = 0u64.wrapping_sub(entity.dl_bw);
            let has_run = entity.is_server || entity.is_in_class;
            let has_ended = ends(entity);
            SumsChange {
                this_bw: if has_ended && entity.is_dead { off } else { 0 },
                running_bw: if has_run { off } else { 0 },
                freed: if has_ended { Some(entity.dl_bw) } else { None },
                taken: None,
            }
        }
    }
}

/// What a wake comes to (`task_contending`).
#[tactic(auto, unfolding(crate::specs::Activity::contending_of))]
pub fn contending(entity: Entity) -> Contention
    ensures { result ≡ contending_of entity }
{
    if entity.parameters.dl_runtime == 0 {
        Contention::Unreserved
    } else if entity.is_non_contending {
        Contention::StillRuns
    } else {
        Contention::RunsAgain
    }
}

/// The entity after such a wake.
pub fn contended(entity: Entity, contention: Contention) -> Entity
    ensures { result ≡ contended_of entity contention }
{
    match contention {
        Contention::Unreserved | Contention::RunsAgain => entity,
        Contention::StillRuns => Entity {
            is_non_contending: false,
            has_inactive_timer: false,
            ..entity
        },
    }
}

/// What such a wake with these ENQUEUE_ flags does to the sums, by the entity before it.
pub fn contending_change(entity: Entity, flags: u64, contention: Contention) -> SumsChange
    ensures { result ≡ contending_change_of entity flags contention }
{
    match contention {
        Contention::Unreserved => unchanged(),
        Contention::StillRuns | Contention::RunsAgain => SumsChange {
            this_bw: if has(flags, MIGRATED) {
                entity.dl_bw
            } else {
                0
            },
            running_bw: running_again(entity, contention),
            freed: None,
            taken: None,
        },
    }
}

/// The bandwidth that runs again.
fn running_again(entity: Entity, contention: Contention) -> u64
    ensures { result ≡ running_again_of entity contention }
{
    match contention {
        Contention::Unreserved | Contention::StillRuns => 0,
        Contention::RunsAgain => entity.dl_bw,
    }
}
