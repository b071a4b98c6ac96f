//! A task has run (`update_curr_dl_se`).

ghost use Rattle.std.specs.Prelude.{◌≡◌};
ghost use Rattle.kernel_rules.specs.Spend.{spending_of, throttled_of, is_spent};

use crate::{Entity, has_timer_ahead};
use trace_data::Budget;

/// What becomes of an entity that was charged.
#[derive(Clone, Copy, PartialEq, Eq)]
pub enum Spent {
    /// It runs on.
    RunsOn,

    /// Its budget is used up.
    Throttled,

    /// It gave up what is left (sched_yield(2)).
    Yielded,
}

/// What a charge does after it was taken from the budget.
#[derive(Clone, Copy)]
pub struct Spending {
    pub entity: Entity,
    pub spent: Spent,

    /// `dl_task_timer` is to be armed.
    pub starts_timer: bool,

    /// It is replenished at once: an enqueue with ENQUEUE_REPLENISH follows.
    pub is_enqueued_again: bool,
}

#[tactic(auto, unfolding(crate::specs::Spend::is_spent))]
fn spending_state(entity: Entity, has_run: bool) -> Spent
    ensures { result ≡ is_spent entity has_run }
{
    let budget = entity.budget;
    if !has_run && !budget.is_yielded {
        Spent::RunsOn
    } else if budget.runtime <= 0 {
        Spent::Throttled
    } else if budget.is_yielded {
        Spent::Yielded
    } else {
        Spent::RunsOn
    }
}

#[tactic(auto, unfolding(crate::specs::Spend::throttled_of))]
fn throttled(entity: Entity, starts: bool) -> Entity
    ensures { result ≡ throttled_of entity starts }
{
    Entity {
        budget: Budget {
            is_throttled: true,
            ..entity.budget
        },
        is_in_tree: false,
        has_deadline_timer: entity.has_deadline_timer || starts,
        ..entity
    }
}

/// What becomes of an entity that was charged at this clock (`update_curr_dl_se`).
#[tactic(auto, unfolding(crate::specs::Spend::spending_of))]
pub fn spend(entity: Entity, clock: u64, has_run: bool) -> Spending
    ensures { result ≡ spending_of entity clock has_run }
{
    let spent = spending_state(entity, has_run);
    if spent == Spent::RunsOn {
        return Spending {
            entity,
            spent,
            starts_timer: false,
            is_enqueued_again: false,
        };
    }
    let waits = entity.donor.is_none() && has_timer_ahead(entity, clock);
    Spending {
        entity: throttled(entity, waits),
        spent,
        starts_timer: waits && !entity.has_deadline_timer,
        is_enqueued_again: !waits,
    }
}
