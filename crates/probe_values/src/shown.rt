//! What a line makes known of an entity.

ghost use Rattle.std.specs.Prelude.{◌≡◌};
ghost use Rattle.probe_values.specs.Shown.{enqueued_shown, keeps_new, dequeued_shown, left_shown, contending_shown, yielded_by};

use kernel_rules::{Entity, has};
use probe_run::{Actor, reserve};
use trace_data::{Budget, Dequeued, Enqueued, LeftClass};

/// TASK_DEAD.
const DEAD: u64 = 128;

/// What the line of an enqueue makes known.
pub fn shown_enqueued(actor: Actor, line: Enqueued) -> Actor
    ensures { result ≡ enqueued_shown actor line }
{
    Actor {
        entity: Entity {
            budget: line.budget,
            is_non_contending: line.is_non_contending,
            ..reserve(actor.entity, line.parameters)
        },
        knows_budget: true,
        knows_parameters: true,
        knows_contending: true,
        cpu: line.cpu,
        address: Some(line.entity),
        ..actor
    }
}

/// New parameters wait on where the enqueue stands in a dequeue.
pub fn with_new_parameters(within: bool, actor: Actor, shown: Actor) -> Actor
    ensures { result ≡ keeps_new within actor shown }
{
    if within {
        Actor {
            entity: Entity {
                new_parameters: actor.entity.new_parameters,
                ..shown.entity
            },
            ..shown
        }
    } else {
        shown
    }
}

/// What the line of a dequeue makes known.
pub fn shown_dequeued(actor: Actor, line: Dequeued) -> Actor
    ensures { result ≡ dequeued_shown actor line }
{
    Actor {
        entity: Entity {
            budget: line.budget,
            is_non_contending: line.is_non_contending,
            is_in_class: true,
            is_dead: has(line.state, DEAD),
            is_in_tree: if actor.knows_budget {
                actor.entity.is_in_tree
            } else {
                line.current == line.pid && !line.budget.is_throttled
            },
            ..actor.entity
        },
        knows_budget: true,
        knows_contending: true,
        cpu: line.cpu,
        ..actor
    }
}

/// What the line of a task that leaves the class makes known.
pub fn shown_left(actor: Actor, line: LeftClass) -> Actor
    ensures { result ≡ left_shown actor line }
{
    Actor {
        entity: Entity {
            budget: Budget {
                runtime: line.runtime,
                deadline: line.deadline,
                ..actor.entity.budget
            },
            is_non_contending: line.is_non_contending,
            ..actor.entity
        },
        knows_budget: true,
        knows_contending: true,
        cpu: line.cpu,
        ..actor
    }
}

/// Whether an entity contends, as its line shows.
pub fn shown_contending(actor: Actor, shown: bool) -> Actor
    ensures { result ≡ contending_shown actor shown }
{
    Actor {
        entity: Entity {
            is_non_contending: shown,
            ..actor.entity
        },
        knows_contending: true,
        ..actor
    }
}

/// The task called sched_yield(2): an input.
pub fn with_yield(actor: Actor, yields: bool) -> Actor
    ensures { result ≡ yielded_by actor yields }
{
    if yields {
        Actor {
            entity: Entity {
                budget: Budget {
                    is_yielded: true,
                    ..actor.entity.budget
                },
                ..actor.entity
            },
            ..actor
        }
    } else {
        actor
    }
}
