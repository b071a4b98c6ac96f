//! A task leaves the class (`switched_from_dl`).

ghost use Rattle.std.specs.Prelude.{◌≡◌};
ghost use Rattle.kernel_rules.specs.Leave.{leaving_of, outside_of, contends_no_more, leaving_change};

use crate::{Block, Entity, QUEUED, SumsChange, blocked, blocking, blocking_change};

/// What leaving does.
#[derive(Clone, Copy)]
pub struct Leaving {
    pub entity: Entity,
    pub change: SumsChange,
    pub block: Option<Block>,
}

#[tactic(auto, unfolding(crate::specs::Leave::outside_of))]
fn outside(entity: Entity) -> Entity
    ensures { result ≡ outside_of entity }
{
    Entity {
        is_in_class: false,
        is_queued: false,
        ..entity
    }
}

#[tactic(auto, unfolding(crate::specs::Leave::contends_no_more))]
fn settled(entity: Entity) -> Entity
    ensures { result ≡ contends_no_more entity }
{
    Entity {
        is_non_contending: false,
        ..entity
    }
}

#[tactic(auto, unfolding(crate::specs::Leave::leaving_change))]
fn change(entity: Entity) -> SumsChange
    ensures { result ≡ leaving_change entity }
{
    let off = 0u64.wrapping_sub(entity.dl_bw);
    SumsChange {
        this_bw: off,
        running_bw: if entity.is_non_contending { off } else { 0 },
        freed: None,
        taken: None,
    }
}

/// What leaving the class at this clock does (`switched_from_dl`).
#[tactic(auto, unfolding(crate::specs::Leave::leaving_of))]
pub fn leave(entity: Entity, on_rq: u64, clock: u64) -> Leaving
    ensures { result ≡ leaving_of entity on_rq clock }
{
    let outside = outside(entity);
    if on_rq == QUEUED {
        let block = blocking(outside, clock);
        return Leaving {
            entity: settled(blocked(outside, block)),
            change: blocking_change(outside, block),
            block: Some(block),
        };
    }
    Leaving {
        entity: settled(outside),
        change: change(outside),
        block: None,
    }
}
