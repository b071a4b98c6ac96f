//! Pending effects as amounts, and the smallest set of them that gives a value.

use kernel_changes::lock_by;
use kernel_rules::{Delayed, Entity, Locked, share};
use probe_findings::{Amount, PickedEffects, pick};
use probe_run::{Effect, PendingEffect, PlayRules, Run, UnlockedSum, moves_offline};
use std::alloc::{AllocError, Global};

/// At most so many pending effects are looked at together.
const MOST: usize = 32;

/// Pending effects that may explain a value.
#[derive(Drop)]
pub(crate) struct Candidates {
    amounts: Vec<Amount>,

    /// Where each stands in `Run::pending`.
    places: Vec<usize>,
}

impl Candidates {
    pub fn new(alloc: Global) -> Candidates {
        Candidates {
            amounts: Vec::new(alloc),
            places: Vec::new(alloc),
        }
    }

    pub fn clear(&mut self) {
        self.amounts.clear();
        self.places.clear();
    }

    pub fn add(&mut self, place: usize, amount: Amount) -> Result<(), AllocError> {
        if self.amounts.len() < MOST {
            self.amounts.push(amount)?;
            self.places.push(place)?;
        }
        Ok(())
    }

    /// The first effect of the smallest set that adds up to what is wanted, of equal ones the first in the order of lines.
    pub fn first_of(&self, wanted: Amount) -> Option<usize> {
        match pick(self.amounts.as_slice(), wanted) {
            Some(picked) => self.first_place(&picked),
            None => None,
        }
    }

    fn first_place(&self, picked: &PickedEffects) -> Option<usize> {
        for (rank, place) in self.places.iter().enumerate() {
            if picked.contains(rank) {
                return Some(*place);
            }
        }
        None
    }

    /// The first effect that does anything.
    pub fn first_with_amount(&self) -> Option<usize> {
        for (amount, place) in self.amounts.iter().zip(self.places.as_slice()) {
            if amount.this_bw != 0 || amount.running_bw != 0 {
                return Some(*place);
            }
        }
        None
    }
}

/// Whether these are one sum.
pub(crate) fn is_same(one: UnlockedSum, other: UnlockedSum) -> bool {
    match (one, other) {
        (UnlockedSum::ExtraBw(cpu), UnlockedSum::ExtraBw(of)) => cpu == of,
        (UnlockedSum::TotalBw(number), UnlockedSum::TotalBw(of)) => number == of,
        _ => false,
    }
}

/// Whether the reservation of this entity ends at its 0-lag time: its task has left the class, or has ended.
pub(crate) fn is_gone(entity: Entity) -> bool {
    !entity.is_server && (!entity.is_in_class || entity.is_dead)
}

/// What a function does to the sums of a runqueue, where it has its lock now; none where that is not known.
pub(crate) fn locked(
    run: &Run,
    rules: PlayRules,
    entity: usize,
    delayed: Delayed,
) -> Option<Locked> {
    let actor = run.actor(entity);
    if actor.knows_contending {
        Some(lock_by(rules.change, actor.entity, delayed))
    } else {
        None
    }
}

/// What it does to `this_bw` and `running_bw`.
pub(crate) fn lock_amount(
    run: &Run,
    rules: PlayRules,
    entity: usize,
    delayed: Delayed,
) -> Option<Amount> {
    match locked(run, rules, entity, delayed) {
        Some(done) => Some(Amount {
            this_bw: done.change.this_bw,
            running_bw: done.change.running_bw,
        }),
        None => None,
    }
}

/// What a pending effect adds to a sum that is changed without its lock: what an `inactive_task_timer` is about to give back too.
pub(crate) fn unlocked_amount(
    run: &Run,
    rules: PlayRules,
    pending: &PendingEffect,
    sum: UnlockedSum,
) -> Option<u64> {
    match pending.effect {
        Effect::Adds { sum: of, amount } => { if is_same(sum, of) { Some(amount) } else { None } }
        Effect::Locks {
            entity,
            delayed: Delayed::ZeroLag,
            ..
        } => amount_to_come(run, rules, entity, sum),
        Effect::Locks { .. } | Effect::Returns { .. } | Effect::MovesOffline => None,
    }
}

/// What an `inactive_task_timer` of this entity is about to add to a sum.
fn amount_to_come(run: &Run, rules: PlayRules, entity: usize, sum: UnlockedSum) -> Option<u64> {
    let freed = locked(run, rules, entity, Delayed::ZeroLag)?.change.freed?;
    let number = run.domain_of(run.actor(entity).cpu)?;
    match sum {
        UnlockedSum::TotalBw(of) => {
            if of == number {
                Some(0u64.wrapping_sub(freed))
            } else {
                None
            }
        }
        UnlockedSum::ExtraBw(cpu) => {
            if run.domain_of(cpu)? == number {
                Some(share(freed, members(run, number)))
            } else {
                None
            }
        }
    }
}

/// How many CPUs a root domain has.
fn members(run: &Run, number: u64) -> u64 {
    run.processors()
        .iter()
        .filter(|one| one.is_active && one.domain == Some(number))
        .count() as u64
}

/// The first pending effect of a call of this CPU that comes before its next line.
pub(crate) fn first_by(run: &Run, cpu: u32) -> Option<usize> {
    run.pending()
        .iter()
        .position(|one| one.place.cpu == cpu && !moves_offline(one.effect))
}
