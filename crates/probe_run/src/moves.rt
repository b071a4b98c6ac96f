//! Moves that a search may choose: each is made where its premise holds, and counted as a deviation else.

ghost use Rattle.std.specs.Prelude.{◌≡◌, ◌<◌, None, OnOk, IfSome, length, position, slice_get};
ghost use Rattle.std.specs.List.{list_any};
ghost use Rattle.probe_run.specs.Runs.{state_of};
ghost use Rattle.probe_run.specs.Counting.{Goes, Holds};
ghost use Rattle.probe_run.specs.Sums.{sum_of, put_sum, moved};
ghost use Rattle.probe_run.specs.Handlers.{is_handler_by};
ghost use Rattle.probe_run.specs.Moves.{is_claim_by, reads_first, is_moved, forgets_unknown, kept_locked, changed_and_shared, locked_by, settled_by, settle_of, agrees_with, without_claim, met_with, met_by, meet_of, moved_of};

use crate::actor::Actor;
use crate::counting::ComparedValue;
use crate::handlers::has_handler;
use crate::notes::Counted;
use crate::rules::PlayRules;
use crate::run::Run;
use crate::sums::moved_by;
use crate::waiting::{Claim, Effect, PendingEffect, UnlockedSum, is_same_sum};
use kernel_changes::lock_by;
use kernel_rules::{Delayed, Entity, SumsChange};
use probe_findings::{ExactValue, ProbedLine, Quantity, Why};
use std::alloc::AllocError;

/// What a search may choose before a line.
#[derive(Clone, Copy)]
pub enum RunMove {
    /// The pending effect of this place in `Run::pending` has its point here.
    Settle(usize),

    /// What this CPU read first of what it has read has its point here.
    Meet(u32),

    /// The rest of the dequeue of this CPU comes here.
    OpenDequeue(u32),
}

fn claim_place(claims: &[Claim], by: u32) -> Option<usize>
    ensures place { result ≡ position (is_claim_by by) claims.now }
    ensures bound { IfSome result (λ place. place < length claims.now) }
{
    claims.iter().position(|one| one.place.cpu == by)
}

fn is_read_first(claims: &[Claim], by: u32, sum: UnlockedSum) -> bool
    ensures { result ≡ list_any (reads_first by sum) claims.now }
{
    claims
        .iter()
        .any(|one| one.place.cpu == by && is_same_sum(one.sum, sum))
}

fn is_moved(delayed: Delayed) -> bool
    ensures { result ≡ is_moved delayed }
{
    match delayed {
        Delayed::Moved => true,
        Delayed::ZeroLag => false,
    }
}

/// Whether what is known of a value is this; what is not known is any.
pub fn is_known_as(known: Option<u64>, value: u64) -> bool
    ensures { result ≡ agrees_with known value }
{
    match known {
        Some(known) => known == value,
        None => true,
    }
}

fn counted(sum: UnlockedSum) -> Counted {
    match sum {
        UnlockedSum::ExtraBw(cpu) => Counted::ExtraBw(cpu),
        UnlockedSum::TotalBw(number) => Counted::TotalBw(number),
    }
}

fn quantity(sum: UnlockedSum) -> Quantity {
    match sum {
        UnlockedSum::ExtraBw(_) => Quantity::ExtraBw,
        UnlockedSum::TotalBw(_) => Quantity::TotalBw,
    }
}

impl Run {
    fn forget_unknown(&mut self, cpu: u32, actor: Actor, delayed: Delayed) -> Result<(), AllocError>
        ensures state { OnOk result (state_of self.new
            ≡ forgets_unknown (state_of self.old) cpu actor delayed) }
        ensures first { OnOk result ((state_of self.new).first ≡ (state_of self.old).first) }
    {
        if is_moved(delayed) || actor.knows_contending {
            Ok(())
        } else {
            self.forget(cpu)
        }
    }

    fn keep_locked(
        &mut self,
        cpu: u32,
        number: usize,
        actor: Actor,
        delayed: Delayed,
        entity: Entity,
    ) -> Result<(), AllocError>
        ensures state { OnOk result (state_of self.new
            ≡ kept_locked (state_of self.old) cpu number actor delayed entity) }
        ensures first { OnOk result ((state_of self.new).first ≡ (state_of self.old).first) }
    {
        self.forget_unknown(cpu, actor, delayed)?;
        self.keep(
            number,
            Actor {
                entity,
                knows_contending: true,
                ..actor
            },
        );
        Ok(())
    }

    fn change_and_share(
        &mut self,
        place: ProbedLine,
        cpu: u32,
        of: u32,
        change: SumsChange,
    ) -> Result<(), AllocError>
        ensures state { OnOk result (state_of self.new
            ≡ changed_and_shared (state_of self.old) place cpu of change) }
        ensures first { OnOk result ((state_of self.new).first ≡ (state_of self.old).first) }
    {
        self.change(cpu, change)?;
        self.share(place, of, change)
    }

    /// A function has its lock.
    fn lock(
        &mut self,
        rules: PlayRules,
        place: ProbedLine,
        cpu: u32,
        number: usize,
        delayed: Delayed,
    ) -> Result<(), AllocError>
        ensures state { OnOk result (rules.change ≡ None → state_of self.new
            ≡ locked_by (state_of self.old) place cpu number delayed) }
        ensures first { OnOk result ((state_of self.new).first ≡ (state_of self.old).first) }
    {
        let actor = self.actor(number);
        let done = lock_by(rules.change, actor.entity, delayed);
        self.keep_locked(cpu, number, actor, delayed, done.entity)?;
        self.change_and_share(place, cpu, actor.cpu, done.change)?;
        Ok(())
    }

    fn add(&mut self, place: ProbedLine, sum: UnlockedSum, amount: u64) -> Result<(), AllocError>
        ensures state { OnOk result (state_of self.new
            ≡ put_sum (state_of self.old) sum (moved (sum_of (state_of self.old) sum) amount)) }
        ensures first { OnOk result ((state_of self.new).first ≡ (state_of self.old).first) }
    {
        let known = self.sum(sum);
        self.put_sum(sum, moved_by(known, amount))?;
        let rule = self.rule_of(place.line);
        self.note(
            counted(sum),
            Why {
                line: place.line,
                event: place.event,
                rule,
            },
        )
    }

    fn make_effect(
        &mut self,
        rules: PlayRules,
        place: ProbedLine,
        effect: Effect,
    ) -> Result<(), AllocError>
        ensures { OnOk result (rules.change ≡ None
            → Goes (state_of self.old) (settled_by (state_of self.old) place effect) (state_of self.new)) }
    {
        match effect {
            Effect::Adds { sum, amount } => {
                let is_legal = !is_read_first(self.claims.as_slice(), place.cpu, sum);
                self.allow(place, is_legal)?;
                self.add(place, sum, amount)
            }
            Effect::Locks {
                cpu,
                entity,
                delayed,
            } => self.lock(rules, place, cpu, entity, delayed),
            Effect::Returns { entity } => {
                let is_legal = !has_handler(self.pending.as_slice(), place.cpu, entity);
                self.allow(place, is_legal)
            }
            Effect::MovesOffline => {
                self.forget_unlocked();
                Ok(())
            }
        }
    }

    /// A pending effect has its point here.
    fn settle(&mut self, rules: PlayRules, place: ProbedLine, k: usize) -> Result<(), AllocError>
        ensures { OnOk result (rules.change ≡ None
            → Goes (state_of self.old) (settle_of (state_of self.old) k) (state_of self.new)) }
    {
        if k < self.pending.len() {
            let pending = self.pending.remove(k);
            self.make_effect(rules, pending.place, pending.effect)
        } else {
            self.refuse(place)
        }
    }

    fn compare_claim(&mut self, claim: Claim) -> Result<(), AllocError>
        ensures { OnOk result (Holds (state_of self.old)
            (agrees_with (sum_of (state_of self.old) claim.sum) claim.value) (state_of self.new)) }
    {
        match self.sum(claim.sum) {
            None => Ok(()),
            Some(known) => self.count(
                claim.place,
                ComparedValue {
                    of: counted(claim.sum),
                    quantity: quantity(claim.sum),
                    rules: ExactValue::Unsigned(known),
                    kernel: ExactValue::Unsigned(claim.value),
                },
                known == claim.value,
            ),
        }
    }

    fn meet_claim(&mut self, claim: Claim) -> Result<(), AllocError>
        ensures { OnOk result (Goes (state_of self.old)
            (met_with (state_of self.old) claim) (state_of self.new)) }
    {
        self.compare_claim(claim)?;
        self.put_sum(claim.sum, Some(claim.value))?;
        Ok(())
    }

    fn drop_claim(&mut self, index: usize)
        ensures state { state_of self.new ≡ without_claim (state_of self.old) index }
        ensures first { (state_of self.new).first ≡ (state_of self.old).first }
    {
        if index < self.claims.len() {
            self.claims.remove(index);
        }
    }

    fn meet_found(&mut self, index: usize, claim: Claim) -> Result<(), AllocError>
        ensures { OnOk result (Goes (state_of self.old)
            (met_with (without_claim (state_of self.old) index) claim) (state_of self.new)) }
    {
        self.drop_claim(index);
        self.meet_claim(claim)?;
        Ok(())
    }

    fn claim_at(&self, index: usize) -> Option<Claim>
        ensures { result ≡ slice_get (state_of self.now).claims index }
    {
        self.claims.get(index).copied()
    }

    fn meet_at(&mut self, place: ProbedLine, index: usize) -> Result<(), AllocError>
        ensures { OnOk result (Goes (state_of self.old)
            (met_by (state_of self.old) index (slice_get (state_of self.old).claims index)) (state_of self.new)) }
    {
        match self.claim_at(index) {
            Some(claim) => self.meet_found(index, claim),
            None => self.refuse(place),
        }
    }

    /// What this CPU read first has its point here: what differs is counted, and the kernel's value is taken.
    fn meet(&mut self, place: ProbedLine, by: u32) -> Result<(), AllocError>
        ensures { OnOk result (Goes (state_of self.old) (meet_of (state_of self.old) by) (state_of self.new)) }
    {
        match claim_place(self.claims.as_slice(), by) {
            Some(index) => self.meet_at(place, index),
            None => self.refuse(place),
        }
    }

    /// Makes a move that a search chose; `place` is the line before which it was chosen.
    pub fn make(
        &mut self,
        rules: PlayRules,
        place: ProbedLine,
        chosen: RunMove,
    ) -> Result<(), AllocError>
        ensures { OnOk result (rules.change ≡ None
            → Goes (state_of self.old) (moved_of rules (state_of self.old) chosen) (state_of self.new)) }
    {
        match chosen {
            RunMove::Settle(k) => self.settle(rules, place, k),
            RunMove::Meet(by) => self.meet(place, by),
            RunMove::OpenDequeue(by) => self.rest(rules, place, by),
        }
    }

    /// The record ends: a value that was read and has no point is a deviation.
    pub fn end(&mut self, place: ProbedLine) -> Result<(), AllocError> {
        if self.claims.is_empty() {
            Ok(())
        } else {
            self.refuse(place)
        }
    }
}
