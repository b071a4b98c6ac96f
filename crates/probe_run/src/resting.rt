//! What of a dequeue comes after the charge within it (`dequeue_dl_entity`).

ghost use Rattle.std.specs.Prelude.{◌≡◌, ◌<◌, None, OnOk, IfSome, length, not, position};
ghost use Rattle.kernel_rules.specs.Dequeue.{off_of};
ghost use Rattle.probe_run.specs.Runs.{state_of};
ghost use Rattle.probe_run.specs.Counting.{Goes, where_it_holds};
ghost use Rattle.probe_run.specs.Handlers.{handler_runs};
ghost use Rattle.probe_run.specs.Sums.{with_timer_to_arm, start_timer_in, block_in};
ghost use Rattle.probe_run.specs.Moves.{is_rest_by, awaits_charge, awaits_enqueue, unseen_of, rested_known, rested_unknown, rested_by, without_dequeue, rest_with, rest_of};

use crate::actor::{Actor, is_special};
use crate::handlers::dequeue_while;
use crate::notes::Counted;
use crate::rules::PlayRules;
use crate::run::Run;
use crate::waiting::{Awaits, OlderDequeue, OpenDequeue, TimerToArm};
use kernel_rules::{Arrival, Block, Entity, SumsChange};
use probe_findings::{ExactRule, ProbedLine, Why};
use std::alloc::AllocError;
use trace_data::TimerFunction;

/// An entity that blocks on a CPU, or goes on: what its sums lose, and which timer it arms.
#[derive(Clone, Copy)]
pub struct BlockedEntity {
    pub number: usize,
    pub cpu: u32,
    pub change: SumsChange,
    pub block: Option<Block>,
}

fn rest_place(open_dequeues: &[OpenDequeue], by: u32) -> Option<usize>
    ensures place { result ≡ position (is_rest_by by) open_dequeues.now }
    ensures bound { IfSome result (λ place. place < length open_dequeues.now) }
{
    open_dequeues.iter().position(|one| one.place.cpu == by)
}

fn waits_for_charge(awaits: Awaits) -> bool
    ensures { result ≡ awaits_charge awaits }
{
    match awaits {
        Awaits::Charge => true,
        Awaits::Enqueue | Awaits::Nothing => false,
    }
}

fn waits_for_enqueue(awaits: Awaits) -> bool
    ensures { result ≡ awaits_enqueue awaits }
{
    match awaits {
        Awaits::Enqueue => true,
        Awaits::Charge | Awaits::Nothing => false,
    }
}

/// The entity off the tree.
#[tactic(auto, unfolding(kernel_rules::specs::Dequeue::off_of))]
fn off(entity: Entity) -> Entity
    ensures { result ≡ off_of entity }
{
    Entity {
        is_in_tree: false,
        is_queued: false,
        ..entity
    }
}

fn unseen(actor: Actor) -> Actor
    ensures { result ≡ unseen_of actor }
{
    Actor {
        entity: off(actor.entity),
        knows_budget: false,
        knows_contending: false,
        ..actor
    }
}

/// What a line of this event says changed a value.
pub fn why(place: ProbedLine, rule: ExactRule) -> Why {
    Why {
        line: place.line,
        event: place.event,
        rule: Some(rule),
    }
}

impl Run {
    /// Notes a rule that changed an entity and its runqueue.
    pub fn note_both(
        &mut self,
        place: ProbedLine,
        number: usize,
        cpu: u32,
        rule: ExactRule,
    ) -> Result<(), AllocError>
        ensures { state_of self.new ≡ state_of self.old }
    {
        self.note_rule(rule);
        self.note(Counted::Entity(number), why(place, rule))?;
        self.note(Counted::Runqueue(cpu), why(place, rule))
    }

    /// Notes a rule that changed a runqueue.
    pub fn note_queue(
        &mut self,
        place: ProbedLine,
        cpu: u32,
        rule: ExactRule,
    ) -> Result<(), AllocError>
        ensures { state_of self.new ≡ state_of self.old }
    {
        self.note_rule(rule);
        self.note(Counted::Runqueue(cpu), why(place, rule))
    }

    /// Notes a rule that changed an entity.
    pub fn note_entity(
        &mut self,
        place: ProbedLine,
        number: usize,
        rule: ExactRule,
    ) -> Result<(), AllocError>
        ensures { state_of self.new ≡ state_of self.old }
    {
        self.note_rule(rule);
        self.note(Counted::Entity(number), why(place, rule))
    }

    /// The CPU of a line must arm the replenishment timer of this entity, where it is told so.
    pub fn start_timer(
        &mut self,
        rules: PlayRules,
        place: ProbedLine,
        number: usize,
        starts: bool,
    ) -> Result<(), AllocError>
        ensures state { OnOk result (state_of self.new
            ≡ start_timer_in rules (state_of self.old) place number starts) }
        ensures first { OnOk result ((state_of self.new).first ≡ (state_of self.old).first) }
    {
        if starts && rules.has_timers {
            self.timers_to_arm.push(TimerToArm {
                place,
                entity: number,
                function: TimerFunction::Replenish,
                zero_lag: None,
                at: self.moment,
            })?;
        }
        Ok(())
    }

    /// What a block does beside the sums (`task_non_contending`).
    pub fn block(
        &mut self,
        rules: PlayRules,
        place: ProbedLine,
        blocked: BlockedEntity,
    ) -> Result<(), AllocError>
        ensures state { OnOk result (state_of self.new ≡ block_in rules (state_of self.old) place
            blocked.number blocked.cpu blocked.change blocked.block) }
        ensures first { OnOk result ((state_of self.new).first ≡ (state_of self.old).first) }
    {
        let BlockedEntity {
            number,
            cpu,
            change,
            block,
        } = blocked;
        match block {
            None => Ok(()),
            Some(Block::Unreserved) => Ok(()),
            Some(Block::ZeroLagTimer(zero_lag)) => {
                if rules.has_timers {
                    self.timers_to_arm.push(TimerToArm {
                        place,
                        entity: number,
                        function: TimerFunction::ZeroLag,
                        zero_lag: Some(zero_lag),
                        at: self.moment,
                    })?;
                }
                self.note_both(place, number, cpu, ExactRule::ZeroLagArmed)
            }
            Some(Block::Past) => {
                self.note_both(place, number, cpu, ExactRule::ZeroLagPast)?;
                self.share(place, cpu, change)
            }
        }
    }

    fn note_departure(
        &mut self,
        place: ProbedLine,
        cpu: u32,
        departure: Arrival,
    ) -> Result<(), AllocError>
        ensures { state_of self.new ≡ state_of self.old }
    {
        match departure {
            Arrival::Stays => Ok(()),
            Arrival::Moves => self.note_queue(place, cpu, ExactRule::MovedOut),
            Arrival::Restores => self.note_queue(place, cpu, ExactRule::Saved),
        }
    }

    fn rest_known(
        &mut self,
        rules: PlayRules,
        rest: OpenDequeue,
        actor: Actor,
    ) -> Result<(), AllocError>
        ensures state { OnOk result (rules.change ≡ None → state_of self.new
            ≡ rested_known rules (state_of self.old) rest actor) }
        ensures first { OnOk result ((state_of self.new).first ≡ (state_of self.old).first) }
    {
        let runs = self.handler_runs(rest.entity);
        let done = dequeue_while(
            rules.change,
            runs,
            actor.entity,
            rest.flags,
            rest.on_rq,
            rest.clock,
        );
        self.keep(
            rest.entity,
            Actor {
                entity: done.entity,
                ..actor
            },
        );
        self.change(rest.cpu, done.change)?;
        self.note_departure(rest.place, rest.cpu, done.departure)?;
        let blocked = BlockedEntity {
            number: rest.entity,
            cpu: actor.cpu,
            change: done.change,
            block: done.block,
        };
        self.block(rules, rest.place, blocked)
    }

    fn rest_unknown(&mut self, rest: OpenDequeue, actor: Actor) -> Result<(), AllocError>
        ensures state { OnOk result (state_of self.new ≡ rested_unknown (state_of self.old) rest actor) }
        ensures first { OnOk result ((state_of self.new).first ≡ (state_of self.old).first) }
    {
        self.keep(rest.entity, unseen(actor));
        self.forget(rest.cpu)?;
        self.older_dequeues.push(OlderDequeue {
            by: rest.place.cpu,
            entity: rest.entity,
        })?;
        Ok(())
    }

    fn rest_by(
        &mut self,
        rules: PlayRules,
        rest: OpenDequeue,
        actor: Actor,
    ) -> Result<(), AllocError>
        ensures state { OnOk result (rules.change ≡ None → state_of self.new
            ≡ rested_by rules (state_of self.old) rest actor) }
        ensures first { OnOk result ((state_of self.new).first ≡ (state_of self.old).first) }
    {
        if !actor.knows_parameters {
            return self.rest_unknown(rest, actor);
        }
        if is_special(actor.entity) {
            self.keep(
                rest.entity,
                Actor {
                    entity: off(actor.entity),
                    ..actor
                },
            );
            return Ok(());
        }
        self.rest_known(rules, rest, actor)
    }

    fn drop_open_dequeue(&mut self, index: usize)
        ensures state { state_of self.new ≡ without_dequeue (state_of self.old) index }
        ensures first { (state_of self.new).first ≡ (state_of self.old).first }
    {
        if index < self.open_dequeues.len() {
            self.open_dequeues.remove(index);
        }
    }

    fn finish_rest(
        &mut self,
        rules: PlayRules,
        index: usize,
        rest: OpenDequeue,
    ) -> Result<(), AllocError>
        ensures state { OnOk result (rules.change ≡ None → state_of self.new
            ≡ rest_with rules (state_of self.old) index rest) }
        ensures first { OnOk result ((state_of self.new).first ≡ (state_of self.old).first) }
    {
        self.drop_open_dequeue(index);
        if waits_for_charge(rest.awaits) {
            self.early.push(rest)?;
        }
        let actor = self.actor(rest.entity);
        self.rest_by(rules, rest, actor)
    }

    fn rest_found(
        &mut self,
        rules: PlayRules,
        place: ProbedLine,
        index: usize,
        rest: OpenDequeue,
    ) -> Result<(), AllocError>
        ensures { OnOk result (rules.change ≡ None → Goes (state_of self.old)
            (where_it_holds (not (awaits_enqueue rest.awaits)) (rest_with rules (state_of self.old) index rest))
            (state_of self.new)) }
    {
        self.allow(place, !waits_for_enqueue(rest.awaits))?;
        self.finish_rest(rules, index, rest)?;
        Ok(())
    }

    /// The rest of the dequeue of this CPU comes here.
    pub(crate) fn rest(
        &mut self,
        rules: PlayRules,
        place: ProbedLine,
        by: u32,
    ) -> Result<(), AllocError>
        ensures { OnOk result (rules.change ≡ None
            → Goes (state_of self.old) (rest_of rules (state_of self.old) by) (state_of self.new)) }
    {
        match rest_place(self.open_dequeues.as_slice(), by) {
            Some(index) => {
                let rest = self.open_dequeues[index];
                self.rest_found(rules, place, index, rest)
            }
            None => self.refuse(place),
        }
    }
}
