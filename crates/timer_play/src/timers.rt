//! What the lines of timers make of a record's tasks and runqueues.

ghost use Rattle.std.specs.Prelude.{◌≡◌, OnOk, slice_get};
ghost use Rattle.timer_play.specs.Events.{after_fire_at, cancelled_by, edited, hold_observation, hold_seen, lag_fired_by, lag_started_by, own_timer_of, owns_by, replenish_fired_by, replenish_started_by};
ghost use Rattle.timer_play.specs.States.{owner_at, state_of};
ghost use Rattle.timer_play.specs.Turns.{at_hold_of};

use crate::counting::rule_of_throttling;
use crate::counts::TimerRule;
use crate::machine::{Owner, PredictedTimer, TimedMachine, observation};
use crate::place::is_it;
use crate::setup::{picks, stops_with_timer};
use crate::turns::at_hold;
use std::alloc::AllocError;
use timer_record::{KeptLine, TaskLines};
use timer_tasks::{
    DeadlineTask, Observation, ServerState, TimerKind, after_cancel, after_fire, after_idle,
    after_lag, answer_of, lag_fired, lag_started, replenish_moments, replenished, throttling_of,
};

/// Whether a 0-lag timer is a task's own.
#[tactic(auto, using(std::proofs::lemmas::Option::slice_get_past))]
fn owns(tasks: &[TaskLines], number: u32, timer: u32) -> bool
    ensures { result ≡ owns_by (slice_get tasks.now number) timer }
{
    let place = number as usize;
    place < tasks.len() && is_it(tasks[place].zero_lag_timer.winner(), timer)
}

/// The running task whose own 0-lag timer this is; another one there is a fair server's that stops.
fn own_timer(tasks: &[TaskLines], timer: u32, running: Option<u32>) -> Option<u32>
    ensures { result ≡ own_timer_of tasks.now timer running }
{
    match running {
        Some(number) => {
            if owns(tasks, number, timer) {
                Some(number)
            } else {
                None
            }
        }
        None => None,
    }
}

/// A fair server after its timer fires, which is picked at once or not.
fn after_fire_picked(is_picked: bool, state: ServerState) -> ServerState
    ensures { result ≡ after_fire_at is_picked state }
{
    if is_picked {
        after_idle(after_fire(state))
    } else {
        after_fire(state)
    }
}

impl TimedMachine {
    /// `inactive_task_timer` is started.
    #[tactic(auto, unfolding(crate::specs::Events::lag_started_by, crate::specs::Events::edited))]
    pub(crate) fn start_lag(
        &mut self,
        tasks: &[TaskLines],
        kept: KeptLine,
        timer: u32,
        running: Option<u32>,
        expires: u64,
    )
        ensures { state_of self.new
            ≡ lag_started_by (own_timer_of tasks.now timer running) kept timer expires
            (state_of self.old) }
    {
        match own_timer(tasks, timer, running) {
            Some(number) => {
                self.own(timer, Owner::Task(number));
                let Some(task) = self.task(number) else {
                    return;
                };
                self.replace(number, lag_started(task, kept.at, expires));
            }
            None => {
                self.own(timer, Owner::Server(kept.cpu));
                self.serve_where_any(kept.cpu, ServerState::Stopping);
            }
        }
    }

    /// `inactive_task_timer` fires.
    #[tactic(auto, unfolding(crate::specs::Events::lag_fired_by, crate::specs::Events::edited))]
    pub(crate) fn fire_lag(&mut self, timer: u32)
        ensures { state_of self.new
            ≡ lag_fired_by (owner_at timer (state_of self.old)) (state_of self.old) }
    {
        match self.owner(timer) {
            Owner::Nobody => {}
            Owner::Task(number) => {
                let Some(task) = self.task(number) else {
                    return;
                };
                self.replace(number, lag_fired(task));
            }
            Owner::Server(cpu) => self.serve(cpu, after_lag(self.server(cpu))),
        }
    }

    /// `dl_task_timer` is started.
    #[tactic(auto, unfolding(crate::specs::Events::replenish_started_by))]
    pub(crate) fn start_replenish(
        &mut self,
        kept: KeptLine,
        timer: u32,
        expires: u64,
    ) -> Result<(), AllocError>
        ensures { OnOk result (state_of self.new
            ≡ replenish_started_by (owner_at timer (state_of self.old)) kept expires
            (state_of self.old)) }
    {
        match self.owner(timer) {
            Owner::Nobody => Ok(()),
            Owner::Task(number) => {
                self.hold(kept, number);
                self.see_hold(kept, number, expires)
            }
            Owner::Server(cpu) => {
                self.serve_where_any(cpu, ServerState::Active);
                Ok(())
            }
        }
    }

    #[tactic(auto, unfolding(crate::specs::Events::edited))]
    fn hold(&mut self, kept: KeptLine, number: u32)
        ensures { state_of self.new
            ≡ edited (λ t. at_hold_of t kept.at) number (state_of self.old) }
    {
        let Some(task) = self.task(number) else {
            return;
        };
        self.counts
            .add(rule_of_throttling(throttling_of(task, kept.at)));
        self.replace(number, at_hold(task, kept.at));
    }

    /// A start of a replenishment timer is observed.
    #[tactic(auto, unfolding(crate::specs::Events::hold_seen))]
    fn see_hold(&mut self, kept: KeptLine, number: u32, expires: u64) -> Result<(), AllocError>
        ensures { OnOk result (state_of self.new
            ≡ hold_seen kept number expires (state_of self.old)) }
    {
        let Some(task) = self.task(number) else {
            return Ok(());
        };
        if task.entity.is_in_class {
            let observation = self.start_of(kept, number, task, expires);
            self.observe(observation)
        } else {
            Ok(())
        }
    }

    /// The observation of a start of a replenishment timer.
    fn start_of(&self, kept: KeptLine, number: u32, task: DeadlineTask, expires: u64) -> Observation
        ensures { result ≡ hold_observation kept number task expires (state_of self.now) }
    {
        let moments = replenish_moments(task, kept.at, expires);
        let answer = answer_of(task.knowledge, moments.difference, self.terms.within);
        let sums = self.sums(task.cpu);
        let timer = PredictedTimer {
            kind: TimerKind::Replenish,
            moments,
            answer,
        };
        observation(kept, number, task, sums, timer)
    }

    /// `dl_task_timer` fires.
    #[tactic(auto, unfolding(crate::specs::Events::replenish_fired_by, crate::specs::Events::edited))]
    pub(crate) fn fire_replenish(&mut self, kept: KeptLine, timer: u32)
        ensures { state_of self.new ≡ replenish_fired_by (owner_at timer (state_of self.old)) kept
            (state_of self.old) }
    {
        match self.owner(timer) {
            Owner::Nobody => {}
            Owner::Task(number) => {
                let Some(task) = self.task(number) else {
                    return;
                };
                if task.entity.budget.is_throttled {
                    self.counts.add(TimerRule::Replenished);
                }
                self.replace(number, replenished(task, kept.at));
            }
            Owner::Server(cpu) => {
                let is_picked = picks(self.terms.setup.servers) && kept.is_idle;
                self.serve(cpu, after_fire_picked(is_picked, self.server(cpu)));
            }
        }
    }

    /// A timer is cancelled.
    #[tactic(auto, unfolding(crate::specs::Events::cancelled_by))]
    pub(crate) fn cancel(&mut self, timer: u32)
        ensures { state_of self.new
            ≡ cancelled_by (owner_at timer (state_of self.old)) (state_of self.old) }
    {
        if let Owner::Server(cpu) = self.owner(timer) {
            if stops_with_timer(self.terms.setup.servers) {
                self.serve(cpu, after_cancel(self.server(cpu)));
            }
        }
    }
}
