//! What the lines of tasks make of a record's tasks and runqueues.

ghost use Rattle.std.specs.Prelude.{◌≡◌, OnOk, slice_get};
ghost use Rattle.timer_play.specs.Events.{block_observation, block_seen, blocks_of, charged_in, edited, given_by, idled_in, opened_in, ran_in, served_where_any, sighted_if, sighted_in, switched_by, switched_in, woken_in};
ghost use Rattle.timer_play.specs.States.{state_of};
ghost use Rattle.timer_play.specs.Turns.{at_move_of, at_refill_of, at_run_of, at_switch_of};
ghost use Rattle.timer_tasks.specs.Tasks.{refilled_of};

use crate::counting::{rule_of_charge, rule_of_wake};
use crate::counts::TimerRule;
use crate::machine::{Charged, PredictedTimer, TimedMachine, observation};
use crate::turns::{
    at_charge, at_move, at_open, at_refill, at_run, at_sight, at_switch, at_wake, is_edge_wake,
    runs, runs_late, wakes,
};
use kernel_rules::{ChargedRunqueue, charging, cost};
use std::alloc::AllocError;
use timer_record::{KeptLine, TaskLines};
use timer_tasks::{
    DeadlineTask, Observation, ObservedAnswer, ServerState, TimerKind, after_idle, block_answer,
    block_moments, ends, refilled, refills, stays_ready, waking_of,
};
use trace_data::{Parameters, Stop};

/// What an option gives to a task.
#[tactic(auto, using(std::proofs::lemmas::Option::slice_get_past))]
fn given(tasks: &[TaskLines], number: u32) -> Option<Parameters>
    ensures { result ≡ given_by (slice_get tasks.now number) }
{
    let place = number as usize;
    if place < tasks.len() {
        tasks[place].given
    } else {
        None
    }
}

/// Whether a switch away is a block of a task of the class.
fn blocks(task: DeadlineTask, is_deadline: bool, stop: Stop) -> bool
    ensures { result ≡ blocks_of task is_deadline stop }
{
    is_deadline && task.entity.is_in_class && !stays_ready(stop)
}

impl TimedMachine {
    /// A line shows a task in the class: one that an option gives is admitted at the first.
    #[tactic(auto, unfolding(crate::specs::Events::sighted_in, crate::specs::Events::edited))]
    pub(crate) fn sight(&mut self, tasks: &[TaskLines], number: u32, cpu: u32)
        ensures { state_of self.new ≡ sighted_in tasks.now number cpu (state_of self.old) }
    {
        let Some(task) = self.task(number) else {
            return;
        };
        let after = at_sight(task, given(tasks, number), cpu);
        if after.entity.is_in_class && !task.entity.is_in_class {
            self.counts.add(TimerRule::Admitted);
        }
        self.replace(number, after);
    }

    /// A task wakes.
    #[tactic(auto, unfolding(crate::specs::Events::woken_in, crate::specs::Events::edited))]
    pub(crate) fn wake(&mut self, line: u64, number: u32, cpu: u32, clock: u64)
        ensures { state_of self.new ≡ woken_in number cpu clock (state_of self.old) }
    {
        let Some(task) = self.task(number) else {
            return;
        };
        let after = at_wake(self.terms, task, cpu, clock);
        self.count_wake(line, number, task, clock);
        self.replace(number, after);
    }

    fn count_wake(&mut self, line: u64, number: u32, task: DeadlineTask, clock: u64)
        ensures { state_of self.new ≡ state_of self.old }
    {
        if wakes(task) {
            let waking = waking_of(self.terms.setup.law, task, self.terms.begins, clock);
            self.counts.add(rule_of_wake(waking));
            if is_edge_wake(self.terms.setup.law, task, waking, clock) {
                self.counts.add(TimerRule::Edge);
            }
            if self.keeps(number, line) {
                self.charges.clear();
            }
        }
    }

    /// A task moves to a CPU.
    #[tactic(auto, unfolding(crate::specs::Events::edited))]
    pub(crate) fn migrate(&mut self, number: u32, cpu: u32)
        ensures { state_of self.new ≡ edited (λ t. at_move_of t cpu) number (state_of self.old) }
    {
        let Some(task) = self.task(number) else {
            return;
        };
        if runs(task) && task.cpu != cpu {
            self.counts.add(TimerRule::Moved);
        }
        self.replace(number, at_move(task, cpu));
    }

    /// A task runs, and is charged.
    pub(crate) fn run(&mut self, kept: KeptLine, number: u32, nanos: u64) -> Result<(), AllocError>
        ensures { OnOk result (state_of self.new ≡ ran_in kept number nanos (state_of self.old)) }
    {
        self.show(kept, number);
        self.refill_running(number);
        self.forget_open(kept.line, number);
        self.charge(kept, number, nanos)
    }

    /// A charge reads `extra_bw`, which may not be known.
    #[tactic(auto, unfolding(crate::specs::Events::opened_in, crate::specs::Events::edited))]
    fn forget_open(&mut self, line: u64, number: u32)
        ensures { state_of self.new ≡ opened_in line number (state_of self.old) }
    {
        let Some(task) = self.task(number) else {
            return;
        };
        self.replace(number, at_open(self.terms, task, line));
    }

    /// A line shows a task that runs.
    #[tactic(auto, unfolding(crate::specs::Events::edited))]
    fn show(&mut self, kept: KeptLine, number: u32)
        ensures { state_of self.new ≡ edited (λ t. at_run_of t kept) number (state_of self.old) }
    {
        let Some(task) = self.task(number) else {
            return;
        };
        self.replace(number, at_run(task, kept));
    }

    /// A budget that was used up, and for which no timer was started, is filled at once where the task runs.
    #[tactic(auto, unfolding(crate::specs::Events::edited))]
    fn refill_running(&mut self, number: u32)
        ensures { state_of self.new ≡ edited at_refill_of number (state_of self.old) }
    {
        let Some(task) = self.task(number) else {
            return;
        };
        if runs_late(task) && refills(task) {
            self.counts.add(TimerRule::ReplenishedAtOnce);
        }
        self.replace(number, at_refill(task));
    }

    /// And where it is switched out.
    #[tactic(auto, unfolding(crate::specs::Events::edited))]
    fn refill(&mut self, number: u32)
        ensures { state_of self.new ≡ edited refilled_of number (state_of self.old) }
    {
        let Some(task) = self.task(number) else {
            return;
        };
        if refills(task) {
            self.counts.add(TimerRule::ReplenishedAtOnce);
        }
        self.replace(number, refilled(task));
    }

    /// A task is charged.
    #[tactic(auto, unfolding(crate::specs::Events::charged_in, crate::specs::Events::edited))]
    fn charge(&mut self, kept: KeptLine, number: u32, nanos: u64) -> Result<(), AllocError>
        ensures { OnOk result (state_of self.new
            ≡ charged_in kept number nanos (state_of self.old)) }
    {
        let Some(task) = self.task(number) else {
            return Ok(());
        };
        let runqueue = self.charging_runqueue(task.cpu);
        let after = at_charge(self.terms.setup.law, task, kept.at, nanos, runqueue);
        self.keep_charge(kept, number, task, nanos, runqueue)?;
        self.replace(number, after);
        Ok(())
    }

    /// A charge is counted, and kept where its task is watched.
    fn keep_charge(
        &mut self,
        kept: KeptLine,
        number: u32,
        task: DeadlineTask,
        nanos: u64,
        runqueue: ChargedRunqueue,
    ) -> Result<(), AllocError>
        ensures { state_of self.new ≡ state_of self.old }
    {
        if !runs(task) {
            return Ok(());
        }
        let charge = charging(self.terms.setup.law, task.entity, runqueue);
        self.counts.add(rule_of_charge(charge));
        if self.keeps(number, kept.line) {
            self.charges.push(Charged {
                line: kept.line,
                at: kept.at,
                nanos,
                cost: cost(self.terms.setup.law, task.entity, runqueue, nanos),
                charge,
                cpu: task.cpu,
                sums: runqueue.sums,
            })?;
        }
        Ok(())
    }

    /// Whether a line of a task is told of where it is watched.
    fn keeps(&self, number: u32, line: u64) -> bool {
        match self.watch {
            Some(watch) => watch.task == number && line <= watch.line,
            None => false,
        }
    }

    /// A task is switched out, where it has a reservation.
    pub(crate) fn switch_some(
        &mut self,
        tasks: &[TaskLines],
        kept: KeptLine,
        number: Option<u32>,
        is_deadline: bool,
        stop: Stop,
    ) -> Result<(), AllocError>
        ensures { OnOk result (state_of self.new
            ≡ switched_by number tasks.now kept is_deadline stop (state_of self.old)) }
    {
        match number {
            Some(number) => self.switch(tasks, kept, number, is_deadline, stop),
            None => Ok(()),
        }
    }

    /// A task is switched out.
    fn switch(
        &mut self,
        tasks: &[TaskLines],
        kept: KeptLine,
        number: u32,
        is_deadline: bool,
        stop: Stop,
    ) -> Result<(), AllocError>
        ensures { OnOk result (state_of self.new
            ≡ switched_in tasks.now kept number is_deadline stop (state_of self.old)) }
    {
        self.sight_if(is_deadline, tasks, number, kept.cpu);
        self.refill(number);
        self.see_block(kept, number, is_deadline, stop)?;
        self.leave(kept, number, is_deadline, stop);
        Ok(())
    }

    fn sight_if(&mut self, is_deadline: bool, tasks: &[TaskLines], number: u32, cpu: u32)
        ensures { state_of self.new
            ≡ sighted_if is_deadline tasks.now number cpu (state_of self.old) }
    {
        if is_deadline {
            self.sight(tasks, number, cpu);
        }
    }

    /// A block is observed.
    #[tactic(auto, unfolding(crate::specs::Events::block_seen))]
    fn see_block(
        &mut self,
        kept: KeptLine,
        number: u32,
        is_deadline: bool,
        stop: Stop,
    ) -> Result<(), AllocError>
        ensures { OnOk result (state_of self.new
            ≡ block_seen kept number is_deadline stop (state_of self.old)) }
    {
        let Some(task) = self.task(number) else {
            return Ok(());
        };
        if blocks(task, is_deadline, stop) {
            let observation = self.block(kept, number, task, stop);
            self.count_block(stop, observation.answer);
            self.observe(observation)
        } else {
            Ok(())
        }
    }

    /// The observation of a block.
    fn block(&self, kept: KeptLine, number: u32, task: DeadlineTask, stop: Stop) -> Observation
        ensures { result ≡ block_observation kept number task stop (state_of self.now) }
    {
        let moments = block_moments(task, kept.at);
        let answer = block_answer(task, stop, moments.difference, self.terms.within);
        let sums = self.sums(task.cpu);
        let timer = PredictedTimer {
            kind: TimerKind::Block,
            moments,
            answer,
        };
        observation(kept, number, task, sums, timer)
    }

    fn count_block(&mut self, stop: Stop, answer: ObservedAnswer)
        ensures { state_of self.new ≡ state_of self.old }
    {
        if ends(stop) {
            self.counts.add(TimerRule::Ended);
        }
        if let ObservedAnswer::Gap = answer {
            self.counts.add(TimerRule::Gap);
        }
    }

    #[tactic(auto, unfolding(crate::specs::Events::edited))]
    fn leave(&mut self, kept: KeptLine, number: u32, is_deadline: bool, stop: Stop)
        ensures { state_of self.new
            ≡ edited (λ t. at_switch_of t kept is_deadline stop) number (state_of self.old) }
    {
        let Some(task) = self.task(number) else {
            return;
        };
        self.replace(number, at_switch(task, kept, is_deadline, stop));
    }

    /// A CPU comes to idle: its fair server is picked, and has no task.
    #[tactic(auto, unfolding(crate::specs::Events::idled_in))]
    pub(crate) fn idle(&mut self, idles: bool, cpu: u32)
        ensures { state_of self.new ≡ idled_in idles cpu (state_of self.old) }
    {
        if idles {
            self.serve(cpu, after_idle(self.server(cpu)));
        }
    }

    /// The fair server of a CPU comes to another state, where it reserves something.
    #[tactic(auto, unfolding(crate::specs::Events::served_where_any))]
    pub(crate) fn serve_where_any(&mut self, cpu: u32, state: ServerState)
        ensures { state_of self.new ≡ served_where_any state cpu (state_of self.old) }
    {
        if self.terms.setup.server_bw > 0 {
            self.serve(cpu, state);
        }
    }
}
