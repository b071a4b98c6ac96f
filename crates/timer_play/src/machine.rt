//! The tasks and runqueues of a record.

ghost use Rattle.std.specs.Prelude.{◌≡◌, ◌++◌, ◌∷◌, [], OnOk, length, slice_get};
ghost use Rattle.timer_play.specs.Places.{observation_of, sums_of};
ghost use Rattle.timer_play.specs.Turns.{at_open_of};
ghost use Rattle.timer_play.specs.States.{begun_with, noted, owned, owner_at, replaced, runqueue_for, server_at, served_in, state_of};

use crate::counts::{TimerRule, TimerRuleCounts};
use crate::place::{
    gain, is_told, lose, owner_of, serve_at, server_of, set_owner, set_task, sums_at,
};
use crate::terms::PlayTerms;
use crate::turns::at_open;
use kernel_rules::Charge;
use std::alloc::AllocError;
use timer_record::KeptLine;
use timer_tasks::{
    DeadlineTask, Moments, Observation, ObservedAnswer, Runqueue, ServerState, TimerKind,
    is_stopped, task_effect, task_share,
};
use trace_data::Sums;

/// Whose a timer is.
#[derive(Clone, Copy)]
pub enum Owner {
    Nobody,
    Task(u32),

    /// The fair server of this CPU.
    Server(u32),
}

/// A task whose charges since its last wake are kept, up to a line.
#[derive(Clone, Copy)]
pub struct Watch {
    pub task: u32,
    pub line: u64,
}

/// A charge of the watched task.
#[derive(Clone, Copy)]
pub struct Charged {
    pub line: u64,
    pub at: u64,
    pub nanos: u64,

    /// What it takes from the budget.
    pub cost: u64,
    pub charge: Charge,
    pub cpu: u32,
    pub sums: Sums,
}

/// What a record comes to.
#[derive(Drop)]
pub struct RecordOutcome {
    pub counts: TimerRuleCounts,

    /// In the order of their lines.
    pub observations: Vec<Observation>,

    /// The charges of the watched task since its last wake before the line.
    pub charges: Vec<Charged>,
}

/// The tasks and runqueues of a record.
#[derive(Drop)]
pub struct TimedMachine {
    pub(crate) terms: PlayTerms,
    pub(crate) tasks: Vec<DeadlineTask>,
    pub(crate) runqueues: Vec<Runqueue>,

    /// What the tasks that are admitted take from `extra_bw` of each CPU of the root domain.
    pub(crate) taken: u64,

    /// Who owns each timer, by its number.
    pub(crate) owners: Vec<Owner>,
    pub(crate) observations: Vec<Observation>,
    pub(crate) counts: TimerRuleCounts,

    /// The charges of the watched task since its last wake.
    pub(crate) charges: Vec<Charged>,
    pub(crate) watch: Option<Watch>,
}

impl TimedMachine {
    /// What came of the lines.
    pub fn finish(self) -> RecordOutcome
        ensures counts { result.counts ≡ self.counts }
        ensures observations { result.observations.items ≡ (state_of self).seen }
        ensures charges { result.charges ≡ self.charges }
    {
        let TimedMachine {
            terms: _,
            tasks: _,
            runqueues: _,
            taken: _,
            owners: _,
            observations,
            counts,
            charges,
            watch: _,
        } = self;
        RecordOutcome {
            counts,
            observations,
            charges,
        }
    }

    /// How many runqueues there are.
    pub fn cpus(&self) -> usize
        ensures { result ≡ length (state_of self.now).runqueues }
    {
        self.runqueues.len()
    }

    /// The task of this number.
    pub fn task(&self, number: u32) -> Option<DeadlineTask>
        ensures { result ≡ slice_get (state_of self.now).tasks number }
    {
        self.tasks.get(number as usize).copied()
    }

    /// The sums of a runqueue.
    pub fn sums(&self, cpu: u32) -> Sums
        ensures { result
            ≡ sums_of (slice_get (state_of self.now).runqueues cpu) (state_of self.now).taken }
    {
        sums_at(&self.runqueues, cpu, self.taken)
    }

    /// What the tasks that are admitted take from `extra_bw` of each CPU of the root domain.
    pub fn taken(&self) -> u64
        ensures { result ≡ (state_of self.now).taken }
    {
        self.taken
    }

    /// The tasks take so much from each `extra_bw`, whatever they reserve.
    pub fn set_taken(&mut self, taken: u64)
        ensures { state_of self.new ≡ record (state_of self.old) { taken = taken } }
    {
        self.taken = taken;
    }

    /// What a charge on a CPU reads.
    pub fn charging_runqueue(&self, cpu: u32) -> kernel_rules::ChargedRunqueue
        ensures { result ≡ runqueue_for cpu (state_of self.now) }
    {
        let limits = self.terms.setup.limits(cpu);
        kernel_rules::ChargedRunqueue {
            sums: self.sums(cpu),
            max_bw: limits.max_bw,
            bw_ratio: limits.bw_ratio,
        }
    }

    /// A task before a charge in a line at which `extra_bw` may not be known (`grub_reclaim`).
    pub fn before_charge(&self, task: DeadlineTask, line: u64) -> DeadlineTask
        ensures { result ≡ at_open_of (state_of self.now).terms task line }
    {
        at_open(self.terms, task, line)
    }

    /// Whose a timer is.
    pub fn owner(&self, timer: u32) -> Owner
        ensures { result ≡ owner_at timer (state_of self.now) }
    {
        owner_of(&self.owners, timer)
    }

    /// A timer has another owner.
    pub(crate) fn own(&mut self, timer: u32, owner: Owner)
        ensures { state_of self.new ≡ owned timer owner (state_of self.old) }
    {
        set_owner(&mut self.owners, timer, owner);
    }

    /// The state of the fair server of a CPU.
    pub(crate) fn server(&self, cpu: u32) -> ServerState
        ensures { result ≡ server_at cpu (state_of self.now) }
    {
        server_of(&self.runqueues, cpu)
    }

    /// A task becomes another: the sums lose what it had in them, and get what it has.
    #[tactic(auto, unfolding(crate::specs::States::replaced))]
    pub fn replace(&mut self, number: u32, task: DeadlineTask)
        ensures { state_of self.new ≡ replaced number task (state_of self.old) }
    {
        let Some(before) = set_task(&mut self.tasks, number, task) else {
            return;
        };
        lose(&mut self.runqueues, before.cpu, task_effect(before));
        gain(&mut self.runqueues, task.cpu, task_effect(task));
        self.taken = self
            .taken
            .wrapping_sub(task_share(before, self.terms.setup.cpus))
            .wrapping_add(task_share(task, self.terms.setup.cpus));
    }

    /// A task was there before the record began: sums that a note tells have it already.
    #[tactic(auto, unfolding(crate::specs::States::begun_with))]
    pub(crate) fn begin_with(&mut self, number: u32, task: DeadlineTask)
        ensures { state_of self.new ≡ begun_with number task (state_of self.old) }
    {
        if is_told(&self.runqueues, task.cpu) {
            let _ = set_task(&mut self.tasks, number, task);
        } else {
            self.replace(number, task);
        }
    }

    /// The fair server of a CPU comes to another state.
    #[tactic(auto, unfolding(crate::specs::States::served_in))]
    pub(crate) fn serve(&mut self, cpu: u32, state: ServerState)
        ensures { state_of self.new ≡ served_in state cpu (state_of self.old) }
    {
        let was_stopped = is_stopped(self.server(cpu));
        serve_at(&mut self.runqueues, cpu, state, self.terms.setup.server_bw);
        count_service(&mut self.counts, was_stopped, is_stopped(state));
    }

    /// One more observation.
    pub(crate) fn observe(&mut self, observation: Observation) -> Result<(), AllocError>
        ensures { OnOk result (state_of self.new ≡ noted observation (state_of self.old)) }
    {
        self.observations.push(observation)?;
        Ok(())
    }
}

/// A fair server starts, or stops.
fn count_service(counts: &mut TimerRuleCounts, was_stopped: bool, is_stopped: bool) {
    if was_stopped && !is_stopped {
        counts.add(TimerRule::ServerStarted);
    } else if !was_stopped && is_stopped {
        counts.add(TimerRule::ServerStopped);
    }
}

/// A task's timer beside its prediction.
#[derive(Clone, Copy)]
pub(crate) struct PredictedTimer {
    pub(crate) kind: TimerKind,
    pub(crate) moments: Moments,
    pub(crate) answer: ObservedAnswer,
}

/// The observation of a task's timer at a line.
pub(crate) fn observation(
    kept: KeptLine,
    task: u32,
    state: DeadlineTask,
    sums: Sums,
    timer: PredictedTimer,
) -> Observation
    ensures { result ≡ observation_of kept task state timer.kind timer.moments sums timer.answer }
{
    let PredictedTimer {
        kind,
        moments,
        answer,
    } = timer;
    Observation {
        line: kept.line,
        at: kept.at,
        cpu: state.cpu,
        task,
        kind,
        predicted: moments.predicted,
        kernel: moments.kernel,
        difference: moments.difference,
        runtime: state.entity.budget.runtime,
        deadline: state.entity.budget.deadline,
        sums,
        answer,
    }
}
