//! A record, played with one rule changed.

use crate::rules::{
    block_difference, fired_by, moved_by, ran_by, refilled_by, start_answer, woken_by,
};
use kernel_changes::RuleChange;
use kernel_rules::{ChargeLaw, has_timer_ahead, share};
use std::alloc::AllocError;
use std::collections::HashMap;
use timer_play::{Owner, RecordSetup, TimedMachine};
use timer_record::{KeptEvent, KeptLine, KeptLines, TaskNote};
use timer_tasks::{
    Activity, DeadlineTask, Observation, ObservedAnswer, block_answer, charged_at, is_awake,
    seen_running, waking_of,
};
use trace_data::Stop;

/// A play with one rule changed. It is that of the machine but for the lines that the rule is about.
#[derive(Drop)]
pub(crate) struct Play {
    pub change: RuleChange,
    pub setup: RecordSetup,

    /// The moment of the record's first line.
    pub begins: u64,
    pub within: u64,
    pub machine: TimedMachine,

    /// What timers come to whose moments the changed rule gives, by their lines.
    pub answers: HashMap<u64, ObservedAnswer>,
}

fn runs(task: DeadlineTask) -> bool {
    task.entity.is_in_class && is_awake(task.activity)
}

/// A line that says nothing of a task or a timer.
fn quiet(kept: KeptLine) -> KeptLine {
    KeptLine {
        event: KeptEvent::Idles,
        ..kept
    }
}

/// Whether a timer differs, by the answer of the changed rule where that gives one.
fn differs(answers: &HashMap<u64, ObservedAnswer>, observation: &Observation) -> bool {
    let answer = match answers.get(&observation.line) {
        Some(answer) => *answer,
        None => observation.answer,
    };
    matches!(answer, ObservedAnswer::Differs)
}

impl Play {
    fn law(&self) -> ChargeLaw {
        self.setup.law
    }

    /// Tells the notes from a place on whose moments have come; the place after them.
    fn tell_until(&mut self, told: &[TaskNote], come: usize, at: u64) -> usize {
        for i in come..told.len() {
            let note = told[i];
            if note.moment > at {
                return i;
            }
            let before = self.machine.task(note.task);
            let taken = self.machine.taken();
            self.machine.tell(note);
            self.keep_taken(note.task, before, taken);
        }
        told.len()
    }

    /// Plays each line, after the notes whose moments have come.
    pub fn play_lines(&mut self, lines: &KeptLines) -> Result<(), AllocError> {
        let mut come = 0usize;
        for kept in &lines.kept {
            come = self.tell_until(&lines.told, come, kept.at);
            self.step(lines, *kept)?;
        }
        Ok(())
    }

    /// How many timers differ.
    pub fn differ(self) -> u64 {
        let Play {
            change: _,
            setup: _,
            begins: _,
            within: _,
            machine,
            answers,
        } = self;
        let outcome = machine.finish();
        outcome
            .observations
            .iter()
            .filter(|observation| differs(&answers, observation))
            .count() as u64
    }

    fn step(&mut self, lines: &KeptLines, kept: KeptLine) -> Result<(), AllocError> {
        let kept = self.served(kept);
        match kept.event {
            KeptEvent::Ran { task, nanos } => self.run(lines, kept, task, nanos),
            KeptEvent::Woken { task, clock, .. } => self.wake(lines, kept, task, clock),
            KeptEvent::Migrated { task, .. } => self.migrate(lines, kept, task),
            KeptEvent::Switched {
                task: Some(task),
                is_deadline: true,
                stop,
                ..
            } => self.switch(lines, kept, task, stop),
            KeptEvent::ReplenishStarted { timer, expires } => {
                self.start(lines, kept, timer, expires)
            }
            KeptEvent::ReplenishFired { timer } => self.fire(lines, kept, timer),
            KeptEvent::ZeroLagStarted {
                task: Some(task),
                ..
            } => self.step_of(lines, kept, task),
            KeptEvent::ZeroLagFired { timer } => match self.machine.owner(timer) {
                Owner::Task(task) => self.step_of(lines, kept, task),
                _ => self.machine.step(lines, kept),
            },
            _ => self.machine.step(lines, kept),
        }
    }

    /// A line as it is for fair servers that never leave `running_bw`, where that is the change.
    fn served(&self, kept: KeptLine) -> KeptLine {
        if self.change != RuleChange::ServerRunsOn {
            return kept;
        }
        let kept = KeptLine {
            is_idle: false,
            ..kept
        };
        match kept.event {
            KeptEvent::Cancelled { .. } => quiet(kept),
            KeptEvent::ZeroLagFired { timer } => match self.machine.owner(timer) {
                Owner::Server(_) => quiet(kept),
                _ => kept,
            },
            KeptEvent::Switched {
                task,
                is_deadline,
                stop,
                ..
            } => KeptLine {
                event: KeptEvent::Switched {
                    task,
                    is_deadline,
                    stop,
                    is_next_idle: false,
                },
                ..kept
            },
            _ => kept,
        }
    }

    /// A line about a task that may give its bandwidth back.
    fn step_of(
        &mut self,
        lines: &KeptLines,
        kept: KeptLine,
        number: u32,
    ) -> Result<(), AllocError> {
        let before = self.machine.task(number);
        let taken = self.machine.taken();
        self.machine.step(lines, kept)?;
        self.keep_taken(number, before, taken);
        Ok(())
    }

    /// What a task takes from `extra_bw`, by the changed rule: it took so much before a line or a note.
    fn keep_taken(&mut self, number: u32, before: Option<DeadlineTask>, taken: u64) {
        let (Some(before), Some(after)) = (before, self.machine.task(number)) else {
            return;
        };
        let was = before.entity.is_in_class;
        let is = after.entity.is_in_class;
        match self.change {
            RuleChange::AdmissionTakesNothing if !was && is => self.machine.set_taken(taken),
            RuleChange::LeavingFreesNothing if !is => self.machine.set_taken(taken),
            RuleChange::EndFreesNothing if is && after.entity.is_dead => {
                self.machine.set_taken(taken)
            }
            RuleChange::ChangeFreesNothing
                if was && is && before.entity.dl_bw != after.entity.dl_bw => self.machine.set_taken(
                taken.wrapping_add(share(after.entity.dl_bw, self.setup.cpus)),
            ),
            _ => {}
        }
    }

    /// A task is charged.
    fn run(
        &mut self,
        lines: &KeptLines,
        kept: KeptLine,
        number: u32,
        nanos: u64,
    ) -> Result<(), AllocError> {
        self.machine.step(lines, quiet(kept))?;
        let Some(task) = self.machine.task(number) else {
            return Ok(());
        };
        let shown = charged_at(seen_running(task, kept.cpu), kept.at);
        let shown = self.machine.before_charge(shown, kept.line);
        self.machine.replace(number, shown);
        if runs(shown) {
            let ready = self.refilled(shown);
            let runqueue = self.machine.charging_runqueue(ready.cpu);
            let after = ran_by(self.change, self.law(), ready, kept.at, nanos, runqueue);
            self.machine.replace(number, after);
        }
        Ok(())
    }

    /// A task that runs on, after a budget that was used up is filled at once.
    fn refilled(&self, task: DeadlineTask) -> DeadlineTask {
        if has_timer_ahead(task.entity, task.exceeded.unwrap_or(0)) {
            task
        } else {
            refilled_by(self.change, self.law(), task)
        }
    }

    /// A task wakes.
    fn wake(
        &mut self,
        lines: &KeptLines,
        kept: KeptLine,
        number: u32,
        clock: u64,
    ) -> Result<(), AllocError> {
        let before = self.machine.task(number);
        self.machine.step(lines, kept)?;
        let (Some(before), Some(after)) = (before, self.machine.task(number)) else {
            return Ok(());
        };
        if before.entity.is_in_class && !is_awake(before.activity) {
            let did = waking_of(self.law(), before, self.begins, clock);
            let woken = woken_by(self.change, self.law(), before, after, did, clock);
            self.machine.replace(number, woken);
        }
        Ok(())
    }

    /// A task moves to another CPU.
    fn migrate(
        &mut self,
        lines: &KeptLines,
        kept: KeptLine,
        number: u32,
    ) -> Result<(), AllocError> {
        let before = self.machine.task(number);
        self.machine.step(lines, kept)?;
        let (Some(before), Some(after)) = (before, self.machine.task(number)) else {
            return Ok(());
        };
        if self.change == RuleChange::MoveWakes && before.cpu != after.cpu {
            let moved = moved_by(self.law(), after, kept.at);
            self.machine.replace(number, moved);
        }
        Ok(())
    }

    /// A task is switched out.
    fn switch(
        &mut self,
        lines: &KeptLines,
        kept: KeptLine,
        number: u32,
        stop: Stop,
    ) -> Result<(), AllocError> {
        let Some(task) = self.machine.task(number) else {
            return self.machine.step(lines, kept);
        };
        let before = refilled_by(self.change, self.law(), task);
        self.machine.replace(number, before);
        self.see_block(kept, before, stop)?;
        self.step_of(lines, kept, number)?;
        if let Some(after) = self.machine.task(number) {
            self.run_on(number, before, after, stop);
        }
        Ok(())
    }

    /// What the 0-lag timer at a block comes to, where the changed rule gives its moment.
    fn see_block(
        &mut self,
        kept: KeptLine,
        task: DeadlineTask,
        stop: Stop,
    ) -> Result<(), AllocError> {
        let Some(difference) = block_difference(self.change, task, kept.at) else {
            return Ok(());
        };
        let answer = block_answer(task, stop, difference, self.within);
        self.answers.insert(kept.line, answer)?;
        Ok(())
    }

    /// A task that blocks after its 0-lag time leaves `running_bw` as it is, where that is the change.
    fn run_on(&mut self, number: u32, before: DeadlineTask, after: DeadlineTask, stop: Stop) {
        if self.change == RuleChange::PastRunsOn
            && runs(before)
            && matches!(stop, Stop::Blocks)
            && matches!(after.activity, Activity::Inactive)
        {
            self.machine.replace(
                number,
                DeadlineTask {
                    activity: Activity::NonContending,
                    ..after
                },
            );
        }
    }

    /// `dl_task_timer` is started.
    fn start(
        &mut self,
        lines: &KeptLines,
        kept: KeptLine,
        timer: u32,
        expires: u64,
    ) -> Result<(), AllocError> {
        self.machine.step(lines, kept)?;
        let Owner::Task(number) = self.machine.owner(timer) else {
            return Ok(());
        };
        let Some(task) = self.machine.task(number) else {
            return Ok(());
        };
        if let Some(answer) = start_answer(self.change, task, kept.at, expires, self.within) {
            self.answers.insert(kept.line, answer)?;
        }
        Ok(())
    }

    /// `dl_task_timer` fires.
    fn fire(&mut self, lines: &KeptLines, kept: KeptLine, timer: u32) -> Result<(), AllocError> {
        let Owner::Task(number) = self.machine.owner(timer) else {
            return self.machine.step(lines, kept);
        };
        if let Some(task) = self.machine.task(number) {
            let fired = fired_by(self.change, self.law(), task, kept.at);
            self.machine.replace(number, fired);
        }
        Ok(())
    }
}
