//! What the notes of a record make of its tasks and runqueues.

ghost use Rattle.std.specs.Prelude.{◌≡◌};
ghost use Rattle.timer_play.specs.Notes.{is_before, told_in};
ghost use Rattle.timer_play.specs.States.{state_of};

use crate::counts::TimerRule;
use crate::machine::TimedMachine;
use timer_record::TaskNote;
use timer_tasks::{NoteStep, admitted, changed, left, step_of, was_there};

/// Whether the kernel took the change that a note tells of before the record's first line, to a microsecond.
fn is_before_record(told: TaskNote, begins: u64) -> bool
    ensures { result ≡ is_before told begins }
{
    told.at.is_none() || told.moment.saturating_add(1_000) < begins
}

impl TimedMachine {
    /// A note's change, at its moment.
    #[tactic(auto, unfolding(crate::specs::Notes::told_in))]
    pub fn tell(&mut self, told: TaskNote)
        ensures { state_of self.new ≡ told_in told (state_of self.old) }
    {
        let Some(task) = self.task(told.task) else {
            return;
        };
        match step_of(task, told.policy, is_before_record(told, self.terms.begins)) {
            NoteStep::WasThere(parameters) => {
                self.begin_with(told.task, was_there(task, told.cpu, parameters))
            }
            NoteStep::Admitted(parameters) => {
                self.counts.add(TimerRule::Admitted);
                self.replace(
                    told.task,
                    admitted(task, told.moment, told.is_by_itself, told.cpu, parameters),
                )
            }
            NoteStep::Changed(parameters) => {
                self.counts.add(TimerRule::Changed);
                self.replace(told.task, changed(task, told.moment, parameters))
            }
            NoteStep::Left => {
                self.counts.add(TimerRule::Left);
                self.replace(told.task, left(task))
            }
            NoteStep::Nothing => {}
        }
    }
}
