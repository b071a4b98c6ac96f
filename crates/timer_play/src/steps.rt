//! A line of a record, played.

ghost use Rattle.std.specs.Prelude.{◌≡◌, OnOk};
ghost use Rattle.timer_play.specs.Events.{event_in, is_of_timer_by, step_in};
ghost use Rattle.timer_play.specs.States.{state_of};

use crate::machine::TimedMachine;
use crate::setup::picks;
use std::alloc::AllocError;
use timer_record::{KeptEvent, KeptLine, KeptLines, TaskLines};
use timer_tasks::after_wake;

/// Whether a line is a timer's.
fn is_of_timer(event: KeptEvent) -> bool
    ensures { result ≡ is_of_timer_by event }
{
    match event {
        KeptEvent::ZeroLagStarted { .. }
        | KeptEvent::ReplenishStarted { .. }
        | KeptEvent::ZeroLagFired { .. }
        | KeptEvent::ReplenishFired { .. } => true,
        KeptEvent::Idles
        | KeptEvent::Woken { .. }
        | KeptEvent::OtherWoken { .. }
        | KeptEvent::Migrated { .. }
        | KeptEvent::Ran { .. }
        | KeptEvent::Switched { .. }
        | KeptEvent::Cancelled { .. } => false,
    }
}

impl TimedMachine {
    /// A kept line. A task that an option gives is admitted at the first line that shows it in the class.
    #[tactic(auto, unfolding(crate::specs::Events::step_in))]
    pub fn step(&mut self, lines: &KeptLines, kept: KeptLine) -> Result<(), AllocError>
        ensures { OnOk result (state_of self.new
            ≡ step_in lines.now.tasks.items kept (state_of self.old)) }
    {
        let is_picked = picks(self.terms.setup.servers) && kept.is_idle && !is_of_timer(kept.event);
        self.idle(is_picked, kept.cpu);
        self.event(&lines.tasks, kept)
    }

    fn event(&mut self, tasks: &[TaskLines], kept: KeptLine) -> Result<(), AllocError>
        ensures { OnOk result (state_of self.new
            ≡ event_in kept.event tasks.now kept (state_of self.old)) }
    {
        match kept.event {
            KeptEvent::Idles => Ok(()),
            KeptEvent::Woken { task, cpu, clock } => {
                self.sight(tasks, task, cpu);
                self.wake(kept.line, task, cpu, clock);
                Ok(())
            }
            KeptEvent::OtherWoken { cpu } => {
                self.serve_where_any(cpu, after_wake(self.server(cpu)));
                Ok(())
            }
            KeptEvent::Migrated { task, cpu } => {
                self.sight(tasks, task, cpu);
                self.migrate(task, cpu);
                Ok(())
            }
            KeptEvent::Ran { task, nanos } => self.run(kept, task, nanos),
            KeptEvent::Switched {
                task,
                is_deadline,
                stop,
                is_next_idle,
            } => {
                self.idle(is_deadline && is_next_idle, kept.cpu);
                self.switch_some(tasks, kept, task, is_deadline, stop)
            }
            KeptEvent::ZeroLagStarted {
                timer,
                task,
                expires,
            } => {
                self.start_lag(tasks, kept, timer, task, expires);
                Ok(())
            }
            KeptEvent::ReplenishStarted { timer, expires } => {
                self.start_replenish(kept, timer, expires)
            }
            KeptEvent::Cancelled { timer } => {
                self.cancel(timer);
                Ok(())
            }
            KeptEvent::ZeroLagFired { timer } => {
                self.fire_lag(timer);
                Ok(())
            }
            KeptEvent::ReplenishFired { timer } => {
                self.fire_replenish(kept, timer);
                Ok(())
            }
        }
    }
}
