//! What a charge of a task leaves in a record.

ghost use Rattle.std.specs.Prelude.{◌≡◌, OnOk};
ghost use Rattle.timer_record.specs.Kept.{changed, kept_of};
ghost use Rattle.timer_record.specs.Passing.{charged_in, clocked_event, clocked_of, ran_in, run_kept};

use crate::before::Before;
use crate::event::{KeptEvent, KeptLine};
use crate::moment::wake_clock;
use crate::record::{KeptPlace, OpenRecord};
use std::alloc::AllocError;

impl OpenRecord {
    #[tactic(auto, unfolding(crate::specs::Passing::ran_in))]
    pub(crate) fn ran(&mut self, place: KeptPlace, pid: u64, nanos: u64) -> Result<(), AllocError>
        ensures { OnOk result (kept_of self.new ≡ ran_in place pid nanos (kept_of self.old)) }
    {
        let Some(task) = self.task_of(pid) else {
            self.set_before(place.cpu, Before::Nothing)?;
            return self.keep_idle(place);
        };
        self.charge(task, place.at, nanos);
        self.keep_run(place, task, nanos)
    }

    /// A task that has a reservation is charged: the clock of its last wake is known.
    #[tactic(auto, unfolding(crate::specs::Passing::charged_in))]
    fn charge(&mut self, task: u32, at: u64, nanos: u64)
        ensures { kept_of self.new ≡ charged_in task at nanos (kept_of self.old) }
    {
        if let Some(passing) = self.passing.get_mut(task as usize) {
            let woken = passing.woken;
            *passing = passing.charged(at);
            if let Some(woken) = woken {
                set_wake_clock(&mut self.lines.kept, woken, at, nanos);
            }
        }
    }

    /// Its charge is kept.
    #[tactic(auto, unfolding(crate::specs::Passing::run_kept))]
    fn keep_run(&mut self, place: KeptPlace, task: u32, nanos: u64) -> Result<(), AllocError>
        ensures { OnOk result (kept_of self.new ≡ run_kept place task nanos (kept_of self.old)) }
    {
        let before = if self.is_deadline(task) {
            Before::Charged { task }
        } else {
            Before::Nothing
        };
        self.set_before(place.cpu, before)?;
        self.keep(place, KeptEvent::Ran { task, nanos })
    }
}

/// A wake whose first charge is this has the clock that it tells.
fn clocked(event: KeptEvent, charged: u64, nanos: u64) -> KeptEvent
    ensures { result ≡ clocked_event charged nanos event }
{
    match event {
        KeptEvent::Woken { task, cpu, clock } => KeptEvent::Woken {
            task,
            cpu,
            clock: wake_clock(clock, charged, nanos),
        },
        _ => event,
    }
}

/// The wake among kept lines has the clock that this charge tells.
fn set_wake_clock(kept: &mut Vec<KeptLine>, woken: usize, charged: u64, nanos: u64)
    ensures { kept.new.items ≡ changed (clocked_of charged nanos) woken kept.old.items }
{
    if let Some(line) = kept.get_mut(woken) {
        line.event = clocked(line.event, charged, nanos);
    }
}
