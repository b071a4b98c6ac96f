//! What a wake or a move of a task leaves in a record.

ghost use Rattle.std.specs.Prelude.{◌≡◌, OnOk};
ghost use Rattle.timer_record.specs.Kept.{kept_of};
ghost use Rattle.timer_record.specs.Passing.{claimed_by, met_in, migrated_in, moved_in, woken_as, woken_behind, woken_in};

use crate::before::Before;
use crate::event::KeptEvent;
use crate::record::{KeptPlace, OpenRecord};
use std::alloc::AllocError;

impl OpenRecord {
    pub(crate) fn woken(
        &mut self,
        place: KeptPlace,
        pid: u64,
        is_deadline: bool,
        cpu: u32,
    ) -> Result<(), AllocError>
        ensures { OnOk result (kept_of self.new
            ≡ woken_in place pid is_deadline cpu (kept_of self.old)) }
    {
        let before = self.before(place.cpu);
        self.set_before(place.cpu, Before::Nothing)?;
        self.woken_behind(place, pid, is_deadline, cpu, before)
    }

    /// A task wakes, behind what the line before on its CPU told.
    #[tactic(auto, unfolding(crate::specs::Passing::woken_behind))]
    fn woken_behind(
        &mut self,
        place: KeptPlace,
        pid: u64,
        is_deadline: bool,
        cpu: u32,
        before: Before,
    ) -> Result<(), AllocError>
        ensures { OnOk result (kept_of self.new
            ≡ woken_behind place pid is_deadline cpu before (kept_of self.old)) }
    {
        let Some(task) = self.task_of(pid) else {
            if !is_deadline {
                return self.keep(place, KeptEvent::OtherWoken { cpu });
            }
            self.meet(place.line, pid)?;
            return self.keep_idle(place);
        };
        self.claim(before, task);
        if is_deadline {
            self.keep_wake(place, task, cpu)
        } else {
            self.keep(place, KeptEvent::OtherWoken { cpu })
        }
    }

    /// The timer whose start the wake of a task of the class follows is that task's.
    fn claim(&mut self, before: Before, task: u32)
        ensures { kept_of self.new ≡ claimed_by before task (kept_of self.old) }
    {
        if let Before::Started { timer } = before {
            if self.is_deadline(task) {
                if let Some(lines) = self.lines.timers.get_mut(timer as usize) {
                    *lines = lines.with_wake(task);
                }
            }
        }
    }

    /// A task of the class that has a reservation wakes on a CPU.
    #[tactic(auto, unfolding(crate::specs::Passing::woken_as))]
    fn keep_wake(&mut self, place: KeptPlace, task: u32, cpu: u32) -> Result<(), AllocError>
        ensures { OnOk result (kept_of self.new ≡ woken_as place task cpu (kept_of self.old)) }
    {
        let kept = self.lines.kept.len();
        if let Some(passing) = self.passing.get_mut(task as usize) {
            passing.woken = Some(kept);
        }
        self.keep(
            place,
            KeptEvent::Woken {
                task,
                cpu,
                clock: place.at,
            },
        )
    }

    /// A task of the class that has no reservation wakes.
    #[tactic(auto, unfolding(crate::specs::Passing::met_in))]
    fn meet(&mut self, line: u64, pid: u64) -> Result<(), AllocError>
        ensures { OnOk result (kept_of self.new ≡ met_in line pid (kept_of self.old)) }
    {
        self.lines.boosted = self.lines.boosted.saturating_add(1);
        if !self.strangers.contains_key(&pid) {
            let _ = self.strangers.insert(pid, line)?;
        }
        Ok(())
    }

    pub(crate) fn migrated(
        &mut self,
        place: KeptPlace,
        pid: u64,
        is_deadline: bool,
        cpu: u32,
    ) -> Result<(), AllocError>
        ensures { OnOk result (kept_of self.new
            ≡ migrated_in place pid is_deadline cpu (kept_of self.old)) }
    {
        self.set_before(place.cpu, Before::Nothing)?;
        self.keep_move(place, pid, is_deadline, cpu)
    }

    /// The task of this pid is moved to a CPU.
    #[tactic(auto, unfolding(crate::specs::Passing::moved_in))]
    fn keep_move(
        &mut self,
        place: KeptPlace,
        pid: u64,
        is_deadline: bool,
        cpu: u32,
    ) -> Result<(), AllocError>
        ensures { OnOk result (kept_of self.new
            ≡ moved_in place pid is_deadline cpu (kept_of self.old)) }
    {
        match self.task_of(pid) {
            Some(task) if is_deadline => self.keep(place, KeptEvent::Migrated { task, cpu }),
            _ => self.keep_idle(place),
        }
    }
}
