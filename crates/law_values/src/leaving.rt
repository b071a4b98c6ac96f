//! Tasks that end, or leave the class, give their shares back.

use crate::shares::Total;
use law_findings::ReadLine;
use std::alloc::AllocError;

impl Total {
    /// A task with a reservation blocks; a dead one gives its share back, now or by its 0-lag timer.
    pub fn block(&mut self, task: usize, read: ReadLine, is_dead: bool) -> Result<(), AllocError> {
        if let Some(share) = self.share(task)? {
            share.is_awaited = false;
            share.is_ending = is_dead;
        }
        if is_dead {
            self.take(task, 0, Some(read.cpu), read.at)?;
        }
        Ok(())
    }

    /// The 0-lag timer of a task is armed: what it gives back waits for it.
    pub fn await_zero_lag(&mut self, task: usize) -> Result<(), AllocError> {
        let share = self.of(task);
        if let Some(share) = self.share(task)? {
            share.is_awaited = true;
        }
        if !share.is_ending || share.bandwidth != 0 {
            return Ok(());
        }
        let place = self
            .open
            .iter()
            .rposition(|open| open.task == task && open.after == 0);
        if let Some(place) = place
            && place < self.open.len()
        {
            let open = self.open.swap_remove(place);
            self.sum = self.sum.wrapping_add(open.before);
            if let Some(share) = self.share(task)? {
                share.bandwidth = open.before;
            }
        }
        Ok(())
    }

    /// A task with a reservation leaves the class: its share goes now, or with its 0-lag timer.
    pub fn leave(
        &mut self,
        task: usize,
        read: ReadLine,
        is_queued: bool,
    ) -> Result<(), AllocError> {
        let share = self.of(task);
        let is_awaited = share.is_awaited && !is_queued;
        if let Some(share) = self.share(task)? {
            share.is_awaited = is_awaited;
            share.is_ending = true;
        }
        if is_awaited {
            return Ok(());
        }
        if !is_queued {
            self.asleep = self.asleep.wrapping_add(share.bandwidth);
        }
        self.take(task, 0, Some(read.cpu), read.at)
    }

    /// The 0-lag timer of a task fires: what has ended or left gives its share back.
    pub fn zero_lag_fired(&mut self, task: usize, read: ReadLine) -> Result<(), AllocError> {
        let share = self.of(task);
        if !share.is_awaited {
            return Ok(());
        }
        if let Some(share) = self.share(task)? {
            share.is_awaited = false;
        }
        if share.is_ending {
            self.take(task, 0, Some(read.cpu), read.at)?;
        }
        Ok(())
    }
}
