//! Lines that show a task's state: enqueues, charges, dequeues, and the end of the class.

use crate::cpu::Last;
use crate::play::LawPlay;
use crate::task::{Charge, Reservation, SUGOV, Task, Throttling};
use law_findings::{LineKind, Queued, ReadLine, Sign};
use law_values::Ready;
use std::alloc::AllocError;
use trace_data::{Budget, Dequeued, Enqueued, LeftClass, Ran, Updated};

/// Bits of ENQUEUE_ flags.
pub(crate) const RESTORE: u64 = 2;

pub(crate) const REPLENISH: u64 = 0x20;

/// DEQUEUE_SLEEP.
pub(crate) const SLEEP: u64 = 1;

/// `__state` of a task that has ended.
const DEAD: u64 = 0x80;

impl LawPlay {
    pub(crate) fn enqueued(&mut self, read: ReadLine, line: &Enqueued) -> Result<(), AllocError> {
        let place = self.tasks.place(line.pid)?;
        self.see_sums(read, LineKind::Enqueue, line.cpu, line.clock, line.sums)?;
        self.answer_enqueue(read.cpu, line);
        self.own_fired(read.cpu, place, line)?;
        self.see_runtime(place, line.budget.deadline);
        self.next_state(place, line.budget.is_throttled)?;
        let is_replenished = line.flags & REPLENISH != 0;
        self.block_woken(place, read, line, is_replenished)?;
        if !is_replenished {
            self.end_block(read.cpu);
        }
        let reservation = Reservation::of(line);
        let is_back = line.normal_prio >= 0 && !reservation.is_boosted;
        self.shown_pick(place, line.pid, Some(queued_of(line.budget)))?;
        self.total.enqueue(place, read, line, is_back)?;
        let is_leaving = is_replenished
            && line.flags & RESTORE == 0
            && is_charged_leaving(self.cpus.of(read.cpu).last, line.pid);
        if !is_back && !is_leaving {
            self.picks.queue(place, line.cpu)?;
        }
        let count = self.cpus.of(read.cpu).count;
        let mut sign = None;
        if let Some(task) = self.tasks.get_mut(place) {
            sign = wait_sign(line, task.sign);
            task.sign = sign;
            task.reservation = Some(reservation);
            task.is_queued = !is_back;
            task.is_away = is_back;
            task.throttling = Some(Throttling {
                cpu: read.cpu,
                count,
                at: read.at,
                clock: line.clock,
                deadline: line.budget.deadline,
                dl_deadline: line.parameters.dl_deadline,
                dl_period: line.parameters.dl_period,
            });
        }
        self.excuse_zero_lag(line.pid);
        if !is_back {
            self.wake_zero_lag(place, read);
        }
        if reservation.is_boosted {
            self.excuse_replenish(place);
        }
        self.shown_ready(
            place,
            line.pid,
            read,
            LineKind::Enqueue,
            Some(line.budget.is_throttled),
        )?;
        if !is_back && !is_leaving {
            self.ready.add(Ready {
                task: place,
                pid: line.pid,
                cpu: line.cpu,
                since: read.at,
                sign,
            })?;
        }
        self.throttled_enqueue(place, read, line, is_back)?;
        self.budget_at_wake(place, read, line.budget, line.flags)?;
        self.see_before(place, read.line, LineKind::Enqueue);
        if let Some(cpu) = self.cpus.get_mut(read.cpu) {
            cpu.last = Last::Enqueued { pid: line.pid };
        }
        Ok(())
    }

    pub(crate) fn updated(&mut self, read: ReadLine, line: &Updated) -> Result<(), AllocError> {
        let now = match line.ran {
            Ran::Clocks { now, .. } => now,
            Ran::Span { .. } => line.clock,
        };
        self.see_sums(read, LineKind::Update, line.cpu, now, line.sums)?;
        let cpu = self.cpus.of(read.cpu);
        let is_leaving = cpu.last == Last::Dequeued { pid: line.pid };
        let found = self.tasks.find(line.pid);
        let mut is_live = false;
        if let Some(place) = found {
            is_live = match self.tasks.get(place) {
                Some(task) => is_charged(task, line, is_leaving),
                None => false,
            };
            if is_live {
                self.charged(place, read, line, is_leaving)?;
                self.charged_ready(place, read, line, is_leaving)?;
            }
        }
        if let Some(cpu) = self.cpus.get_mut(read.cpu) {
            cpu.last = Last::Charged {
                pid: line.pid,
                is_live,
                is_leaving,
            };
            cpu.charged = if is_live { Some(line.pid) } else { None };
            cpu.firing = None;
        }
        Ok(())
    }

    /// A charge shows that its task could run, and it may run on.
    fn charged_ready(
        &mut self,
        place: usize,
        read: ReadLine,
        line: &Updated,
        is_leaving: bool,
    ) -> Result<(), AllocError> {
        let is_throttled = Some(line.budget.is_throttled);
        self.shown_ready(place, line.pid, read, LineKind::Update, is_throttled)?;
        if let Some(task) = self.tasks.get_mut(place) {
            task.sign = None;
        }
        if is_leaving {
            return Ok(());
        }
        self.ready.add(Ready {
            task: place,
            pid: line.pid,
            cpu: line.cpu,
            since: read.at,
            sign: None,
        })
    }

    /// A task in the tree is charged.
    fn charged(
        &mut self,
        place: usize,
        read: ReadLine,
        line: &Updated,
        is_leaving: bool,
    ) -> Result<(), AllocError> {
        self.see_runtime(place, line.budget.deadline);
        self.next_state(place, line.budget.is_throttled)?;
        self.shown_pick(place, line.pid, Some(queued_of(line.budget)))?;
        if !is_leaving {
            self.picks.queue(place, line.cpu)?;
        }
        let before = match self.tasks.get(place) {
            Some(task) => task.before.map(|it| it.line),
            None => None,
        };
        self.runs.charge(&mut self.judged, read, line, before)?;
        if !self.charge_block(place, read, line) {
            self.block_unseen(place)?;
        }
        self.budget_in_use(place, read, LineKind::Update, line.budget)?;
        self.see_before(place, read.line, LineKind::Update);
        let count = self.cpus.of(read.cpu).count;
        if let Some(task) = self.tasks.get_mut(place) {
            task.charge = Some(Charge {
                place: read.place(LineKind::Update),
                was_armed: task.is_armed,
                is_answered: false,
                is_boosted: task.is_boosted(),
            });
            if let Some(reservation) = task.reservation {
                task.throttling = Some(Throttling {
                    cpu: read.cpu,
                    count,
                    at: read.at,
                    clock: line.clock,
                    deadline: line.budget.deadline,
                    dl_deadline: reservation.parameters.dl_deadline,
                    dl_period: reservation.parameters.dl_period,
                });
            }
        }
        Ok(())
    }

    pub(crate) fn dequeued(&mut self, read: ReadLine, line: &Dequeued) -> Result<(), AllocError> {
        let place = self.tasks.place(line.pid)?;
        self.see_sums(read, LineKind::Dequeue, line.cpu, line.clock, line.sums)?;
        self.see_runtime(place, line.budget.deadline);
        self.next_state(place, line.budget.is_throttled)?;
        self.block_unseen(place)?;
        self.end_block(read.cpu);
        self.block_dequeued(place, read, line);
        self.shown_pick(place, line.pid, Some(queued_of(line.budget)))?;
        if line.flags & SLEEP != 0 && self.has_reservation(place) {
            self.total.block(place, read, line.state & DEAD != 0)?;
        }
        self.budget_in_use(place, read, LineKind::Dequeue, line.budget)?;
        self.see_before(place, read.line, LineKind::Dequeue);
        if let Some(task) = self.tasks.get_mut(place) {
            task.is_queued = false;
        }
        let is_throttled = Some(line.budget.is_throttled);
        self.shown_ready(place, line.pid, read, LineKind::Dequeue, is_throttled)?;
        self.excuse_zero_lag(line.pid);
        if line.state & DEAD != 0 {
            self.excuse_replenish(place);
        }
        if let Some(cpu) = self.cpus.get_mut(read.cpu) {
            cpu.last = Last::Dequeued { pid: line.pid };
            cpu.charged = None;
            cpu.firing = None;
        }
        self.see_blocker(read.cpu, Some(line.pid));
        Ok(())
    }

    pub(crate) fn left_class(
        &mut self,
        read: ReadLine,
        line: &LeftClass,
    ) -> Result<(), AllocError> {
        let place = self.tasks.place(line.pid)?;
        self.see_sums(read, LineKind::Leave, line.cpu, line.clock, line.sums)?;
        self.next_state(place, false)?;
        self.block_unseen(place)?;
        self.end_block(read.cpu);
        self.block_left(place, read, line);
        self.shown_pick(place, line.pid, None)?;
        if self.has_reservation(place) {
            self.total.leave(place, read, line.on_rq == 1)?;
        }
        self.see_before(place, read.line, LineKind::Leave);
        if let Some(task) = self.tasks.get_mut(place) {
            task.is_queued = false;
            task.is_away = true;
        }
        self.shown_ready(place, line.pid, read, LineKind::Leave, None)?;
        self.excuse_all(line.pid);
        if let Some(cpu) = self.cpus.get_mut(read.cpu) {
            cpu.last = Last::Other;
            cpu.charged = None;
            cpu.firing = None;
        }
        self.see_blocker(read.cpu, Some(line.pid));
        Ok(())
    }

    /// Whether a task has a share of the total.
    fn has_reservation(&self, task: usize) -> bool {
        match self.tasks.get(task) {
            Some(task) => task.reservation.is_some_and(|it| {
                it.parameters.dl_runtime > 0 && it.parameters.flags & SUGOV == 0
            }),
            None => false,
        }
    }

    /// A task's next line shows what the line before left behind.
    fn next_state(&mut self, place: usize, is_throttled: bool) -> Result<(), AllocError> {
        self.throttled_charge(place, is_throttled)?;
        self.confirm_arming(place, is_throttled)
    }
}

/// Whether a charge is of a task in the tree: it is queued, or this very dequeue takes it off, and it is not throttled.
fn is_charged(task: &Task, line: &Updated, is_leaving: bool) -> bool {
    let Some(reservation) = task.reservation else {
        return false;
    };
    let is_off = match line.ran {
        Ran::Clocks { entity, .. } => entity == reservation.entity,
        Ran::Span { .. } => false,
    };
    (task.is_queued || is_leaving) && !line.budget.is_throttled && !is_off
}

/// What the wait that begins at an enqueue has in common with a known fault: a boost replenishes a throttled task. Where the task is
/// only saved and restored, that of its wait before.
fn wait_sign(line: &Enqueued, before: Option<Sign>) -> Option<Sign> {
    let is_boosted = line.entity != line.served_by;
    if is_boosted && line.budget.is_throttled && line.flags & REPLENISH != 0 {
        Some(Sign::BoostNotPicked)
    } else if line.flags & RESTORE != 0 {
        before
    } else {
        None
    }
}

fn queued_of(budget: Budget) -> Queued {
    Queued {
        deadline: budget.deadline,
        is_throttled: budget.is_throttled,
    }
}

/// Whether the last line of a CPU is the charge within the dequeue of this task.
fn is_charged_leaving(last: Last, pid: u64) -> bool {
    match last {
        Last::Charged {
            pid: charged,
            is_leaving: true,
            ..
        } => charged == pid,
        _ => false,
    }
}
