//! The 0-lag time: what a block arms.

use crate::cpu::Last;
use crate::play::LawPlay;
use crate::states::SLEEP;
use law_findings::{
    Blocked, Breach, Finding, Law, LawLine, LineKind, ReadLine, Sign, Whose, is_armed_for, is_past,
    nanos_of,
};
use std::alloc::AllocError;
use trace_data::{Dequeued, Enqueued, Expiry, LeftClass, Picked, ServerStopped, Updated};

/// A microsecond, to which moments of lines are cut.
const MICRO: i64 = 1000;

/// For when a 0-lag timer is armed, and at which line.
#[derive(Clone, Copy)]
pub(crate) struct ArmedAt {
    pub place: LawLine,
    pub expiry: Expiry,
}

/// The charge within a dequeue: the budget and the deadline before it, and how long the task ran.
#[derive(Clone, Copy)]
struct ChargeWithin {
    budget: i64,
    deadline: u64,
    nanos: i64,
}

/// A block whose outcome later lines show.
#[derive(Clone, Copy)]
pub(crate) struct OpenBlock {
    place: LawLine,

    /// Which line of its CPU it is.
    count: u64,
    shown: Blocked,
    charge: Option<ChargeWithin>,
    armed: Option<ArmedAt>,

    /// It was replenished, or its reservation was changed, while it was blocked.
    is_changed: bool,

    /// The handler of its 0-lag timer may have run at the block: then none is armed (`hrtimer_active`).
    is_handled: bool,
}

impl OpenBlock {
    fn with(&self, budget: i64, deadline: u64) -> Blocked {
        Blocked {
            budget,
            deadline,
            ..self.shown
        }
    }
}

impl LawPlay {
    /// A dequeue by which a task blocks.
    pub(crate) fn block_dequeued(&mut self, place: usize, read: ReadLine, line: &Dequeued) {
        if line.flags & SLEEP == 0 {
            return;
        }
        let shown = Blocked {
            budget: line.budget.runtime,
            deadline: line.budget.deadline,
            dl_runtime: 0,
            dl_period: 0,
            clock: line.clock,
        };
        self.open_block(place, read.place(LineKind::Dequeue), shown);
    }

    /// A queued task leaves the class: it goes like one that blocks.
    pub(crate) fn block_left(&mut self, place: usize, read: ReadLine, line: &LeftClass) {
        if line.on_rq != 1 {
            return;
        }
        let shown = Blocked {
            budget: line.runtime,
            deadline: line.deadline,
            dl_runtime: 0,
            dl_period: 0,
            clock: line.clock,
        };
        self.open_block(place, read.place(LineKind::Leave), shown);
    }

    fn open_block(&mut self, place: usize, at: LawLine, shown: Blocked) {
        let count = self.cpus.of(at.cpu).count;
        let Some(task) = self.tasks.get_mut(place) else {
            return;
        };
        let Some(reservation) = task.reservation else {
            return;
        };
        if reservation.parameters.dl_runtime == 0 || reservation.is_special() {
            return;
        }
        let is_handled = self.cpus.handles(task.pid);
        task.block = Some(OpenBlock {
            place: at,
            count,
            shown: Blocked {
                dl_runtime: reservation.parameters.dl_runtime,
                dl_period: reservation.parameters.dl_period,
                ..shown
            },
            charge: None,
            armed: None,
            is_changed: false,
            is_handled,
        });
        let pid = task.pid;
        if let Some(cpu) = self.cpus.get_mut(at.cpu) {
            cpu.blocking = Some(pid);
        }
    }

    /// A line of this CPU that ends the call of a block.
    pub(crate) fn end_block(&mut self, cpu: u32) {
        let _ = self.cpus.take_picked(cpu);
        if let Some(cpu) = self.cpus.get_mut(cpu) {
            cpu.blocking = None;
        }
    }

    /// A fair server stops, and blocks.
    pub(crate) fn block_picked(&mut self, read: ReadLine, line: &Picked) {
        if line.dl_runtime == 0 {
            return;
        }
        let shown = Blocked {
            budget: line.runtime,
            deadline: line.deadline,
            dl_runtime: line.dl_runtime,
            dl_period: line.dl_period,
            clock: line.clock,
        };
        self.open_server(read.place(LineKind::ServerPick), shown);
    }

    /// A fair server is stopped, and blocks.
    pub(crate) fn block_stopped(&mut self, read: ReadLine, line: &ServerStopped) {
        if line.dl_runtime == 0 || !line.is_active {
            return;
        }
        let shown = Blocked {
            budget: line.runtime,
            deadline: line.deadline,
            dl_runtime: line.dl_runtime,
            dl_period: line.dl_period,
            clock: line.clock,
        };
        self.open_server(read.place(LineKind::ServerStop), shown);
    }

    fn open_server(&mut self, place: LawLine, shown: Blocked) {
        let count = self.cpus.of(place.cpu).count;
        self.cpus.pick(
            place.cpu,
            OpenBlock {
                place,
                count,
                shown,
                charge: None,
                armed: None,
                is_changed: false,
                is_handled: false,
            },
        );
    }

    /// A 0-lag timer is armed on this CPU: it is that of what blocked there.
    pub(crate) fn block_armed(&mut self, read: ReadLine, expiry: Expiry) -> Result<(), AllocError> {
        let armed = ArmedAt {
            place: read.place(LineKind::Arm),
            expiry,
        };
        let cpu = self.cpus.of(read.cpu);
        let picked = self.cpus.take_picked(read.cpu);
        self.end_block(read.cpu);
        if let Some(picked) = picked
            && cpu.is_recent(picked.count)
        {
            let whose = Whose::Server { cpu: read.cpu };
            return self.judge_armed(whose, &picked, armed, picked.shown, picked.shown);
        }
        if let Some(pid) = cpu.blocking
            && let Some(place) = self.tasks.find(pid)
            && let Some(task) = self.tasks.get_mut(place)
            && let Some(block) = &mut task.block
            && cpu.is_recent(block.count)
        {
            block.armed = Some(armed);
            return self.total.await_zero_lag(place);
        }
        Ok(())
    }

    /// Whether the first charge right behind a block is within its dequeue: its outcome is shown by the line after.
    pub(crate) fn charge_block(&mut self, place: usize, read: ReadLine, line: &Updated) -> bool {
        let is_next = self.cpus.of(read.cpu).last == Last::Dequeued { pid: line.pid };
        let count = self.cpus.of(read.cpu).count;
        let Some(task) = self.tasks.get_mut(place) else {
            return false;
        };
        let Some(block) = &mut task.block else {
            return false;
        };
        let is_within = is_next
            && block.place.kind == LineKind::Dequeue
            && block.place.cpu == read.cpu
            && block.count.saturating_add(1) == count;
        if is_within {
            block.charge = Some(ChargeWithin {
                budget: line.budget.runtime,
                deadline: line.budget.deadline,
                nanos: nanos_of(line.ran),
            });
        }
        is_within
    }

    /// The reservation of the task of this pid is changed while it is blocked, or it is replenished.
    pub(crate) fn change_block(&mut self, pid: u64) {
        if let Some(place) = self.tasks.find(pid)
            && let Some(task) = self.tasks.get_mut(place)
            && let Some(block) = &mut task.block
        {
            block.is_changed = true;
        }
    }

    /// The enqueue behind a block shows the budget that it left.
    pub(crate) fn block_woken(
        &mut self,
        place: usize,
        read: ReadLine,
        line: &Enqueued,
        is_replenished: bool,
    ) -> Result<(), AllocError> {
        let Some((pid, block)) = self.take_block(place) else {
            return Ok(());
        };
        if block.place.kind == LineKind::Leave {
            return self.judge_block(pid, &block, block.shown, block.shown);
        }
        let is_charged = self.cpus.of(read.cpu).last
            == Last::Charged {
                pid,
                is_live: true,
                is_leaving: true,
            };
        if is_replenished && is_charged && block.charge.is_some() {
            // The budget before the replenishment stands in no line.
            return Ok(());
        }
        let is_same = line.parameters.dl_runtime == block.shown.dl_runtime
            && line.parameters.dl_period == block.shown.dl_period;
        if is_same && !block.is_changed {
            let shown = block.with(line.budget.runtime, line.budget.deadline);
            return self.judge_block(pid, &block, shown, shown);
        }
        self.judge_open(pid, &block)
    }

    /// Any other line of the task behind a block, or the end of the record.
    pub(crate) fn block_unseen(&mut self, place: usize) -> Result<(), AllocError> {
        match self.take_block(place) {
            Some((pid, block)) => self.judge_open(pid, &block),
            None => Ok(()),
        }
    }

    /// The pid of a task, and its block.
    fn take_block(&mut self, place: usize) -> Option<(u64, OpenBlock)> {
        let task = self.tasks.get_mut(place)?;
        let block = task.block.take()?;
        Some((task.pid, block))
    }

    /// Where no line shows the budget behind a block it lies between that of a charge in full and of none.
    fn judge_open(&mut self, pid: u64, block: &OpenBlock) -> Result<(), AllocError> {
        match block.charge {
            Some(charge) if block.place.kind == LineKind::Dequeue => {
                let most = block.with(charge.budget, charge.deadline);
                let least = block.with(charge.budget.saturating_sub(charge.nanos), charge.deadline);
                self.judge_block(pid, block, least, most)
            }
            _ => self.judge_block(pid, block, block.shown, block.shown),
        }
    }

    /// A block of a task whose budget lies between these.
    fn judge_block(
        &mut self,
        pid: u64,
        block: &OpenBlock,
        least: Blocked,
        most: Blocked,
    ) -> Result<(), AllocError> {
        let whose = Whose::Task { pid };
        if let Some(armed) = block.armed {
            return self.judge_armed(whose, block, armed, least, most);
        }
        if most.dl_runtime == 0 {
            return Ok(());
        }
        if is_past(most) {
            self.judged.holds(Law::ZeroLag);
            return Ok(());
        }
        if block.is_handled {
            return Ok(());
        }
        self.judged.breaks(Breach {
            law: Law::ZeroLag,
            place: block.place,
            whose,
            finding: Finding::NotAwaited { ahead: most.span() },
            sign: sign_of(most),
        })
    }

    /// A block with a timer.
    fn judge_armed(
        &mut self,
        whose: Whose,
        block: &OpenBlock,
        armed: ArmedAt,
        least: Blocked,
        most: Blocked,
    ) -> Result<(), AllocError> {
        if least.dl_runtime == 0 || most.dl_runtime == 0 {
            return Ok(());
        }
        let (from, to) = spans_of(block.place.at, armed);
        if is_armed_for(least, most, from, to) {
            self.judged.holds(Law::ZeroLag);
            return Ok(());
        }
        self.judged.breaks(Breach {
            law: Law::ZeroLag,
            place: armed.place,
            whose,
            finding: Finding::OtherZeroLag {
                exact: most.span(),
                armed: to,
            },
            sign: sign_of(most),
        })
    }
}

/// Between which spans behind the block at this moment a timer is armed.
fn spans_of(blocked_at: u64, armed: ArmedAt) -> (i64, i64) {
    match armed.expiry {
        Expiry::After(span) => (span, span),
        Expiry::At(moment) => (
            moment
                .saturating_sub(armed.place.at.cast_signed())
                .saturating_sub(2 * MICRO),
            moment
                .saturating_sub(blocked_at.cast_signed())
                .saturating_add(MICRO),
        ),
    }
}

fn sign_of(block: Blocked) -> Option<Sign> {
    if block.has_wide_product() {
        Some(Sign::ProductWraps)
    } else {
        None
    }
}
