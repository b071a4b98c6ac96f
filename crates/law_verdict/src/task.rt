//! One task.

ghost use Rattle.std.specs.Prelude.{◌≤◌, IfSome};

use law_findings::{Spread, spread_of};
use std::alloc::{AllocError, Global};
use trace_data::{Budget, Enqueued, Parameters};

/// ENQUEUE_WAKEUP.
const WAKEUP: u64 = 1;

/// SCHED_FLAG_RECLAIM.
const RECLAIM: u64 = 2;

/// SCHED_FLAG_SUGOV: of the frequency governor, without a reservation of its own.
const SUGOV: u64 = 0x1000_0000;

/// What a task had. Spans are nanoseconds.
#[derive(Clone, Copy)]
pub struct TaskFigures {
    pub pid: u64,

    /// Its last reservation.
    pub parameters: Parameters,

    /// How often it woke, and was throttled.
    pub jobs: u64,
    pub throttled: u64,

    /// How many charges there were, and how far those with budget left came after the deadline.
    pub charges: u64,
    pub late: Option<Spread>,

    /// How long it ran in charges whose cost a line shows, and how much less they cost.
    pub ran: u64,
    pub reclaimed: u64,
}

/// Where a task stands.
#[derive(Clone, Copy, PartialEq, Eq)]
enum Standing {
    Off,
    Queued,

    /// Its dequeue has begun, and may charge it.
    Leaving,
}

/// A charge whose cost the task's next line shows.
#[derive(Clone, Copy)]
struct OpenCharge {
    budget: Budget,
    nanos: u64,
}

/// A task so far.
#[derive(Drop)]
pub(crate) struct OpenTask {
    pid: u64,
    parameters: Option<Parameters>,
    is_boosted: bool,
    standing: Standing,
    was_throttled: bool,
    jobs: u64,
    throttled: u64,
    charges: u64,
    late: Vec<u64>,
    charge: Option<OpenCharge>,
    ran: u64,
    reclaimed: u64,
}

/// What a charge cost, by the task's next line: where that has the same deadline, what the budget fell by, at most the run.
fn cost_of(charge: OpenCharge, budget: Budget) -> Option<u64>
    ensures { IfSome result (λ cost. cost ≤ charge.nanos) }
{
    if charge.budget.deadline != budget.deadline {
        return None;
    }
    let spent = charge.budget.runtime.saturating_sub(budget.runtime);
    if spent >= 0 && spent.unsigned_abs() <= charge.nanos {
        Some(spent.unsigned_abs())
    } else {
        None
    }
}

impl OpenTask {
    pub fn new(alloc: Global, pid: u64) -> OpenTask {
        OpenTask {
            pid,
            parameters: None,
            is_boosted: false,
            standing: Standing::Off,
            was_throttled: false,
            jobs: 0,
            throttled: 0,
            charges: 0,
            late: Vec::new(alloc),
            charge: None,
            ran: 0,
            reclaimed: 0,
        }
    }

    /// A line shows a budget: what the charge before it cost, and whether that throttled the task.
    fn see(&mut self, budget: Budget) {
        self.end_charge(budget);
        self.throttle(budget.is_throttled);
    }

    fn end_charge(&mut self, budget: Budget) {
        let Some(charge) = self.charge.take() else {
            return;
        };
        let Some(cost) = cost_of(charge, budget) else {
            return;
        };
        self.ran = self.ran.saturating_add(charge.nanos);
        self.reclaimed = self.reclaimed.saturating_add(charge.nanos - cost);
    }

    fn throttle(&mut self, is_throttled: bool) {
        if is_throttled && !self.was_throttled {
            self.throttled = self.throttled.saturating_add(1);
        }
        self.was_throttled = is_throttled;
    }

    pub fn enqueued(&mut self, line: &Enqueued) {
        self.see(line.budget);
        self.place(line);
    }

    /// Where an enqueue puts the task: that of a task of another class is the end of a boost.
    fn place(&mut self, line: &Enqueued) {
        self.is_boosted = line.entity != line.served_by;
        if line.normal_prio >= 0 && !self.is_boosted {
            self.standing = Standing::Off;
            return;
        }
        self.parameters = Some(line.parameters);
        self.standing = Standing::Queued;
        self.was_throttled = false;
        if line.flags & WAKEUP != 0 {
            self.jobs = self.jobs.saturating_add(1);
        }
    }

    pub fn dequeued(&mut self, budget: Budget) {
        self.see(budget);
        self.standing = Standing::Leaving;
    }

    pub fn left(&mut self) {
        self.charge = None;
        self.standing = Standing::Off;
    }

    /// A charge for a run of so many nanoseconds; whether it is of this task's own budget.
    pub fn charged(&mut self, clock: u64, budget: Budget, nanos: u64) -> Result<bool, AllocError> {
        self.see(budget);
        let is_run = self.is_run(budget, nanos);
        self.end_dequeue();
        if is_run {
            self.open_charge(budget, nanos);
            self.have(clock, budget)?;
        }
        Ok(is_run)
    }

    /// Whether a charge is for a run of the task: it is queued, and not throttled.
    fn is_run(&self, budget: Budget, nanos: u64) -> bool {
        self.standing != Standing::Off && !budget.is_throttled && nanos != 0
    }

    /// The charge within a dequeue is the last one.
    fn end_dequeue(&mut self) {
        self.standing = match self.standing {
            Standing::Off | Standing::Leaving => Standing::Off,
            Standing::Queued => Standing::Queued,
        };
    }

    /// What a charge cost is shown by the next line, where the task reclaims.
    fn open_charge(&mut self, budget: Budget, nanos: u64) {
        self.charge = if self.reclaims() {
            Some(OpenCharge { budget, nanos })
        } else {
            None
        };
    }

    /// Own budget was had at this moment of the runqueue's clock.
    fn have(&mut self, clock: u64, budget: Budget) -> Result<(), AllocError> {
        if self.is_boosted || budget.runtime <= 0 {
            return Ok(());
        }
        self.charges = self.charges.saturating_add(1);
        if clock > budget.deadline {
            self.late.push(clock - budget.deadline)?;
        }
        Ok(())
    }

    fn reclaims(&self) -> bool {
        match self.parameters {
            Some(parameters) => parameters.flags & RECLAIM != 0 && !self.is_boosted,
            None => false,
        }
    }

    /// What the task had; none of a task without a reservation of its own.
    pub fn figures(&mut self) -> Option<TaskFigures> {
        let parameters = self.parameters?;
        if parameters.flags & SUGOV != 0 || parameters.dl_runtime == 0 {
            return None;
        }
        Some(TaskFigures {
            pid: self.pid,
            parameters,
            jobs: self.jobs,
            throttled: self.throttled,
            charges: self.charges,
            late: spread_of(&mut self.late),
            ran: self.ran,
            reclaimed: self.reclaimed,
        })
    }
}
