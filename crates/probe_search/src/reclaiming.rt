//! The `extra_bw` of a charge with SCHED_FLAG_RECLAIM: that of its line, unless the task's next line shows that it was another.

use crate::shown::{ChargedTask, NextBudget, next_budget};
use kernel_changes::cost_by;
use kernel_rules::{ChargedRunqueue, Entity, charged};
use probe_explain::ProbeLine;
use probe_run::{Effect, PlayRules, Run, UnlockedSum};
use probe_tasks::law_shown;
use std::cmp::Ordering;
use std::collections::VecDeque;
use trace_data::{Mark, Probe, Ran, Sums, Updated};

/// `max_bw` where a kernel has none.
const NO_MAX_BW: u64 = 0;

/// A whole processor, in units of 2^-20.
const WHOLE_BW: u64 = 1 << 20;

const WHOLE_BW_BITS: u32 = 20;

/// At most so many replenishments of a charge are looked for.
const MOST_REPLENISHMENTS: u64 = 64;

/// A charge of a task that reclaims, with its budget as the line shows it.
#[derive(Clone, Copy)]
pub(crate) struct ReclaimingCharge {
    pub rules: PlayRules,
    pub task: ChargedTask,
    pub entity: Entity,
    pub line: Updated,
    pub nanos: u64,

    /// A function changes `extra_bw` by no rule of a task: the charge may have read any.
    pub is_open: bool,
}

/// What a charge reads of its runqueue, with this `extra_bw`.
fn runqueue_of(line: &Updated, extra_bw: u64) -> ChargedRunqueue {
    let max_bw = match line.ran {
        Ran::Span { max_bw, .. } => max_bw,
        Ran::Clocks { max_bw, .. } => max_bw.unwrap_or(NO_MAX_BW),
    };
    ChargedRunqueue {
        sums: Sums {
            extra_bw,
            ..line.sums
        },
        max_bw,
        bw_ratio: line.bw_ratio,
    }
}

impl ReclaimingCharge {
    /// The budget that the charge leaves, by this `extra_bw`.
    fn left(&self, extra_bw: u64) -> i64 {
        let cost = cost_by(
            self.rules.change,
            law_shown(self.rules.law, self.line.ran),
            self.entity,
            runqueue_of(&self.line, extra_bw),
            self.nanos,
        );
        charged(self.entity, cost).budget.runtime
    }

    /// Whether this `extra_bw` leaves the budget that the task's next line shows.
    fn agrees(&self, extra_bw: u64, shown: NextBudget) -> bool {
        let left = self.left(extra_bw);
        left == shown.runtime || shown.has_fired && self.is_replenished(left, shown.runtime)
    }

    /// Whether replenishments may make this of a budget. Where its deadline has passed, or it was given up by a yield, it is the runtime.
    fn is_replenished(&self, left: i64, shown: i64) -> bool {
        let runtime = self.entity.parameters.dl_runtime.cast_signed();
        shown == runtime || left < shown && shown.wrapping_sub(left).checked_rem(runtime) == Some(0)
    }

    /// How many replenishments a charge may need at most: it costs no more than it lasted.
    fn most_replenishments(&self, shown: NextBudget) -> u64 {
        if !shown.has_fired {
            return 0;
        }
        let runtime = self.entity.parameters.dl_runtime;
        match self.nanos.checked_div(runtime) {
            Some(times) => MOST_REPLENISHMENTS.min(times.wrapping_add(1)),
            None => 0,
        }
    }

    /// Of the `extra_bw` that leave the budget shown, one for each number of replenishments, that which is nearest to the line's.
    fn nearest(&self, shown: NextBudget) -> Option<u64> {
        let runtime = self.entity.parameters.dl_runtime;
        let mut nearest = None;
        for times in 0..=self.most_replenishments(shown) {
            let added = runtime.wrapping_mul(times).cast_signed();
            let Some(extra_bw) = self.with_any(shown.runtime.wrapping_sub(added)) else {
                continue;
            };
            nearest = match nearest {
                Some(near) if self.distance(near) <= self.distance(extra_bw) => nearest,
                _ => Some(extra_bw),
            };
        }
        nearest
    }

    /// How far this `extra_bw` is from the line's.
    fn distance(&self, extra_bw: u64) -> u64 {
        let by = extra_bw.wrapping_sub(self.line.sums.extra_bw);
        by.cast_signed().unsigned_abs()
    }

    /// The `extra_bw` with one more of the pending effects that leaves the budget shown.
    fn with_pending(&self, run: &Run, shown: NextBudget) -> Option<u64> {
        for pending in run.pending() {
            if let Effect::Adds {
                sum: UnlockedSum::ExtraBw(cpu),
                amount,
            } = pending.effect
                && cpu == self.line.cpu
            {
                let later = self.line.sums.extra_bw.wrapping_add(amount);
                if self.agrees(later, shown) {
                    return Some(later);
                }
            }
        }
        None
    }

    /// Any `extra_bw` that leaves this budget: the greater its sum with the inactive bandwidth is, the less the charge costs.
    fn with_any(&self, shown: i64) -> Option<u64> {
        let sums = self.line.sums;
        let inactive = sums.this_bw.wrapping_sub(sums.running_bw);
        let (mut least, mut most) = (0u64, WHOLE_BW);
        for _ in 0..=WHOLE_BW_BITS {
            let sum = least.wrapping_add(most) / 2;
            let extra_bw = sum.wrapping_sub(inactive);
            match self.left(extra_bw).cmp(&shown) {
                Ordering::Equal => return Some(extra_bw),
                Ordering::Less => least = sum.wrapping_add(1),
                Ordering::Greater => most = sum,
            }
        }
        None
    }
}

/// Whether an effect on the `extra_bw` of a CPU is pending.
pub(crate) fn has_effect_on(run: &Run, cpu: u32) -> bool {
    run.pending().iter().any(|one| match one.effect {
        Effect::Adds {
            sum: UnlockedSum::ExtraBw(of),
            ..
        } => of == cpu,
        _ => false,
    })
}

/// Whether a function changes `extra_bw` by no rule of a task.
fn opens(probe: &Probe) -> bool {
    matches!(
        probe,
        Probe::Mark(
            Mark::DomainAttached { .. }
                | Mark::BandwidthTaken { .. }
                | Mark::BandwidthFreed { .. }
                | Mark::LimitHandled { is_write: true }
                | Mark::ServerChanged { .. }
        )
    )
}

/// Whether such a function has begun, or begins before the next line of the CPU that writes this one.
pub(crate) fn is_open_at(run: &Run, next: &ProbeLine, ahead: &VecDeque<ProbeLine>) -> bool {
    next.place.at <= run.open_until() || opens_before_next(next.place.cpu, ahead)
}

fn opens_before_next(by: u32, ahead: &VecDeque<ProbeLine>) -> bool {
    for line in ahead.iter() {
        if line.place.cpu == by {
            return false;
        }
        if opens(&line.probe) {
            return true;
        }
    }
    false
}

/// The `extra_bw` of a charge, where it is another than the line's.
pub(crate) fn later_extra(
    run: &Run,
    charge: &ReclaimingCharge,
    ahead: &VecDeque<ProbeLine>,
) -> Option<u64> {
    let shown = next_budget(run, charge.task, ahead)?;
    if charge.agrees(charge.line.sums.extra_bw, shown) {
        return None;
    }
    let later = charge.with_pending(run, shown);
    if later.is_some() || !charge.is_open {
        return later;
    }
    charge.nearest(shown)
}
