//! What each task has of the total, and what a lock may leave open.

use std::alloc::{AllocError, Global};
use trace_data::Parameters;

/// After so long a step whose CPU writes no line has its lock.
const LONG: u64 = 100_000_000;

/// So many open shares are tried in either way.
const TRIED: usize = 6;

/// So many choices of them there are.
const CHOICES: u64 = 64;

/// A share that an admission, or an end, may not have taken or given back yet.
#[derive(Clone, Copy)]
pub(crate) struct OpenShare {
    /// The CPU whose next line closes it, and the moment; no CPU where the task's next line does.
    pub cpu: Option<u32>,
    pub at: u64,

    /// The task's place.
    pub task: usize,

    /// What the task had before, and has if the step is taken.
    pub before: u64,
    pub after: u64,
}

/// An admission of which the next lines tell whether it was accepted.
#[derive(Clone, Copy)]
pub(crate) struct Asked {
    pub task: usize,

    /// The CPU of a queued task, which is enqueued in the same call.
    pub cpu: Option<u32>,
    pub bandwidth: u64,
    pub parameters: Parameters,
    pub was_deadline: bool,
}

/// What a task has of the total.
#[derive(Clone, Copy)]
pub(crate) struct Share {
    pub bandwidth: u64,
    pub is_known: bool,

    /// Its 0-lag timer is armed.
    pub is_awaited: bool,

    /// It has ended, or left the class: its 0-lag timer gives its share back.
    pub is_ending: bool,
}

const NEW: Share = Share {
    bandwidth: 0,
    is_known: false,
    is_awaited: false,
    is_ending: false,
};

/// What a root domain has admitted. Tasks go by their places, which the caller gives.
#[derive(Drop)]
pub struct Total {
    /// By the tasks' places.
    pub(crate) shares: Vec<Share>,

    /// The sum of the shares, modulo 2^64, and what total_bw is above it.
    pub(crate) sum: u64,
    pub base: Option<u64>,
    pub(crate) open: Vec<OpenShare>,
    pub(crate) asked: Vec<Asked>,

    /// The shares of tasks that left the class blocked with their 0-lag time past, since the base was taken.
    pub asleep: u64,

    /// Up to this moment a mark leaves total_bw open; always where there are several root domains.
    pub open_until: u64,

    /// A mark stood in the record.
    pub has_marks: bool,

    /// The CPUs whose extra_bw was below 0.
    pub(crate) below: Vec<u32>,

    /// Those whose extra_bw was too low as the record began.
    pub(crate) low_at_start: Vec<u32>,
}

impl Total {
    /// Nothing is admitted yet.
    pub fn new(alloc: Global) -> Total {
        Total {
            shares: Vec::new(alloc),
            sum: 0,
            base: None,
            open: Vec::new(alloc),
            asked: Vec::new(alloc),
            asleep: 0,
            open_until: 0,
            has_marks: false,
            below: Vec::new(alloc),
            low_at_start: Vec::new(alloc),
        }
    }

    pub(crate) fn share(&mut self, task: usize) -> Result<Option<&mut Share>, AllocError> {
        for _ in self.shares.len()..task.saturating_add(1) {
            self.shares.push(NEW)?;
        }
        Ok(self.shares.get_mut(task))
    }

    pub(crate) fn of(&self, task: usize) -> Share {
        self.shares.get(task).copied().unwrap_or(NEW)
    }

    /// The task has this share from now on, or from the end of the present call of this CPU.
    pub(crate) fn take(
        &mut self,
        task: usize,
        bandwidth: u64,
        cpu: Option<u32>,
        at: u64,
    ) -> Result<(), AllocError> {
        let before = self.of(task).bandwidth;
        if let Some(share) = self.share(task)? {
            share.bandwidth = bandwidth;
            share.is_known = true;
        }
        if before != bandwidth {
            self.sum = self.sum.wrapping_sub(before).wrapping_add(bandwidth);
            self.open.push(OpenShare {
                cpu,
                at,
                task,
                before,
                after: bandwidth,
            })?;
        }
        Ok(())
    }

    /// What is known of total_bw begins anew at this moment.
    pub fn restart(&mut self, at: u64) {
        self.base = None;
        self.asleep = 0;
        self.open_until = self.open_until.max(at.saturating_add(LONG));
        self.has_marks = true;
    }

    /// There are several root domains: no line says which one total_bw is of.
    pub fn part(&mut self) {
        self.open_until = u64::MAX;
    }

    /// Closes what a line of this CPU closes; `is_same_call` of a line that may stand in the call of the last step.
    pub fn settle(&mut self, cpu: u32, at: u64, is_same_call: bool) {
        if self.open.is_empty() {
            return;
        }
        self.open.retain(|open| {
            let is_closed = open.cpu == Some(cpu) && !is_same_call;
            !is_closed && at.saturating_sub(open.at) <= LONG
        });
    }

    /// Whether total_bw is the base and the shares, of which each open one may be as before, and each that is asked for may be had.
    pub(crate) fn is_sum(&self, total_bw: u64, base: u64) -> bool {
        let mut steps = [0u64; TRIED];
        for (step, open) in steps.iter_mut().zip(self.open.iter().rev()) {
            *step = open.before.wrapping_sub(open.after);
        }
        let rest = steps.iter_mut().skip(self.open.len());
        for (step, asked) in rest.zip(self.asked.iter().rev()) {
            *step = asked.bandwidth.wrapping_sub(self.of(asked.task).bandwidth);
        }
        is_reached(total_bw, base.wrapping_add(self.sum), &steps)
    }
}

/// Whether a sum and some of these steps come to a total, modulo 2^64.
fn is_reached(total: u64, sum: u64, steps: &[u64]) -> bool {
    for choice in 0..CHOICES {
        if with_steps(sum, steps, choice) == total {
            return true;
        }
    }
    false
}

/// A sum and the steps whose bits are set in a choice.
fn with_steps(sum: u64, steps: &[u64], choice: u64) -> u64 {
    let mut reached = sum;
    let mut bits = choice;
    for step in steps {
        if bits % 2 == 1 {
            reached = reached.wrapping_add(*step);
        }
        bits /= 2;
    }
    reached
}
