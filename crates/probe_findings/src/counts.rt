//! How many values were compared, and how many differ.

ghost use Rattle.std.specs.Prelude.{◌≡◌};
ghost use Rattle.probe_findings.specs.Tallies.{tallied, tally_of, counted_of, no_tally, no_counts};

use crate::words::{ExactRule, QuantityKind, RULES};

/// How many comparisons of a kind are equal, and how many differ.
#[derive(Clone, Copy)]
pub struct Comparisons {
    pub equal: u64,
    pub differ: u64,
}

/// The tallies of all kinds.
#[derive(Clone, Copy)]
pub struct KindCounts {
    pub budget: Comparisons,
    pub deadline: Comparisons,
    pub flags: Comparisons,
    pub parameters: Comparisons,
    pub this_bw: Comparisons,
    pub running_bw: Comparisons,
    pub extra_bw: Comparisons,
    pub total_bw: Comparisons,
    pub zero_lag: Comparisons,
    pub zero_lag_moment: Comparisons,
    pub timers: Comparisons,
    pub capacities: Comparisons,
    pub addresses: Comparisons,
    pub choices: Comparisons,
    pub laws: Comparisons,
}

const NONE: Comparisons = Comparisons {
    equal: 0,
    differ: 0,
};

fn counted(tally: Comparisons, is_equal: bool) -> Comparisons
    ensures { result ≡ tallied tally is_equal }
{
    if is_equal {
        Comparisons {
            equal: tally.equal.wrapping_add(1),
            ..tally
        }
    } else {
        Comparisons {
            differ: tally.differ.saturating_add(1),
            ..tally
        }
    }
}

impl KindCounts {
    pub fn new() -> KindCounts
        ensures { result ≡ no_counts }
    {
        KindCounts {
            budget: NONE,
            deadline: NONE,
            flags: NONE,
            parameters: NONE,
            this_bw: NONE,
            running_bw: NONE,
            extra_bw: NONE,
            total_bw: NONE,
            zero_lag: NONE,
            zero_lag_moment: NONE,
            timers: NONE,
            capacities: NONE,
            addresses: NONE,
            choices: NONE,
            laws: NONE,
        }
    }

    /// The tally of one kind.
    pub fn of(&self, kind: QuantityKind) -> Comparisons
        ensures { result ≡ tally_of self.now kind }
    {
        match kind {
            QuantityKind::Budget => self.budget,
            QuantityKind::Deadline => self.deadline,
            QuantityKind::Flags => self.flags,
            QuantityKind::Parameters => self.parameters,
            QuantityKind::ThisBw => self.this_bw,
            QuantityKind::RunningBw => self.running_bw,
            QuantityKind::ExtraBw => self.extra_bw,
            QuantityKind::TotalBw => self.total_bw,
            QuantityKind::ZeroLag => self.zero_lag,
            QuantityKind::ZeroLagMoment => self.zero_lag_moment,
            QuantityKind::Timers => self.timers,
            QuantityKind::Capacities => self.capacities,
            QuantityKind::Addresses => self.addresses,
            QuantityKind::Choices => self.choices,
            QuantityKind::Laws => self.laws,
        }
    }

    /// Counts a comparison.
    pub fn add(&mut self, kind: QuantityKind, is_equal: bool)
        ensures { self.new ≡ counted_of self.old kind is_equal }
    {
        match kind {
            QuantityKind::Budget => self.budget = counted(self.budget, is_equal),
            QuantityKind::Deadline => self.deadline = counted(self.deadline, is_equal),
            QuantityKind::Flags => self.flags = counted(self.flags, is_equal),
            QuantityKind::Parameters => self.parameters = counted(self.parameters, is_equal),
            QuantityKind::ThisBw => self.this_bw = counted(self.this_bw, is_equal),
            QuantityKind::RunningBw => self.running_bw = counted(self.running_bw, is_equal),
            QuantityKind::ExtraBw => self.extra_bw = counted(self.extra_bw, is_equal),
            QuantityKind::TotalBw => self.total_bw = counted(self.total_bw, is_equal),
            QuantityKind::ZeroLag => self.zero_lag = counted(self.zero_lag, is_equal),
            QuantityKind::ZeroLagMoment => self.zero_lag_moment = counted(
                self.zero_lag_moment,
                is_equal,
            ),
            QuantityKind::Timers => self.timers = counted(self.timers, is_equal),
            QuantityKind::Capacities => self.capacities = counted(self.capacities, is_equal),
            QuantityKind::Addresses => self.addresses = counted(self.addresses, is_equal),
            QuantityKind::Choices => self.choices = counted(self.choices, is_equal),
            QuantityKind::Laws => self.laws = counted(self.laws, is_equal),
        }
    }
}

/// How often each rule was put to the test.
#[derive(Clone, Copy)]
pub struct RuleCounts {
    counts: [u64; RULES],
}

impl RuleCounts {
    pub fn new() -> RuleCounts {
        RuleCounts { counts: [0; RULES] }
    }

    /// How often this one was.
    pub fn of(&self, rule: ExactRule) -> u64 {
        self.counts.get(rule as usize).copied().unwrap_or(0)
    }

    /// Counts it.
    pub fn add(&mut self, rule: ExactRule) {
        if let Some(count) = self.counts.get_mut(rule as usize) {
            *count = count.wrapping_add(1);
        }
    }
}
