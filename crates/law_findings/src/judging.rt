//! How often each law held, and its first breach.

ghost use Rattle.std.specs.Prelude.{◌≡◌};
ghost use Rattle.law_findings.specs.Tallies.{judged_in, judged_with, first_with, no_tallies, none_broken, tally_of};

use crate::words::{Breach, Law};

/// What the test of one value came to.
#[derive(Clone, Copy)]
pub enum Judgement {
    Holds,
    Breaks(Breach),

    /// It breaks the law by a fault that the kernel is known to have.
    Known(Breach),
}

/// How often a law held and was broken, and the first breaches.
#[derive(Clone, Copy)]
pub struct LawTally {
    pub held: u64,
    pub broken: u64,
    pub known: u64,
    pub first: Option<Breach>,
    pub first_known: Option<Breach>,
}

/// The tallies of all laws.
#[derive(Clone, Copy)]
pub struct LawTallies {
    pub progress: LawTally,
    pub expiry: LawTally,
    pub firing: LawTally,
    pub zero_lag: LawTally,
    pub budget: LawTally,
    pub total: LawTally,
    pub pick: LawTally,
    pub run: LawTally,
    pub server: LawTally,
}

const NONE: LawTally = LawTally {
    held: 0,
    broken: 0,
    known: 0,
    first: None,
    first_known: None,
};

impl LawTally {
    /// Counts a value more: the first breach stays the first.
    fn judge(&mut self, judgement: Judgement)
        ensures { self.new ≡ judged_with self.old judgement }
    {
        match judgement {
            Judgement::Holds => self.held = self.held.saturating_add(1),
            Judgement::Breaks(breach) => {
                self.broken = self.broken.saturating_add(1);
                self.first = first_of(self.first, breach);
            }
            Judgement::Known(breach) => {
                self.known = self.known.saturating_add(1);
                self.first_known = first_of(self.first_known, breach);
            }
        }
    }
}

fn first_of(first: Option<Breach>, breach: Breach) -> Option<Breach>
    ensures { result ≡ first_with first breach }
{
    match first {
        Some(first) => Some(first),
        None => Some(breach),
    }
}

impl LawTallies {
    pub fn new() -> LawTallies
        ensures { result ≡ no_tallies }
    {
        LawTallies {
            progress: NONE,
            expiry: NONE,
            firing: NONE,
            zero_lag: NONE,
            budget: NONE,
            total: NONE,
            pick: NONE,
            run: NONE,
            server: NONE,
        }
    }

    /// The tally of a law.
    pub fn of(&self, law: Law) -> LawTally
        ensures { result ≡ tally_of self.now law }
    {
        match law {
            Law::Progress => self.progress,
            Law::Expiry => self.expiry,
            Law::Firing => self.firing,
            Law::ZeroLag => self.zero_lag,
            Law::Budget => self.budget,
            Law::Total => self.total,
            Law::Pick => self.pick,
            Law::Run => self.run,
            Law::Server => self.server,
        }
    }

    /// Counts a value of a law.
    pub fn judge(&mut self, law: Law, judgement: Judgement)
        ensures { self.new ≡ judged_in self.old law judgement }
    {
        match law {
            Law::Progress => self.progress.judge(judgement),
            Law::Expiry => self.expiry.judge(judgement),
            Law::Firing => self.firing.judge(judgement),
            Law::ZeroLag => self.zero_lag.judge(judgement),
            Law::Budget => self.budget.judge(judgement),
            Law::Total => self.total.judge(judgement),
            Law::Pick => self.pick.judge(judgement),
            Law::Run => self.run.judge(judgement),
            Law::Server => self.server.judge(judgement),
        }
    }

    /// Whether no law is broken but by known faults.
    pub fn is_kept(&self) -> bool
        ensures { result ≡ none_broken self.now }
    {
        self.progress.broken == 0
            && self.expiry.broken == 0
            && self.firing.broken == 0
            && self.zero_lag.broken == 0
            && self.budget.broken == 0
            && self.total.broken == 0
            && self.pick.broken == 0
            && self.run.broken == 0
            && self.server.broken == 0
    }
}
