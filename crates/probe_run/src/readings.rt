//! What a search and a report may see.

ghost use Rattle.std.specs.Prelude.{◌≡◌, is_none};
ghost use Rattle.probe_findings.specs.Tallies.{none_differs};
ghost use Rattle.probe_run.specs.Runs.{state_of};

use crate::rules::Processor;
use crate::run::Run;
use crate::waiting::{Claim, OlderDequeue, OpenDequeue, PendingEffect, TimerToArm};
use probe_findings::{Comparison, Deviation, KindCounts, RuleCounts};

impl Run {
    /// The effects that are pending, in the order of their lines.
    pub fn pending(&self) -> &[PendingEffect]
        ensures { result.now ≡ (state_of self.now).pending }
    {
        self.pending.as_slice()
    }

    /// The values that were read, and have no point yet, in the order of their lines.
    pub fn claims(&self) -> &[Claim]
        ensures { result.now ≡ (state_of self.now).claims }
    {
        self.claims.as_slice()
    }

    /// The dequeues that have begun.
    pub fn open_dequeues(&self) -> &[OpenDequeue]
        ensures { result.now ≡ (state_of self.now).open_dequeues }
    {
        self.open_dequeues.as_slice()
    }

    /// Dequeues whose rest came before a charge, until the next line of their CPU.
    pub fn early(&self) -> &[OpenDequeue]
        ensures { result.now ≡ (state_of self.now).early }
    {
        self.early.as_slice()
    }

    /// The timers that are to be armed.
    pub fn timers_to_arm(&self) -> &[TimerToArm]
        ensures { result.now ≡ (state_of self.now).timers_to_arm }
    {
        self.timers_to_arm.as_slice()
    }

    /// CPUs that may arm the timer of a task of before the record.
    pub fn older_dequeues(&self) -> &[OlderDequeue]
        ensures { result.now ≡ (state_of self.now).older_dequeues }
    {
        self.older_dequeues.as_slice()
    }

    /// The CPUs.
    pub fn processors(&self) -> &[Processor]
        ensures { result.now ≡ (state_of self.now).processors }
    {
        self.processors.as_slice()
    }

    /// The moment of the last line.
    pub fn now(&self) -> u64
        ensures { result ≡ (state_of self.now).now }
    {
        self.moment
    }

    /// Until this moment `extra_bw` and `total_bw` are open.
    pub fn open_until(&self) -> u64
        ensures { result ≡ (state_of self.now).open_until }
    {
        self.open_until
    }

    /// Whether each value that was compared is the kernel's, and each choice was legal.
    pub fn agrees(&self) -> bool
        ensures { result ≡ is_none (state_of self.now).first }
    {
        self.findings.agrees()
    }

    /// How many values of each kind were compared.
    pub fn counts(&self) -> KindCounts {
        self.findings.counts
    }

    /// How often each rule was put to the test.
    pub fn rules(&self) -> RuleCounts {
        self.findings.rules
    }

    /// The first comparison that differs.
    pub fn first(&self) -> Option<Deviation>
        ensures { result ≡ (state_of self.now).first }
    {
        self.findings.first
    }

    /// The comparisons since the last `clear_rows`.
    pub fn rows(&self) -> &[Comparison] {
        self.findings.rows.as_slice()
    }

    /// Forgets the comparisons that were kept.
    pub fn clear_rows(&mut self)
        ensures { state_of self.new ≡ state_of self.old }
    {
        self.findings.rows.clear();
    }
}
