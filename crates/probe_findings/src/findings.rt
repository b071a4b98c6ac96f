//! What was compared.

ghost use Rattle.std.specs.Prelude.{◌≡◌, OnOk, is_none, true, false, Some};
ghost use Rattle.probe_findings.specs.Kinds.{kind_by};
ghost use Rattle.probe_findings.specs.Tallies.{counted_of, none_differs};
ghost use Rattle.probe_findings.specs.Firsts.{first_with};

use crate::counts::{KindCounts, RuleCounts};
use crate::words::{Comparison, Deviation, ExactRule, Quantity, Why, kind_of};
use std::alloc::{AllocError, Global};

/// Counts, the first deviation, and rows of a table.
#[derive(Drop)]
pub struct Findings {
    pub counts: KindCounts,
    pub rules: RuleCounts,
    pub first: Option<Deviation>,

    /// The line at which the first deviation was found.
    pub found_at: u64,

    /// Whether it was found before the sums of that line were compared.
    pub is_early: bool,
    pub rows: Vec<Comparison>,
    keeps_rows: bool,

    /// A first deviation is told exactly where a comparison that was counted differs.
    pub ghost told: { is_none first ≡ none_differs counts },
}

impl Findings {
    pub fn new(alloc: Global, keeps_rows: bool) -> Findings
        ensures first { is_none result.first ≡ true }
    {
        Findings {
            counts: KindCounts::new(),
            rules: RuleCounts::new(),
            first: None,
            found_at: 0,
            is_early: false,
            rows: Vec::new(alloc),
            keeps_rows,
        }
    }

    /// Counts a comparison that was made while this line was played, and keeps the first that differs.
    pub fn add(
        &mut self,
        comparison: Comparison,
        since: Why,
        line: u64,
        is_early: bool,
    ) -> Result<(), AllocError>
        ensures counts { OnOk result (self.new.counts
            ≡ counted_of self.old.counts (kind_by comparison.quantity) comparison.is_equal) }
        ensures first { OnOk result (self.new.first
            ≡ first_with self.old.first (record { comparison = comparison; since = since })) }
        ensures rules { self.new.rules ≡ self.old.rules }
    {
        self.keep_row(comparison)?;
        self.mark(line, is_early);
        self.tell(Deviation { comparison, since });
        Ok(())
    }

    /// Whether each comparison is kept as a row of a table.
    pub fn keeps_rows(&self) -> bool {
        self.keeps_rows
    }

    /// Counts a comparison that is equal, and of which no row is kept.
    #[tactic(auto, using(crate::proofs::Counting::equal))]
    pub fn add_equal(&mut self, quantity: Quantity)
        ensures counts { self.new.counts ≡ counted_of self.old.counts (kind_by quantity) true }
        ensures first { self.new.first ≡ self.old.first }
        ensures rules { self.new.rules ≡ self.old.rules }
    {
        self.counts.add(kind_of(quantity), true);
    }

    /// Keeps the row of a comparison where rows are wanted.
    fn keep_row(&mut self, comparison: Comparison) -> Result<(), AllocError>
        ensures counts { self.new.counts ≡ self.old.counts }
        ensures first { self.new.first ≡ self.old.first }
        ensures rules { self.new.rules ≡ self.old.rules }
    {
        if self.keeps_rows {
            self.rows.push(comparison)?;
        }
        Ok(())
    }

    /// Where no deviation was found, what is found next is found at this line.
    fn mark(&mut self, line: u64, is_early: bool)
        ensures counts { self.new.counts ≡ self.old.counts }
        ensures first { self.new.first ≡ self.old.first }
        ensures rules { self.new.rules ≡ self.old.rules }
    {
        if self.first.is_none() {
            self.found_at = line;
            self.is_early = is_early;
        }
    }

    /// Counts a comparison, and keeps the first that differs.
    #[tactic(auto, using(crate::proofs::Counting::still_told))]
    fn tell(&mut self, deviation: Deviation)
        ensures counts { self.new.counts ≡ counted_of self.old.counts
            (kind_by deviation.comparison.quantity) deviation.comparison.is_equal }
        ensures first { self.new.first ≡ first_with self.old.first deviation }
        ensures rules { self.new.rules ≡ self.old.rules }
    {
        let comparison = deviation.comparison;
        self.first = first_of(self.first, deviation);
        self.counts
            .add(kind_of(comparison.quantity), comparison.is_equal);
    }

    /// Counts a comparison that differs, which is the first from here on.
    #[tactic(auto, using(crate::proofs::Counting::counting))]
    fn put_first(&mut self, deviation: Deviation)
        ensures counts { self.new.counts
            ≡ counted_of self.old.counts (kind_by deviation.comparison.quantity) false }
        ensures first { self.new.first ≡ Some deviation }
    {
        self.first = Some(deviation);
        self.counts
            .add(kind_of(deviation.comparison.quantity), false);
    }

    /// Counts a comparison of the sums of an earlier line, which waited for the end of the record: it may come before the first
    /// deviation that was found.
    pub fn add_late(&mut self, comparison: Comparison, since: Why) -> Result<(), AllocError>
        ensures counts { OnOk result (self.new.counts
            ≡ counted_of self.old.counts (kind_by comparison.quantity) comparison.is_equal) }
    {
        let line = comparison.place.line;
        if comparison.is_equal || !self.is_behind(line) {
            return self.add(comparison, since, line, false);
        }
        self.keep_row(comparison)?;
        self.found_at = line;
        self.is_early = false;
        self.put_first(Deviation { comparison, since });
        Ok(())
    }

    /// Whether the first deviation comes behind the sums of this line, or there is none.
    fn is_behind(&self, line: u64) -> bool {
        self.first.is_none() || line < self.found_at || line == self.found_at && !self.is_early
    }

    /// Whether each comparison is equal.
    pub fn agrees(&self) -> bool
        ensures { result ≡ none_differs self.now.counts }
    {
        self.first.is_none()
    }

    pub fn note(&mut self, rule: ExactRule)
        ensures counts { self.new.counts ≡ self.old.counts }
        ensures first { self.new.first ≡ self.old.first }
    {
        self.rules.add(rule);
    }
}

/// What was found first, and else this one, where it differs.
fn first_of(found: Option<Deviation>, deviation: Deviation) -> Option<Deviation>
    ensures { result ≡ first_with found deviation }
{
    match found {
        Some(first) => Some(first),
        None => {
            if deviation.comparison.is_equal {
                None
            } else {
                Some(deviation)
            }
        }
    }
}
