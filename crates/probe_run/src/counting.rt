//! Comparisons that count.

ghost use Rattle.std.specs.Prelude.{◌≡◌, OnOk, false};
ghost use Rattle.probe_run.specs.Runs.{state_of};
ghost use Rattle.probe_run.specs.Counting.{Holds};

use crate::notes::{Counted, EntityNotes, FirstNotes, LastCharge, NO_NOTES, SumNotes, UNKNOWN};
use crate::run::Run;
use probe_findings::{
    Comparison, ExactRule, ExactValue, FIRST_SEEN, ProbedLine, Quantity, Subject, Whose, Why,
};
use std::alloc::AllocError;

/// The rules of so many lines are kept.
const RECENT: usize = 64;

/// A value by the rules, and the kernel's.
#[derive(Clone, Copy)]
pub struct ComparedValue {
    /// What it is of.
    pub of: Counted,
    pub quantity: Quantity,
    pub rules: ExactValue,
    pub kernel: ExactValue,
}

impl Run {
    /// Counts a comparison of the rules' value with the kernel's.
    #[tactic(auto, using(crate::proofs::Steps::none_of))]
    pub fn count(
        &mut self,
        place: ProbedLine,
        value: ComparedValue,
        is_equal: bool,
    ) -> Result<(), AllocError>
        ensures { OnOk result (Holds (state_of self.old) is_equal (state_of self.new)) }
    {
        let ComparedValue {
            of,
            quantity,
            rules,
            kernel,
        } = value;
        if is_equal && !self.findings.keeps_rows() {
            self.findings.add_equal(quantity);
            return self.see_right(of, place.line, true);
        }
        let since = self.why(of);
        let subject = self.subject(of);
        if !is_equal {
            self.keep_first(of, place.line);
        }
        self.findings.add(
            Comparison {
                place,
                subject,
                quantity,
                rules,
                kernel,
                is_equal,
            },
            since,
            place.line,
            false,
        )?;
        self.see_right(of, place.line, is_equal)
    }

    /// Keeps what is told of the first value that differs.
    fn keep_first(&mut self, of: Counted, line: u64)
        ensures { state_of self.new ≡ state_of self.old }
    {
        if self.first_notes.is_some() {
            return;
        }
        let number = match of {
            Counted::Entity(number) => Some(number),
            _ => None,
        };
        let charge = match number {
            Some(number) => self.last_charge(number),
            None => None,
        };
        self.first_notes = Some(FirstNotes {
            right: self.last_right(of, line),
            number,
            charge,
        });
    }

    /// What is told of the first value that differs.
    pub fn first_notes(&self) -> Option<FirstNotes> {
        self.first_notes
    }

    /// Counts a choice that no run has.
    pub fn refuse(&mut self, place: ProbedLine) -> Result<(), AllocError>
        ensures { OnOk result (Holds (state_of self.old) false (state_of self.new)) }
    {
        self.count(
            place,
            ComparedValue {
                of: Counted::Nobody,
                quantity: Quantity::Choice,
                rules: ExactValue::Flag(false),
                kernel: ExactValue::Flag(true),
            },
            false,
        )
    }

    /// Counts a choice that is not legal.
    pub fn allow(&mut self, place: ProbedLine, is_legal: bool) -> Result<(), AllocError>
        ensures { OnOk result (Holds (state_of self.old) is_legal (state_of self.new)) }
    {
        if is_legal { Ok(()) } else { self.refuse(place) }
    }

    /// Counts that a rule was put to the test.
    pub fn note_rule(&mut self, rule: ExactRule)
        ensures { state_of self.new ≡ state_of self.old }
    {
        self.findings.note(rule);
    }

    fn subject(&self, of: Counted) -> Subject {
        match of {
            Counted::Entity(number) => Subject::Entity(self.whose(number)),
            Counted::Runqueue(cpu) | Counted::ExtraBw(cpu) => Subject::Runqueue(cpu),
            Counted::TotalBw(number) => Subject::RootDomain(number),
            Counted::Nobody => Subject::Nobody,
        }
    }

    /// Whose the entity of this number is.
    pub fn whose(&self, number: usize) -> Whose {
        match self.actors.get(number) {
            Some(actor) => actor.whose,
            None => UNKNOWN,
        }
    }

    /// What changed this last.
    pub fn why(&self, of: Counted) -> Why {
        match of {
            Counted::Entity(number) => self.entity_note(number).why,
            Counted::Runqueue(cpu) => self.sum_note(cpu as u64, false).why,
            Counted::ExtraBw(cpu) => self.sum_note(cpu as u64, false).why_unlocked,
            Counted::TotalBw(number) => self.sum_note(number, true).why_unlocked,
            Counted::Nobody => FIRST_SEEN,
        }
    }

    /// The last line before this one at which this was right; 0: none.
    pub fn last_right(&self, of: Counted, line: u64) -> u64 {
        match of {
            Counted::Entity(number) => self.entity_note(number).rights.before(line),
            Counted::Runqueue(cpu) => self.sum_note(cpu as u64, false).rights.before(line),
            Counted::ExtraBw(cpu) => self
                .sum_note(cpu as u64, false)
                .unlocked_rights
                .before(line),
            Counted::TotalBw(number) => self.sum_note(number, true).unlocked_rights.before(line),
            Counted::Nobody => 0,
        }
    }

    /// The last charge of the entity of this number.
    pub fn last_charge(&self, number: usize) -> Option<LastCharge> {
        self.entity_note(number).charge
    }

    fn entity_note(&self, number: usize) -> EntityNotes {
        match self.entity_notes.get(number) {
            Some(notes) => *notes,
            None => NO_NOTES,
        }
    }

    fn sum_note_place(&self, of: u64, is_domain: bool) -> Option<usize> {
        self.sum_notes
            .iter()
            .position(|one| one.of == of && one.is_domain == is_domain)
    }

    fn sum_note(&self, of: u64, is_domain: bool) -> SumNotes {
        self.sum_notes
            .iter()
            .find(|one| one.of == of && one.is_domain == is_domain)
            .copied()
            .unwrap_or(SumNotes::new(of, is_domain))
    }

    fn see_right(&mut self, of: Counted, line: u64, is_equal: bool) -> Result<(), AllocError>
        ensures { state_of self.new ≡ state_of self.old }
    {
        if !is_equal {
            return Ok(());
        }
        match of {
            Counted::Entity(number) => {
                if let Some(notes) = self.entity_notes.get_mut(number) {
                    notes.rights.add(line);
                }
                Ok(())
            }
            Counted::Runqueue(cpu) => self.see_sum_right(cpu as u64, false, false, line),
            Counted::ExtraBw(cpu) => self.see_sum_right(cpu as u64, false, true, line),
            Counted::TotalBw(number) => self.see_sum_right(number, true, true, line),
            Counted::Nobody => Ok(()),
        }
    }

    fn see_sum_right(
        &mut self,
        of: u64,
        is_domain: bool,
        is_unlocked: bool,
        line: u64,
    ) -> Result<(), AllocError>
        ensures { state_of self.new ≡ state_of self.old }
    {
        match self.sum_note_place(of, is_domain) {
            Some(place) => {
                if let Some(notes) = self.sum_notes.get_mut(place) {
                    notes.see_right(is_unlocked, line);
                }
                Ok(())
            }
            None => {
                let mut notes = SumNotes::new(of, is_domain);
                notes.see_right(is_unlocked, line);
                self.sum_notes.push(notes)?;
                Ok(())
            }
        }
    }

    /// Notes what changed this last.
    pub fn note(&mut self, of: Counted, why: Why) -> Result<(), AllocError>
        ensures { state_of self.new ≡ state_of self.old }
    {
        match of {
            Counted::Entity(number) => {
                if let Some(notes) = self.entity_notes.get_mut(number) {
                    notes.why = why;
                }
                self.keep_rule(why)
            }
            Counted::Runqueue(cpu) => self.note_sum(cpu as u64, false, false, why),
            Counted::ExtraBw(cpu) => self.note_sum(cpu as u64, false, true, why),
            Counted::TotalBw(number) => self.note_sum(number, true, true, why),
            Counted::Nobody => Ok(()),
        }
    }

    /// Keeps the rule of a line, for the effects of its call that are still to come.
    fn keep_rule(&mut self, why: Why) -> Result<(), AllocError>
        ensures { state_of self.new ≡ state_of self.old }
    {
        if self.recent.len() < RECENT {
            self.recent.push(why)?;
        } else if let Some(oldest) = self.recent.get_mut(self.oldest) {
            *oldest = why;
            self.oldest = self.oldest.wrapping_add(1) % RECENT;
        } else {
            self.oldest = 0;
        }
        Ok(())
    }

    /// The last rule of this line, if it was kept.
    pub(crate) fn rule_of(&self, line: u64) -> Option<ExactRule> {
        let mut rule = None;
        for why in &self.recent {
            if why.line == line {
                rule = why.rule;
            }
        }
        rule
    }

    fn note_sum(
        &mut self,
        of: u64,
        is_domain: bool,
        is_unlocked: bool,
        why: Why,
    ) -> Result<(), AllocError>
        ensures { state_of self.new ≡ state_of self.old }
    {
        match self.sum_note_place(of, is_domain) {
            Some(place) => {
                if let Some(notes) = self.sum_notes.get_mut(place) {
                    notes.note(is_unlocked, why);
                }
                Ok(())
            }
            None => {
                let mut notes = SumNotes::new(of, is_domain);
                notes.note(is_unlocked, why);
                self.sum_notes.push(notes)?;
                Ok(())
            }
        }
    }

    /// Notes the numbers that went into a charge.
    pub fn note_charge(&mut self, number: usize, charge: LastCharge)
        ensures { state_of self.new ≡ state_of self.old }
    {
        if let Some(notes) = self.entity_notes.get_mut(number) {
            notes.charge = Some(charge);
        }
    }
}
