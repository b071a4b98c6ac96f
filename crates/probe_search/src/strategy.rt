//! The order in which moves are tried.

use crate::charges::line_choice;
use crate::dequeues::{rest_at_once, rest_before};
use crate::effects::{Candidates, first_by};
use crate::handlers::handler_before;
use crate::locks::{earlier_lock, idle_lock, lock_for_sums};
use crate::readings::{last_reading, next_reading};
use crate::shown::is_passed_over;
use probe_explain::{ProbeLine, Search, Step};
use probe_run::{PlayRules, Run, RunMove};
use probe_tasks::AS_SHOWN;
use std::alloc::{AllocError, Global};
use std::collections::VecDeque;

/// A search for the moves that explain a record.
#[derive(Drop)]
pub struct ProbeSearch {
    rules: PlayRules,

    /// Whether charges are shown as spans, and only where something is charged.
    shows_spans: bool,
    candidates: Candidates,
}

impl ProbeSearch {
    /// A search in a record that is played by these rules; `shows_spans` says that charges are shown as spans, and only where
    /// something is charged.
    pub fn new(alloc: Global, rules: PlayRules, shows_spans: bool) -> ProbeSearch {
        ProbeSearch {
            rules,
            shows_spans,
            candidates: Candidates::new(alloc),
        }
    }

    /// What the lines before have brought about.
    fn next_due(
        &mut self,
        run: &Run,
        next: &ProbeLine,
        ahead: &VecDeque<ProbeLine>,
    ) -> Result<Option<RunMove>, AllocError> {
        let idle = idle_lock(run);
        if idle.is_some() {
            return Ok(idle);
        }
        let rest = rest_at_once(run, self.rules, self.shows_spans, next, ahead);
        if rest.is_some() {
            return Ok(rest);
        }
        next_reading(run, self.rules, &mut self.candidates)
    }

    /// What the next line asks for.
    fn next_before(
        &mut self,
        run: &Run,
        next: &ProbeLine,
        ahead: &VecDeque<ProbeLine>,
    ) -> Result<Option<RunMove>, AllocError> {
        let cpu = next.place.cpu;
        let reading = last_reading(run, cpu);
        if reading.is_some() {
            return Ok(reading);
        }
        if let Some(place) = first_by(run, cpu) {
            return Ok(Some(RunMove::Settle(place)));
        }
        let rest = rest_before(run, self.rules, next, ahead);
        if rest.is_some() {
            return Ok(rest);
        }
        let earlier = earlier_lock(run, next);
        if earlier.is_some() {
            return Ok(earlier);
        }
        let handler = handler_before(run, self.rules, next, ahead);
        if handler.is_some() {
            return Ok(handler);
        }
        lock_for_sums(run, self.rules, &mut self.candidates, next)
    }
}

impl Search for ProbeSearch {
    fn choose(
        &mut self,
        run: &Run,
        next: &ProbeLine,
        ahead: &VecDeque<ProbeLine>,
    ) -> Result<Step, AllocError> {
        if is_passed_over(&next.probe) {
            return Ok(Step::Line(AS_SHOWN));
        }
        if let Some(due) = self.next_due(run, next, ahead)? {
            return Ok(Step::Move(due));
        }
        if let Some(before) = self.next_before(run, next, ahead)? {
            return Ok(Step::Move(before));
        }
        Ok(Step::Line(line_choice(run, self.rules, next, ahead)))
    }

    fn end(&mut self, run: &Run) -> Result<Option<RunMove>, AllocError> {
        if let Some(step) = next_reading(run, self.rules, &mut self.candidates)? {
            return Ok(Some(step));
        }
        match run.claims().first() {
            Some(claim) => Ok(last_reading(run, claim.place.cpu)),
            None => Ok(None),
        }
    }
}
