//! Searches that search wrongly.

use probe_explain::{ProbeLine, Search, Step};
use probe_run::{Run, RunMove};
use probe_search::ProbeSearch;
use probe_tasks::AS_SHOWN;
use std::alloc::AllocError;
use std::collections::VecDeque;

/// Chooses nothing.
#[derive(Drop)]
pub(crate) struct Nothing;

impl Search for Nothing {
    fn choose(
        &mut self,
        _run: &Run,
        _next: &ProbeLine,
        _ahead: &VecDeque<ProbeLine>,
    ) -> Result<Step, AllocError> {
        Ok(Step::Line(AS_SHOWN))
    }

    fn end(&mut self, _run: &Run) -> Result<Option<RunMove>, AllocError> {
        Ok(None)
    }
}

/// Chooses whatever there is.
#[derive(Drop)]
pub(crate) struct Everything;

fn any_move(run: &Run) -> Option<RunMove> {
    if let Some(rest) = run.open_dequeues().first() {
        return Some(RunMove::OpenDequeue(rest.place.cpu));
    }
    if let Some(claim) = run.claims().first() {
        return Some(RunMove::Meet(claim.place.cpu));
    }
    if run.pending().is_empty() {
        None
    } else {
        Some(RunMove::Settle(0))
    }
}

impl Search for Everything {
    fn choose(
        &mut self,
        run: &Run,
        _next: &ProbeLine,
        _ahead: &VecDeque<ProbeLine>,
    ) -> Result<Step, AllocError> {
        Ok(match any_move(run) {
            Some(chosen) => Step::Move(chosen),
            None => Step::Line(AS_SHOWN),
        })
    }

    fn end(&mut self, run: &Run) -> Result<Option<RunMove>, AllocError> {
        Ok(any_move(run))
    }
}

/// Chooses before each line what is to be chosen before the one that was played.
#[derive(Drop)]
pub(crate) struct OtherLine {
    search: ProbeSearch,
    last: Option<ProbeLine>,
}

impl OtherLine {
    pub fn new(search: ProbeSearch) -> OtherLine {
        OtherLine { search, last: None }
    }
}

impl Search for OtherLine {
    fn choose(
        &mut self,
        run: &Run,
        next: &ProbeLine,
        ahead: &VecDeque<ProbeLine>,
    ) -> Result<Step, AllocError> {
        let other = self.last.unwrap_or(*next);
        let step = self.search.choose(run, &other, ahead)?;
        if let Step::Line(_) = step {
            self.last = Some(*next);
        }
        Ok(step)
    }

    fn end(&mut self, run: &Run) -> Result<Option<RunMove>, AllocError> {
        self.search.end(run)
    }
}
