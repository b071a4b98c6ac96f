//! Whoever chooses: nothing is asked of it.

use probe_findings::ProbedLine;
use probe_run::{Run, RunMove};
use probe_tasks::LineChoice;
use std::alloc::AllocError;
use std::collections::VecDeque;
use trace_data::Probe;

/// A line of a record, and where it stands.
#[derive(Clone, Copy)]
pub struct ProbeLine {
    pub place: ProbedLine,
    pub probe: Probe,
}

/// What is done next.
#[derive(Clone, Copy)]
pub enum Step {
    /// A move before the next line.
    Move(RunMove),

    /// The next line, with what it leaves open.
    Line(LineChoice),
}

/// A search: it sees the run, and chooses.
pub trait Search {
    /// What is done before the next line is played; it is asked again until it says that the line is. `ahead` has lines behind it.
    fn choose(
        &mut self,
        run: &Run,
        next: &ProbeLine,
        ahead: &VecDeque<ProbeLine>,
    ) -> Result<Step, AllocError>;

    /// What is done behind the last line; it is asked again until it says nothing.
    fn end(&mut self, run: &Run) -> Result<Option<RunMove>, AllocError>;
}
