//! A task of a trace.

ghost use Rattle.std.specs.Prelude.{◌≡◌, ◌++◌, [], OnOk};
ghost use Rattle.size_jobs.specs.declared.watch.Phase.TheVariants as phases;
ghost use Rattle.size_jobs.specs.Taking.{jobs_in, jobs_told, phase_told};

use crate::watch::{Ended, LeftOut, Phase, Seen, ran, stopped, woken};
use std::alloc::{AllocError, Global};
use trace_data::Stop;
use trace_lines::Class;

/// What a line tells of one task; moments are nanoseconds.
#[derive(Clone, Copy, Debug, PartialEq, Eq)]
pub enum JobStep {
    /// It wakes, at a line.
    Wakes { line: u64, at: u64, is_new: bool },

    /// It ran.
    Runs { nanos: u64 },

    /// It is put on a processor.
    Enters,

    /// It stops to run.
    Stops { at: u64, stop: Stop, class: Class },
}

/// A task of a trace, and its jobs.
#[derive(Debug, Drop)]
pub struct JobTask {
    /// Its comm at the last line that shows it.
    pub comm: Vec<u8>,

    /// Where it is at the end of the trace.
    pub phase: Phase,

    /// Its jobs, in the order of the trace.
    pub jobs: Vec<Seen>,

    /// How many jobs were left out as its thread began.
    pub begun: u64,

    /// How many were left out as its thread ended.
    pub ended: u64,

    /// How many have no wake in the trace.
    pub without_wake: u64,

    /// Whether a line told how long it ran.
    pub has_runs: bool,
}

impl JobTask {
    pub(crate) fn new(alloc: Global) -> JobTask
        ensures phase { result.phase ≡ phases.Unseen }
        ensures jobs { result.jobs.items ≡ [] }
    {
        JobTask {
            comm: Vec::new(alloc),
            phase: Phase::Unseen,
            jobs: Vec::new(alloc),
            begun: 0,
            ended: 0,
            without_wake: 0,
            has_runs: false,
        }
    }

    fn end(&mut self, ended: Ended) -> Result<(), AllocError>
        ensures jobs { OnOk result
            (self.new.jobs.items ≡ self.old.jobs.items ++ jobs_in ended) }
    {
        match ended {
            Ended::Nothing => {}
            Ended::Job(seen) => self.jobs.push(seen)?,
            Ended::LeftOut(LeftOut::New) => self.begun = self.begun.saturating_add(1),
            Ended::LeftOut(LeftOut::Last) => self.ended = self.ended.saturating_add(1),
            Ended::LeftOut(LeftOut::NoWake) => {
                self.without_wake = self.without_wake.saturating_add(1);
            }
        }
        Ok(())
    }

    /// Takes what a line tells of it.
    pub(crate) fn take(&mut self, told: JobStep) -> Result<(), AllocError>
        ensures phase { OnOk result (self.new.phase ≡ phase_told told self.old.phase) }
        ensures jobs { OnOk result
            (self.new.jobs.items ≡ self.old.jobs.items ++ jobs_told told self.old.phase) }
    {
        match told {
            JobStep::Wakes { line, at, is_new } => self.phase = woken(self.phase, line, at, is_new),
            JobStep::Runs { nanos } => {
                self.phase = ran(self.phase, nanos);
                self.has_runs = true;
            }
            JobStep::Enters => self.phase = ran(self.phase, 0),
            JobStep::Stops { at, stop, class } => {
                let (phase, ended) = stopped(self.phase, at, stop, class);
                self.end(ended)?;
                self.phase = phase;
            }
        }
        Ok(())
    }

    /// Takes the comm that a line shows.
    pub(crate) fn show(&mut self, alloc: Global, comm: &[u8]) -> Result<(), AllocError>
        ensures phase { self.new.phase ≡ self.old.phase }
        ensures jobs { self.new.jobs ≡ self.old.jobs }
        ensures comm { OnOk result (self.new.comm.items ≡ comm.now) }
    {
        if self.comm.as_slice() != comm {
            self.comm = Vec::from_slice(alloc, comm)?;
        }
        Ok(())
    }
}
