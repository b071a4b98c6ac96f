//! A run: its fields are private, and nothing changes it but what this crate offers.

ghost use Rattle.std.specs.Prelude.{◌≡◌, IfOk, map};
ghost use Rattle.probe_run.specs.Runs.{state_of};
ghost use Rattle.probe_run.specs.Start.{start_runqueue, start_of};

use crate::actor::Actor;
use crate::notes::{EntityNotes, FirstNotes, SumNotes};
use crate::rules::{Processor, RunStart, StartBw};
use crate::sums::{RootDomain, Runqueue};
use crate::waiting::{Claim, OlderDequeue, OpenDequeue, PendingEffect, TimerToArm};
use probe_findings::{Findings, Why};
use std::alloc::{AllocError, Global};
use std::collections::HashMap;

/// What the rules have come to at a point of a record, what of the calls that have begun is not done yet, and what was compared.
#[derive(Drop)]
pub struct Run {
    pub(crate) actors: Vec<Actor>,
    pub(crate) tasks: HashMap<u64, usize>,
    pub(crate) servers: HashMap<u32, usize>,
    pub(crate) timers: HashMap<u64, usize>,
    pub(crate) runqueues: Vec<Runqueue>,
    pub(crate) domains: Vec<RootDomain>,
    pub(crate) processors: Vec<Processor>,
    pub(crate) pending: Vec<PendingEffect>,
    pub(crate) claims: Vec<Claim>,
    pub(crate) open_dequeues: Vec<OpenDequeue>,
    pub(crate) early: Vec<OpenDequeue>,
    pub(crate) timers_to_arm: Vec<TimerToArm>,
    pub(crate) older_dequeues: Vec<OlderDequeue>,
    pub(crate) wrote: Vec<u32>,
    pub(crate) moment: u64,
    pub(crate) open_until: u64,
    pub(crate) amid_until: u64,
    pub(crate) findings: Findings,
    pub(crate) entity_notes: Vec<EntityNotes>,
    pub(crate) sum_notes: Vec<SumNotes>,

    /// The rules of the last lines, and which of them is the oldest.
    pub(crate) recent: Vec<Why>,
    pub(crate) oldest: usize,
    pub(crate) first_notes: Option<FirstNotes>,
}

fn start_runqueue(start: StartBw, until: u64) -> Runqueue
    ensures { result ≡ start_runqueue until start }
{
    Runqueue {
        cpu: start.cpu,
        this_bw: Some(start.this_bw),
        running_bw: None,
        extra_bw: None,
        open_until: until,
    }
}

/// The runqueues of which it is known with what they begin.
fn start_runqueues(
    alloc: Global,
    starts: &[StartBw],
    until: u64,
) -> Result<Vec<Runqueue>, AllocError>
    ensures { IfOk result (λ runqueues. runqueues.items ≡ map (start_runqueue until) starts.now) }
{
    let mut runqueues = Vec::new(alloc);
    for start in starts {
        runqueues.push(start_runqueue(*start, until))?;
    }
    Ok(runqueues)
}

impl Run {
    /// Nothing was played. With `keeps_rows` each comparison is kept until `clear_rows`.
    pub fn new(alloc: Global, start: RunStart, keeps_rows: bool) -> Result<Run, AllocError>
        ensures { IfOk result (λ run. state_of run ≡ start_of start) }
    {
        let RunStart {
            processors,
            starts,
            amid_until,
        } = start;
        let runqueues = start_runqueues(alloc, starts.as_slice(), amid_until)?;
        Ok(Run {
            actors: Vec::new(alloc),
            tasks: HashMap::new(alloc),
            servers: HashMap::new(alloc),
            timers: HashMap::new(alloc),
            runqueues,
            domains: Vec::new(alloc),
            processors,
            pending: Vec::new(alloc),
            claims: Vec::new(alloc),
            open_dequeues: Vec::new(alloc),
            early: Vec::new(alloc),
            timers_to_arm: Vec::new(alloc),
            older_dequeues: Vec::new(alloc),
            wrote: Vec::new(alloc),
            moment: 0,
            open_until: amid_until,
            amid_until,
            findings: Findings::new(alloc, keeps_rows),
            entity_notes: Vec::new(alloc),
            sum_notes: Vec::new(alloc),
            recent: Vec::new(alloc),
            oldest: 0,
            first_notes: None,
        })
    }
}
