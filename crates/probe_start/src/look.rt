//! A first look at a record's lines.

ghost use Rattle.std.specs.Prelude.{◌≡◌, ◌||◌, IfOk, OnOk, [], false, map, true};
ghost use Rattle.probe_start.specs.Looks.{arms_timer, shows_dequeue};
ghost use Rattle.probe_start.specs.Notes.{noted_processor};

use crate::notes::{CpuNote, StartNotes};
use kernel_changes::RuleChange;
use kernel_rules::{ChargeLaw, DEADLINE_POLICY, has, ratio};
use probe_findings::{
    TaskSeen, is_older, nothing_seen, shown_elsewhere, shown_in_class, with_admission,
};
use probe_run::{PlayRules, Processor, Run, RunStart, StartBw};
use std::alloc::{AllocError, Global};
use std::collections::HashMap;
use trace_data::{Admitted, Enqueued, Probe, Ran};

/// SCHED_FLAG_SUGOV: a thread of schedutil, which is in no sum.
const SUGOV: u64 = 0x1000_0000;

/// How long what a CPU was about as the record began may change sums, in nanoseconds.
const AMID: u64 = 100_000_000;

/// The first line of a server: its bandwidth.
#[derive(Clone, Copy, PartialEq, Eq)]
struct ShownServer {
    cpu: u32,
    dl_bw: u64,
}

/// What the lines of a record show before it is played.
#[derive(Drop)]
pub struct RecordLook {
    /// Whether a line shows a dequeue, and whether one shows a timer that is armed.
    pub has_dequeues: bool,
    pub has_timers: bool,
    shows_spans: Option<bool>,
    tasks: HashMap<u64, TaskSeen>,
    servers: Vec<ShownServer>,

    /// The CPUs whose sums a line shows.
    cpus: Vec<u32>,
    last_cpu: Option<u32>,
    first_moment: Option<u64>,
}

fn noted(note: CpuNote) -> Processor
    ensures { result ≡ noted_processor note }
{
    Processor {
        cpu: note.cpu,
        domain: note.domain,
        is_active: true,
        capacity: note.capacity,
    }
}

/// The CPUs of which notes tell.
fn processors(alloc: Global, cpus: &[CpuNote]) -> Result<Vec<Processor>, AllocError>
    ensures { IfOk result (λ processors. processors.items ≡ map noted_processor cpus.now) }
{
    let mut processors = Vec::new(alloc);
    for note in cpus {
        processors.push(noted(*note))?;
    }
    Ok(processors)
}

impl RecordLook {
    /// No line was seen.
    pub fn new(alloc: Global) -> RecordLook
        ensures dequeues { result.has_dequeues ≡ false }
        ensures timers { result.has_timers ≡ false }
    {
        RecordLook {
            has_dequeues: false,
            has_timers: false,
            shows_spans: None,
            tasks: HashMap::new(alloc),
            servers: Vec::new(alloc),
            cpus: Vec::new(alloc),
            last_cpu: None,
            first_moment: None,
        }
    }

    /// Takes a line.
    pub fn see(&mut self, at: u64, probe: &Probe) -> Result<(), AllocError>
        ensures dequeues { OnOk result
            (self.new.has_dequeues ≡ (self.old.has_dequeues || shows_dequeue probe.now)) }
        ensures timers { OnOk result
            (self.new.has_timers ≡ (self.old.has_timers || arms_timer probe.now)) }
    {
        if self.first_moment.is_none() {
            self.first_moment = Some(at);
        }
        match probe {
            Probe::Enqueued(line) => self.see_enqueued(line),
            Probe::Updated(line) => {
                if self.shows_spans.is_none() && !line.is_server {
                    self.shows_spans = Some(matches!(line.ran, Ran::Span { .. }));
                }
                self.see_cpu(line.cpu)
            }
            Probe::Dequeued(line) => {
                self.has_dequeues = true;
                self.see_cpu(line.cpu)?;
                self.see_task(line.pid)
            }
            Probe::LeftClass(line) => {
                self.see_cpu(line.cpu)?;
                self.see_task(line.pid)
            }
            Probe::Admitted(line) => self.see_admitted(line),
            Probe::Armed(_) => {
                self.has_timers = true;
                Ok(())
            }
            Probe::ServerStarted(line) => {
                self.see_server(line.cpu, line.dl_runtime, line.dl_period)
            }
            Probe::Picked(line) => self.see_server(line.cpu, line.dl_runtime, line.dl_period),
            Probe::ServerStopped(line) => {
                self.see_server(line.cpu, line.dl_runtime, line.dl_period)
            }
            _ => Ok(()),
        }
    }

    fn see_cpu(&mut self, cpu: u32) -> Result<(), AllocError>
        ensures dequeues { self.new.has_dequeues ≡ self.old.has_dequeues }
        ensures timers { self.new.has_timers ≡ self.old.has_timers }
    {
        if self.last_cpu == Some(cpu) || self.cpus.contains(&cpu) {
            self.last_cpu = Some(cpu);
            return Ok(());
        }
        self.cpus.push(cpu)?;
        Ok(())
    }

    fn seen(&self, pid: u64) -> TaskSeen {
        self.tasks.get(&pid).copied().unwrap_or(nothing_seen())
    }

    fn see_task(&mut self, pid: u64) -> Result<(), AllocError>
        ensures dequeues { self.new.has_dequeues ≡ self.old.has_dequeues }
        ensures timers { self.new.has_timers ≡ self.old.has_timers }
    {
        let seen = self.seen(pid);
        if !seen.is_admitted && !seen.is_shown_first {
            self.tasks.insert(pid, shown_in_class(seen))?;
        }
        Ok(())
    }

    fn see_enqueued(&mut self, line: &Enqueued) -> Result<(), AllocError>
        ensures dequeues { self.new.has_dequeues ≡ self.old.has_dequeues }
        ensures timers { self.new.has_timers ≡ self.old.has_timers }
    {
        self.see_cpu(line.cpu)?;
        let is_other = line.normal_prio >= 0 || has(line.parameters.flags, SUGOV);
        if !is_other {
            return self.see_task(line.pid);
        }
        let seen = self.seen(line.pid);
        if !seen.is_of_another_class {
            self.tasks.insert(line.pid, shown_elsewhere(seen))?;
        }
        Ok(())
    }

    fn see_admitted(&mut self, line: &Admitted) -> Result<(), AllocError>
        ensures dequeues { self.new.has_dequeues ≡ self.old.has_dequeues }
        ensures timers { self.new.has_timers ≡ self.old.has_timers }
    {
        if line.policy == DEADLINE_POLICY && line.policy_before != DEADLINE_POLICY {
            let seen = self.seen(line.pid);
            self.tasks.insert(line.pid, with_admission(seen))?;
        }
        Ok(())
    }

    fn see_server(&mut self, cpu: u32, dl_runtime: u64, dl_period: u64) -> Result<(), AllocError>
        ensures dequeues { self.new.has_dequeues ≡ self.old.has_dequeues }
        ensures timers { self.new.has_timers ≡ self.old.has_timers }
    {
        self.see_cpu(cpu)?;
        if !self.servers.iter().any(|one| one.cpu == cpu) {
            self.servers.push(ShownServer {
                cpu,
                dl_bw: ratio(dl_runtime, dl_period),
            })?;
        }
        Ok(())
    }

    /// Whether charges are shown as spans, and only where something is charged (`update_curr_dl_se`).
    pub fn shows_spans(&self) -> bool {
        self.shows_spans.unwrap_or(true)
    }

    /// The moment of the first line; 0 where there is none.
    pub fn first_moment(&self) -> u64 {
        self.first_moment.unwrap_or(0)
    }

    /// Whether a line shows a dequeue: without one the sums are taken from the lines.
    pub fn has_dequeues(&self) -> bool
        ensures { result ≡ self.now.has_dequeues }
    {
        self.has_dequeues
    }

    /// Whether a task is older than the record.
    pub fn begins_amid(&self, notes: &StartNotes) -> bool
        ensures older { notes.now.settings.has_older ≡ true → result ≡ true }
    {
        notes.settings.has_older || self.tasks.values().any(|seen| is_older(*seen))
    }

    /// By which rules the record is played.
    pub fn rules(&self, law: ChargeLaw, change: Option<RuleChange>, notes: &StartNotes) -> PlayRules
        ensures law { result.law ≡ law }
        ensures change { result.change ≡ change }
        ensures dequeues { result.has_dequeues ≡ self.now.has_dequeues }
        ensures timers { result.has_timers ≡ self.now.has_timers }
    {
        PlayRules {
            law,
            change,
            has_dequeues: self.has_dequeues,
            has_timers: self.has_timers,
            begins_amid: self.begins_amid(notes),
        }
    }

    /// The bandwidth of a CPU's server.
    fn server_of(&self, cpu: u32, notes: &StartNotes) -> u64 {
        let shown = self.servers.iter().find(|one| one.cpu == cpu);
        notes.server_bw(cpu, shown.map(|one| one.dl_bw))
    }

    /// What is known before the first line.
    pub fn start(&self, alloc: Global, notes: &StartNotes) -> Result<RunStart, AllocError>
        ensures processors { IfOk result (λ start.
            start.processors.items ≡ map noted_processor notes.now.cpus.items) }
        ensures older { IfOk result (λ start.
            notes.now.settings.has_older ≡ true → start.starts.items ≡ []) }
    {
        let processors = processors(alloc, notes.cpus.as_slice())?;
        let amid = self.begins_amid(notes);
        let starts = self.starts_unless(alloc, notes, amid)?;
        let amid_until = self.amid_until(amid);
        Ok(RunStart {
            processors,
            starts,
            amid_until,
        })
    }

    /// What runqueues begin with, unless a task is older than the record.
    fn starts_unless(
        &self,
        alloc: Global,
        notes: &StartNotes,
        amid: bool,
    ) -> Result<Vec<StartBw>, AllocError>
        ensures { IfOk result (λ starts. amid ≡ true → starts.items ≡ []) }
    {
        if amid {
            Ok(Vec::new(alloc))
        } else {
            self.starts(alloc, notes)
        }
    }

    /// Until when sums are open.
    fn amid_until(&self, amid: bool) -> u64 {
        if amid {
            self.first_moment.unwrap_or(0).saturating_add(AMID)
        } else {
            0
        }
    }

    /// What the runqueue of each CPU begins with: of those that lines show, and of those that notes tell.
    fn starts(&self, alloc: Global, notes: &StartNotes) -> Result<Vec<StartBw>, AllocError> {
        let mut starts = Vec::new(alloc);
        for cpu in &self.cpus {
            starts.push(StartBw {
                cpu: *cpu,
                this_bw: self.server_of(*cpu, notes),
            })?;
        }
        for note in &notes.cpus {
            if !self.cpus.contains(&note.cpu) {
                starts.push(StartBw {
                    cpu: note.cpu,
                    this_bw: self.server_of(note.cpu, notes),
                })?;
            }
        }
        Ok(starts)
    }

    /// The CPUs whose sums lines show, and of which neither a note nor a mark tells the root domain, in their order: what a run followed
    /// nothing of.
    pub fn unfollowed(&self, alloc: Global, run: &Run) -> Result<Vec<u32>, AllocError>
        ensures { IfOk result (λ cpus. self.now.has_dequeues ≡ false → cpus.items ≡ []) }
    {
        if self.has_dequeues {
            self.without_domain(alloc, run)
        } else {
            Ok(Vec::new(alloc))
        }
    }

    fn without_domain(&self, alloc: Global, run: &Run) -> Result<Vec<u32>, AllocError> {
        let mut unfollowed = Vec::new(alloc);
        for cpu in &self.cpus {
            if run.domain_of(*cpu).is_none() {
                unfollowed.push(*cpu)?;
            }
        }
        unfollowed.sort_unstable();
        Ok(unfollowed)
    }

    /// What is taken for granted, by what was seen so far.
    pub fn assume(&self, alloc: Global, notes: &StartNotes) -> Result<Assumed, AllocError> {
        Ok(Assumed {
            has_dequeues: self.has_dequeues,
            has_timers: self.has_timers,
            shows_spans: self.shows_spans(),
            begins_amid: self.begins_amid(notes),
            starts: self.starts(alloc, notes)?,
        })
    }

    /// Whether what was taken for granted is borne out by what was seen since.
    pub fn bears_out(&self, assumed: &Assumed, notes: &StartNotes) -> bool {
        self.has_dequeues == assumed.has_dequeues
            && self.has_timers == assumed.has_timers
            && self.shows_spans() == assumed.shows_spans
            && self.begins_amid(notes) == assumed.begins_amid
            && self.has_starts(assumed, notes)
    }

    fn has_starts(&self, assumed: &Assumed, notes: &StartNotes) -> bool {
        assumed.begins_amid
            || self.cpus.iter().all(|cpu| {
                let server = self.server_of(*cpu, notes);
                assumed
                    .starts
                    .iter()
                    .any(|one| one.cpu == *cpu && one.this_bw == server)
            })
    }
}

/// What is taken for granted of a record before it was looked at to its end.
#[derive(Drop)]
pub struct Assumed {
    has_dequeues: bool,
    has_timers: bool,
    shows_spans: bool,
    begins_amid: bool,
    starts: Vec<StartBw>,
}
