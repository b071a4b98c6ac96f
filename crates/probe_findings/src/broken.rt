//! Laws that a record can break though it is consistent.

use crate::clock_law::{LeastLag, is_broken, is_late, lag_of, least_after};
use crate::compared::{Ratio, compared_ratio, compared_start, compared_wake};
use crate::settings::{LawSettings, ServerNote};
use crate::start_law::{
    TaskSeen, is_older, nothing_seen, shown_elsewhere, shown_in_class, with_admission,
};
use crate::{FIRST_SEEN, Findings, ProbedLine};
use kernel_rules::{DEADLINE_POLICY, WAKEUP, has, ratio};
use std::alloc::{AllocError, Global};
use std::collections::HashMap;
use trace_data::{Enqueued, Mark, Probe, Ran, Updated};

/// SCHED_FLAG_SUGOV: a thread of schedutil.
const SUGOV: u64 = 0x1000_0000;

/// A law.
#[derive(Clone, Copy)]
pub enum Law {
    /// `max_bw` and `bw_ratio` are those of the limit of the admission test, on each CPU.
    Ratio,

    /// The clock of a wake is at most 100 microseconds behind the least lag of its CPU, in at least three quarters of them.
    Clock,
}

/// A law that is broken.
#[derive(Clone, Copy)]
pub struct Broken {
    pub law: Law,

    /// The first line that shows it.
    pub line: u64,

    /// The CPU with its `max_bw` and `bw_ratio`.
    pub cpu: u32,
    pub max_bw: u64,
    pub bw_ratio: u64,

    /// Of the clock: how many wakes are late, of how many, and by how many nanoseconds the first.
    pub late: u64,
    pub wakes: u64,
    pub behind: i64,
}

/// The first `this_bw` that a line of a CPU shows.
#[derive(Clone, Copy)]
struct Start {
    place: ProbedLine,
    cpu: u32,
    more: u64,
    this_bw: u64,
}

/// A CPU's `max_bw` and `bw_ratio`, and the first line that shows them.
#[derive(Clone, Copy)]
struct FirstRatio {
    ratio: Ratio,
    place: ProbedLine,

    /// Whether a limit was written before.
    is_written: bool,
    /// Lines of old kernels show `bw_ratio` alone.
    shows_max_bw: bool,
}

/// A wake, and how far the clock of its CPU is behind the least lag.
#[derive(Clone, Copy)]
struct Wake {
    behind: i64,
    cpu: u32,
    place: ProbedLine,
}

/// What the laws need of a record.
#[derive(Drop)]
pub struct Laws {
    tasks: HashMap<u64, TaskSeen>,
    starts: Vec<Start>,
    servers: HashMap<u32, u64>,
    limits: HashMap<u64, ()>,
    last_limit: u64,
    is_written: bool,
    ratios: HashMap<Ratio, ()>,
    first_ratios: Vec<FirstRatio>,
    leasts: HashMap<u32, LeastLag>,
    wakes: Vec<Wake>,
    late: u64,
    pub broken: Option<Broken>,
}

impl Laws {
    pub fn new(alloc: Global) -> Laws {
        Laws {
            tasks: HashMap::new(alloc),
            starts: Vec::new(alloc),
            servers: HashMap::new(alloc),
            limits: HashMap::new(alloc),
            last_limit: 0,
            is_written: false,
            ratios: HashMap::new(alloc),
            first_ratios: Vec::new(alloc),
            leasts: HashMap::new(alloc),
            wakes: Vec::new(alloc),
            late: 0,
            broken: None,
        }
    }

    pub fn keep_start(
        &mut self,
        place: ProbedLine,
        cpu: u32,
        more: u64,
        this_bw: u64,
    ) -> Result<(), AllocError> {
        self.starts.push(Start {
            place,
            cpu,
            more,
            this_bw,
        })?;
        Ok(())
    }

    /// Takes a line.
    pub fn see(&mut self, place: ProbedLine, probe: &Probe) -> Result<(), AllocError> {
        match probe {
            Probe::Admitted(line) => {
                if line.policy == DEADLINE_POLICY && line.policy_before != DEADLINE_POLICY {
                    let seen = self.task(line.pid);
                    self.tasks.insert(line.pid, with_admission(seen))?;
                }
                self.limits.insert(line.limit, ())?;
                self.last_limit = line.limit;
                Ok(())
            }
            Probe::Enqueued(line) => self.see_enqueued(place, line),
            Probe::Dequeued(line) => {
                self.see_clock(place, line.cpu, line.clock)?;
                self.see_in_class(line.pid)
            }
            Probe::LeftClass(line) => {
                self.see_clock(place, line.cpu, line.clock)?;
                self.see_in_class(line.pid)
            }
            Probe::Updated(line) => {
                self.see_clock(place, line.cpu, line.clock)?;
                self.see_ratio(place, line)
            }
            Probe::ServerStarted(line) => {
                self.see_clock(place, line.cpu, line.clock)?;
                self.see_server(line.cpu, line.dl_runtime, line.dl_period)
            }
            Probe::Picked(line) => {
                self.see_clock(place, line.cpu, line.clock)?;
                self.see_server(line.cpu, line.dl_runtime, line.dl_period)
            }
            Probe::ServerStopped(line) => {
                self.see_clock(place, line.cpu, line.clock)?;
                self.see_server(line.cpu, line.dl_runtime, line.dl_period)
            }
            Probe::ServerIdled(line) => self.see_clock(place, line.cpu, line.clock),
            Probe::Mark(mark) => {
                self.see_mark(mark);
                Ok(())
            }
            _ => Ok(()),
        }
    }

    fn task(&self, pid: u64) -> TaskSeen {
        self.tasks.get(&pid).copied().unwrap_or(nothing_seen())
    }

    fn see_in_class(&mut self, pid: u64) -> Result<(), AllocError> {
        let seen = self.task(pid);
        if !seen.is_admitted && !seen.is_shown_first {
            self.tasks.insert(pid, shown_in_class(seen))?;
        }
        Ok(())
    }

    fn see_elsewhere(&mut self, pid: u64) -> Result<(), AllocError> {
        let seen = self.task(pid);
        self.tasks.insert(pid, shown_elsewhere(seen))?;
        Ok(())
    }

    /// The clocks part where a CPU comes or goes, and a limit may be another from a write on.
    fn see_mark(&mut self, mark: &Mark) {
        match mark {
            Mark::CpuDeactivated { .. } | Mark::CpuActivated { .. } => self.leasts.clear(),
            Mark::LimitHandled { is_write: true } => self.is_written = true,
            _ => {}
        }
    }

    /// A line shows the clock of a CPU.
    fn see_clock(&mut self, place: ProbedLine, cpu: u32, clock: u64) -> Result<(), AllocError> {
        let least = self.leasts.get(&cpu).copied();
        let lag = lag_of(place.at, clock);
        self.leasts.insert(cpu, least_after(least, place.at, lag))?;
        Ok(())
    }

    fn see_enqueued(&mut self, place: ProbedLine, line: &Enqueued) -> Result<(), AllocError> {
        if line.normal_prio >= 0 || has(line.parameters.flags, SUGOV) {
            self.see_elsewhere(line.pid)?;
        } else {
            self.see_in_class(line.pid)?;
        }
        self.see_clock(place, line.cpu, line.clock)?;
        if has(line.flags, WAKEUP) {
            self.see_wake(place, line)?;
        }
        Ok(())
    }

    fn see_wake(&mut self, place: ProbedLine, line: &Enqueued) -> Result<(), AllocError> {
        let lag = lag_of(place.at, line.clock);
        let least = match self.leasts.get(&line.cpu) {
            Some(least) => least.nanos,
            None => lag,
        };
        let behind = lag.wrapping_sub(least);
        if is_late(behind) {
            self.late = self.late.wrapping_add(1);
        }
        self.wakes.push(Wake {
            behind,
            cpu: line.cpu,
            place,
        })?;
        Ok(())
    }

    /// The first line of a server tells what it has.
    fn see_server(&mut self, cpu: u32, dl_runtime: u64, dl_period: u64) -> Result<(), AllocError> {
        if self.servers.get(&cpu).is_none() {
            self.servers.insert(cpu, ratio(dl_runtime, dl_period))?;
        }
        Ok(())
    }

    fn see_ratio(&mut self, place: ProbedLine, line: &Updated) -> Result<(), AllocError> {
        let (max_bw, shows_max_bw) = match line.ran {
            Ran::Span { max_bw, .. } => (max_bw, true),
            Ran::Clocks {
                max_bw: Some(max_bw),
                ..
            } => (max_bw, true),
            Ran::Clocks { max_bw: None, .. } => (0, false),
        };
        let ratio = Ratio {
            cpu: line.cpu,
            max_bw,
            bw_ratio: line.bw_ratio,
        };
        if self.ratios.get(&ratio).is_none() {
            self.ratios.insert(ratio, ())?;
            let is_written = self.is_written;
            self.first_ratios.push(FirstRatio {
                ratio,
                place,
                is_written,
                shows_max_bw,
            })?;
        }
        Ok(())
    }

    /// Whether lines of admissions show this limit.
    fn shows_limit(&self, max_bw: u64) -> bool {
        self.limits.get(&max_bw).is_some()
    }

    /// The limit that a line is held against.
    fn limit(&self, settings: LawSettings) -> u64 {
        match settings.limit {
            Some(limit) => limit,
            None => self.last_limit,
        }
    }

    /// Whether a line shows a task in the class that is older than the record.
    fn has_older(&self) -> bool {
        self.tasks.values().any(|seen| is_older(*seen))
    }

    /// The bandwidth with which `this_bw` of a CPU begins.
    fn server_at(&self, cpu: u32, settings: LawSettings, notes: &[ServerNote]) -> u64 {
        let note = notes.iter().find(|note| note.cpu == cpu).copied();
        settings.server_bw(note, self.servers.get(&cpu).copied())
    }

    /// Compares the laws at the end of a record, whose notes say this of fair servers.
    pub fn finish(
        &mut self,
        settings: LawSettings,
        notes: &[ServerNote],
        findings: &mut Findings,
    ) -> Result<(), AllocError> {
        if !settings.has_older && !self.has_older() {
            self.end_starts(settings, notes, findings)?;
        }
        self.end_ratios(settings, findings)?;
        self.end_clock(findings)
    }

    /// `this_bw` of a runqueue begins with its server's bandwidth, where no task is older than the record.
    fn end_starts(
        &self,
        settings: LawSettings,
        notes: &[ServerNote],
        findings: &mut Findings,
    ) -> Result<(), AllocError> {
        for start in self.starts.as_slice() {
            let server = self.server_at(start.cpu, settings, notes);
            let rules = server.wrapping_add(start.more);
            let compared = compared_start(start.place, start.cpu, rules, start.this_bw);
            findings.add_late(compared, FIRST_SEEN)?;
        }
        Ok(())
    }

    fn end_ratios(
        &mut self,
        settings: LawSettings,
        findings: &mut Findings,
    ) -> Result<(), AllocError> {
        for i in 0..self.first_ratios.len() {
            if let Some(one) = self.first_ratios.get(i) {
                let one = *one;
                self.end_ratio(one, settings, findings)?;
            }
        }
        Ok(())
    }

    /// Of a line that shows no `max_bw`, `bw_ratio` is held against the limit that an option gives.
    fn end_ratio(
        &mut self,
        one: FirstRatio,
        settings: LawSettings,
        findings: &mut Findings,
    ) -> Result<(), AllocError> {
        let mut ratio = one.ratio;
        if !one.shows_max_bw {
            match settings.limit {
                Some(limit) => ratio.max_bw = limit,
                None => return Ok(()),
            }
        }
        let shown = self.shows_limit(ratio.max_bw);
        let any = one.is_written || self.limits.is_empty();
        let is_limit = settings.is_limit(ratio.max_bw, shown, any);
        let compared = compared_ratio(one.place, ratio, is_limit, self.limit(settings));
        if !compared.is_equal {
            self.break_law(Broken {
                law: Law::Ratio,
                line: one.place.line,
                cpu: ratio.cpu,
                max_bw: ratio.max_bw,
                bw_ratio: ratio.bw_ratio,
                late: 0,
                wakes: 0,
                behind: 0,
            });
        }
        findings.add(compared, FIRST_SEEN, one.place.line, false)
    }

    /// Keeps the first law that is broken.
    fn break_law(&mut self, broken: Broken) {
        if self.broken.is_none() {
            self.broken = Some(broken);
        }
    }

    /// Each wake counts as one that is equal; where the law is broken, those in time do, and one differs.
    fn end_clock(&mut self, findings: &mut Findings) -> Result<(), AllocError> {
        let is_broken = is_broken(self.late, self.wakes.len() as u64);
        if is_broken {
            self.end_late(findings)?;
        }
        for wake in self.wakes.as_slice() {
            if !is_broken || !is_late(wake.behind) {
                let compared = compared_wake(wake.place, wake.cpu, wake.behind, true);
                findings.add(compared, FIRST_SEEN, wake.place.line, false)?;
            }
        }
        Ok(())
    }

    fn first_late(&self) -> Option<Wake> {
        for wake in self.wakes.as_slice() {
            if is_late(wake.behind) {
                return Some(*wake);
            }
        }
        None
    }

    /// The first wake that is late.
    fn end_late(&mut self, findings: &mut Findings) -> Result<(), AllocError> {
        let wakes = self.wakes.len() as u64;
        let late = self.late;
        let Some(wake) = self.first_late() else {
            return Ok(());
        };
        let compared = compared_wake(wake.place, wake.cpu, wake.behind, false);
        findings.add(compared, FIRST_SEEN, wake.place.line, false)?;
        self.break_law(Broken {
            law: Law::Clock,
            line: wake.place.line,
            cpu: wake.cpu,
            max_bw: 0,
            bw_ratio: 0,
            late,
            wakes,
            behind: wake.behind,
        });
        Ok(())
    }
}
