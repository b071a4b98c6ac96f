//! Runs: which time is charged.

use law_findings::{
    Breach, Finding, JudgedLaws, Law, LineKind, ReadLine, Whose, begins_at_switch, is_apart,
    nanos_of,
};
use std::alloc::{AllocError, Global};
use trace_data::{Ran, Updated};

/// Of so many lines the least lag of the runqueue's clock is taken.
const LAGS: usize = 64;

/// The last charge on a runqueue: its line, and up to when time is charged.
#[derive(Clone, Copy)]
struct LastCharge {
    line: u64,
    ends: u64,
}

/// The last switch of a CPU.
#[derive(Clone, Copy)]
struct Switch {
    line: u64,
    at: u64,
    next: u64,
    is_deadline: bool,

    /// The runqueue's clock at its last line before, if there was one.
    clock: Option<u64>,
}

/// What is known of the runs of a CPU.
#[derive(Clone, Copy)]
struct CpuRuns {
    charge: Option<LastCharge>,
    switch: Option<Switch>,
    clock: Option<u64>,

    /// By how much the clock was behind its last lines.
    lags: [i64; LAGS],
    next: usize,
    count: usize,
}

const NEW: CpuRuns = CpuRuns {
    charge: None,
    switch: None,
    clock: None,
    lags: [0; LAGS],
    next: 0,
    count: 0,
};

impl CpuRuns {
    /// The least lag of the last lines.
    fn least_lag(&self) -> i64 {
        let mut least = i64::MAX;
        for lag in self.lags.iter().take(self.count) {
            least = least.min(*lag);
        }
        least
    }
}

/// Two charges of a run that stand before the first switch.
#[derive(Clone, Copy)]
struct Early {
    read: ReadLine,
    pid: u64,
    ends: u64,
    begins: u64,
}

/// A charge of a run.
#[derive(Clone, Copy)]
struct Charge {
    read: ReadLine,
    pid: u64,

    /// The line of its task before.
    before: Option<u64>,
    begins: u64,

    /// By how much the runqueue's clock is behind its lines.
    lag: i64,
}

/// The runs of all CPUs.
#[derive(Drop)]
pub struct Runs {
    cpus: Vec<CpuRuns>,

    /// The record has lines of switches.
    has_switches: bool,

    /// What waits for the first of them.
    early: Vec<Early>,
}

impl Runs {
    /// No run is known.
    pub fn new(alloc: Global) -> Runs {
        Runs {
            cpus: Vec::new(alloc),
            has_switches: false,
            early: Vec::new(alloc),
        }
    }

    fn get_mut(&mut self, cpu: u32) -> Result<Option<&mut CpuRuns>, AllocError> {
        for _ in self.cpus.len()..cpu as usize + 1 {
            self.cpus.push(NEW)?;
        }
        Ok(self.cpus.get_mut(cpu as usize))
    }

    /// A line shows the clock of a runqueue.
    pub fn see_clock(&mut self, cpu: u32, at: u64, clock: u64) -> Result<(), AllocError> {
        if let Some(runs) = self.get_mut(cpu)? {
            runs.clock = Some(clock);
            let place = runs.next % LAGS;
            if let Some(lag) = runs.lags.get_mut(place) {
                *lag = at.wrapping_sub(clock).cast_signed();
            }
            runs.next = (place + 1) % LAGS;
            runs.count = runs.count.saturating_add(1).min(LAGS);
        }
        Ok(())
    }

    /// A CPU puts a task on.
    pub fn switch(
        &mut self,
        judged: &mut JudgedLaws,
        read: ReadLine,
        next: u64,
        is_deadline: bool,
    ) -> Result<(), AllocError> {
        if !self.has_switches {
            self.has_switches = true;
            self.judge_early(judged)?;
        }
        if let Some(runs) = self.get_mut(read.cpu)? {
            runs.switch = Some(Switch {
                line: read.line,
                at: read.at,
                next,
                is_deadline,
                clock: runs.clock,
            });
        }
        Ok(())
    }

    fn judge_early(&mut self, judged: &mut JudgedLaws) -> Result<(), AllocError> {
        for place in 0..self.early.len() {
            if let Some(early) = self.early.get(place) {
                let early = *early;
                judge_gap(judged, early)?;
            }
        }
        self.early.clear();
        Ok(())
    }

    /// A charge of a task: `before` is the line of that task before.
    pub fn charge(
        &mut self,
        judged: &mut JudgedLaws,
        read: ReadLine,
        line: &Updated,
        before: Option<u64>,
    ) -> Result<(), AllocError> {
        let nanos = nanos_of(line.ran);
        if nanos <= 0 {
            return Ok(());
        }
        let ends = match line.ran {
            Ran::Clocks { now, .. } => now,
            Ran::Span { .. } => line.clock,
        };
        let begins = ends.wrapping_sub(nanos.unsigned_abs());
        let has_switches = self.has_switches;
        let Some(runs) = self.get_mut(line.cpu)? else {
            return Ok(());
        };
        let (last, switch, lag) = (runs.charge, runs.switch, runs.least_lag());
        runs.charge = Some(LastCharge {
            line: read.line,
            ends,
        });
        let Some(last) = last else {
            return Ok(());
        };
        let pid = line.pid;
        let twice = Finding::ChargedTwice {
            ends: last.ends,
            begins,
        };
        judge_run(judged, read, pid, is_apart(last.ends, begins), twice)?;
        let switch = switch.filter(|switch| switch.line > last.line);
        if before == Some(last.line) && switch.is_none() {
            let early = Early {
                read,
                pid,
                ends: last.ends,
                begins,
            };
            if has_switches {
                judge_gap(judged, early)?;
            } else {
                self.early.push(early)?;
            }
        }
        match switch {
            Some(switch) => {
                let charge = Charge {
                    read,
                    pid,
                    before,
                    begins,
                    lag,
                };
                judge_first(judged, charge, switch)
            }
            None => Ok(()),
        }
    }
}

/// Two charges of one run.
fn judge_gap(judged: &mut JudgedLaws, early: Early) -> Result<(), AllocError> {
    let Early {
        read,
        pid,
        ends,
        begins,
    } = early;
    judge_run(
        judged,
        read,
        pid,
        ends == begins,
        Finding::NotCharged { ends, begins },
    )
}

/// The first charge of a run.
fn judge_first(judged: &mut JudgedLaws, charge: Charge, switch: Switch) -> Result<(), AllocError> {
    let Charge {
        read,
        pid,
        before,
        begins,
        lag,
    } = charge;
    let is_first = before.is_none_or(|line| line < switch.line);
    if switch.next != pid || !switch.is_deadline || !is_first {
        return Ok(());
    }
    let put_on = switch.at.wrapping_sub(lag.cast_unsigned());
    let from = switch.clock.unwrap_or(begins);
    let elsewhere = Finding::NotAtSwitch {
        switch: put_on,
        begins,
    };
    judge_run(
        judged,
        read,
        pid,
        begins_at_switch(from, begins, put_on),
        elsewhere,
    )
}

fn judge_run(
    judged: &mut JudgedLaws,
    read: ReadLine,
    pid: u64,
    is_right: bool,
    finding: Finding,
) -> Result<(), AllocError> {
    if is_right {
        judged.holds(Law::Run);
        return Ok(());
    }
    judged.breaks(Breach {
        law: Law::Run,
        place: read.place(LineKind::Update),
        whose: Whose::Task { pid },
        finding,
        sign: None,
    })
}
