//! The lines of a trace that bear on the first deviation: the trace is read a second time for them.

use check_record::Played;
use kernel_rules::ChargeLaw;
use probe_findings::{Deviation, Quantity, Subject, Whose};
use probe_run::{Actor, FirstNotes, Run};
use probe_tasks::law_shown;
use probe_verdict::{Evidence, RuleNumbers};
use std::alloc::{AllocError, Global};
use std::io;
use text_bytes::read_once;
use trace_data::{Probe, RecordLine, Said};
use trace_lines::told_by;

/// So many lines are shown at most.
const MOST: usize = 10;

/// The bytes of a piece of a trace.
const PIECE: usize = 65_536;

/// Whose lines are wanted.
#[derive(Clone, Copy)]
enum Bearing {
    Task {
        pid: u64,
        inactive_timer: Option<u64>,
        deadline_timer: Option<u64>,
    },

    /// Of the runqueue of a CPU, or of a fair server.
    Cpu(u32),

    /// What changes `extra_bw` and `total_bw`.
    Domain,
}

/// What is sought in a trace, and what of it was found.
#[derive(Drop)]
pub(crate) struct Sought {
    first: Deviation,
    notes: FirstNotes,

    /// Whose equation the last charge is by.
    law: ChargeLaw,
    bearing: Bearing,

    /// How many lines were read, and what came since the last of them ended.
    number: u64,
    carry: Vec<u8>,
    lines: Vec<Vec<u8>>,
    more: u64,
    cause: Option<Probe>,
}

/// Whose lines bear on a deviation.
fn bearing_of(run: &Run, first: &Deviation) -> Option<Bearing> {
    let compared = first.comparison;
    match compared.subject {
        Subject::Entity(Whose::Server { cpu }) => Some(Bearing::Cpu(cpu)),
        Subject::Entity(Whose::Task { pid, .. }) => Some(bearing_of_task(run, pid)),
        Subject::Runqueue(cpu) => Some(match compared.quantity {
            Quantity::ExtraBw => Bearing::Domain,
            _ => Bearing::Cpu(cpu),
        }),
        Subject::RootDomain(_) => Some(Bearing::Domain),
        Subject::Nobody => None,
    }
}

fn bearing_of_task(run: &Run, pid: u64) -> Bearing {
    let actor: Option<Actor> = run.task_number(pid).map(|number| run.actor(number));
    Bearing::Task {
        pid,
        inactive_timer: actor.and_then(|one| one.inactive_timer),
        deadline_timer: actor.and_then(|one| one.deadline_timer),
    }
}

/// Whether a line shows or changes what is sought.
fn bears(bearing: Bearing, probe: &Probe) -> bool {
    match bearing {
        Bearing::Task {
            pid,
            inactive_timer,
            deadline_timer,
        } => match timer_of(probe) {
            Some(timer) => inactive_timer == Some(timer) || deadline_timer == Some(timer),
            None => pid_of(probe) == Some(pid),
        },
        Bearing::Cpu(cpu) => cpu_of(probe) == Some(cpu),
        Bearing::Domain => matches!(
            probe,
            Probe::Admitted(_) | Probe::LeftClass(_) | Probe::ZeroLagFired { .. } | Probe::Mark(_)
        ),
    }
}

fn timer_of(probe: &Probe) -> Option<u64> {
    match probe {
        Probe::ZeroLagFired { timer } => Some(*timer),
        Probe::ReplenishFired { timer, .. } => Some(*timer),
        Probe::Armed(line) => Some(line.timer),
        _ => None,
    }
}

fn pid_of(probe: &Probe) -> Option<u64> {
    match probe {
        Probe::Enqueued(line) => Some(line.pid),
        Probe::Updated(line) => Some(line.pid),
        Probe::Dequeued(line) => Some(line.pid),
        Probe::Migrating(line) => Some(line.pid),
        Probe::LeftClass(line) => Some(line.pid),
        Probe::Admitted(line) => Some(line.pid),
        _ => None,
    }
}

fn cpu_of(probe: &Probe) -> Option<u32> {
    match probe {
        Probe::Enqueued(line) => Some(line.cpu),
        Probe::Updated(line) => Some(line.cpu),
        Probe::Dequeued(line) => Some(line.cpu),
        Probe::LeftClass(line) => Some(line.cpu),
        Probe::Admitted(line) => Some(line.cpu),
        Probe::ServerStarted(line) => Some(line.cpu),
        Probe::Picked(line) => Some(line.cpu),
        Probe::ServerStopped(line) => Some(line.cpu),
        _ => None,
    }
}

impl Sought {
    /// What is sought of a play; none where each value agrees.
    pub fn of(alloc: Global, played: &Played) -> Option<Sought> {
        let run = played.player.run();
        let first = run.first()?;
        let notes = run.first_notes()?;
        Some(Sought {
            first,
            notes,
            law: played.player.rules().law,
            bearing: bearing_of(run, &first)?,
            number: 0,
            carry: Vec::new(alloc),
            lines: Vec::new(alloc),
            more: 0,
            cause: None,
        })
    }

    /// The line of the deviation.
    fn last(&self) -> u64 {
        self.first.comparison.place.line
    }

    /// Reads the trace up to the deviation.
    pub fn read<D, N: Fn(&mut D, &mut [u8]) -> io::Result<usize>>(
        &mut self,
        alloc: Global,
        read: &N,
        file: &mut D,
    ) -> Result<(), AllocError>
        requires { N.IsAlwaysCallable read.now }
    {
        for _ in 0..u64::MAX {
            if self.number >= self.last() || !self.read_piece(alloc, read, file)? {
                return Ok(());
            }
        }
        Ok(())
    }

    /// Reads the next piece; false at the end of the trace, or where it cannot be read.
    fn read_piece<D, N: Fn(&mut D, &mut [u8]) -> io::Result<usize>>(
        &mut self,
        alloc: Global,
        read: &N,
        file: &mut D,
    ) -> Result<bool, AllocError>
        requires { N.IsAlwaysCallable read.now }
    {
        let mut room = Vec::from_elem(alloc, 0u8, PIECE)?;
        let Ok(count) = read_once(read, file, &mut room) else {
            return Ok(false);
        };
        self.feed(alloc, &room[..count])?;
        Ok(count > 0)
    }

    fn feed(&mut self, alloc: Global, piece: &[u8]) -> Result<(), AllocError> {
        for part in piece.split_inclusive(|byte| *byte == b'\n') {
            match part.split_last() {
                Some((b'\n', text)) => {
                    self.carry.extend_from_slice(text)?;
                    self.end_line(alloc)?;
                }
                _ => self.carry.extend_from_slice(part)?,
            }
        }
        Ok(())
    }

    fn end_line(&mut self, alloc: Global) -> Result<(), AllocError> {
        self.number = self.number.saturating_add(1);
        let since = self.first.since.line;
        let is_between = self.notes.right < self.number && self.number <= self.last();
        let is_charge = self.number == self.notes.charge.map_or(0, |charge| charge.line);
        if is_between || is_charge || self.number == since {
            if let Some(probe) = probe_in(&self.carry) {
                if let Probe::Updated(line) = probe
                    && is_charge
                {
                    self.law = law_shown(self.law, line.ran);
                }
                if self.number == since {
                    self.cause = Some(probe);
                }
                if is_between && bears(self.bearing, &probe) {
                    self.keep(alloc)?;
                }
            }
        }
        self.carry.clear();
        Ok(())
    }

    fn keep(&mut self, alloc: Global) -> Result<(), AllocError> {
        if self.lines.len() >= MOST {
            self.more = self.more.saturating_add(1);
            return Ok(());
        }
        let mut kept = Vec::new(alloc);
        kept.extend_from_slice(self.carry.as_slice())?;
        self.lines.push(kept)?;
        Ok(())
    }

    /// What was found.
    pub fn evidence(&self) -> Evidence<'_> {
        let rule = match self.first.since.rule {
            Some(rule) => Some(RuleNumbers {
                rule,
                law: self.law,
                cause: self.cause,
                charge: self.notes.charge,
            }),
            None => None,
        };
        Evidence {
            right: self.notes.right,
            lines: &self.lines,
            more: self.more,
            rule,
        }
    }
}

/// The line of a probe that this text is.
fn probe_in(text: &[u8]) -> Option<Probe> {
    match told_by(text).line {
        RecordLine::Event {
            said: Said::Probe(probe),
            ..
        } => Some(probe),
        _ => None,
    }
}
