//! A record's lines of probes, and what its notes say.

use kernel_rules::{ChargeLaw, charge_law, has_servers, ratio};
use probe_explain::ProbeLine;
use probe_findings::{LawSettings, ProbedLine, ServerNote};
use probe_lines::event_of;
use probe_run::PlayRules;
use probe_start::{CpuNote, RecordLook, StartNotes, note_of, put_note};
use std::alloc::{AllocError, Global};
use trace_data::{Kernel, Policy, RecordLine, Said, TraceNote};
use trace_lines::{Lines, RecordReader, ToldLine};

/// A record.
#[derive(Drop)]
pub(crate) struct ReadRecord {
    pub lines: Vec<ProbeLine>,
    pub look: RecordLook,
    pub notes: StartNotes,
    kernel: Option<Kernel>,

    /// The last CPU of the root domain by its note.
    last_cpu: u32,
}

impl ReadRecord {
    /// By which rules it is played.
    pub fn rules(&self) -> PlayRules {
        let law = match self.kernel {
            Some(kernel) => charge_law(kernel),
            None => ChargeLaw::LinuxFrom65,
        };
        self.look.rules(law, None, &self.notes)
    }

    fn note(&mut self, note: TraceNote, is_thread: bool) -> Result<(), AllocError> {
        match note {
            TraceNote::Head { kernel, .. } => {
                self.kernel = kernel;
                self.notes.settings.has_servers = match kernel {
                    Some(kernel) => has_servers(kernel),
                    None => false,
                };
                Ok(())
            }
            TraceNote::Runqueue {
                cpu,
                sums,
                domain,
                server,
            } => {
                self.notes.servers.push(ServerNote {
                    cpu,
                    server: server.map(|one| ratio(one.dl_runtime, one.dl_period)),
                    this_bw: sums.this_bw,
                })?;
                let noted = note_of(&self.notes.cpus, cpu);
                put_note(&mut self.notes.cpus, CpuNote { domain, ..noted })
            }
            TraceNote::Capacity { cpu, capacity } => {
                let noted = note_of(&self.notes.cpus, cpu);
                put_note(
                    &mut self.notes.cpus,
                    CpuNote {
                        capacity: Some(capacity),
                        ..noted
                    },
                )
            }
            TraceNote::Task {
                at: None,
                policy: Policy::Deadline(_),
                ..
            } => {
                self.notes.settings.has_older = self.notes.settings.has_older || !is_thread;
                Ok(())
            }
            TraceNote::Task { .. } | TraceNote::End { .. } => Ok(()),
        }
    }

    /// The CPUs of the note of the domain, where no note of a CPU tells its root domain.
    fn end(&mut self) -> Result<(), AllocError> {
        if self.notes.cpus.iter().any(|one| one.domain.is_some()) {
            return Ok(());
        }
        for cpu in 0..self.last_cpu.saturating_add(1) {
            let noted = note_of(&self.notes.cpus, cpu);
            put_note(
                &mut self.notes.cpus,
                CpuNote {
                    domain: Some(0),
                    ..noted
                },
            )?;
        }
        Ok(())
    }
}

impl Lines for ReadRecord {
    type Fault = AllocError;

    ghost use Rattle.std.specs.Prelude.{ℕ, true};

    ghost Seen = { ℕ };

    ghost seen = { λ lines. 0 };

    ghost step = { λ n told seen. record { more = true; seen = 0 } };

    fn take(&mut self, number: u64, told: &ToldLine<&[u8]>) -> Result<bool, AllocError> {
        if let Some([b'0', b'-', last]) = told.domain
            && last.is_ascii_digit()
        {
            self.last_cpu = (*last).saturating_sub(b'0') as u32;
        }
        let is_thread = match told.shown {
            Some(shown) => shown.comm.starts_with(b"sugov:"),
            None => false,
        };
        match told.line {
            RecordLine::Note(note) => self.note(note, is_thread)?,
            RecordLine::Event {
                at,
                cpu,
                pid,
                said: Said::Probe(probe),
                ..
            } => {
                self.look.see(at, &probe)?;
                let event = event_of(&probe);
                self.lines.push(ProbeLine {
                    place: ProbedLine {
                        line: number,
                        at,
                        cpu,
                        pid,
                        event,
                    },
                    probe,
                })?;
            }
            _ => {}
        }
        Ok(true)
    }
}

/// What a text says.
pub(crate) fn read_record(alloc: Global, text: &[u8]) -> Result<ReadRecord, AllocError> {
    let mut record = ReadRecord {
        lines: Vec::new(alloc),
        look: RecordLook::new(alloc),
        notes: StartNotes {
            settings: LawSettings {
                has_servers: false,
                server_bw: None,
                limit: None,
                has_older: false,
            },
            servers: Vec::new(alloc),
            cpus: Vec::new(alloc),
        },
        kernel: None,
        last_cpu: 0,
    };
    let mut reader = RecordReader::new(alloc);
    reader.feed(&mut record, text)?;
    let _ = reader.end();
    record.end()?;
    Ok(record)
}
