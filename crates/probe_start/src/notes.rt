//! What notes and options say of a machine.

ghost use Rattle.std.specs.Prelude.{◌≡◌, ◌<◌, IfSome, length, position};
ghost use Rattle.probe_findings.specs.Settings.{server_bw_by};
ghost use Rattle.probe_start.specs.Notes.{cpu_note_of, is_note_of, is_server_of, server_note_of};

use probe_findings::{LawSettings, ServerNote};
use std::alloc::AllocError;

/// What a note says of a CPU.
#[derive(Clone, Copy)]
pub struct CpuNote {
    pub cpu: u32,

    /// Its root domain, if a note tells it.
    pub domain: Option<u64>,

    /// In units of 2^-10 of the fastest CPU's.
    pub capacity: Option<u64>,
}

/// What is said of a machine.
#[derive(Drop)]
pub struct StartNotes {
    pub settings: LawSettings,
    pub servers: Vec<ServerNote>,
    pub cpus: Vec<CpuNote>,
}

fn server_place(servers: &[ServerNote], cpu: u32) -> Option<usize>
    ensures place { result ≡ position (is_server_of cpu) servers.now }
    ensures bound { IfSome result (λ place. place < length servers.now) }
{
    servers.iter().position(|one| one.cpu == cpu)
}

fn server_note(servers: &[ServerNote], cpu: u32) -> Option<ServerNote>
    ensures { result ≡ server_note_of servers.now cpu }
{
    match server_place(servers, cpu) {
        None => None,
        Some(place) => servers.get(place).copied(),
    }
}

fn note_place(cpus: &[CpuNote], cpu: u32) -> Option<usize>
    ensures place { result ≡ position (is_note_of cpu) cpus.now }
    ensures bound { IfSome result (λ place. place < length cpus.now) }
{
    cpus.iter().position(|one| one.cpu == cpu)
}

impl StartNotes {
    /// The bandwidth of the fair server of a CPU, whose first line shows this one or none.
    pub fn server_bw(&self, cpu: u32, shown: Option<u64>) -> u64
        ensures { result
            ≡ server_bw_by self.now.settings (server_note_of self.now.servers.items cpu) shown }
    {
        let note = server_note(self.servers.as_slice(), cpu);
        self.settings.server_bw(note, shown)
    }
}

/// What is said of a CPU, of which nothing may be said.
pub fn note_of(cpus: &[CpuNote], cpu: u32) -> CpuNote
    ensures { result ≡ cpu_note_of cpus.now cpu }
{
    let nothing = CpuNote {
        cpu,
        domain: None,
        capacity: None,
    };
    match note_place(cpus, cpu) {
        Some(place) => match cpus.get(place) {
            Some(note) => *note,
            None => nothing,
        },
        None => nothing,
    }
}

/// Keeps what is said of a CPU.
pub fn put_note(cpus: &mut Vec<CpuNote>, note: CpuNote) -> Result<(), AllocError> {
    for place in 0..cpus.len() {
        if cpus[place].cpu == note.cpu {
            cpus[place] = note;
            return Ok(());
        }
    }
    cpus.push(note)?;
    Ok(())
}
