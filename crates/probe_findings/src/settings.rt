//! What is known beside the lines of a record: options stand above its lines.

ghost use Rattle.std.specs.Prelude.{◌≡◌};
ghost use Rattle.probe_findings.specs.Settings.{is_limit_by, noted_server, server_bw_by, usual_server};

use kernel_rules::{BW_UNIT, ratio};

/// The fair server's reservation where nothing tells it: 50 ms in each second (`fair_server_init`).
const FAIR_RUNTIME: u64 = 50_000_000;

const FAIR_PERIOD: u64 = 1_000_000_000;

/// What a note says of the fair server of a CPU.
#[derive(Clone, Copy)]
pub struct ServerNote {
    pub cpu: u32,

    /// The bandwidth of its `server=`; none where it has none.
    pub server: Option<u64>,
    pub this_bw: u64,
}

/// What is known beside the lines of a record.
#[derive(Clone, Copy)]
pub struct LawSettings {
    /// Whether the kernel has fair servers.
    pub has_servers: bool,

    /// The bandwidth of each fair server, where an option gives it.
    pub server_bw: Option<u64>,

    /// `max_bw`, where an option gives it.
    pub limit: Option<u64>,

    /// Whether a note tells of a task that was there at the start.
    pub has_older: bool,
}

fn noted_server(note: Option<ServerNote>) -> Option<u64>
    ensures { result ≡ noted_server note }
{
    match note {
        Some(note) => note.server,
        None => None,
    }
}

fn usual_server(has_servers: bool) -> u64
    ensures { result ≡ usual_server has_servers }
{
    if has_servers {
        ratio(FAIR_RUNTIME, FAIR_PERIOD)
    } else {
        0
    }
}

impl LawSettings {
    /// The bandwidth of a fair server: by the option, by `server=` of its note, by its first line, by `this_bw` of the note, or as the
    /// kernel begins. What is told of it stands above `this_bw`: a server that was counted twice at boot would be its own proof.
    pub fn server_bw(self, note: Option<ServerNote>, shown: Option<u64>) -> u64
        ensures { result ≡ server_bw_by self note shown }
    {
        match self.server_bw {
            Some(given) => given,
            None => match noted_server(note) {
                Some(noted) => noted,
                None => match shown {
                    Some(shown) => shown,
                    None => match note {
                        Some(note) => note.this_bw,
                        None => usual_server(self.has_servers),
                    },
                },
            },
        }
    }

    /// Whether this is the limit: the option's; else one that an admission shows, or any where none does; or the whole processor.
    pub fn is_limit(self, max_bw: u64, is_shown: bool, is_none_shown: bool) -> bool
        ensures { result ≡ is_limit_by self.limit max_bw is_shown is_none_shown }
    {
        match self.limit {
            Some(limit) => max_bw == limit,
            None => is_shown || is_none_shown || max_bw >= BW_UNIT,
        }
    }
}
