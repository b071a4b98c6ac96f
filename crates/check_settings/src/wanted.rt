//! Which lines are kept beside those of timers and tasks.

ghost use Rattle.std.specs.Prelude.{◌≡◌};
ghost use Rattle.timer_play.specs.Kernels.{picks_of, stops_with_timer_of};
ghost use Rattle.check_settings.specs.Wanted.{wanted_by, wanted_of};

use kernel_rules::{Servers, release_of, wants_sums};
use trace_data::Kernel;

/// Which lines are kept beside those of timers and tasks.
#[derive(Clone, Copy)]
pub struct WantedLines {
    /// Those that say no more than that a CPU idles.
    pub idle: bool,

    /// Those of cancelled timers.
    pub cancels: bool,
}

/// The kernel where nothing is said.
const CURRENT: Kernel = Kernel {
    major: 6,
    minor: 18,
    patch: 0,
};

fn stop_at_pick(servers: Servers) -> bool
    ensures { result ≡ picks_of servers }
{
    match servers {
        Servers::StopAtPick => true,
        Servers::Absent | Servers::StopWithTimer | Servers::StopAtIdle => false,
    }
}

fn stop_with_timer(servers: Servers) -> bool
    ensures { result ≡ stops_with_timer_of servers }
{
    match servers {
        Servers::StopWithTimer => true,
        Servers::Absent | Servers::StopAtPick | Servers::StopAtIdle => false,
    }
}

fn wanted_of(servers: Servers, has_sums: bool) -> WantedLines
    ensures { result ≡ wanted_of servers has_sums }
{
    let all = wants_sums(servers) && !has_sums;
    WantedLines {
        idle: all || stop_at_pick(servers),
        cancels: all || stop_with_timer(servers),
    }
}

/// The lines that bear on the fair servers of a kernel, whose sums notes tell or not.
pub fn wanted_by(kernel: Option<Kernel>, has_sums: bool) -> WantedLines
    ensures { result ≡ wanted_by kernel has_sums }
{
    wanted_of(release_of(kernel.unwrap_or(CURRENT)).servers, has_sums)
}
