//! What a version of Linux has.

ghost use Rattle.std.specs.Prelude.{◌≡◌};
ghost use Rattle.kernel_rules.specs.Releases.{charge_law, has_servers, is_at_or_before, is_judged_by_probes, is_judged_by_timers, last_from, release_of, runs_servers, tried_by_probes, tried_by_timers, wants_sums};

use crate::ChargeLaw;
use crate::table::{OLDEST, RELEASES, Release, Servers};
use trace_data::Kernel;

/// Whether a version is this one or a later one.
fn is_at_or_before(from: Kernel, kernel: Kernel) -> bool
    ensures { result ≡ is_at_or_before from kernel }
{
    if from.major != kernel.major {
        from.major < kernel.major
    } else if from.minor != kernel.minor {
        from.minor < kernel.minor
    } else {
        from.patch <= kernel.patch
    }
}

/// The last of these rows that begins at or before a version, else `first`.
fn last_from(kernel: Kernel, first: Release, rows: &[Release]) -> Release
    ensures { result ≡ last_from kernel first rows.now }
{
    let mut found = first;
    for row in rows {
        if is_at_or_before(row.from, kernel) {
            found = *row;
        }
    }
    found
}

/// The row of a version: the last that begins at or before it.
pub fn release_of(kernel: Kernel) -> Release
    ensures { result ≡ release_of kernel }
{
    last_from(kernel, OLDEST, &RELEASES)
}

/// Whose arithmetic a kernel has (`grub_reclaim`): with `max_bw`, where it has that.
pub fn charge_law(kernel: Kernel) -> ChargeLaw
    ensures { result ≡ charge_law kernel }
{
    if release_of(kernel).has_max_bw {
        ChargeLaw::LinuxFrom65
    } else {
        ChargeLaw::LinuxBefore65
    }
}

fn runs(servers: Servers) -> bool
    ensures { result ≡ runs_servers servers }
{
    match servers {
        Servers::Absent => false,
        Servers::StopWithTimer | Servers::StopAtPick | Servers::StopAtIdle => true,
    }
}

/// Whether each runqueue has a fair server.
pub fn has_servers(kernel: Kernel) -> bool
    ensures { result ≡ has_servers kernel }
{
    runs(release_of(kernel).servers)
}

/// Whether the sums of a kernel's runqueues depend on its boot, so that a note has to tell them.
pub fn wants_sums(servers: Servers) -> bool
    ensures { result ≡ wants_sums servers }
{
    match servers {
        Servers::StopWithTimer | Servers::StopAtPick => true,
        Servers::Absent | Servers::StopAtIdle => false,
    }
}

/// Whether what a record of this kernel shows by probes is judged; one whose notes name none is.
pub fn is_judged_by_probes(kernel: Option<Kernel>) -> bool
    ensures { result ≡ is_judged_by_probes kernel }
{
    match kernel {
        Some(kernel) => release_of(kernel).is_tried_by_probes,
        None => true,
    }
}

/// Whether what a record of this kernel shows by timers is judged; one whose notes name none is.
pub fn is_judged_by_timers(kernel: Option<Kernel>) -> bool
    ensures { result ≡ is_judged_by_timers kernel }
{
    match kernel {
        Some(kernel) => release_of(kernel).is_tried_by_timers,
        None => true,
    }
}

/// The releases that were held to the check by probes, in words.
pub fn tried_by_probes() -> &'static str
    ensures { result.now ≡ tried_by_probes }
{
    "6.1, 6.12.92 and later 6.12"
}

/// The releases that were held to the check by timers, in words.
pub fn tried_by_timers() -> &'static str
    ensures { result.now ≡ tried_by_timers }
{
    "6.1, 6.12.92 and later 6.12, 6.18"
}
