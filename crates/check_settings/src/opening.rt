//! When a line shows that the kernel changes `extra_bw` by no rule of a task.

ghost use Rattle.std.specs.Prelude.{◌≡◌};
ghost use Rattle.check_settings.specs.Opening.{change_opens, changes_frequency, newcomer_by, opening_by, opens_by};
ghost use Rattle.check_settings.specs.Heads.{lacks_cpu, told_of};

use crate::head::{OpeningSign, RecordHead};
use trace_data::{Fixed, Mark, Probe, RecordLine, Said};
use trace_lines::CpuChange;
use trace_options::CheckOptions;

/// What a line shows by which a task of this comm is shown: a function changes `extra_bw`, or a CPU goes or comes.
pub fn opening_of(line: &RecordLine, comm: &[u8]) -> Option<OpeningSign>
    ensures { result ≡ opening_by line.now comm.now }
{
    match *line {
        RecordLine::Event {
            said: Said::Probe(Probe::Mark(mark)),
            ..
        } if opens(mark) => Some(OpeningSign::Mark),
        RecordLine::Event {
            said: Said::Fixed(Fixed::Woken { cpu, .. }),
            ..
        } if comm.starts_with(b"cpuhp/") => Some(OpeningSign::Hotplug { cpu }),
        _ => None,
    }
}

/// What an event shows by which a CPU goes or comes.
pub fn opening_by_change(change: Option<CpuChange>) -> Option<OpeningSign>
    ensures { result ≡ change_opens change }
{
    match change {
        Some(CpuChange::Hotplug { cpu }) => Some(OpeningSign::Hotplug { cpu }),
        Some(CpuChange::Frequency) | None => None,
    }
}

/// Whether an event shows that a frequency changes.
pub fn is_frequency(change: Option<CpuChange>) -> bool
    ensures { result ≡ changes_frequency change }
{
    matches!(change, Some(CpuChange::Frequency))
}

/// Whether a mark is of a function that changes `extra_bw`, or may.
fn opens(mark: Mark) -> bool
    ensures { result ≡ opens_by mark }
{
    match mark {
        Mark::LimitHandled { is_write } => is_write,
        Mark::TaskRebuilt { .. } | Mark::AffinitySet { .. } => false,
        Mark::DomainAttached { .. }
        | Mark::BandwidthTaken { .. }
        | Mark::BandwidthFreed { .. }
        | Mark::ServerChanged { .. }
        | Mark::CpuDeactivated { .. }
        | Mark::CpuActivated { .. } => true,
    }
}

/// What a line of a CPU shows that the head lacks.
pub fn newcomer(head: &RecordHead, options: &CheckOptions<'_>, cpu: u32) -> Option<OpeningSign>
    ensures { result ≡ newcomer_by (lacks_cpu (told_of head.now) options.now cpu) cpu }
{
    if head.lacks(options, cpu) {
        Some(OpeningSign::NewCpu { cpu })
    } else {
        None
    }
}
