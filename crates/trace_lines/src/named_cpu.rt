//! The CPU that an event names beside that of its line.

ghost use Rattle.std.specs.Prelude.{◌≡◌};
ghost use Rattle.trace_lines.specs.Lines.{fixed_cpu, flaw_of, mark_cpu, probe_cpu, said_cpu};

use crate::word::CPUS;
use trace_data::{Fixed, Flaw, Mark, Probe, Said};

fn fixed_cpu(fixed: &Fixed) -> u32
    ensures { result ≡ fixed_cpu fixed.now }
{
    match *fixed {
        Fixed::Woken { cpu, .. } | Fixed::Migrated { cpu, .. } => cpu,
        _ => 0,
    }
}

fn mark_cpu(mark: &Mark) -> u32
    ensures { result ≡ mark_cpu mark.now }
{
    match *mark {
        Mark::DomainAttached { cpu, .. }
        | Mark::BandwidthTaken { cpu }
        | Mark::BandwidthFreed { cpu }
        | Mark::AffinitySet { cpu, .. }
        | Mark::ServerChanged { cpu, .. }
        | Mark::CpuDeactivated { cpu }
        | Mark::CpuActivated { cpu } => cpu,
        Mark::LimitHandled { .. } | Mark::TaskRebuilt { .. } => 0,
    }
}

pub(crate) fn probe_cpu(probe: &Probe) -> u32
    ensures { result ≡ probe_cpu probe.now }
{
    match probe {
        Probe::Enqueued(enqueued) => enqueued.cpu,
        Probe::Updated(updated) => updated.cpu,
        Probe::Dequeued(dequeued) => dequeued.cpu,
        Probe::LeftClass(left) => left.cpu,
        Probe::Admitted(admitted) => admitted.cpu,
        Probe::ServerStarted(started) => started.cpu,
        Probe::Picked(picked) => picked.cpu,
        Probe::ServerStopped(stopped) => stopped.cpu,
        Probe::ServerIdled(idled) => idled.cpu,
        Probe::Mark(mark) => mark_cpu(mark),
        _ => 0,
    }
}

/// The CPU that an event names beside its line's, or 0.
fn said_cpu(said: &Said) -> u32
    ensures { result ≡ said_cpu said.now }
{
    match said {
        Said::Fixed(fixed) => fixed_cpu(fixed),
        Said::Probe(probe) => probe_cpu(probe),
    }
}

/// What is wrong with a line of an event, by its CPU.
pub(crate) fn flaw_of(cpu: u32, said: &Said) -> Option<Flaw>
    ensures { result ≡ flaw_of cpu said.now }
{
    if cpu.max(said_cpu(said)) >= CPUS {
        Some(Flaw::TooLong)
    } else {
        None
    }
}
