//! What an event tells of the CPUs: a frequency changes, or a CPU goes or comes.

ghost use Rattle.std.specs.Prelude.{◌≡◌, is_some};
ghost use Rattle.trace_fields.specs.Numbers.{before_end};
ghost use Rattle.trace_lines.specs.Changes.{change_of, hotplug_by, hotplug_cpu, is_activation, is_frequency, is_hotplug};

use text_bytes::first_word;
use trace_fields::{before_end, behind, number, without_spaces};

/// What an event tells of the CPUs.
#[derive(Clone, Copy)]
pub enum CpuChange {
    /// power:cpu_frequency: the frequency of a CPU changes.
    Frequency,

    /// cpuhp:cpuhp_enter of `sched_cpu_deactivate` or `sched_cpu_activate`: this CPU goes, or comes.
    Hotplug { cpu: u32 },
}

/// Whether a word names the event of a frequency that changes.
fn is_frequency(word: &[u8]) -> bool
    ensures { result ≡ is_frequency word.now }
{
    word == b"cpu_frequency:".as_slice() || word == b"power:cpu_frequency:".as_slice()
}

/// Whether a word names the event of a step of CPU hotplug.
fn is_hotplug(word: &[u8]) -> bool
    ensures { result ≡ is_hotplug word.now }
{
    word == b"cpuhp_enter:".as_slice() || word == b"cpuhp:cpuhp_enter:".as_slice()
}

fn ends(key: &[u8], text: &[u8]) -> bool
    ensures { result ≡ is_some (before_end key.now text.now) }
{
    match before_end(key, text) {
        Some(_) => true,
        None => false,
    }
}

/// Whether that step is the scheduler's: the CPU is not active any more, or is so again.
fn is_activation(fields: &[u8]) -> bool
    ensures { result ≡ is_activation fields.now }
{
    ends(b"(sched_cpu_deactivate)", fields) || ends(b"(sched_cpu_activate)", fields)
}

/// The CPU of such a step.
fn hotplug_cpu(fields: &[u8]) -> Option<u32>
    ensures { result ≡ hotplug_cpu fields.now }
{
    let (word, _) = first_word(without_spaces(behind(b"cpu:", fields)?));
    Some(number(word)?.min(u64::from(u32::MAX)) as u32)
}

fn hotplug(fields: &[u8]) -> Option<CpuChange>
    ensures { result ≡ hotplug_by fields.now }
{
    if is_activation(fields) {
        Some(CpuChange::Hotplug {
            cpu: hotplug_cpu(fields)?,
        })
    } else {
        None
    }
}

/// What an event of this word tells of the CPUs.
pub(crate) fn change_of(word: &[u8], fields: &[u8]) -> Option<CpuChange>
    ensures { result ≡ change_of word.now fields.now }
{
    if is_frequency(word) {
        Some(CpuChange::Frequency)
    } else if is_hotplug(word) {
        hotplug(fields)
    } else {
        None
    }
}
