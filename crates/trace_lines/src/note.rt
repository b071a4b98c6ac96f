//! Notes: lines `# grub: ..` at the head of a record.

ghost use Rattle.std.specs.Prelude.{◌≡◌, option_map};
ghost use Rattle.trace_fields.specs.Words.{text_of};
ghost use Rattle.trace_lines.specs.Notes.{at_of, capacity_note, domain_of, end_note, head_note, head_with, kernel_in, limit_of, lost_note, note_of, noted_by, policy_of, reservation, runqueue_note, sums, task_note, task_with};
ghost use Rattle.trace_lines.specs.inside.Texts.{noted_text};
ghost use Rattle.trace_lines.specs.ToldTexts.{maybe_text};

use crate::word::{
    is_domain, kernel_of, number_in, optional, optional_sum, rt_limit, server_in, small, word_in,
};
use text_bytes::first_word;
use trace_data::{Kernel, Limit, Parameters, Policy, Sums, TraceNote};
use trace_fields::{after, behind, place_of, point_text, without_spaces};
use trace_probes::unsigned;

/// How many lines a record lacks: those that its buffers lost, and those that probes missed.
#[derive(Clone, Copy)]
pub struct Lost {
    pub lines: u64,
    pub missed: u64,
}

/// What a line of the head says; `T` is a text.
#[derive(Clone, Copy)]
pub enum Noted<T> {
    /// Nothing that is read.
    Quiet,

    /// The first note; the CPUs of the root domain, as `0-3,5`, and the kernel's whole release, where they stand there.
    Head {
        note: TraceNote,
        domain: Option<T>,
        release: Option<T>,
    },

    /// What is noted of a task, and its comm.
    Task {
        note: TraceNote,
        pid: u64,
        comm: T,
    },

    /// Another note.
    Other {
        note: TraceNote,
    },
    Lost {
        lost: Lost,
    },

    /// A line of the kernel's log that warns of the scheduler.
    Warning {
        text: T,
    },

    /// A CPU, and what sets its frequency.
    Governor {
        text: T,
    },
}

fn kernel_in(text: &[u8]) -> Option<Option<Kernel>>
    ensures { result ≡ kernel_in text.now }
{
    match word_in(b"kernel=", text) {
        None => Some(None),
        Some(word) => Some(Some(kernel_of(word)?)),
    }
}

fn limit_of(text: &[u8]) -> Option<Option<Limit>>
    ensures { result ≡ limit_of text.now }
{
    match word_in(b"max-bw=", text) {
        Some(word) => Some(Some(Limit::MaxBw(unsigned(word)?))),
        None => match word_in(b"rt=", text) {
            Some(word) => Some(Some(rt_limit(word)?)),
            None => Some(None),
        },
    }
}

fn domain_of(text: &[u8]) -> Option<Option<&[u8]>>
    ensures { option_map maybe_text result ≡ domain_of text.now }
{
    match word_in(b"domain=", text) {
        None => Some(None),
        Some(word) => {
            if is_domain(word) {
                Some(Some(word))
            } else {
                None
            }
        }
    }
}

fn head_with(text: &[u8]) -> Option<Noted<&[u8]>>
    ensures { option_map noted_text result ≡ head_with text.now }
{
    let kernel = kernel_in(text)?;
    let limit = limit_of(text)?;
    let total_bw = optional_sum(b"total-bw=", text)?;
    let domain = domain_of(text)?;
    Some(Noted::Head {
        note: TraceNote::Head {
            kernel,
            limit,
            total_bw,
        },
        domain,
        release: word_in(b"kernel=", text),
    })
}

/// The first note, whose version is 1.
fn head_note(text: &[u8]) -> Option<Noted<&[u8]>>
    ensures { option_map noted_text result ≡ head_note text.now }
{
    if first_word(without_spaces(text)).0 == b"1".as_slice() {
        head_with(text)
    } else {
        None
    }
}

fn sums(text: &[u8]) -> Option<Sums>
    ensures { result ≡ sums text.now }
{
    let this_bw = number_in(b"this=", text)?;
    let running_bw = number_in(b"running=", text)?;
    let extra_bw = number_in(b"extra=", text)?;
    Some(Sums {
        this_bw,
        running_bw,
        extra_bw,
    })
}

fn runqueue_note(text: &[u8]) -> Option<Noted<&[u8]>>
    ensures { option_map noted_text result ≡ runqueue_note text.now }
{
    let cpu = small(unsigned(first_word(without_spaces(text)).0)?)?;
    let sums = sums(text)?;
    let domain = optional(b"rd=", text)?;
    let server = server_in(text)?;
    Some(Noted::Other {
        note: TraceNote::Runqueue {
            cpu,
            sums,
            domain,
            server,
        },
    })
}

/// What a CPU can do.
fn capacity_note(text: &[u8]) -> Option<Noted<&[u8]>>
    ensures { option_map noted_text result ≡ capacity_note text.now }
{
    let cpu = small(number_in(b"cpu=", text)?)?;
    let capacity = number_in(b"of=", text)?;
    Some(Noted::Other {
        note: TraceNote::Capacity { cpu, capacity },
    })
}

fn at_of(text: &[u8]) -> Option<Option<u64>>
    ensures { result ≡ at_of text.now }
{
    let word = word_in(b"at=", text)?;
    if word == b"start".as_slice() {
        Some(None)
    } else {
        Some(Some(point_text(word)?))
    }
}

fn reservation(text: &[u8]) -> Option<Policy>
    ensures { result ≡ reservation text.now }
{
    let dl_runtime = number_in(b"runtime=", text)?;
    let dl_deadline = number_in(b"deadline=", text)?;
    let dl_period = number_in(b"period=", text)?;
    let flags = number_in(b"flags=", text)?;
    Some(Policy::Deadline(Parameters {
        dl_runtime,
        dl_deadline,
        dl_period,
        flags,
    }))
}

fn policy_of(text: &[u8]) -> Option<Policy>
    ensures { result ≡ policy_of text.now }
{
    match word_in(b"policy=", text) {
        None => reservation(text),
        Some(word) => {
            if unsigned(word)? == 6 {
                reservation(text)
            } else {
                Some(Policy::Other)
            }
        }
    }
}

fn task_with<'a>(text: &'a [u8], comm: &'a [u8]) -> Option<Noted<&'a [u8]>>
    ensures { option_map noted_text result ≡ task_with text.now comm.entry.now }
{
    let pid = number_in(b"pid=", text)?;
    let at = at_of(text)?;
    let by = optional(b"by=", text)?;
    let cpu = small(number_in(b"cpu=", text)?)?;
    let policy = policy_of(text)?;
    Some(Noted::Task {
        note: TraceNote::Task {
            pid,
            at,
            by,
            cpu,
            policy,
        },
        pid,
        comm,
    })
}

/// A note of a task. Older records of probes have others, which begin with its comm and tell nothing.
fn task_note(text: &[u8]) -> Option<Noted<&[u8]>>
    ensures { option_map noted_text result ≡ task_note text.now }
{
    if without_spaces(text).starts_with(b"pid=") {
        let place = place_of(b"comm=", text)?;
        let comm = behind(b"comm=", text)?;
        task_with(&text[..place], comm)
    } else {
        Some(Noted::Quiet)
    }
}

fn end_note(text: &[u8]) -> Option<Noted<&[u8]>>
    ensures { option_map noted_text result ≡ end_note text.now }
{
    let limit = limit_of(text)?;
    let total_bw = optional_sum(b"total-bw=", text)?;
    Some(Noted::Other {
        note: TraceNote::End { limit, total_bw },
    })
}

fn lost_note(text: &[u8]) -> Option<Noted<&[u8]>>
    ensures { option_map noted_text result ≡ lost_note text.now }
{
    let lines = unsigned(first_word(without_spaces(text)).0)?;
    let missed = number_in(b"missed ", text)?;
    Some(Noted::Lost {
        lost: Lost { lines, missed },
    })
}

/// What a note says that is of this kind.
fn noted_by<'a>(kind: &[u8], text: &'a [u8]) -> Option<Noted<&'a [u8]>>
    ensures { option_map noted_text result ≡ noted_by kind.now text.now }
{
    if kind == b"notes".as_slice() {
        head_note(text)
    } else if kind == b"cpu".as_slice() {
        runqueue_note(text)
    } else if kind == b"capacity".as_slice() {
        capacity_note(text)
    } else if kind == b"log".as_slice() {
        Some(Noted::Warning {
            text: without_spaces(text),
        })
    } else if kind == b"governor".as_slice() {
        Some(Noted::Governor {
            text: without_spaces(text),
        })
    } else if kind == b"task".as_slice() {
        task_note(text)
    } else if kind == b"end".as_slice() {
        end_note(text)
    } else if kind == b"lost".as_slice() {
        lost_note(text)
    } else {
        Some(Noted::Quiet)
    }
}

/// What a line that begins with `#` says; none where it is a note that is wrong.
pub(crate) fn note_of(line: &[u8]) -> Option<Noted<&[u8]>>
    ensures { option_map noted_text result ≡ note_of line.now }
{
    match after(b"# grub: ", line) {
        None => Some(Noted::Quiet),
        Some(text) => {
            let (kind, _) = first_word(text);
            noted_by(kind, &text[kind.len()..])
        }
    }
}
