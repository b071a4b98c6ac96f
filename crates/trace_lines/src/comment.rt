//! A line that begins with `#`: a note, or a line of a trace's head.

ghost use Rattle.std.specs.Prelude.{◌≡◌};
ghost use Rattle.trace_lines.specs.Lines.{comment_line, head_line, note_cpu, note_line, noted_line};
ghost use Rattle.trace_lines.specs.inside.Texts.{noted_text};
ghost use Rattle.trace_lines.specs.ToldTexts.{told_text};

use crate::line::{ToldLine, told_line};
use crate::note::{Noted, note_of};
use crate::word::CPUS;
use trace_data::{Flaw, RecordLine, TraceNote};
use trace_fields::{Shown, processors};

fn note_cpu(note: &TraceNote) -> u32
    ensures { result ≡ note_cpu note.now }
{
    match *note {
        TraceNote::Runqueue { cpu, .. }
        | TraceNote::Capacity { cpu, .. }
        | TraceNote::Task { cpu, .. } => cpu,
        _ => 0,
    }
}

fn note_line(note: TraceNote) -> RecordLine
    ensures { result ≡ note_line note }
{
    if note_cpu(&note) >= CPUS {
        RecordLine::Flawed(Flaw::TooLong)
    } else {
        RecordLine::Note(note)
    }
}

/// A line of the head that says how many processors there are.
fn head_line<'a>(processors: Option<u32>) -> ToldLine<&'a [u8]>
    ensures { told_text result ≡ head_line processors }
{
    ToldLine {
        processors,
        ..told_line(RecordLine::Quiet)
    }
}

fn noted_line<'a>(line: &'a [u8], noted: Noted<&'a [u8]>) -> ToldLine<&'a [u8]>
    ensures { told_text result ≡ noted_line line.now (noted_text noted.entry) }
{
    match noted {
        Noted::Quiet => head_line(processors(line)),
        Noted::Head {
            note,
            domain,
            release,
        } => ToldLine {
            domain,
            release,
            ..told_line(note_line(note))
        },
        Noted::Task { note, pid, comm } => ToldLine {
            shown: Some(Shown { comm, pid }),
            ..told_line(note_line(note))
        },
        Noted::Other { note } => told_line(note_line(note)),
        Noted::Lost { lost } => ToldLine {
            lost: Some(lost),
            ..told_line(RecordLine::Quiet)
        },
        Noted::Warning { text } => ToldLine {
            warning: Some(text),
            ..told_line(RecordLine::Quiet)
        },
        Noted::Governor { text } => ToldLine {
            governor: Some(text),
            ..told_line(RecordLine::Quiet)
        },
    }
}

/// What a line tells that begins with `#`.
#[inline(never)]
pub(crate) fn comment_line(line: &[u8]) -> ToldLine<&[u8]>
    ensures { told_text result ≡ comment_line line.now }
{
    match note_of(line) {
        None => told_line(RecordLine::Flawed(Flaw::BadTraceLine)),
        Some(noted) => noted_line(line, noted),
    }
}
