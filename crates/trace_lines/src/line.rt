//! One line of a record.

ghost use Rattle.std.specs.Prelude.{◌≡◌, ◌==◌, ◌≤◌, length, option_map, position, reverse};
ghost use Rattle.text_bytes.specs.Lines.{word_of};
ghost use Rattle.memchr.specs.Find.{is_byte};
ghost use Rattle.trace_fields.specs.Head.{is_lost};
ghost use Rattle.trace_fields.specs.Opening.{opening_of};
ghost use Rattle.trace_fields.specs.inside.OpeningFits.{StartsWithin};
ghost use Rattle.trace_lines.specs.Lines.{checked, event_line, grain_behind, grain_of, line_behind, other_line, probed, said_by, said_or_bad, told_by, told_line, told_said};
ghost use Rattle.trace_lines.specs.inside.Texts.{named_text};
ghost use Rattle.trace_lines.specs.ToldTexts.{told_text};

use crate::change::{CpuChange, change_of};
use crate::comment::comment_line;
use crate::fixed::{
    Named, called, cancelled, fired, migrated, ran, returned, started, switched, woken,
};
use crate::named_cpu::{flaw_of, probe_cpu};
use crate::note::Lost;
use crate::scheduled::{Scheduled, waking};
use crate::verb::{Verb, is_waking, verb_of};
use crate::word::CPUS;
use memchr::memchr;
use text_bytes::first_word;
use trace_data::{Flaw, RecordLine, Said};
use trace_fields::{
    Opening, Shown, is_comment, is_lost, opening_of, running, running_comm, running_task,
    without_spaces,
};
use trace_probes::{ProbeEvent, probe_of};

/// What a line tells, and what stands beside it; `T` is a text.
#[derive(Clone, Copy)]
pub struct ToldLine<T> {
    pub line: RecordLine,

    /// The task that the line shows by comm and pid; of a line of a probe the one that runs.
    pub shown: Option<Shown<T>>,

    /// The CPUs of the root domain, as `0-3,5`, where a note has them.
    pub domain: Option<T>,

    /// The kernel's whole release, as `6.12.117+deb12-amd64`, where a note has it.
    pub release: Option<T>,

    /// How many lines the record lacks, where a note says so.
    pub lost: Option<Lost>,

    /// How many processors the machine has, where a line of the head says so.
    pub processors: Option<u32>,

    /// A line of the kernel's log that warns of the scheduler, where a note repeats one.
    pub warning: Option<T>,

    /// What sets the frequency of a CPU, where a note tells that something does.
    pub governor: Option<T>,

    /// What an event tells of the CPUs.
    pub change: Option<CpuChange>,

    /// What an event of the scheduler shows of tasks, whatever their class.
    pub scheduled: Option<Scheduled<T>>,
}

/// A line with nothing beside it.
pub(crate) fn told_line<'a>(line: RecordLine) -> ToldLine<&'a [u8]>
    ensures { told_text result ≡ told_line line }
{
    ToldLine {
        line,
        shown: None,
        domain: None,
        release: None,
        lost: None,
        processors: None,
        warning: None,
        governor: None,
        change: None,
        scheduled: None,
    }
}

/// A line that cannot be read.
#[cold]
#[inline(never)]
fn flawed_line<'a>(flaw: Flaw) -> ToldLine<&'a [u8]>
    ensures { told_text result ≡ told_line (RecordLine.Flawed flaw) }
{
    told_line(RecordLine::Flawed(flaw))
}

fn dot_from_end(text: &[u8]) -> Option<usize>
    ensures { result ≡ position (λ b. b == 46) (reverse text.now) }
{
    text.iter().rev().position(|b| *b == b'.')
}

/// How far a moment may be off, in nanoseconds, behind whose point so many bytes stand: its digits and a colon.
fn grain_behind(count: usize) -> u64
    ensures { result ≡ grain_behind count }
{
    match count {
        7 => 1000,
        8 => 100,
        9 => 10,
        _ => 1,
    }
}

/// How far the moment may be off with which a text ends.
fn grain_of(text: &[u8]) -> u64
    ensures { result ≡ grain_of text.now }
{
    match dot_from_end(text) {
        None => 1,
        Some(count) => grain_behind(count),
    }
}

/// A line of a probe shows the task that runs.
fn probed<'a>(
    event: ProbeEvent,
    fields: &'a [u8],
    front: &'a [u8],
    pid: u64,
) -> Option<Named<&'a [u8]>>
    ensures { option_map named_text result ≡ probed event fields.now front.now pid }
{
    let probe = probe_of(event, fields)?;
    Some(Named {
        said: Said::Probe(probe),
        shown: Some(Shown {
            comm: running_comm(front),
            pid,
        }),
        scheduled: None,
    })
}

/// What the fields of an event say, while the task of this pid runs; none where one is missing or wrong.
fn said_by<'a>(verb: Verb, fields: &'a [u8], front: &'a [u8], pid: u64) -> Option<Named<&'a [u8]>>
    ensures { option_map named_text result ≡ said_by verb fields.now front.now pid }
{
    match verb {
        Verb::Wake => woken(false, fields),
        Verb::WakeNew => woken(true, fields),
        Verb::Migrate => migrated(fields),
        Verb::Run => ran(fields),
        Verb::Switch => switched(fields),
        Verb::Start => started(fields),
        Verb::Cancel => cancelled(fields),
        Verb::Expire => fired(fields),
        Verb::Call => Some(called()),
        Verb::Return => Some(returned()),
        Verb::Probe(event) => probed(event, fields, front, pid),
    }
}

/// What a line tells whose event says this.
fn checked<'a>(
    at: u64,
    grain: u64,
    cpu: u32,
    pid: u64,
    named: Named<&'a [u8]>,
) -> ToldLine<&'a [u8]>
    ensures { told_text result ≡ checked at grain cpu pid (named_text named.entry) }
{
    match flaw_of(cpu, &named.said) {
        Some(flaw) => told_line(RecordLine::Flawed(flaw)),
        None => ToldLine {
            line: RecordLine::Event {
                at,
                grain,
                cpu,
                pid,
                said: named.said,
            },
            shown: named.shown,
            domain: None,
            release: None,
            lost: None,
            processors: None,
            warning: None,
            governor: None,
            change: None,
            scheduled: named.scheduled,
        },
    }
}

/// What a line of a probe tells. Most lines of a record are of probes, and what they show is large: it is built once.
#[inline(never)]
fn probe_line<'a>(
    line: &'a [u8],
    opening: Opening,
    event: ProbeEvent,
    fields: &'a [u8],
) -> ToldLine<&'a [u8]>
    requires cpu { StartsWithin opening.cpu (length line.now) }
    requires end { opening.end ≤ length line.now }
    ensures { told_text result
        ≡ said_or_bad (told_said line.now opening (Verb.Probe event) fields.now) }
{
    let Some(cpu) = opening.cpu else {
        return flawed_line(Flaw::BadTraceLine);
    };
    let (pid, comm) = running_task(&line[..cpu.start]);
    let Some(pid) = pid else {
        return flawed_line(Flaw::BadTraceLine);
    };
    let Some(probe) = probe_of(event, fields) else {
        return flawed_line(Flaw::BadTraceLine);
    };
    if cpu.cpu.max(probe_cpu(&probe)) >= CPUS {
        return flawed_line(Flaw::TooLong);
    }
    ToldLine {
        line: RecordLine::Event {
            at: opening.at,
            grain: grain_of(&line[..opening.end]),
            cpu: cpu.cpu,
            pid,
            said: Said::Probe(probe),
        },
        shown: Some(Shown { comm, pid }),
        domain: None,
        release: None,
        lost: None,
        processors: None,
        warning: None,
        governor: None,
        change: None,
        scheduled: None,
    }
}

/// What a line of an event tells; none where its CPU, the task that runs or a field is missing or wrong.
fn told_said<'a>(
    line: &'a [u8],
    opening: Opening,
    verb: Verb,
    fields: &'a [u8],
) -> Option<ToldLine<&'a [u8]>>
    requires cpu { StartsWithin opening.cpu (length line.now) }
    requires end { opening.end ≤ length line.now }
    ensures { option_map told_text result ≡ told_said line.now opening verb fields.now }
{
    let cpu = opening.cpu?;
    let front = &line[..cpu.start];
    let pid = running(front)?;
    let named = said_by(verb, fields, front, pid)?;
    let grain = grain_of(&line[..opening.end]);
    Some(checked(opening.at, grain, cpu.cpu, pid, named))
}

/// What a line of an event tells, whether it can be read or not.
#[inline(never)]
fn said_line<'a>(
    line: &'a [u8],
    opening: Opening,
    verb: Verb,
    fields: &'a [u8],
) -> ToldLine<&'a [u8]>
    requires cpu { StartsWithin opening.cpu (length line.now) }
    requires end { opening.end ≤ length line.now }
    ensures { told_text result ≡ said_or_bad (told_said line.now opening verb fields.now) }
{
    match told_said(line, opening, verb, fields) {
        None => flawed_line(Flaw::BadTraceLine),
        Some(told) => told,
    }
}

/// What a line tells that is of none of the events of `Verb`.
#[inline(never)]
fn other_line<'a>(opening: Opening, word: &[u8], fields: &'a [u8]) -> ToldLine<&'a [u8]>
    ensures { told_text result ≡ other_line opening word.now fields.now }
{
    let scheduled = if is_waking(word) {
        Some(waking(opening, fields))
    } else {
        None
    };
    ToldLine {
        line: RecordLine::Quiet,
        shown: None,
        domain: None,
        release: None,
        lost: None,
        processors: None,
        warning: None,
        governor: None,
        change: change_of(word, fields),
        scheduled,
    }
}

/// What a line tells, by the text behind its moment.
fn line_behind<'a>(line: &'a [u8], opening: Opening, text: &'a [u8]) -> ToldLine<&'a [u8]>
    requires cpu { StartsWithin opening.cpu (length line.now) }
    requires end { opening.end ≤ length line.now }
    ensures { told_text result ≡ line_behind line.now opening text.now }
{
    let (word, _) = first_word(text);
    let fields = &text[word.len()..];
    match verb_of(word) {
        None => other_line(opening, word, fields),
        Some(Verb::Probe(event)) => probe_line(line, opening, event, fields),
        Some(verb) => said_line(line, opening, verb, fields),
    }
}

/// A line that says nothing that is read.
#[inline(never)]
fn quiet_line<'a>() -> ToldLine<&'a [u8]>
    ensures { told_text result ≡ told_line RecordLine.Quiet }
{
    told_line(RecordLine::Quiet)
}

fn event_line(line: &[u8]) -> ToldLine<&[u8]>
    ensures { told_text result ≡ event_line line.now (opening_of line.now) }
{
    match opening_of(line) {
        None => quiet_line(),
        Some(opening) => line_behind(line, opening, without_spaces(&line[opening.end..])),
    }
}

fn capital_l_in(line: &[u8]) -> Option<usize>
    ensures { result ≡ position (is_byte 76) line.now }
{
    memchr(b'L', line)
}

/// Whether a line tells that events were lost: most lines have no L, and are looked at once.
fn tells_loss(line: &[u8]) -> bool
    ensures { result ≡ is_lost line.now }
{
    if is_comment(line) {
        return is_lost(line);
    }
    match capital_l_in(line) {
        None => false,
        Some(_) => is_lost(line),
    }
}

/// What a line tells, without the byte that ends it.
pub fn told_by(line: &[u8]) -> ToldLine<&[u8]>
    ensures { told_text result ≡ told_by line.now }
{
    if tells_loss(line) {
        flawed_line(Flaw::LostEvents)
    } else if is_comment(line) {
        comment_line(line)
    } else {
        event_line(line)
    }
}
