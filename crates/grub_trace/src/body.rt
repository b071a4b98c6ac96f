//! What stands below a head: what each line says, and the script that the lines are.

ghost use Rattle.std.specs.Prelude.{◌≡◌, [], map};
ghost use Rattle.grub_trace.specs.inside.Reading.{IsIndexed, IsMomentOf, IsRetuneOf, IsRunOf, declarations, line_view, ok_unless};
ghost use Rattle.grub_trace.specs.Faults.{last_of};
ghost use Rattle.text_bytes.specs.Digits.{value};
ghost use Rattle.grub_trace.specs.Tree.{names_of};
ghost use Rattle.grub_trace.specs.inside.Heads.{IsHead, read_body};
ghost use Rattle.grub_trace.specs.inside.Lines.{GivesBody, GivesScript, IsNotBefore, SaysMore, TakesAct, TakesLine, plain_fault};

use crate::fault::{Kind, Location, TraceFault};
use crate::form::{Form, form_of};
use crate::naming::act_in;
use crate::number::number;
use crate::raw::{Head, RawFile, RawScript};
use crate::tasks::{Tasks, reservation};
use crate::version::Version;
use grub_book::{MOMENT_MAX, RUN_MAX};
use grub_plan::{Act, Line};
use std::alloc::{AllocError, Global};
use text_bytes::first_line;

/// The fewest bytes of a line that says what happens: `at 0 read`, and the byte that ends it.
const LINE_MIN: usize = 10;

/// The moment of the last line so far, or 0.
fn last(lines: &[Line]) -> u32
    ensures { result ≡ last_of (map (λ l. l.m) lines.now) }
{
    match lines.last() {
        None => 0,
        Some(line) => line.m,
    }
}

/// The moment that a word spells.
fn moment(word: &[u8]) -> Result<u32, Kind>
    ensures { IsMomentOf result word.now }
{
    match number(word) {
        None => Err(Kind::BadNumber),
        Some(at) if at > MOMENT_MAX => Err(Kind::OutOfRange),
        Some(at) => Ok(at),
    }
}

/// The moment and the length of a run.
fn run(at: &[u8], span: &[u8]) -> Result<(u32, u32), Kind>
    ensures { IsRunOf result at.now span.now }
{
    let (Some(at), Some(span)) = (number(at), number(span)) else {
        return Err(Kind::BadNumber);
    };
    if at > MOMENT_MAX || span < 1 || span > RUN_MAX {
        return Err(Kind::OutOfRange);
    }
    Ok((at, span))
}

/// The moment and the new reservation of a retune.
fn retune(at: &[u8], runtime: &[u8], period: &[u8]) -> Result<(u32, u32, u32), Kind>
    ensures { IsRetuneOf result at.now runtime.now period.now }
{
    let (Some(at), Some(runtime), Some(period)) = (number(at), number(runtime), number(period))
    else {
        return Err(Kind::BadNumber);
    };
    if at > MOMENT_MAX || reservation(runtime, period).is_none() {
        return Err(Kind::OutOfRange);
    }
    Ok((at, runtime, period))
}

/// Whether a moment does not go back behind the last one.
fn timely(last: u32, at: u32) -> Result<(), Kind>
    ensures { IsNotBefore result last at }
{
    if at < last {
        return Err(Kind::MomentGoesBack);
    }
    Ok(())
}

/// What happens at a moment, with no number but that, after the last one.
fn take_moment<'a>(last: u32, at: &[u8], act: Act<&'a [u8]>) -> Result<Line<&'a [u8]>, Kind>
    ensures { result
        ≡ ok_unless (plain_fault last at.now) (record { m = value at.now; act = act.entry }) }
{
    let m = moment(at)?;
    timely(last, m)?;
    Ok(Line { m, act })
}

/// A run that ends at a moment, after the last one.
fn take_run<'a>(
    last: u32,
    at: &[u8],
    name: &'a [u8],
    span: &'a [u8],
) -> Result<Line<&'a [u8]>, Kind>
    ensures { (version : _) → TakesAct result version last at.now (Act.Run name.entry span.entry) }
{
    let (m, span) = run(at, span)?;
    timely(last, m)?;
    let act = Act::Run(name, span);
    Ok(Line { m, act })
}

/// A retune at a moment, after the last one.
fn take_retune<'a>(
    version: Version,
    last: u32,
    at: &[u8],
    name: &'a [u8],
    runtime: &'a [u8],
    period: &'a [u8],
) -> Result<Line<&'a [u8]>, Kind>
    ensures { TakesAct result version last at.now
        (Act.Retune name.entry runtime.entry period.entry) }
{
    if !version.may_retune() {
        return Err(Kind::BadLine);
    }
    let (m, runtime, period) = retune(at, runtime, period)?;
    timely(last, m)?;
    let act = Act::Retune(name, runtime, period);
    Ok(Line { m, act })
}

/// What is said to happen at a moment, after the last one.
fn take_act<'a>(
    version: Version,
    last: u32,
    at: &[u8],
    act: Act<&'a [u8], &'a [u8]>,
) -> Result<Line<&'a [u8]>, Kind>
    ensures { TakesAct result version last at.now act.entry }
{
    match act {
        Act::Join(name) => take_moment(last, at, Act::Join(name)),
        Act::Wake(name) => take_moment(last, at, Act::Wake(name)),
        Act::Block(name) => take_moment(last, at, Act::Block(name)),
        Act::Leave(name) => take_moment(last, at, Act::Leave(name)),
        Act::Exit(name) => take_moment(last, at, Act::Exit(name)),
        Act::Run(name, span) => take_run(last, at, name, span),
        Act::Retune(name, runtime, period) => {
            take_retune(version, last, at, name, runtime, period)
        }
        Act::Read => take_moment(last, at, Act::Read),
    }
}

/// What a line below a head says, after the last moment. No task is declared there.
fn take_line<'a>(version: Version, last: u32, line: &'a [u8]) -> Result<Line<&'a [u8]>, Kind>
    ensures { TakesLine result version last line.now }
{
    match form_of(line) {
        Some(Form::At(at, act)) => take_act(version, last, at, act),
        _ => Err(Kind::BadLine),
    }
}

/// Adds what line `number` says that happens, to lines that begin with line `first`.
fn say(
    tasks: &Tasks,
    script: &mut RawScript,
    number: usize,
    line: Line<&[u8]>,
) -> Result<(), AllocError>
    requires { IsIndexed tasks.now }
    ensures { SaysMore result (names_of (declarations tasks.now)) script.old script.new number
        (line_view line.entry) }
{
    let act = match act_in(tasks, line.act) {
        Some(act) => act,
        None => {
            script.unknown = script.unknown.or(Some(number));
            Act::Read
        }
    };
    script.lines.push(Line { m: line.m, act })?;
    Ok(())
}

/// Reads the lines below a head. The room for all of them is taken at once, so that they are never copied.
fn read_lines(alloc: Global, tasks: &Tasks, head: &Head<'_>) -> Result<RawScript, TraceFault>
    requires indexed { IsIndexed tasks.now }
    requires head { IsHead head.now }
    ensures { GivesScript result tasks.now head.now }
{
    let mut script = RawScript {
        lines: Vec::with_capacity(alloc, head.below.len() / LINE_MIN)?,
        unknown: None,
    };
    let file = head.file;
    let mut rest = head.below;
    let mut line = head.first;
    while let Some((text, after)) = first_line(rest) {
        let here = Location { file, line };
        let last = last(&script.lines);
        let said = take_line(head.version, last, text).map_err(|kind| here.fault(kind))?;
        say(tasks, &mut script, line, said)?;
        rest = after;
        line += 1;
    }
    if !rest.is_empty() {
        return Err(Location { file, line }.fault(Kind::CutShort));
    }
    Ok(script)
}

/// Reads what stands below a head, where all tasks are declared.
pub(crate) fn read_body(
    alloc: Global,
    tasks: &Tasks,
    head: &Head<'_>,
) -> Result<RawFile, TraceFault>
    requires indexed { IsIndexed tasks.now }
    requires head { IsHead head.now }
    ensures { GivesBody result tasks.now (read_body [] head.now) }
{
    let script = read_lines(alloc, tasks, head)?;
    Ok(RawFile {
        queue: head.queue,
        script,
    })
}
