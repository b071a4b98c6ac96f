//! What the options of `grubtrace size` say.

ghost use Rattle.std.specs.Prelude.{◌≡◌, ◌<◌, [], ℕ, length, Some, None, IfOk, IfSome, if◌then◌else◌, map, option_map};
ghost use Rattle.std.specs.List.{list_any};
ghost use Rattle.std.specs.Path.{rsplit_once};
ghost use Rattle.std.specs.Result.{result_map_both};
ghost use Rattle.trace_fields.specs.Words.{text_of};
ghost use Rattle.size_report.specs.Options.{admitted, asked_by, asked_in, asked_task, fair_in, fault_by, given_by, given_to, is_period, most_from, most_in, pair_of, picture_by, reservation_from, reserving, said_by, said_in, said_with, small_in, tasks_on, with_period, with_runtime, within_in, withins_on};
ghost use Rattle.size_report.specs.inside.Texts.{first_waiting, is_named, named_text};

use crate::sizing::{PERIOD_LEAST, PERIOD_MOST};
use grub_book::Params;
use std::alloc::{AllocError, Global};
use trace_options::last_parts;
use trace_probes::numeral;

/// A task that is asked for, with durations in microseconds.
#[derive(Clone, Copy)]
pub struct AskedTask<'a> {
    /// Its comm or its pid.
    pub name: &'a str,

    /// The period of its reservation, from 100 to 4194304; else that of its wakes, where they are regular.
    pub period: Option<u32>,

    /// A runtime of 2 to the period, of which it is told how many jobs may be late with it.
    pub runtime: Option<u32>,

    /// In how long after its wake each job is to be done; else the period.
    pub within: Option<u32>,
}

/// What is asked of a record.
#[derive(Drop)]
pub struct SizeOptions<'a> {
    pub tasks: Vec<AskedTask<'a>>,

    /// How many jobs of each task may be late.
    pub late: usize,

    /// How many percent more than the least are proposed.
    pub margin: u32,

    /// How many processors there are, in place of what the trace tells.
    pub cpus: Option<u32>,

    /// What each processor admits, in 1/2^20.
    pub most: u32,

    /// What its fair server has of that, in 1/2^20.
    pub fair: u32,

    /// Where the picture is written.
    pub picture: Option<&'a str>,
}

/// The words of the options, as they were given.
#[derive(Clone, Copy)]
pub struct SizeWords<'w, 'a> {
    pub tasks: &'w [&'a str],
    pub withins: &'w [&'a str],
    pub late: u32,
    pub margin: u32,
    pub cpus: Option<u32>,
    pub rt: &'a str,
    pub fair: &'a str,
    pub picture: Option<&'a str>,
}

/// Which option says nothing that it may say.
#[derive(Clone, Copy)]
pub enum FaultKind {
    /// A task is no NAME, NAME=PERIOD or NAME=RUNTIME:PERIOD that the kernel would take.
    Task,

    /// A task is given twice.
    Twice,

    /// It is no NAME=US of a task that is given.
    Within,

    /// It is no RUNTIME:PERIOD.
    Rt,
    Fair,

    /// A picture is asked for, and no task.
    Picture,
}

/// An option that says nothing that it may say: its value, or the name of the task that is given twice.
#[derive(Clone, Copy)]
pub struct OptionFault<'a> {
    pub kind: FaultKind,
    pub value: &'a str,
}

/// A number below 2^32.
fn small_of(text: &str) -> Option<u32>
    ensures { result ≡ small_in text.now }
{
    u32::try_from(numeral(10, text.as_bytes())?).ok()
}

/// The numbers of two texts.
fn pair_of(first: &str, second: &str) -> Option<(u32, u32)>
    ensures { result ≡ pair_of (first.now, second.now) }
{
    match (small_of(first), small_of(second)) {
        (Some(first), Some(second)) => Some((first, second)),
        _ => None,
    }
}

fn is_period(period: u32) -> bool
    ensures { result ≡ is_period period }
{
    period >= PERIOD_LEAST && period <= PERIOD_MOST
}

fn with_period<'a>(name: &'a str, period: u32) -> Option<AskedTask<'a>>
    ensures { option_map asked_task result ≡ with_period name.now period }
{
    if !is_period(period) {
        return None;
    }
    Some(AskedTask {
        name,
        period: Some(period),
        runtime: None,
        within: None,
    })
}

fn with_runtime<'a>(name: &'a str, runtime: u32, period: u32) -> Option<AskedTask<'a>>
    ensures { option_map asked_task result ≡ with_runtime name.now (runtime, period) }
{
    if !is_period(period) || runtime < 2 || runtime > period {
        return None;
    }
    Some(AskedTask {
        name,
        period: Some(period),
        runtime: Some(runtime),
        within: None,
    })
}

/// The task of a name and `PERIOD` or `RUNTIME:PERIOD`.
fn reserving<'a>(name: &'a str, text: &str) -> Option<AskedTask<'a>>
    ensures { option_map asked_task result ≡ reserving name.now text.now (rsplit_once 58 text.now) }
{
    match last_parts(text, ':') {
        None => with_period(name, small_of(text)?),
        Some((runtime, period)) => {
            let (runtime, period) = pair_of(runtime, period)?;
            with_runtime(name, runtime, period)
        }
    }
}

fn asked_by<'a>(text: &'a str) -> Option<AskedTask<'a>>
    ensures { option_map asked_task result ≡ asked_by text.now (rsplit_once 61 text.now) }
{
    match last_parts(text, '=') {
        None => Some(AskedTask {
            name: text,
            period: None,
            runtime: None,
            within: None,
        }),
        Some((name, rest)) => reserving(name, rest),
    }
}

/// The task of a word, whose name ends at the last `=`.
fn asked_in(text: &str) -> Option<AskedTask<'_>>
    ensures { option_map asked_task result ≡ asked_in text.now }
{
    let asked = asked_by(text)?;
    if asked.name.is_empty() {
        None
    } else {
        Some(asked)
    }
}

fn is_named(tasks: &[AskedTask<'_>], name: &str) -> bool
    ensures { result ≡ list_any (is_named name.now) tasks.now }
{
    tasks.iter().any(|task| task.name == name)
}

fn fault<'a>(kind: FaultKind, value: &'a str) -> OptionFault<'a>
    ensures { result ≡ record { kind = kind; value = value.entry } }
{
    OptionFault { kind, value }
}

/// The tasks of these words, or the first word that says none or names a task once more.
fn tasks_of<'a>(
    alloc: Global,
    words: &[&'a str],
) -> Result<Result<Vec<AskedTask<'a>>, OptionFault<'a>>, AllocError>
    ensures { IfOk result (λ made. result_map_both (λ v. map asked_task v.items) fault_by made
        ≡ tasks_on [] (map text_of words.now)) }
{
    let mut tasks = Vec::new(alloc);
    for word in words {
        let Some(task) = asked_in(word) else {
            return Ok(Err(fault(FaultKind::Task, word)));
        };
        if is_named(&tasks, task.name) {
            return Ok(Err(fault(FaultKind::Twice, task.name)));
        }
        if tasks.push(task).is_err() {
            return Err(AllocError);
        }
    }
    Ok(Ok(tasks))
}

/// The first task of a name that has no time yet.
fn first_waiting(tasks: &[AskedTask<'_>], name: &str) -> Option<usize>
    ensures value { result ≡ first_waiting name.now tasks.now }
    ensures fits { IfSome result (λ i. i < length tasks.now) }
{
    match tasks {
        [] => None,
        [task, rest @ ..] => {
            if task.name == name && task.within.is_none() {
                Some(0)
            } else {
                Some(first_waiting(rest, name)? + 1)
            }
        }
    }
}

/// Gives the first task of a name that waits for it the time within which its jobs are to be done; false where there is none.
fn give_to(tasks: &mut [AskedTask<'_>], name: &str, within: u32) -> bool
    ensures given { given_to name.now within (map asked_task tasks.old)
        ≡ (if result then Some (map asked_task tasks.new) else None) }
    ensures len { length tasks.new ≡ length tasks.old }
{
    let Some(i) = first_waiting(tasks, name) else {
        return false;
    };
    tasks[i].within = Some(within);
    true
}

/// The name and the time of `NAME=US`.
fn within_in(text: &str) -> Option<(&str, u32)>
    ensures { option_map named_text result ≡ within_in text.now }
{
    let (name, rest) = last_parts(text, '=')?;
    let within = small_of(rest)?;
    if within == 0 {
        None
    } else {
        Some((name, within))
    }
}

fn give(tasks: &mut [AskedTask<'_>], word: &str) -> bool
    ensures given { given_by word.now (map asked_task tasks.old)
        ≡ (if result then Some (map asked_task tasks.new) else None) }
    ensures len { length tasks.new ≡ length tasks.old }
{
    match within_in(word) {
        None => false,
        Some((name, within)) => give_to(tasks, name, within),
    }
}

/// Gives each task its time; or the first word that is no NAME=US of a task that is given.
fn give_withins<'a>(tasks: &mut [AskedTask<'a>], words: &[&'a str]) -> Result<(), OptionFault<'a>>
    ensures given { result_map_both (λ _. map asked_task tasks.new) fault_by result
        ≡ withins_on (map asked_task tasks.old) (map text_of words.now) }
    ensures len { length tasks.new ≡ length tasks.old }
{
    for word in words {
        if !give(tasks, word) {
            return Err(fault(FaultKind::Within, word));
        }
    }
    Ok(())
}

fn most_from(runtime: u32, period: u32) -> Option<u32>
    ensures { result ≡ most_from (runtime, period) }
{
    if period == 0 || runtime > period {
        return None;
    }
    let most = (u64::from(runtime) << 20) / u64::from(period);
    if most == 0 { None } else { Some(most as u32) }
}

/// What each processor admits, by the kernel's sched_rt_runtime_us and sched_rt_period_us, in 1/2^20.
fn most_in(text: &str) -> Option<u32>
    ensures { result ≡ most_in text.now }
{
    let (runtime, period) = last_parts(text, ':')?;
    let (runtime, period) = pair_of(runtime, period)?;
    most_from(runtime, period)
}

fn admitted(runtime: u32, period: u32) -> Option<u32>
    ensures { result ≡ admitted (reservation_from (runtime, period)) }
{
    match Params::new(runtime, period) {
        Ok(params) => Some(params.bw()),
        Err(_) => None,
    }
}

/// What the fair server of a processor has of that: `none`, or `RUNTIME:PERIOD`.
fn fair_in(text: &str) -> Option<u32>
    ensures { result ≡ fair_in text.now }
{
    if text == "none" {
        return Some(0);
    }
    let (runtime, period) = last_parts(text, ':')?;
    let (runtime, period) = pair_of(runtime, period)?;
    admitted(runtime, period)
}

/// The picture's path, which wants a task.
fn picture_by<'a>(
    path: Option<&'a str>,
    tasks: &[AskedTask<'_>],
) -> Result<Option<&'a str>, OptionFault<'a>>
    ensures { result_map_both (option_map text_of) fault_by result
        ≡ picture_by (option_map text_of path.entry) (map asked_task tasks.now) }
{
    match path {
        Some(path) if tasks.is_empty() => Err(fault(FaultKind::Picture, path)),
        _ => Ok(path),
    }
}

/// What the options say but for their tasks, or the first that says nothing that it may say.
fn said_with<'a>(
    words: SizeWords<'_, 'a>,
    tasks: Vec<AskedTask<'a>>,
) -> Result<SizeOptions<'a>, OptionFault<'a>>
    ensures { result_map_both said_by fault_by result ≡ said_with words.entry (map asked_task tasks.entry.items) }
{
    let Some(most) = most_in(words.rt) else {
        return Err(fault(FaultKind::Rt, words.rt));
    };
    let Some(fair) = fair_in(words.fair) else {
        return Err(fault(FaultKind::Fair, words.fair));
    };
    let picture = match picture_by(words.picture, &tasks) {
        Ok(picture) => picture,
        Err(fault) => return Err(fault),
    };
    Ok(SizeOptions {
        tasks,
        late: words.late as usize,
        margin: words.margin,
        cpus: words.cpus,
        most,
        fair,
        picture,
    })
}

/// What the words say, or the first of them that says nothing that it may say. `AllocError` is want of memory.
pub fn size_options_of<'a>(
    alloc: Global,
    words: SizeWords<'_, 'a>,
) -> Result<Result<SizeOptions<'a>, OptionFault<'a>>, AllocError>
    ensures { IfOk result (λ made. result_map_both said_by fault_by made ≡ said_in words.entry) }
{
    let mut tasks = match tasks_of(alloc, words.tasks)? {
        Ok(tasks) => tasks,
        Err(fault) => return Ok(Err(fault)),
    };
    match give_withins(&mut tasks, words.withins) {
        Ok(()) => Ok(said_with(words, tasks)),
        Err(fault) => Ok(Err(fault)),
    }
}
