//! The options of `grubtrace check`, but for those of what is shown.

ghost use Rattle.std.specs.Prelude.{◌≡◌, [], None, Ok, IfOk, map, option_map};
ghost use Rattle.std.specs.List.{list_any};
ghost use Rattle.std.specs.Result.{result_map_both};
ghost use Rattle.trace_fields.specs.Words.{text_of};
ghost use Rattle.trace_lines.specs.NoteWords.{kernel_of};
ghost use Rattle.trace_options.specs.Settings.{arithmetic_of, asked, cpus_by, given_task, said_by, said_in, server_by, tasks_on, value_of, wrong_by};
ghost use Rattle.trace_options.specs.declared.options.CheckOption.TheVariants as option;
ghost use Rattle.trace_options.specs.Words.{limit_in, server_in, task_in};
ghost use Rattle.trace_options.specs.inside.Texts.{is_named};

use crate::words::{
    FairServerOption, MICRO, domain_of, last_parts, limit_of, reservation_of, server_of,
};
use std::alloc::{AllocError, Global};
use trace_data::{Kernel, Limit, Parameters};
use trace_lines::{CpuRange, kernel_of};

/// A task that is given: its comm or its pid, and its reservation.
#[derive(Clone, Copy)]
pub struct TaskOption<'a> {
    pub name: &'a str,
    pub parameters: Parameters,
}

/// By which arithmetic a record is played.
#[derive(Clone, Copy)]
pub enum Arithmetic {
    /// The recorded kernel's own.
    Kernel,

    /// One exact division, as the kernel's documentation has it.
    Documentation,
}

/// What is known beside the trace; it stands above the trace's own notes.
#[derive(Drop)]
pub struct CheckOptions<'a> {
    pub tasks: Vec<TaskOption<'a>>,

    /// The CPUs of the root domain, increasing.
    pub domain: Vec<CpuRange>,
    pub limit: Option<Limit>,
    pub fair: FairServerOption,
    pub kernel: Option<Kernel>,

    /// How far a moment may lie from the kernel's, in nanoseconds.
    pub within: u64,
    pub arithmetic: Arithmetic,

    /// Whether timers are compared though there are lines of probes.
    pub by_timers: bool,

    /// Whether a record that differs is played again with one rule changed at a time.
    pub explains: bool,
}

/// An option whose value can be wrong.
#[derive(Clone, Copy)]
pub enum CheckOption {
    Task,
    Domain,
    Rt,
    FairServer,
    Kernel,
    From,
    To,
}

/// An option, and its value, which says nothing that it may say.
#[derive(Clone, Copy)]
pub struct WrongOption<'a> {
    pub option: CheckOption,
    pub value: &'a str,
}

/// The words of the options.
#[derive(Clone, Copy)]
pub struct CheckWords<'a> {
    pub tasks: &'a [&'a str],
    pub cpus: Option<u32>,
    pub domain: Option<&'a str>,
    pub rt: Option<&'a str>,
    pub fair: Option<&'a str>,
    pub kernel: Option<&'a str>,

    /// In microseconds.
    pub within: u32,
    pub by_documentation: bool,
    pub by_timers: bool,
    pub explains: bool,
}

/// The task of `NAME=RUNTIME:PERIOD[:DEADLINE][,norec]`, whose name ends at the last `=`.
fn task_of(text: &str) -> Option<TaskOption<'_>>
    ensures { option_map given_task result ≡ task_in text.now }
{
    let (name, reservation) = last_parts(text, '=')?;
    if name.is_empty() {
        return None;
    }
    let parameters = reservation_of(reservation.as_bytes())?;
    Some(TaskOption { name, parameters })
}

/// Whether a name is among these tasks.
fn has_name(tasks: &[TaskOption<'_>], name: &str) -> bool
    ensures { result ≡ list_any (is_named name.now) tasks.now }
{
    tasks.iter().any(|task| task.name == name)
}

/// The tasks of these words, or the first word that says none or names a task once more.
fn tasks_of<'a>(
    alloc: Global,
    words: &[&'a str],
) -> Result<Result<Vec<TaskOption<'a>>, WrongOption<'a>>, AllocError>
    ensures { IfOk result (λ made. result_map_both (λ v. map given_task v.items) wrong_by made
        ≡ tasks_on [] (map text_of words.now)) }
{
    let mut tasks = Vec::new(alloc);
    for word in words {
        let Some(task) = task_of(word) else {
            return Ok(Err(wrong(CheckOption::Task, word)));
        };
        if has_name(&tasks, task.name) {
            return Ok(Err(wrong(CheckOption::Task, word)));
        }
        if tasks.push(task).is_err() {
            return Err(AllocError);
        }
    }
    Ok(Ok(tasks))
}

fn wrong<'a>(option: CheckOption, value: &'a str) -> WrongOption<'a>
    ensures { result ≡ record { option = option; value = value.entry } }
{
    WrongOption { option, value }
}

/// The CPUs from 0 on, where it is said how many.
fn counted(alloc: Global, cpus: Option<u32>) -> Result<Vec<CpuRange>, AllocError>
    ensures { IfOk result (λ v. Ok v.items ≡ cpus_by cpus None) }
{
    let mut ranges = Vec::new(alloc);
    if let Some(count) = cpus {
        ranges.push(CpuRange {
            first: 0,
            last: count.saturating_sub(1),
        })?;
    }
    Ok(ranges)
}

/// The CPUs of the root domain by `--domain`, else by `--cpus`; none are said where neither is given.
fn cpus_of<'a>(
    alloc: Global,
    cpus: Option<u32>,
    domain: Option<&'a str>,
) -> Result<Result<Vec<CpuRange>, WrongOption<'a>>, AllocError>
    ensures { IfOk result (λ made. result_map_both (λ v. v.items) wrong_by made
        ≡ cpus_by cpus (value_of domain.entry)) }
{
    match domain {
        None => Ok(Ok(counted(alloc, cpus)?)),
        Some(text) => match domain_of(alloc, text.as_bytes())? {
            Some(ranges) => Ok(Ok(ranges)),
            None => Ok(Err(wrong(CheckOption::Domain, text))),
        },
    }
}

/// The limit of `--rt`, where it is given.
fn rt_of(text: Option<&str>) -> Result<Option<Limit>, WrongOption<'_>>
    ensures { result_map_both (λ limit. limit) wrong_by result
        ≡ asked limit_in option.Rt (value_of text.entry) }
{
    match text {
        None => Ok(None),
        Some(text) => match limit_of(text.as_bytes()) {
            Some(limit) => Ok(Some(limit)),
            None => Err(wrong(CheckOption::Rt, text)),
        },
    }
}

/// The kernel of `--kernel`, where it is given.
fn version_of(text: Option<&str>) -> Result<Option<Kernel>, WrongOption<'_>>
    ensures { result_map_both (λ kernel. kernel) wrong_by result
        ≡ asked kernel_of option.Kernel (value_of text.entry) }
{
    match text {
        None => Ok(None),
        Some(text) => match kernel_of(text.as_bytes()) {
            Some(kernel) => Ok(Some(kernel)),
            None => Err(wrong(CheckOption::Kernel, text)),
        },
    }
}

/// The fair server of `--fair-server`, or the kernel's own.
fn fair_of(text: Option<&str>) -> Result<FairServerOption, WrongOption<'_>>
    ensures { result_map_both (λ server. server) wrong_by result
        ≡ result_map_both server_by (λ wrong. wrong) (asked server_in option.FairServer (value_of text.entry)) }
{
    match text {
        None => Ok(FairServerOption::Usual),
        Some(text) => match server_of(text.as_bytes()) {
            Some(server) => Ok(server),
            None => Err(wrong(CheckOption::FairServer, text)),
        },
    }
}

fn arithmetic_of(is_documentation: bool) -> Arithmetic
    ensures { result ≡ arithmetic_of is_documentation }
{
    if is_documentation {
        Arithmetic::Documentation
    } else {
        Arithmetic::Kernel
    }
}

/// What the words say, or the first of them that says nothing that it may say. `AllocError` is want of memory.
pub fn options_of<'a>(
    alloc: Global,
    words: CheckWords<'a>,
) -> Result<Result<CheckOptions<'a>, WrongOption<'a>>, AllocError>
    ensures { IfOk result (λ made. result_map_both said_by wrong_by made ≡ said_in words.entry) }
{
    let tasks = match tasks_of(alloc, words.tasks)? {
        Ok(tasks) => tasks,
        Err(wrong) => return Ok(Err(wrong)),
    };
    let domain = match cpus_of(alloc, words.cpus, words.domain)? {
        Ok(domain) => domain,
        Err(wrong) => return Ok(Err(wrong)),
    };
    match (
        rt_of(words.rt),
        fair_of(words.fair),
        version_of(words.kernel),
    ) {
        (Ok(limit), Ok(fair), Ok(kernel)) => Ok(Ok(CheckOptions {
            tasks,
            domain,
            limit,
            fair,
            kernel,
            within: u64::from(words.within) * MICRO,
            arithmetic: arithmetic_of(words.by_documentation),
            by_timers: words.by_timers,
            explains: words.explains,
        })),
        (Err(wrong), _, _) | (_, Err(wrong), _) | (_, _, Err(wrong)) => Ok(Err(wrong)),
    }
}
