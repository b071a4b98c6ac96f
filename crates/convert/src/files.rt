//! The event files of a trace.

ghost use Rattle.std.specs.Prelude.{◌≡◌, length};

use crate::options::{ConvertOptions, FairReservation, TaskReservation, admitted};
use crate::{
    Declared, OrderFault, Setting, TimedEvent, event_file, names_of, place_facts, queue_of, umax_of,
};
use convert_facts::{Fact, Facts, Found};
use grub_book::{BW_UNIT, Params};
use std::alloc::{AllocError, Global};
use trace_data::{Kernel, Limit};

/// Of each runqueue 950 ms in a second, in 1/2^20: the kernel's default for deadline tasks.
const UMAX_USUAL: u32 = 996147;

/// What a server of fair tasks reserves by the kernel's default, in microseconds.
const FAIR_RUNTIME: u32 = 50000;

const FAIR_PERIOD: u32 = 1000000;

/// Why a trace tells no event files.
#[derive(Clone, Copy, Debug)]
pub enum FilesFault<'a> {
    /// 54: the event of this line passes the limits of event files, before any other fault.
    TooLong { line: u64 },
    /// The fault of the trace's own lines.
    Line,
    /// 49: the first given task that the trace does not show.
    NoSuchTask { name: &'a str },
    /// No memory for the events.
    NoMemory,
    /// No memory for the texts.
    NoText,
}

/// Whether each fact is one of so many tasks.
fn are_given(facts: &[Fact], tasks: usize) -> bool {
    facts.iter().all(|fact| fact.task < tasks)
}

/// A limit of bandwidth as the kernel has it, in 1/2^20: 2^64 - 1 is no limit. None where it is not 1 to 2^20.
fn most_by_bw(bw: u64) -> Option<u32> {
    if bw == u64::MAX {
        Some(BW_UNIT)
    } else if bw == 0 || bw > u64::from(BW_UNIT) {
        None
    } else {
        Some(bw as u32)
    }
}

/// The most bandwidth of deadline tasks on a runqueue by a note, in 1/2^20; none where it is not 1 to 2^20.
fn most_noted(limit: Limit) -> Option<u32> {
    match limit {
        Limit::MaxBw(bw) => most_by_bw(bw),
        Limit::Runtime { runtime, period } => {
            if runtime < 0 {
                Some(BW_UNIT)
            } else {
                umax_of(runtime.cast_unsigned(), period)
            }
        }
    }
}

/// The most bandwidth of deadline tasks on a runqueue: by an option, else by a note, else the kernel's default.
fn most_of(options: &ConvertOptions<'_>, facts: &Facts) -> u32 {
    if let Some(most) = options.umax {
        return most;
    }
    match facts.limit {
        Some(limit) => most_noted(limit).unwrap_or(UMAX_USUAL),
        None => UMAX_USUAL,
    }
}

/// Whether each runqueue of a kernel has a server of fair tasks, where nothing else is said.
fn has_servers(kernel: Option<Kernel>) -> bool {
    match kernel {
        None => true,
        Some(kernel) => kernel_rules::has_servers(kernel),
    }
}

/// The server of fair tasks of each runqueue: by an option, else the recorded kernel's.
fn fair_of(options: &ConvertOptions<'_>, facts: &Facts) -> Option<Params> {
    match options.fair {
        FairReservation::Absent => None,
        FairReservation::Reserves(params) => Some(params),
        FairReservation::Usual => if has_servers(facts.kernel) {
            admitted(FAIR_RUNTIME, FAIR_PERIOD)
        } else {
            None
        },
    }
}

/// The events of a trace at their moments. Facts of a task that is none of those that were given, which no trace tells, are
/// refused as for want of memory.
fn place(alloc: Global, facts: &Facts) -> Result<Vec<TimedEvent>, OrderFault> {
    let tasks = facts.found.len();
    if !are_given(&facts.facts, tasks) {
        return Err(OrderFault::NoMemory);
    }
    place_facts(alloc, facts.runqueues, tasks, &facts.facts)
}

/// The first given task that the trace does not show.
fn missing<'a>(tasks: &[TaskReservation<'a>], found: &[Option<Found>]) -> Option<&'a str> {
    for (i, task) in tasks.iter().enumerate() {
        if !matches!(found.get(i), Some(Some(_))) {
            return Some(task.name);
        }
    }
    None
}

fn given_reservations(
    alloc: Global,
    tasks: &[TaskReservation<'_>],
) -> Result<Vec<Params>, AllocError> {
    tasks.iter().map(|task| task.params).collect(alloc)
}

/// What the given tasks reserve, and behind them those of notes.
fn reservations(
    alloc: Global,
    options: &ConvertOptions<'_>,
    facts: &Facts,
) -> Result<Vec<Params>, AllocError> {
    let mut all = given_reservations(alloc, &options.tasks)?;
    all.extend_from_slice(&facts.noted)?;
    Ok(all)
}

/// A task of the event files.
fn declared(alloc: Global, name: &[u8], params: Params) -> Result<Declared, AllocError> {
    let name = Vec::from_slice(alloc, name)?;
    Ok(Declared { name, params })
}

/// The given tasks by their names.
fn declarations(
    alloc: Global,
    names: &[Vec<u8>],
    params: &[Params],
) -> Result<Vec<Declared>, AllocError>
    requires { length names.now ≡ length params.now }
{
    let mut tasks = Vec::new(alloc);
    for i in 0..names.len() {
        tasks.push(declared(alloc, &names[i], params[i])?)?;
    }
    Ok(tasks)
}

/// What the event files say beside the events. It is refused for want of memory, and where options and facts do not fit
/// together, as those of one trace and of options that were read do.
pub fn setting_of(
    alloc: Global,
    options: &ConvertOptions<'_>,
    facts: &Facts,
) -> Result<Setting, AllocError> {
    let params = reservations(alloc, options, facts)?;
    let names = names_of(alloc, facts.runqueues, &facts.found)?;
    if facts.runqueues == 0 || params.len() > u32::MAX as usize || names.len() != params.len() {
        return Err(AllocError);
    }
    let tasks = declarations(alloc, &names, &params)?;
    let most = most_of(options, facts);
    match queue_of(most, fair_of(options, facts), &params, facts.runqueues) {
        Some(queue) => Ok(Setting {
            queue,
            fair: fair_of(options, facts),
            tasks,
        }),
        None => Err(AllocError),
    }
}

/// The files of so many runqueues.
fn texts(
    alloc: Global,
    setting: &Setting,
    runqueues: u32,
    placed: &[TimedEvent],
) -> Result<Vec<Vec<u8>>, AllocError> {
    let mut files = Vec::new(alloc);
    for runqueue in 0..runqueues {
        files.push(event_file(alloc, setting, runqueue, placed)?)?;
    }
    Ok(files)
}

/// The events that a trace tells, at their moments and in the order of its lines; or why there are none: the first event that
/// passes the limits of event files, else the first fault of a line, else the first given task that is not shown. Facts of a
/// task that is none of those that were given, which no trace tells, are refused as for want of memory.
pub fn events_told<'a>(
    alloc: Global,
    options: &ConvertOptions<'a>,
    facts: &Facts,
) -> Result<Vec<TimedEvent>, FilesFault<'a>> {
    let placed = match place(alloc, facts) {
        Ok(placed) => placed,
        Err(OrderFault::TooLong { line }) => return Err(FilesFault::TooLong { line }),
        Err(OrderFault::NoMemory) => return Err(FilesFault::NoMemory),
    };
    if facts.fault.is_some() {
        return Err(FilesFault::Line);
    }
    if let Some(name) = missing(&options.tasks, &facts.found) {
        return Err(FilesFault::NoSuchTask { name });
    }
    Ok(placed)
}

/// The files of these events.
fn files_of_events(
    alloc: Global,
    options: &ConvertOptions<'_>,
    facts: &Facts,
    placed: &[TimedEvent],
) -> Result<Vec<Vec<u8>>, AllocError> {
    let setting = setting_of(alloc, options, facts)?;
    let files = texts(alloc, &setting, facts.runqueues, placed)?;
    Ok(files)
}

/// The event files of what a trace tells, one for each runqueue; or why there are none.
pub fn event_files<'a>(
    alloc: Global,
    options: &ConvertOptions<'a>,
    facts: &Facts,
) -> Result<Vec<Vec<u8>>, FilesFault<'a>> {
    let placed = events_told(alloc, options, facts)?;
    match files_of_events(alloc, options, facts, &placed) {
        Ok(files) => Ok(files),
        Err(AllocError) => Err(FilesFault::NoText),
    }
}
