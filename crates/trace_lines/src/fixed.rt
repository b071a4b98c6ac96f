//! What the events say that each kernel has.

ghost use Rattle.std.specs.Prelude.{◌≡◌, option_map};
ghost use Rattle.trace_lines.specs.Fixed.{address, address_field, alone, cancelled, fired, is_tick, migrated, migrated_with, naming, ran, started, started_deadline, stop_in, stop_of, switched, switched_from, switched_next, switched_to, woken, woken_with};
ghost use Rattle.trace_lines.specs.inside.Texts.{named_text};
ghost use Rattle.trace_fields.specs.Shown.{shown_text};
ghost use Rattle.trace_fields.specs.Words.{text_of};
ghost use Rattle.trace_lines.specs.Scheduled.{scheduled_text};

use crate::scheduled::{Class, Scheduled, class_field};
use trace_data::{Fixed, Said, Stop, TimerFunction};
use trace_fields::{Shown, after, cpu_field, deadline_field, number_field, shown_by, value_of};
use trace_probes::{numeral, timer_function};

/// What a line says, and the task that it shows by comm and pid; `T` is a text.
#[derive(Clone, Copy)]
pub struct Named<T> {
    pub said: Said,
    pub shown: Option<Shown<T>>,

    /// What it shows of tasks, whatever their class.
    pub scheduled: Option<Scheduled<T>>,
}

/// What a line says of a task that it shows.
fn naming<'a>(
    task: Shown<&'a [u8]>,
    fixed: Fixed,
    scheduled: Option<Scheduled<&'a [u8]>>,
) -> Named<&'a [u8]>
    ensures { named_text result
        ≡ naming (shown_text task.entry) fixed (option_map scheduled_text scheduled.entry) }
{
    Named {
        said: Said::Fixed(fixed),
        shown: Some(task),
        scheduled,
    }
}

/// The number of a word of hexadecimal digits, maybe behind `0x`.
fn address(word: &[u8]) -> Option<u64>
    ensures { result ≡ address word.now }
{
    match after(b"0x", word) {
        None => numeral(16, word),
        Some(digits) => numeral(16, digits),
    }
}

fn address_field(fields: &[u8]) -> Option<u64>
    ensures { result ≡ address_field fields.now }
{
    address(value_of(b"hrtimer=", fields)?)
}

/// How a task stops to run, by the first letter of its state; none where that is a digit.
fn stop_of(state: &[u8]) -> Option<Stop>
    ensures { result ≡ stop_of state.now }
{
    match state.first() {
        None => None,
        Some(b'R' | b'P') => Some(Stop::Ready),
        Some(b'X' | b'Z') => Some(Stop::Ends),
        Some(b'0'..=b'9') => None,
        Some(_) => Some(Stop::Blocks),
    }
}

fn woken_with<'a>(task: Shown<&'a [u8]>, is_new: bool, rest: &'a [u8]) -> Option<Named<&'a [u8]>>
    ensures { option_map named_text result
        ≡ woken_with (shown_text task.entry) is_new rest.now }
{
    let class = class_field(b"prio=", rest)?;
    let cpu = cpu_field(b"target_cpu=", rest)?;
    let fixed = Fixed::Woken {
        pid: task.pid,
        is_deadline: class.is_deadline(),
        cpu,
    };
    Some(naming(task, fixed, Some(Scheduled::Woken { class, is_new })))
}

/// A wake, by which the task's thread may begin.
pub(crate) fn woken(is_new: bool, fields: &[u8]) -> Option<Named<&[u8]>>
    ensures { option_map named_text result ≡ woken is_new fields.now }
{
    let (task, rest) = shown_by(b"comm=", b"pid=", fields)?;
    woken_with(task, is_new, rest)
}

fn migrated_with<'a>(task: Shown<&'a [u8]>, rest: &'a [u8]) -> Option<Named<&'a [u8]>>
    ensures { option_map named_text result ≡ migrated_with (shown_text task.entry) rest.now }
{
    let is_deadline = deadline_field(b"prio=", rest)?;
    let cpu = cpu_field(b"dest_cpu=", rest)?;
    let fixed = Fixed::Migrated {
        pid: task.pid,
        is_deadline,
        cpu,
    };
    Some(naming(task, fixed, None))
}

pub(crate) fn migrated(fields: &[u8]) -> Option<Named<&[u8]>>
    ensures { option_map named_text result ≡ migrated fields.now }
{
    let (task, rest) = shown_by(b"comm=", b"pid=", fields)?;
    migrated_with(task, rest)
}

pub(crate) fn ran(fields: &[u8]) -> Option<Named<&[u8]>>
    ensures { option_map named_text result ≡ ran fields.now }
{
    let (task, rest) = shown_by(b"comm=", b"pid=", fields)?;
    let nanos = number_field(b"runtime=", rest)?;
    let pid = task.pid;
    Some(naming(task, Fixed::Ran { pid, nanos }, None))
}

/// A switch from a task of this class that stops so to the next one.
fn switched_next<'a>(
    task: Shown<&'a [u8]>,
    class: Class,
    stop: Stop,
    next: Shown<&'a [u8]>,
    rest: &'a [u8],
) -> Option<Named<&'a [u8]>>
    ensures { option_map named_text result
        ≡ switched_next (shown_text task.entry) class stop (shown_text next.entry) rest.now }
{
    let next_class = class_field(b"next_prio=", rest)?;
    let fixed = Fixed::Switched {
        pid: task.pid,
        is_deadline: class.is_deadline(),
        stop,
        next_pid: next.pid,
        next_is_deadline: next_class.is_deadline(),
    };
    let scheduled = Scheduled::Switched {
        class,
        next,
        next_class,
    };
    Some(naming(task, fixed, Some(scheduled)))
}

/// A switch from a task of this class that stops so; what runs next stands in the fields behind.
fn switched_to<'a>(
    task: Shown<&'a [u8]>,
    class: Class,
    stop: Stop,
    rest: &'a [u8],
) -> Option<Named<&'a [u8]>>
    ensures { option_map named_text result
        ≡ switched_to (shown_text task.entry) class stop rest.now }
{
    let (next, rest) = shown_by(b"next_comm=", b"next_pid=", rest)?;
    switched_next(task, class, stop, next, rest)
}

fn stop_in(fields: &[u8]) -> Option<Stop>
    ensures { result ≡ stop_in fields.now }
{
    let state = value_of(b"prev_state=", fields)?;
    stop_of(state)
}

fn switched_from<'a>(task: Shown<&'a [u8]>, rest: &'a [u8]) -> Option<Named<&'a [u8]>>
    ensures { option_map named_text result ≡ switched_from (shown_text task.entry) rest.now }
{
    let class = class_field(b"prev_prio=", rest)?;
    let stop = stop_in(rest)?;
    switched_to(task, class, stop, rest)
}

pub(crate) fn switched(fields: &[u8]) -> Option<Named<&[u8]>>
    ensures { option_map named_text result ≡ switched fields.now }
{
    let (task, rest) = shown_by(b"prev_comm=", b"prev_pid=", fields)?;
    switched_from(task, rest)
}

/// What a line says that shows no task.
fn alone<'a>(fixed: Fixed) -> Named<&'a [u8]>
    ensures { named_text result ≡ alone fixed }
{
    Named {
        said: Said::Fixed(fixed),
        shown: None,
        scheduled: None,
    }
}

fn started_deadline<'a>(function: TimerFunction, fields: &'a [u8]) -> Option<Named<&'a [u8]>>
    ensures { option_map named_text result ≡ started_deadline function fields.now }
{
    let timer = address_field(fields)?;
    let expires = number_field(b"expires=", fields)?;
    Some(alone(Fixed::TimerStarted {
        timer,
        function,
        expires,
    }))
}

/// A timer starts. Of one with another function the address and the moment are not read, and are 0.
pub(crate) fn started(fields: &[u8]) -> Option<Named<&[u8]>>
    ensures { option_map named_text result ≡ started fields.now }
{
    match timer_function(value_of(b"function=", fields)?) {
        TimerFunction::Other => Some(alone(Fixed::TimerStarted {
            timer: 0,
            function: TimerFunction::Other,
            expires: 0,
        })),
        function => started_deadline(function, fields),
    }
}

pub(crate) fn cancelled(fields: &[u8]) -> Option<Named<&[u8]>>
    ensures { option_map named_text result ≡ cancelled fields.now }
{
    let timer = address_field(fields)?;
    Some(alone(Fixed::TimerCancelled { timer }))
}

/// Whether a timer's function is that of a CPU's tick (kernel/time/tick-sched.c, tick-common.c).
fn is_tick(function: &[u8]) -> bool
    ensures { result ≡ is_tick function.now }
{
    function.starts_with(b"tick_")
}

pub(crate) fn fired(fields: &[u8]) -> Option<Named<&[u8]>>
    ensures { option_map named_text result ≡ fired fields.now }
{
    let timer = address_field(fields)?;
    let function = value_of(b"function=", fields)?;
    let now = number_field(b"now=", fields)?;
    Some(alone(Fixed::TimerFired {
        timer,
        function: timer_function(function),
        is_tick: is_tick(function),
        now,
    }))
}

/// The call of sched_setattr(2) or sched_setscheduler(2), and its return.
pub(crate) fn called<'a>() -> Named<&'a [u8]>
    ensures { named_text result ≡ alone Fixed.PolicyCalled }
{
    alone(Fixed::PolicyCalled)
}

pub(crate) fn returned<'a>() -> Named<&'a [u8]>
    ensures { named_text result ≡ alone Fixed.PolicyReturned }
{
    alone(Fixed::PolicyReturned)
}
