//! What events of the scheduler show of tasks, whatever their class.

ghost use Rattle.std.specs.Prelude.{◌≡◌, option_map};
ghost use Rattle.trace_fields.specs.Shown.{shown_text};
ghost use Rattle.trace_lines.specs.Scheduled.{class_below, class_field, class_of, class_plain, is_deadline, scheduled_text, waking, waking_by, waking_on, waking_with};

use crate::word::CPUS;
use trace_data::Flaw;
use trace_fields::{CpuWord, Opening, Shown, after, number, shown_by, value_of};

/// The class of a task, by the priority that a trace tells (`include/linux/sched/prio.h`).
#[derive(Clone, Copy, Debug, PartialEq, Eq)]
pub enum Class {
    /// SCHED_DEADLINE: -1.
    Deadline,

    /// SCHED_FIFO and SCHED_RR: 0 to 99.
    RealTime,

    /// SCHED_OTHER and its kin: 100 and above.
    Fair,
}

/// What an event of the scheduler shows of tasks, whatever their class; `T` is a text.
#[derive(Clone, Copy)]
pub enum Scheduled<T> {
    /// sched_waking: a task is about to wake, at a moment in nanoseconds, on a line of this CPU.
    Waking {
        at: u64,
        cpu: u32,
        task: Shown<T>,
        class: Class,
    },

    /// A line of sched_waking that has no CPU, a CPU above 8191, or not its fields.
    BadWaking(Flaw),

    /// sched_wakeup, or sched_wakeup_new, where its thread begins: the task that the line shows wakes.
    Woken {
        class: Class,
        is_new: bool,
    },

    /// sched_switch: the task that the line shows stops to run, and the next one runs.
    Switched {
        class: Class,
        next: Shown<T>,
        next_class: Class,
    },
}

impl Class {
    /// Whether it is that of SCHED_DEADLINE.
    pub fn is_deadline(self) -> bool
        ensures { result ≡ is_deadline self }
    {
        match self {
            Class::Deadline => true,
            Class::RealTime | Class::Fair => false,
        }
    }
}

/// The class of a priority that is not below 0.
fn class_plain(priority: u64) -> Class
    ensures { result ≡ class_plain priority }
{
    if priority < 100 {
        Class::RealTime
    } else {
        Class::Fair
    }
}

/// The class of a priority of so much below 0: only -1 is one of a task.
fn class_below(below: u64) -> Class
    ensures { result ≡ class_below below }
{
    if below == 1 {
        Class::Deadline
    } else {
        Class::RealTime
    }
}

fn class_of(priority: &[u8]) -> Option<Class>
    ensures { result ≡ class_of priority.now }
{
    match after(b"-", priority) {
        None => Some(class_plain(number(priority)?)),
        Some(digits) => Some(class_below(number(digits)?)),
    }
}

/// The class of the priority that is the value of the field with this key.
pub(crate) fn class_field(key: &[u8], fields: &[u8]) -> Option<Class>
    ensures { result ≡ class_field key.now fields.now }
{
    class_of(value_of(key, fields)?)
}

fn waking_with<'a>(
    at: u64,
    cpu: u32,
    task: Shown<&'a [u8]>,
    rest: &[u8],
) -> Option<Scheduled<&'a [u8]>>
    ensures { option_map scheduled_text result
        ≡ waking_with at cpu (shown_text task.entry) rest.now }
{
    let class = class_field(b"prio=", rest)?;
    Some(Scheduled::Waking {
        at,
        cpu,
        task,
        class,
    })
}

fn waking_by(at: u64, cpu: u32, fields: &[u8]) -> Option<Scheduled<&[u8]>>
    ensures { option_map scheduled_text result ≡ waking_by at cpu fields.now }
{
    let (task, rest) = shown_by(b"comm=", b"pid=", fields)?;
    waking_with(at, cpu, task, rest)
}

fn waking_on(at: u64, fields: &[u8], word: CpuWord) -> Scheduled<&[u8]>
    ensures { scheduled_text result ≡ waking_on at fields.now word }
{
    if word.cpu >= CPUS {
        return Scheduled::BadWaking(Flaw::TooLong);
    }
    match waking_by(at, word.cpu, fields) {
        None => Scheduled::BadWaking(Flaw::BadTraceLine),
        Some(scheduled) => scheduled,
    }
}

/// What a line of sched_waking shows.
pub(crate) fn waking(opening: Opening, fields: &[u8]) -> Scheduled<&[u8]>
    ensures { scheduled_text result ≡ waking opening fields.now }
{
    match opening.cpu {
        None => Scheduled::BadWaking(Flaw::BadTraceLine),
        Some(word) => waking_on(opening.at, fields, word),
    }
}
