//! The tasks that options give, by name or pid, and the pids by which lines have shown them.

ghost use Rattle.std.specs.Prelude.{◌≡◌, position};
ghost use Rattle.std.specs.List.{list_any};
ghost use Rattle.check_settings.specs.Sought.{is_named, is_shown_as, is_sought_as, place_of, unshown};

use trace_fields::number;
use trace_options::TaskOption;

/// A task that an option gives, and its pid once a line has shown it.
#[derive(Clone, Copy)]
pub struct SoughtTask<'o> {
    pub given: TaskOption<'o>,
    pub pid: Option<u64>,
}

/// A given task that no line has shown.
pub(crate) fn unshown<'o>(given: TaskOption<'o>) -> SoughtTask<'o>
    ensures { result ≡ unshown given.entry }
{
    SoughtTask { given, pid: None }
}

/// Whether the name of an option, a pid or a comm, is this task's.
fn is_named(name: &str, pid: u64, comm: &[u8]) -> bool
    ensures { result ≡ is_named name.now pid comm.now }
{
    match number(name.as_bytes()) {
        Some(number) => number == pid,
        None => name.as_bytes() == comm,
    }
}

/// Whether a line has shown this task by this pid.
fn is_shown_as(task: &SoughtTask<'_>, pid: u64) -> bool
    ensures { result ≡ is_shown_as pid task.now }
{
    match task.pid {
        Some(shown) => shown == pid,
        None => false,
    }
}

/// Whether no line has shown this task, and it is the one of this pid and comm.
fn is_sought_as(task: &SoughtTask<'_>, pid: u64, comm: &[u8]) -> bool
    ensures { result ≡ is_sought_as pid comm.now task.now }
{
    task.pid.is_none() && is_named(task.given.name, pid, comm)
}

/// Which of the given tasks that no line has shown is the task of this pid and comm, unless that is one that was shown.
pub(crate) fn place_of(tasks: &[SoughtTask<'_>], pid: u64, comm: &[u8]) -> Option<usize>
    ensures { result ≡ place_of pid comm.now tasks.now }
{
    if are_shown_as(tasks, pid) {
        None
    } else {
        first_sought(tasks, pid, comm)
    }
}

/// Whether a line has shown one of these tasks by this pid.
fn are_shown_as(tasks: &[SoughtTask<'_>], pid: u64) -> bool
    ensures { result ≡ list_any (is_shown_as pid) tasks.now }
{
    tasks.iter().any(|task| is_shown_as(task, pid))
}

/// The first task that no line has shown, and that is the one of this pid and comm.
fn first_sought(tasks: &[SoughtTask<'_>], pid: u64, comm: &[u8]) -> Option<usize>
    ensures { result ≡ position (is_sought_as pid comm.now) tasks.now }
{
    tasks.iter().position(|task| is_sought_as(task, pid, comm))
}
