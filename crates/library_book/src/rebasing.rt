//! A new origin of time.

ghost use Rattle.std.specs.Prelude.{◌≡◌, ◌≢◌, ◌<◌, ◌≤◌, ◌^◌, ◌↔◌, ℕ, None, map, List, IfSome, IsSome};
ghost use Rattle.grub_book.specs.Machine.{Machine};
ghost use Rattle.grub_book.specs.Rebase.{first_held};
ghost use Rattle.grub_book.specs.inside.Standings.{lesser_of};
ghost use Rattle.library_book.specs.Memory.{records_of, IsBook};
ghost use Rattle.library_book.specs.Rebase.{rebase_answer};
ghost use Rattle.library_book.specs.inside.Rebasing.{task_rebased};
ghost use Rattle.library_book.specs.declared.codes.TheConstants.{DONE, DAMAGED};

use crate::asked::NdReply;
use crate::calls::plain_reply;
use crate::codes::{DAMAGED, DONE, TOO_FAR};
use crate::memory::{FLAT_TASKS_MAX, NdRunqueue, NdTask};
use crate::records::{place_of, record_in};
use grub_book::{bound, holds_back, waits};

/// The kind of a reply that says that the origin was moved.
pub const REBASED: u32 = 111;

/// What `rebase` would answer.
pub(crate) fn foreseen_rebase(tasks: &[NdTask], by: u32) -> NdReply
    ensures { (s : Machine) (queues : List NdRunqueue) → IsBook s tasks.now queues
        → result ≡ (rebase_answer by (records_of tasks.now)).1 }
{
    if tasks.len() > FLAT_TASKS_MAX {
        return plain_reply(DAMAGED);
    }
    for (t, task) in tasks.iter().enumerate() {
        let Some(held) = record_in(task) else {
            return plain_reply(DAMAGED);
        };
        if holds_back(&held, by) {
            return NdReply {
                number: t as u32,
                ..plain_reply(TOO_FAR)
            };
        }
    }
    plain_reply(REBASED)
}

fn rebased(task: NdTask, by: u32) -> NdTask
    ensures { result ≡ task_rebased by task }
{
    let waits = waits(place_of(task.state, task.queue));
    NdTask {
        deadline: task.deadline.saturating_sub(by),
        count: if waits { task.count } else { 0 },
        ..task
    }
}

fn rebase_all(tasks: &mut [NdTask], by: u32)
    ensures { tasks.new ≡ map (task_rebased by) tasks.old }
{
    for i in 0..tasks.len() {
        tasks[i] = rebased(tasks[i], by);
    }
}

/// Moves the origin of time of a book: what was the moment `by` is the moment 0 from then on. Each deadline falls by as much,
/// and is 0 where it was below. The count of a task that waits stays, and that of each other task becomes 0. 74 refuses it where
/// a contending task's deadline, or a waiting task's 0-lag time, is below `by`, with the number of the first such task. 72
/// says that the memory is no book. A kind below 101 writes nothing.
pub fn rebase(tasks: &mut [NdTask], queues: &[NdRunqueue], by: u32) -> NdReply
    ensures answer { (s : Machine) → IsBook s tasks.old queues.now
        → (records_of tasks.new, result) ≡ rebase_answer by (records_of tasks.old) }
    ensures book { (s : Machine) → IsBook s tasks.old queues.now
        → IsBook s tasks.new queues.now }
    ensures kept { result.kind < 101 → tasks.new ≡ tasks.old }
{
    let reply = foreseen_rebase(tasks, by);
    if reply.kind == REBASED {
        rebase_all(tasks, by);
    }
    reply
}

/// The lesser of a number and of a moment, if there is one.
fn lesser(least: u32, moment: Option<u32>) -> u32
    ensures { result ≡ lesser_of least moment }
{
    match moment {
        Some(m) => least.min(m),
        None => least,
    }
}

/// The greatest number that no task holds back. None where the memory is no book.
fn limit(tasks: &[NdTask]) -> Option<u32>
    ensures value { (s : Machine) (queues : List NdRunqueue) → IsBook s tasks.now queues
        → IfSome result (λ most. (by : ℕ) → by < 2 ^ 32
        → ((first_held by (records_of tasks.now) ≡ None) ↔ (by ≤ most))) }
    ensures some { (s : Machine) (queues : List NdRunqueue) → IsBook s tasks.now queues
        → IsSome result }
{
    let mut least = u32::MAX;
    for task in tasks {
        let held = record_in(task)?;
        least = lesser(least, bound(&held));
    }
    Some(least)
}

/// Writes the greatest number by which `rebase` is not refused, and answers 0: the least of the deadlines of contending tasks
/// and of the 0-lag times of waiting ones, and 4294967295 where no task is active. 72 says that the memory is no book; then
/// nothing is written.
pub fn rebase_limit(tasks: &[NdTask], queues: &[NdRunqueue], by: &mut u32) -> u32
    ensures done { (s : Machine) → IsBook s tasks.now queues.now → result ≡ DONE }
    ensures damaged { result ≢ DONE → result ≡ DAMAGED }
    ensures value { (s : Machine) (n : ℕ) → IsBook s tasks.now queues.now → n < 2 ^ 32
        → ((first_held n (records_of tasks.now) ≡ None) ↔ (n ≤ by.new)) }
    ensures kept { result ≢ DONE → by.new ≡ by.old }
{
    match limit(tasks) {
        Some(most) => {
            *by = most;
            DONE
        }
        None => DAMAGED,
    }
}
