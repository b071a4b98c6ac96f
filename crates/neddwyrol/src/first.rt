//! Which task of a runqueue is the first.

ghost use Rattle.std.specs.Prelude.{◌≡◌, ◌≢◌, ◌<◌, ◌↔◌, length};
ghost use Rattle.library_book.specs.First.{deadline_on, timer_on, IsFirst, HasNone};
ghost use Rattle.library_book.specs.declared.codes.TheConstants.{DONE, NOBODY, TOO_MANY_TASKS};
ghost use Rattle.library_book.specs.declared.memory.TheConstants.{FLAT_TASKS_MAX};

use library_book::{NdTask, Wanted, first_on};

/// The contending task of a runqueue with the earliest deadline, and of equals the one of the least number. Faults: 7
/// where there are more than 1048576 tasks, 73 where none contends there.
#[unsafe(no_mangle)]
pub extern "C" fn nd_earliest(
    tasks: &[NdTask],
    queue: u32,
    task: &mut u32,
    deadline: &mut u32,
) -> u32
    ensures found { result ≡ DONE → IsFirst (deadline_on queue) tasks.now task.new deadline.new }
    ensures many { (result ≡ TOO_MANY_TASKS) ↔ (FLAT_TASKS_MAX < length tasks.now) }
    ensures nobody { result ≢ DONE → result ≢ TOO_MANY_TASKS
        → (result ≡ NOBODY) × HasNone (deadline_on queue) tasks.now }
    ensures kept { result ≢ DONE → (task.new ≡ task.old) × (deadline.new ≡ deadline.old) }
{
    first_on(Wanted::Deadline, tasks, queue, task, deadline)
}

/// The task of a runqueue with the earliest 0-lag time among those that wait for it, and of equals the one of the least
/// number. Faults: 7 where there are more than 1048576 tasks, 73 where none waits there.
#[unsafe(no_mangle)]
pub extern "C" fn nd_next_timer(
    tasks: &[NdTask],
    queue: u32,
    task: &mut u32,
    moment: &mut u32,
) -> u32
    ensures found { result ≡ DONE → IsFirst (timer_on queue) tasks.now task.new moment.new }
    ensures many { (result ≡ TOO_MANY_TASKS) ↔ (FLAT_TASKS_MAX < length tasks.now) }
    ensures nobody { result ≢ DONE → result ≢ TOO_MANY_TASKS
        → (result ≡ NOBODY) × HasNone (timer_on queue) tasks.now }
    ensures kept { result ≢ DONE → (task.new ≡ task.old) × (moment.new ≡ moment.old) }
{
    first_on(Wanted::ZeroLag, tasks, queue, task, moment)
}
