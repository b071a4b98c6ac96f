//! Which task of a runqueue is the first: by its deadline, or by its 0-lag time.

ghost use Rattle.std.specs.Prelude.{◌≡◌, ◌≢◌, ◌<◌, ◌≤◌, ◌↔◌, length, MatchOption};
ghost use Rattle.grub_book.specs.Step.{lag_moment};
ghost use Rattle.library_book.specs.Memory.{record_of};
ghost use Rattle.library_book.specs.First.{deadline_on, timer_on, moment_on, IsFirst, HasNone};
ghost use Rattle.library_book.specs.inside.Better.{better_of};
ghost use Rattle.library_book.specs.declared.memory.TheConstants.{FLAT_TASKS_MAX};

use crate::codes::{DONE, NOBODY, TOO_MANY_TASKS};
use crate::memory::{FLAT_TASKS_MAX, NdTask};

/// The deadline of a task that contends on the runqueue.
fn deadline_on(queue: u32, task: &NdTask) -> Option<u32>
    ensures { result ≡ deadline_on queue task.now }
{
    let NdTask {
        state,
        queue: on,
        deadline,
        ..
    } = *task;
    if state == 1 && on == queue {
        Some(deadline)
    } else {
        None
    }
}

/// The 0-lag time of a task, where one before the moment 0 counts as 0, and so one of no runtime.
fn lag_moment(task: &NdTask) -> u32
    ensures { result ≡ lag_moment (record_of task.now) }
{
    let NdTask {
        runtime,
        period,
        budget,
        deadline,
        ..
    } = *task;
    if runtime == 0 {
        return deadline;
    }
    let lag = u64::from(budget) * u64::from(period) / u64::from(runtime);
    u64::from(deadline).saturating_sub(lag) as u32
}

/// The 0-lag time that a task on the runqueue waits for.
fn timer_on(queue: u32, task: &NdTask) -> Option<u32>
    ensures { result ≡ timer_on queue task.now }
{
    if task.state == 2 && task.queue == queue {
        Some(lag_moment(task))
    } else {
        None
    }
}

/// By which moment a task is the first.
#[derive(Clone, Copy)]
pub enum Wanted {
    /// The deadline of those that contend.
    Deadline,

    /// The 0-lag time of those that wait for it.
    ZeroLag,
}

fn moment_on(wanted: Wanted, queue: u32, task: &NdTask) -> Option<u32>
    ensures { result ≡ moment_on wanted queue task.now }
{
    match wanted {
        Wanted::Deadline => deadline_on(queue, task),
        Wanted::ZeroLag => timer_on(queue, task),
    }
}

/// The better of the best task so far and of task `t` with this moment, if it has one.
fn better(best: Option<(u32, u32)>, t: u32, moment: Option<u32>) -> Option<(u32, u32)>
    ensures { result ≡ better_of best t moment }
{
    match (best, moment) {
        (best, None) => best,
        (None, Some(m)) => Some((t, m)),
        (Some((first, least)), Some(m)) => {
            if m < least {
                Some((t, m))
            } else {
                Some((first, least))
            }
        }
    }
}

/// The first task of a runqueue, and its moment.
fn first(wanted: Wanted, tasks: &[NdTask], queue: u32) -> Option<(u32, u32)>
    requires { length tasks.now ≤ FLAT_TASKS_MAX }
    ensures { MatchOption result (HasNone (moment_on wanted queue) tasks.now)
        (λ b. IsFirst (moment_on wanted queue) tasks.now b.0 b.1) }
{
    let mut best = None;
    for (t, task) in tasks.iter().enumerate() {
        best = better(best, t as u32, moment_on(wanted, queue, task));
    }
    best
}

/// The first task of a runqueue and its moment: of those that contend the one with the earliest deadline, or of those that
/// wait for their 0-lag time the one with the earliest; of equals the one of the least number. Faults: 7 where there are
/// more than 1048576 tasks, 73 where there is none such on the runqueue.
pub fn first_on(
    wanted: Wanted,
    tasks: &[NdTask],
    queue: u32,
    task: &mut u32,
    moment: &mut u32,
) -> u32
    ensures found { result ≡ DONE
        → IsFirst (moment_on wanted queue) tasks.now task.new moment.new }
    ensures many { (result ≡ TOO_MANY_TASKS) ↔ (FLAT_TASKS_MAX < length tasks.now) }
    ensures nobody { result ≢ DONE → result ≢ TOO_MANY_TASKS
        → (result ≡ NOBODY) × HasNone (moment_on wanted queue) tasks.now }
    ensures kept { result ≢ DONE → (task.new ≡ task.old) × (moment.new ≡ moment.old) }
{
    if tasks.len() > FLAT_TASKS_MAX {
        return TOO_MANY_TASKS;
    }
    match first(wanted, tasks, queue) {
        Some((t, m)) => {
            *task = t;
            *moment = m;
            DONE
        }
        None => NOBODY,
    }
}
