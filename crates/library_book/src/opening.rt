//! A book is opened in the memory of its caller.

ghost use Rattle.std.specs.Prelude.{◌≡◌, ◌≢◌, ◌<◌, ◌≤◌, ◌↔◌, ℕ, [], length, map, slice_index_or};
ghost use Rattle.grub_book.specs.Sums.{opening_record, opening_book};
ghost use Rattle.library_book.specs.Memory.{record_of, records_of, params_of, constants_of, reading_in, machine_of, state_max, AreStates, IsFlatMachine, IsBook};
ghost use Rattle.library_book.specs.Opening.{first_fault, task_fault, queue_fault, opening_fault};
ghost use Rattle.library_book.specs.Limits.{AreConstants, AreReservations};
ghost use Rattle.library_book.specs.declared.memory.NdRunqueue.{NdRunqueue};

use crate::codes::{DONE, NO_QUEUE, TOO_MANY_QUEUES, TOO_MANY_TASKS};
use crate::memory::{FLAT_QUEUES_MAX, FLAT_TASKS_MAX, NdRunqueue, NdTask};
use crate::numbers::{NdCapacity, NdParams, capacity_fault, params_fault};

/// The fault of the first runqueue that has one (4 or 5), and 0 where none has.
pub fn fault_of_queues(queues: &[NdRunqueue]) -> u32
    ensures value { result ≡ first_fault queue_fault queues.now }
    ensures none { (result ≡ DONE) ↔ AreConstants queues.now }
{
    for cell in queues {
        let NdRunqueue { umax, uextra, .. } = *cell;
        let fault = capacity_fault(NdCapacity { umax, uextra });
        if fault != DONE {
            return fault;
        }
    }
    DONE
}

/// The fault of the first task that has one (1, 2 or 3), and 0 where none has.
pub fn fault_of_tasks(tasks: &[NdTask]) -> u32
    ensures value { result ≡ first_fault task_fault tasks.now }
    ensures none { (result ≡ DONE) ↔ AreReservations tasks.now }
{
    for task in tasks {
        let NdTask {
            runtime,
            period,
            ..
        } = *task;
        let fault = params_fault(NdParams { runtime, period });
        if fault != DONE {
            return fault;
        }
    }
    DONE
}

/// 0 where a book may be opened in this memory, else the number of the first fault, 1 to 8.
pub(crate) fn setup_fault(tasks: &[NdTask], queues: &[NdRunqueue]) -> u32
    ensures value { result ≡ opening_fault tasks.now queues.now }
    ensures none { (result ≡ DONE) ↔ IsFlatMachine (machine_of tasks.now queues.now) }
{
    if queues.len() > FLAT_QUEUES_MAX {
        return TOO_MANY_QUEUES;
    }
    if tasks.len() > FLAT_TASKS_MAX {
        return TOO_MANY_TASKS;
    }
    if queues.is_empty() {
        return NO_QUEUE;
    }
    let fault = fault_of_queues(queues);
    if fault != DONE {
        return fault;
    }
    fault_of_tasks(tasks)
}

fn opened(task: &NdTask) -> NdTask
    ensures record { record_of result ≡ opening_record (params_of task.now) }
    ensures state { result.state ≤ state_max }
{
    NdTask {
        runtime: task.runtime,
        period: task.period,
        budget: task.runtime,
        deadline: 0,
        count: 0,
        state: 0,
        queue: 0,
    }
}

fn open_tasks(tasks: &mut [NdTask])
    ensures records { records_of tasks.new ≡ opening_book (machine_of tasks.old []) }
    ensures states { AreStates tasks.new }
{
    for i in 0..tasks.len() {
        tasks[i] = opened(&tasks[i]);
    }
}

fn open_queues(queues: &mut [NdRunqueue])
    ensures constants { map constants_of queues.new ≡ map constants_of queues.old }
    ensures zero { (r : ℕ) (d : NdRunqueue) → r < length queues.new
        → reading_in (slice_index_or queues.new r d) ≡ record { running = 0; this = 0 } }
{
    for i in 0..queues.len() {
        let cell = queues[i];
        queues[i] = NdRunqueue {
            running_bw: 0,
            this_bw: 0,
            ..cell
        };
    }
}

/// Makes a book of the reservations and the constants that stand in the memory: every task is away, with the block count
/// 0, a full budget and the deadline 0. It answers 0, or the number of the first fault, 1 to 8; then nothing is written.
pub fn open_book(tasks: &mut [NdTask], queues: &mut [NdRunqueue]) -> u32
    ensures fault { result ≡ opening_fault tasks.old queues.old }
    ensures accepted { (result ≡ DONE) ↔ IsFlatMachine (machine_of tasks.old queues.old) }
    ensures book { result ≡ DONE
        → IsBook (machine_of tasks.old queues.old) tasks.new queues.new }
    ensures records { result ≡ DONE
        → records_of tasks.new ≡ opening_book (machine_of tasks.old queues.old) }
    ensures kept { result ≢ DONE → (tasks.new ≡ tasks.old) × (queues.new ≡ queues.old) }
{
    let fault = setup_fault(tasks, queues);
    if fault == DONE {
        open_tasks(tasks);
        open_queues(queues);
    }
    fault
}
