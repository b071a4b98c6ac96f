//! Which runqueue or task has the first fault.

ghost use Rattle.std.specs.Prelude.{◌≡◌, ◌≢◌, ◌<◌, ◌≤◌, ◌^◌, length};
ghost use Rattle.library_book.specs.Memory.{records_of};
ghost use Rattle.library_book.specs.Opening.{task_fault, queue_fault, opening_fault};
ghost use Rattle.library_book.specs.Audit.{kept_fault, audit_fault};
ghost use Rattle.library_book.specs.Limits.{AreReservations};
ghost use Rattle.library_book.specs.Located.{first_at, first_sum, opening_number, audit_number};
ghost use Rattle.library_book.specs.declared.codes.TheConstants.{DONE};
ghost use Rattle.library_book.specs.declared.memory.TheConstants.{FLAT_TASKS_MAX};

use crate::auditor::{audit, fault_of_record, fault_of_records, fault_of_sum};
use crate::codes::DONE;
use crate::memory::{FLAT_QUEUES_MAX, FLAT_TASKS_MAX, NdRunqueue, NdTask};
use crate::numbers::{NdCapacity, NdParams, capacity_fault, params_fault};
use crate::opening::{fault_of_queues, setup_fault};

fn first_queue(queues: &[NdRunqueue]) -> usize
    ensures value { result ≡ first_at queue_fault 0 queues.now }
    ensures most { result ≤ length queues.now }
{
    for (r, cell) in queues.iter().enumerate() {
        let NdRunqueue { umax, uextra, .. } = *cell;
        if capacity_fault(NdCapacity { umax, uextra }) != DONE {
            return r;
        }
    }
    queues.len()
}

fn first_task(tasks: &[NdTask]) -> usize
    ensures value { result ≡ first_at task_fault 0 tasks.now }
    ensures most { result ≤ length tasks.now }
{
    for (t, task) in tasks.iter().enumerate() {
        let NdTask {
            runtime,
            period,
            ..
        } = *task;
        if params_fault(NdParams { runtime, period }) != DONE {
            return t;
        }
    }
    tasks.len()
}

fn first_record(tasks: &[NdTask], queues: usize) -> usize
    ensures value { result ≡ first_at (kept_fault queues) 0 tasks.now }
    ensures most { result ≤ length tasks.now }
{
    for (t, task) in tasks.iter().enumerate() {
        if fault_of_record(task, queues) != DONE {
            return t;
        }
    }
    tasks.len()
}

fn first_wrong_sum(tasks: &[NdTask], queues: &[NdRunqueue]) -> usize
    requires reservations { AreReservations tasks.now }
    requires tasks { length tasks.now ≤ FLAT_TASKS_MAX }
    requires queues { length queues.now < 2 ^ 32 }
    ensures value { result ≡ first_sum (records_of tasks.now) 0 queues.now }
    ensures most { result ≤ length queues.now }
{
    for (r, cell) in queues.iter().enumerate() {
        if fault_of_sum(tasks, r as u32, *cell) != DONE {
            return r;
        }
    }
    queues.len()
}

fn setup_number(tasks: &[NdTask], queues: &[NdRunqueue]) -> u32
    ensures { result ≡ opening_number tasks.now queues.now }
{
    if queues.len() > FLAT_QUEUES_MAX || tasks.len() > FLAT_TASKS_MAX || queues.is_empty() {
        return 0;
    }
    if fault_of_queues(queues) != DONE {
        first_queue(queues) as u32
    } else {
        first_task(tasks) as u32
    }
}

/// What `open_book` answers, and which runqueue or task has the fault; 0 for a fault of neither.
pub fn open_fault(tasks: &[NdTask], queues: &[NdRunqueue], number: &mut u32) -> u32
    ensures fault { result ≡ opening_fault tasks.now queues.now }
    ensures number { result ≢ DONE → number.new ≡ opening_number tasks.now queues.now }
    ensures kept { result ≡ DONE → number.new ≡ number.old }
{
    let fault = setup_fault(tasks, queues);
    if fault != DONE {
        *number = setup_number(tasks, queues);
    }
    fault
}

/// What `audit` answers, and which runqueue or task has the fault; 0 for a fault of neither.
pub fn located_fault(tasks: &[NdTask], queues: &[NdRunqueue], number: &mut u32) -> u32
    ensures fault { result ≡ audit_fault tasks.now queues.now }
    ensures number { result ≢ DONE → number.new ≡ audit_number tasks.now queues.now }
    ensures kept { result ≡ DONE → number.new ≡ number.old }
{
    let fault = audit(tasks, queues);
    if fault != DONE {
        *number = fault_number(tasks, queues);
    }
    fault
}

fn fault_number(tasks: &[NdTask], queues: &[NdRunqueue]) -> u32
    ensures { result ≡ audit_number tasks.now queues.now }
{
    if setup_fault(tasks, queues) != DONE {
        return setup_number(tasks, queues);
    }
    if fault_of_records(tasks, queues) != DONE {
        first_record(tasks, queues.len()) as u32
    } else {
        first_wrong_sum(tasks, queues) as u32
    }
}
