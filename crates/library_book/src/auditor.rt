//! Whether memory is a book.

ghost use Rattle.std.specs.Prelude.{◌≡◌, ◌<◌, ◌≤◌, ◌↔◌, ◌^◌, ℕ, length, if◌then◌else◌};
ghost use Rattle.grub_book.specs.Bandwidth.{IsReservation};
ghost use Rattle.grub_book.specs.Machine.{Machine};
ghost use Rattle.grub_book.specs.Sums.{share_of, is_on, is_active_on, running_of, this_of};
ghost use Rattle.grub_book.specs.Sound.{IsKept};
ghost use Rattle.library_book.specs.Memory.{params_of, record_of, records_of, machine_of, state_max, AreStates, IsBook};
ghost use Rattle.library_book.specs.Opening.{first_fault};
ghost use Rattle.library_book.specs.Limits.{AreReservations};
ghost use Rattle.library_book.specs.Audit.{audit_fault, kept_fault, place_fault, sum_fault, sums_fault};
ghost use Rattle.library_book.specs.inside.Sums.{AreKept, IsSum, AreSums};
ghost use Rattle.library_book.specs.declared.codes.TheConstants.{DONE};
ghost use Rattle.library_book.specs.declared.memory.TheConstants.{FLAT_TASKS_MAX};

use crate::codes::{
    BUDGET_OUT_OF_RANGE, COUNT_OUT_OF_RANGE, DONE, OVERFULL, QUEUE_OUT_OF_RANGE,
    STATE_OUT_OF_RANGE, WRONG_RUNNING_BW, WRONG_THIS_BW,
};
use crate::memory::{NdRunqueue, NdTask};
use crate::opening::setup_fault;
use crate::records::place_of;
use grub_book::{COUNT_MAX, Params, Place};

/// The greatest state of a task: it has ended.
const STATE_MAX: u32 = 4;

/// 0 exactly where the memory is a book: its numbers are within their limits, and the sums of each runqueue are those of
/// its tasks, added up afresh. Else the number of the first fault: 1 to 8 as of `open_book`, then 60, 63, 68 and 64 of
/// the tasks in order, then 65, 66 and 67 of the runqueues in order. It takes time by runqueues times tasks.
pub fn audit(tasks: &[NdTask], queues: &[NdRunqueue]) -> u32
    ensures fault { result ≡ audit_fault tasks.now queues.now }
    ensures book { (result ≡ DONE) ↔ ((s : Machine) × IsBook s tasks.now queues.now) }
{
    let opening = setup_fault(tasks, queues);
    if opening != DONE {
        return opening;
    }
    let kept = fault_of_records(tasks, queues);
    if kept != DONE {
        return kept;
    }
    fault_of_sums(tasks, queues)
}

/// The fault of the first task that has a record which no task has, and 0 where none has.
pub(crate) fn fault_of_records(tasks: &[NdTask], queues: &[NdRunqueue]) -> u32
    requires { AreReservations tasks.now }
    ensures value { result ≡ first_fault (kept_fault (length queues.now)) tasks.now }
    ensures none { (result ≡ DONE)
        ↔ AreKept (machine_of tasks.now queues.now) tasks.now × AreStates tasks.now }
{
    for task in tasks {
        let fault = fault_of_record(task, queues.len());
        if fault != DONE {
            return fault;
        }
    }
    DONE
}

pub(crate) fn fault_of_record(task: &NdTask, queues: usize) -> u32
    ensures value { result ≡ kept_fault queues task.now }
    ensures none { (s : Machine) → length s.queues ≡ queues → IsReservation (params_of task.now)
        → ((result ≡ DONE) ↔ IsKept s (record_of task.now) × (task.now.state ≤ state_max)) }
{
    if task.budget == 0 || task.budget > task.runtime {
        return BUDGET_OUT_OF_RANGE;
    }
    if task.count > COUNT_MAX {
        return COUNT_OUT_OF_RANGE;
    }
    if task.state > STATE_MAX {
        return STATE_OUT_OF_RANGE;
    }
    let _deadline = task.deadline;
    fault_of_place(place_of(task.state, task.queue), queues)
}

fn fault_of_place(place: Place, queues: usize) -> u32
    ensures { result ≡ place_fault queues place }
{
    match place {
        Place::On(r, _) if r as usize >= queues => QUEUE_OUT_OF_RANGE,
        _ => DONE,
    }
}

/// The fault of the first runqueue whose sums are not those of its tasks, and 0 where there is none.
fn fault_of_sums(tasks: &[NdTask], queues: &[NdRunqueue]) -> u32
    requires reservations { AreReservations tasks.now }
    requires tasks { length tasks.now ≤ FLAT_TASKS_MAX }
    requires queues { length queues.now < 2 ^ 32 }
    ensures value { result ≡ sums_fault (records_of tasks.now) 0 queues.now }
    ensures none { (result ≡ DONE) ↔ AreSums (records_of tasks.now) queues.now }
{
    for (r, cell) in queues.iter().enumerate() {
        let fault = fault_of_sum(tasks, r as u32, *cell);
        if fault != DONE {
            return fault;
        }
    }
    DONE
}

pub(crate) fn fault_of_sum(tasks: &[NdTask], r: u32, cell: NdRunqueue) -> u32
    requires reservations { AreReservations tasks.now }
    requires tasks { length tasks.now ≤ FLAT_TASKS_MAX }
    ensures value { result ≡ sum_fault (records_of tasks.now) r cell }
    ensures none { (result ≡ DONE) ↔ IsSum (records_of tasks.now) r cell }
{
    let (running, this) = fresh_sums(tasks, r);
    if u64::from(cell.running_bw) != running {
        return WRONG_RUNNING_BW;
    }
    if u64::from(cell.this_bw) != this {
        return WRONG_THIS_BW;
    }
    if cell.this_bw > cell.umax {
        return OVERFULL;
    }
    DONE
}

/// What the active tasks of a runqueue add up to, and all its tasks.
fn fresh_sums(tasks: &[NdTask], r: u32) -> (u64, u64)
    requires reservations { AreReservations tasks.now }
    requires tasks { length tasks.now ≤ FLAT_TASKS_MAX }
    ensures running { result.0 ≡ running_of (records_of tasks.now) r }
    ensures this { result.1 ≡ this_of (records_of tasks.now) r }
{
    let mut running = 0;
    let mut this = 0;
    for task in tasks {
        let (active, on) = shares(*task, r);
        running += u64::from(active);
        this += u64::from(on);
    }
    (running, this)
}

/// What a task adds to running_bw and this_bw of a runqueue.
fn shares(task: NdTask, r: u32) -> (u32, u32)
    requires { IsReservation (params_of task) }
    ensures running { result.0 ≡ share_of (is_active_on r) (record_of task) }
    ensures this { result.1 ≡ share_of (is_on r) (record_of task) }
    ensures most { (result.0 ≤ 2 ^ 20) × (result.1 ≤ 2 ^ 20) }
{
    let place = place_of(task.state, task.queue);
    if !place.is_on(r) {
        return (0, 0);
    }
    let bw = Params::new(task.runtime, task.period).unwrap().bw();
    if place.is_active_on(r) {
        (bw, bw)
    } else {
        (0, bw)
    }
}
