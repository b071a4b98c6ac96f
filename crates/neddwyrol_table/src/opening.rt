//! A table is opened.

ghost use Rattle.std.specs.Prelude.{◌≡◌, ◌<◌, map, length, IfOk, IfErr};
ghost use Rattle.std.specs.List.{All};
ghost use Rattle.grub_book.specs.Machine.{IsMachine};
ghost use Rattle.grub_table.specs.Calls.{IsPassOf};
ghost use Rattle.neddwyrol_table.specs.Called.{Keeps, Stands, table_of, passes_of};
ghost use Rattle.neddwyrol_table.specs.declared.held.Kept.{Kept};
ghost use Rattle.library_book.specs.Memory.{params_of, constants_of, machine_of};
ghost use Rattle.library_book.specs.Limits.{AreConstants, AreReservations};
ghost use Rattle.neddwyrol_table.specs.Opened.{setup_fault, passes_fault, open_fault, IsOpenedFor};

use crate::held::Held;
use crate::parting::unpushed;
use grub_book::{Params, QUEUES_MAX, Queue, Setup, TASKS_MAX};
use grub_table::{OpenFault, Pass, Shared};
use library_book::{
    DONE, NO_QUEUE, NdRunqueue, NdTask, TOO_MANY_QUEUES, TOO_MANY_TASKS, fault_of_queues,
    fault_of_tasks,
};
use std::alloc::{AllocError, Global};
use std::sync::Arc;

/// The most passes.
pub const PASSES_MAX: u32 = 64;

/// There is no pass.
pub const NO_PASS: u32 = 23;

/// There are more than 64 passes.
pub const TOO_MANY_PASSES: u32 = 24;

/// Memory for the table was refused.
pub const NO_TABLE_MEMORY: u32 = 25;

/// 0 where a table may be opened for these runqueues and tasks, else the number of the first fault, 1 to 8.
fn setup_fault(tasks: &[NdTask], queues: &[NdRunqueue]) -> u32
    ensures value { result ≡ setup_fault tasks.now queues.now }
    ensures none { (result ≡ DONE) → IsMachine (machine_of tasks.now queues.now) }
    ensures constants { (result ≡ DONE) → AreConstants queues.now }
    ensures reservations { (result ≡ DONE) → AreReservations tasks.now }
{
    if queues.len() > QUEUES_MAX {
        return TOO_MANY_QUEUES;
    }
    if tasks.len() > TASKS_MAX {
        return TOO_MANY_TASKS;
    }
    if queues.is_empty() {
        return NO_QUEUE;
    }
    let fault = fault_of_queues(queues);
    if fault != DONE {
        return fault;
    }
    fault_of_tasks(tasks)
}

fn queues_of(alloc: Global, queues: &[NdRunqueue]) -> Result<Vec<Queue>, AllocError>
    requires { AreConstants queues.now }
    ensures { IfOk result (λ found. found.items ≡ map constants_of queues.now) }
{
    let mut found = Vec::new(alloc);
    for cell in queues {
        let Ok(queue) = Queue::new(cell.umax, cell.uextra) else {
            unreachable!()
        };
        found.push(queue)?;
    }
    Ok(found)
}

fn tasks_of(alloc: Global, tasks: &[NdTask]) -> Result<Vec<Params>, AllocError>
    requires { AreReservations tasks.now }
    ensures { IfOk result (λ found. found.items ≡ map params_of tasks.now) }
{
    let mut found = Vec::new(alloc);
    for task in tasks {
        let Ok(params) = Params::new(task.runtime, task.period) else {
            unreachable!()
        };
        found.push(params)?;
    }
    Ok(found)
}

fn setup_of(alloc: Global, tasks: &[NdTask], queues: &[NdRunqueue]) -> Result<Setup, AllocError>
    requires machine { IsMachine (machine_of tasks.now queues.now) }
    requires constants { AreConstants queues.now }
    requires reservations { AreReservations tasks.now }
    ensures { IfOk result (λ setup. setup ≡ machine_of tasks.now queues.now) }
{
    let queues = queues_of(alloc, queues)?;
    let tasks = tasks_of(alloc, tasks)?;
    let Ok(setup) = Setup::new(queues, tasks) else {
        unreachable!()
    };
    Ok(setup)
}

/// All passes of a table: the last one, with those before it gathered.
fn boxed(alloc: Global, table: Shared, passes: Vec<Pass>) -> Result<Box<Held>, AllocError>
    requires some { 0 < length passes.items }
    requires of { All (IsPassOf table) passes.items }
    ensures leads { IfOk result (λ b. (k : Kept) → Keeps b.value k → (table_of k ≡ table)
        × (passes_of k ≡ passes.items)) }
    ensures stands { IfOk result (λ b. Stands b.value) }
{
    let Ok(shared) = Arc::new(alloc, table) else {
        return Err(AllocError);
    };
    match Box::new(alloc, Held::of_pass(unpushed(shared, passes))) {
        Ok(held) => Ok(held),
        Err(_) => Err(AllocError),
    }
}

fn all_opened(alloc: Global, setup: &Setup, passes: u32) -> Result<Box<Held>, u32>
    ensures opened { IfOk result (λ b. IsOpenedFor setup.now passes b.value) }
    ensures stands { IfOk result (λ b. Stands b.value) }
    ensures fault { IfErr result (λ fault. fault ≡ passes_fault passes) }
{
    match Shared::open(alloc, setup, passes) {
        Ok((table, all)) => match boxed(alloc, table, all) {
            Ok(held) => Ok(held),
            Err(_) => Err(NO_TABLE_MEMORY),
        },
        Err(OpenFault::NoPass) => Err(NO_PASS),
        Err(OpenFault::TooManyPasses) => Err(TOO_MANY_PASSES),
        Err(OpenFault::NoMemory) => Err(NO_TABLE_MEMORY),
    }
}

/// A table of the reservations and constants that stand in the memory, with so many passes.
pub(crate) fn opened(
    alloc: Global,
    tasks: &[NdTask],
    queues: &[NdRunqueue],
    passes: u32,
) -> Result<Box<Held>, u32>
    ensures opened { IfOk result
        (λ b. IsOpenedFor (machine_of tasks.now queues.now) passes b.value) }
    ensures stands { IfOk result (λ b. Stands b.value) }
    ensures fault { IfErr result (λ fault. fault ≡ open_fault tasks.now queues.now passes) }
{
    let fault = setup_fault(tasks, queues);
    if fault != DONE {
        return Err(fault);
    }
    if passes == 0 {
        return Err(NO_PASS);
    }
    if passes > PASSES_MAX {
        return Err(TOO_MANY_PASSES);
    }
    let Ok(setup) = setup_of(alloc, tasks, queues) else {
        return Err(NO_TABLE_MEMORY);
    };
    all_opened(alloc, &setup, passes)
}
