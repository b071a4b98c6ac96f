//! A table is opened: its words, and its passes.
ghost use Rattle.std.specs.Prelude.{◌≡◌, ◌<◌, ◌+◌, ◌↔◌, [], IsTrue, IfOk, OnOk, IsErrOf, length};
ghost use Rattle.grub_book.specs.Machine.{IsMachine};
ghost use Rattle.grub_book.specs.Op.{IsOp};
ghost use Rattle.grub_table.specs.Calls.{terms, AreNew, IsOpened};
ghost use Rattle.grub_table.specs.inside.FirstWords.{AreOpeningWords};
ghost use Rattle.grub_table.specs.inside.Trails.{first_trail};

use crate::counted::CountedTable;
use crate::fault::OpenFault;
use crate::pass::Pass;
use crate::row::{SPACING, params_word_at, server_word_at};
use crate::seated::Seated;
use crate::shared::Shared;
use crate::view::{Note, Terms, Trail};
use crate::{pack_params, pack_server};
use atomic_table::Seat;
use grub_book::{Op, Params, Queue, Server, Setup};
use std::alloc::{AllocError, Global};

/// The most passes.
const PASSES_MAX: u32 = 64;

fn copied_queues(alloc: Global, setup: &Setup) -> Result<Vec<Queue>, AllocError>
    ensures items { IfOk result (λ queues. queues.items ≡ setup.now.queues) }
    ensures limits { OnOk result (IsMachine setup.now) }
{
    let mut queues = Vec::new(alloc);
    for r in 0..setup.queue_count() {
        queues.push(setup.queue(r))?;
    }
    Ok(queues)
}

fn copied_tasks(alloc: Global, setup: &Setup) -> Result<Vec<Params>, AllocError>
    ensures { IfOk result (λ tasks. tasks.items ≡ setup.now.tasks) }
{
    let mut tasks = Vec::new(alloc);
    for t in 0..setup.task_count() {
        tasks.push(setup.params(t))?;
    }
    Ok(tasks)
}

fn copied(alloc: Global, setup: &Setup) -> Result<Setup, AllocError>
    ensures value { IfOk result (λ copy. copy ≡ setup.now) }
    ensures limits { IfOk result (λ copy. IsMachine copy) }
{
    let queues = copied_queues(alloc, setup)?;
    let tasks = copied_tasks(alloc, setup)?;
    let Ok(copy) = Setup::new(queues, tasks) else {
        unreachable!()
    };
    Ok(copy)
}

/// The words of tasks that are all away, with a full budget each.
fn opening_words(alloc: Global, setup: &Setup) -> Result<Vec<u64>, AllocError>
    ensures { IfOk result
        (λ words. AreOpeningWords setup.now (length setup.now.tasks) words.items) }
{
    let mut words = Vec::new(alloc);
    let count = setup.queue_count() as usize + setup.task_count() as usize;
    words.resize(SPACING * count, 0)?;
    for t in 0..setup.task_count() {
        let params = setup.params(t);
        words[server_word_at(setup, t)] = pack_server(Server::fresh(params));
        words[params_word_at(setup, t)] = pack_params(params);
    }
    Ok(words)
}

/// The passes are cut off one seat, which has all shares.
fn dealt(
    alloc: Global,
    shared: &Shared,
    mut seat: Seat<Note, Trail>,
) -> Result<Vec<Pass>, AllocError>
    requires of { seat.table_id ≡ shared.now.table.inner.shared.table_id }
    requires whole { seat.me ≡ (first_trail (terms shared.now), []) }
    ensures count { IfOk result (λ passes. length passes.items ≡ (terms shared.now).passes) }
    ensures new { IfOk result (λ passes. AreNew shared.now passes.items) }
{
    let mut passes = Vec::new(alloc);
    for number in 0..shared.terms.passes {
        let one = shared.table.split_seat(&mut seat);
        let seated = Seated { seat: one, number };
        passes.push(Pass { seated })?;
    }
    Ok(passes)
}

fn made(alloc: Global, setup: &Setup, n: u32) -> Result<(Shared, Vec<Pass>), AllocError>
    requires { 0 < n }
    ensures { IfOk result (λ r. IsOpened r.0 r.1.items setup.now n) }
{
    let terms = Terms {
        setup: copied(alloc, setup)?,
        passes: n,
    };
    let words = opening_words(alloc, &terms.setup)?;
    let (table, seat) = CountedTable::of_words(alloc, words.as_slice(), &terms)?;
    let shared = Shared { table, terms };
    let passes = dealt(alloc, &shared, seat)?;
    Ok((shared, passes))
}

impl Shared {
    /// A table of the setup's runqueues and tasks, each task away with a full budget, and `n` passes, numbered from 0.
    /// `NoPass` (23) is answered for `n = 0`, `TooManyPasses` (24) for more than `PASSES_MAX`, and `NoMemory` (25) is meant for a growth that was refused, which no clause tells.
    pub fn open(alloc: Global, setup: &Setup, n: u32) -> Result<(Shared, Vec<Pass>), OpenFault>
        ensures opened { IfOk result (λ r. IsOpened r.0 r.1.items setup.now n) }
        ensures none { IsErrOf result OpenFault.NoPass ↔ (n ≡ 0) }
        ensures many { IsErrOf result OpenFault.TooManyPasses ↔ (PASSES_MAX < n) }
    {
        if n == 0 {
            return Err(OpenFault::NoPass);
        }
        if n > PASSES_MAX {
            return Err(OpenFault::TooManyPasses);
        }
        made(alloc, setup, n).map_err(|_| OpenFault::NoMemory)
    }

    /// Whether there is a task of this number.
    pub fn has_task(&self, t: u32) -> bool
        ensures { IsTrue result ↔ (t < length (terms self.now).setup.tasks) }
    {
        self.terms.setup.has_task(t)
    }

    /// Whether there is a runqueue of this number.
    pub fn has_queue(&self, r: u32) -> bool
        ensures { IsTrue result ↔ (r < length (terms self.now).setup.queues) }
    {
        self.terms.setup.has_queue(r)
    }

    /// Whether the op's runqueue is there, and its numbers are within the limits.
    pub fn fits(&self, op: &Op) -> bool
        ensures { IsTrue result ↔ IsOp (terms self.now).setup op.now }
    {
        op.fits(&self.terms.setup)
    }
}
