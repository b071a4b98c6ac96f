//! The shared table from outside, proved from its public contracts alone: two passes, of which one goes to a thread of its
//! own, put a task each on one runqueue, and meet; and one pass alone, for which the table is the book of one thread.
#![tactic(auto)]

ghost use Rattle.std.specs.Prelude.{◌≡◌, ◌<◌, ◌≤◌, ◌⊎◌, [], ◌∷◌, length, IfOk, MatchOption};
ghost use Rattle.grub_book.specs.History.{pass_of};
ghost use Rattle.grub_book.specs.Machine.{queue_at};
ghost use Rattle.grub_book.specs.Op.{IsOp};
ghost use Rattle.grub_book.specs.Step.{step};
ghost use Rattle.grub_book.specs.Sums.{opening_book, reading_of};
ghost use Rattle.grub_book.specs.declared.event.Event.TheVariants.{Call};
ghost use Rattle.grub_table.specs.Calls.{number_of, seen, terms, IsBehind, IsPassOf};
ghost use Rattle.grub_table.specs.Knowing.{GoesOn};

use anyhow::{Context, Result};
use grub_book::{Op, Params, Queue, Reading, Reply, Setup};
use grub_table::{Finished, Pass, Shared, Started, closing_readings_are_sound, one_pass_makes_all};
use std::alloc::Global;
use std::sync::Wait;
use std::thread;
use std::thread::{Promise, Threads};

/// How often a claim tries to change the runqueue's sums before it is given up.
const TRIES: u8 = 8;

const JOIN: Op = Op::Join { r: 0, m: 0 };

/// One call, with its reply, is all that is new of the pass in the history. Where there is no reply nothing is: the task
/// was busy, or each try was lost.
fn ask(shared: &Shared, pass: Pass, t: u32, op: Op) -> (Pass, Option<Reply>)
    requires of { IsPassOf shared.now pass }
    requires task { t < length (terms shared.now).setup.tasks }
    requires op { IsOp (terms shared.now).setup op }
    ensures of { IsPassOf shared.now result.0 }
    ensures made { let goes_on = GoesOn pass_of (number_of pass) (seen pass) (seen result.0) in
        MatchOption result.1 (goes_on [])
        (λ reply. goes_on (Call (number_of pass) t op reply ∷ [])) }
{
    match shared.start(pass, t, op) {
        Started::Answered(pass, reply) => (pass, Some(reply)),
        Started::Busy(pass, _) => (pass, None),
        Started::Held(claim) => match shared.finish(claim, TRIES) {
            Finished::Done(pass, reply) => (pass, Some(reply)),
            Finished::Held(claim) => (shared.cancel(claim), None),
        },
    }
}

/// A pass of this table comes back from a thread.
#[derive(Drop)]
struct OfTable<'a> {
    shared: &'a Shared,
}

impl<'a> Promise<Pass> for OfTable<'a> {
    ghost kept_by = { λ promise pass. IsPassOf promise.shared.now pass };
}

/// Two passes make a call at once, one of them in a thread of its own, and meet. Then one has seen all that the other has.
fn join_and_meet<R: Threads + Wait>(
    rt: &R,
    shared: &Shared,
    near: Pass,
    far: Pass,
) -> Result<(Pass, Pass)>
    requires near { IsPassOf shared.now near }
    requires far { IsPassOf shared.now far }
    requires tasks { 1 < length (terms shared.now).setup.tasks }
    ensures of { IfOk result
        (λ passes. IsPassOf shared.now passes.0 × IsPassOf shared.now passes.1) }
    ensures met { IfOk result (λ passes. IsBehind pass_of seen passes.0 passes.1
        ⊎ IsBehind pass_of seen passes.1 passes.0) }
{
    let (near, far) = thread::scope(
        thread::scope_env(),
        rt,
        |scope| -> Result<(Pass, Pass)>
            requires { IsPassOf shared.now near × IsPassOf shared.now far
                × (1 < length (terms shared.now).setup.tasks) }
            ensures { IfOk result (λ passes. IsPassOf shared.entry.now passes.0
                × IsPassOf shared.entry.now passes.1) }
        {
            let far = scope.spawn_with(
                OfTable { shared },
                move || -> Pass
                    requires { IsPassOf shared.now far
                        × (1 < length (terms shared.now).setup.tasks) }
                    ensures { IsPassOf shared.entry.now result }
                { ask(shared, far, 1, JOIN).0 },
            )?;
            let (near, _) = ask(shared, near, 0, JOIN);
            Ok((near, far.join(rt)))
        },
    )?;
    Ok(shared.meet(near, far))
}

/// The closing reading of the first runqueue. Whatever the schedule was, it is within what the runqueue admits.
fn together<R: Threads + Wait>(rt: &R, alloc: Global, setup: &Setup) -> Result<Reading>
    requires tasks { 1 < length setup.now.tasks }
    ensures sum { IfOk result (λ x. x.running ≤ x.this) }
    ensures most { IfOk result (λ x. x.this ≤ (queue_at setup.now 0).most) }
{
    closing_readings_are_sound();
    let (shared, mut passes) = Shared::open(alloc, setup, 2)?;
    let (near, far) = (passes.remove(0), passes.remove(0));
    let (near, far) = join_and_meet(rt, &shared, near, far)?;
    let passes = vec![in alloc; near, far]?;
    let readings = shared.close(alloc, passes).map_err(|fault| fault.why)?;
    Ok(readings[0])
}

/// With one pass the table is the book of one thread: the reply and the closing reading are those of one step of it.
fn alone(alloc: Global, setup: &Setup, t: u32, op: Op) -> Result<(Reply, Reading)>
    requires task { t < length setup.now.tasks }
    requires op { IsOp setup.now op }
    ensures { IfOk result (λ told. let after = step setup.now (opening_book setup.now) t op in
        (told.0 ≡ after.1) × (told.1 ≡ reading_of after.0 0)) }
{
    one_pass_makes_all();
    let (shared, mut passes) = Shared::open(alloc, setup, 1)?;
    let (pass, reply) = ask(&shared, passes.remove(0), t, op);
    let reply = reply.context("the call was not made")?;
    let passes = vec![in alloc; pass]?;
    let readings = shared.close(alloc, passes).map_err(|fault| fault.why)?;
    Ok((reply, readings[0]))
}

fn main(rt: HostRuntime) -> Result<()> {
    let alloc = rt.alloc();
    let (whole, half) = (Queue::new(1048576, 0)?, Params::new(4, 8)?);
    let setup = Setup::new(vec![in alloc; whole]?, vec![in alloc; half, half]?)?;
    let (reply, reading) = alone(alloc, &setup, 0, JOIN)?;
    println!(rt; "alone: {reply:?}, {reading:?}")?;
    let reading = together(&rt, alloc, &setup)?;
    println!(rt; "together: {reading:?}")?;
    Ok(())
}
