//! Memory that is refused.
ghost use Rattle.std.specs.Prelude.{IfOk};
ghost use Rattle.grub_table.specs.Calls.{IsPassOf};
ghost use Rattle.std.specs.List.{All};

use crate::table::fixtures::{A, ask_all, closed, last_pass, look, put_last, setup_of};
use grub_book::{Op, Reading, Reply, Setup};
use grub_table::{CloseWhy, OpenFault, Pass, Shared};
use std::alloc::Global;
use std::process::Abort;

/// So many runqueues, tasks and passes: each list of them grows twice.
const MANY: u32 = 5;

/// The bandwidth of a task, which is half of a runqueue.
const HALF: u32 = 524288;

/// A setup, which is made a second time where memory was refused once.
fn setup_twice(rt: &impl Abort, alloc: Global) -> Setup {
    let setup = setup_of(alloc, MANY, MANY).or_else(|| setup_of(alloc, MANY, MANY));
    let Some(setup) = setup else {
        panic!(rt; "no setup")
    };
    setup
}

fn open_many(alloc: Global, setup: &Setup) -> Result<(Shared, Vec<Pass>), OpenFault>
    ensures { IfOk result (λ r. All (IsPassOf r.0) r.1.items) }
{
    Shared::open(alloc, setup, MANY)
}

/// Opens a table. Where that is refused, a second one is opened.
fn open_twice(rt: &impl Abort, alloc: Global, setup: &Setup) -> (Shared, Vec<Pass>)
    ensures { All (IsPassOf result.0) result.1.items }
{
    match open_many(alloc, setup) {
        Ok(opened) => opened,
        Err(fault) => {
            assert_eq!(rt; fault, OpenFault::NoMemory);
            let Ok(opened) = open_many(alloc, setup) else {
                panic!(rt; "refused twice")
            };
            opened
        }
    }
}

/// The last pass puts a task on the first runqueue.
fn join_one(rt: &impl Abort, shared: &Shared, passes: &mut Vec<Pass>)
    requires { All (IsPassOf shared.now) passes.old.items }
    ensures { All (IsPassOf shared.now) passes.new.items }
{
    let pass = last_pass(rt, shared, passes);
    let asked = [(Op::Join { r: 0, m: 0 }, Reply::Joined { q: 4, d: 8 })];
    let pass = ask_all(rt, shared, pass, A, &asked);
    put_last(rt, shared, passes, pass);
}

/// The pass is of this number, and reads as before the refusal.
fn look_with(rt: &impl Abort, shared: &Shared, pass: &mut Pass, number: usize)
    requires { IsPassOf shared.now pass.old }
    ensures { IsPassOf shared.now pass.new }
{
    assert!(rt; pass.number() as usize == number);
    look(rt, shared, pass, 0, HALF, HALF);
}

/// All passes are there, in order, and read as before the refusal.
fn look_all(rt: &impl Abort, shared: &Shared, passes: &mut Vec<Pass>)
    requires { All (IsPassOf shared.now) passes.old.items }
    ensures { All (IsPassOf shared.now) passes.new.items }
{
    assert!(rt; passes.len() == MANY as usize);
    for i in 0..passes.len() {
        look_with(rt, shared, &mut passes[i], i);
    }
}

/// A second close, with the passes that a refused one gave back. They read as before, and it succeeds.
fn close_again(
    rt: &impl Abort,
    alloc: Global,
    shared: Shared,
    mut passes: Vec<Pass>,
) -> Vec<Reading>
    requires { All (IsPassOf shared) passes.items }
{
    look_all(rt, &shared, &mut passes);
    closed(rt, alloc, shared, passes)
}

/// Closes with all passes. Where that is refused, it closes again.
fn close_twice(rt: &impl Abort, alloc: Global, shared: Shared, passes: Vec<Pass>) -> Vec<Reading>
    requires { All (IsPassOf shared) passes.items }
{
    match shared.close(alloc, passes) {
        Ok(readings) => readings,
        Err(fault) => {
            assert_eq!(rt; fault.why, CloseWhy::NoMemory);
            close_again(rt, alloc, fault.shared, fault.passes)
        }
    }
}

/// Passes under `rt try --test --fail-alloc N` for each N too: a refused growth of `open` or `close` is answered as such,
/// gives back all that there was, and the next call has its memory.
#[test]
fn refused_growths(rt: HostRuntime) {
    let setup = setup_twice(&rt, rt.alloc());
    let (shared, mut passes) = open_twice(&rt, rt.alloc(), &setup);
    join_one(&rt, &shared, &mut passes);
    let readings = close_twice(&rt, rt.alloc(), shared, passes);
    let first = Reading {
        running: HALF,
        this: HALF,
    };
    let other = Reading {
        running: 0,
        this: 0,
    };
    let expected = [first, other, other, other, other];
    assert!(rt; readings.as_slice() == expected.as_slice());
}
