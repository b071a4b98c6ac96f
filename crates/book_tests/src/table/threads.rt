//! Two threads over one table.
ghost use Rattle.std.specs.Prelude.{◌<◌};
ghost use Rattle.grub_table.specs.Calls.{IsPassOf};

use crate::table::fixtures::{A, B, Got, ask, close_both, two_passes};
use grub_book::{Op, Reading, Reply};
use grub_table::{Pass, Shared, Sighting, unpack_task};
use std::process::Abort;
use std::sync::Wait;
use std::thread;
use std::thread::{Promise, Threads};

const ATTEMPTS: u32 = 10000;

/// The task's reservation is half of the runqueue.
const HALF: u32 = 524288;

/// Where a worker's task stands in the cycle of joining, blocking and leaving.
#[derive(Clone, Copy, PartialEq, Eq, Debug)]
enum Turn {
    Joins,
    Blocks,
    Leaves,
}

impl Turn {
    fn op(self) -> Op {
        match self {
            Turn::Joins => Op::Join { r: 0, m: 0 },
            Turn::Blocks => Op::Block { r: 0, m: 0 },
            Turn::Leaves => Op::Leave,
        }
    }

    fn reply(self) -> Reply {
        match self {
            Turn::Joins => Reply::Joined { q: 4, d: 8 },
            Turn::Blocks => Reply::Asleep,
            Turn::Leaves => Reply::Left { r: 0 },
        }
    }

    fn next(self) -> Turn {
        match self {
            Turn::Joins => Turn::Blocks,
            Turn::Blocks => Turn::Leaves,
            Turn::Leaves => Turn::Joins,
        }
    }
}

/// A pass at the end of its attempts, and the turn that would come next.
#[derive(Drop)]
struct Ran {
    pass: Pass,
    turn: Turn,
}

/// Attempts on a task that nobody else has.
fn run_alone(rt: &impl Abort, shared: &Shared, mut pass: Pass, t: u32) -> Ran
    requires { IsPassOf shared.now pass }
    ensures { IsPassOf shared.now result.pass }
{
    let mut turn = Turn::Joins;
    for _ in 0..ATTEMPTS {
        let (back, got) = ask(rt, shared, pass, t, turn.op(), 1);
        if got != Got::Lost {
            assert_eq!(rt; got, Got::Replied(turn.reply()));
            turn = turn.next();
        }
        pass = back;
    }
    Ran { pass, turn }
}

/// What a sighting of another pass's task shows.
fn see(rt: &impl Abort, sighting: Sighting) {
    match sighting {
        Sighting::Claimed { word } => {
            let claimed = unpack_task(word).is_some_and(|w| w.claimed);
            assert!(rt; claimed);
        }
        Sighting::Changed { loaded, found } => {
            let free = unpack_task(loaded).is_some_and(|w| !w.claimed);
            assert!(rt; free && loaded != found);
        }
    }
}

/// Attempts on a task that another worker has too: the cycle goes on after any reply.
fn run_beside(rt: &impl Abort, shared: &Shared, mut pass: Pass, t: u32) -> Ran
    requires { IsPassOf shared.now pass }
    ensures { IsPassOf shared.now result.pass }
{
    let mut turn = Turn::Joins;
    for _ in 0..ATTEMPTS {
        let (back, got) = ask(rt, shared, pass, t, turn.op(), 1);
        match got {
            Got::Replied(_) => turn = turn.next(),
            Got::Busy(sighting) => see(rt, sighting),
            Got::Lost => {}
        }
        pass = back;
    }
    Ran { pass, turn }
}

/// That a worker's pass is of this table.
#[derive(Drop)]
struct OfTable<'a> {
    shared: &'a Shared,
}

impl<'a> Promise<Ran> for OfTable<'a> {
    ghost kept_by = { λ p ran. IsPassOf p.shared.now ran.pass };
}

/// The attempts of one worker, on a task that the other worker has too or has not.
fn run(rt: &impl Abort, shared: &Shared, pass: Pass, t: u32, beside: bool) -> Ran
    requires { IsPassOf shared.now pass }
    ensures { IsPassOf shared.now result.pass }
{
    if beside {
        run_beside(rt, shared, pass, t)
    } else {
        run_alone(rt, shared, pass, t)
    }
}

/// Two scoped threads: the first has the task A, and the second this one.
fn run_both<R: Threads + Wait + Abort + Sync>(
    rt: &R,
    shared: &Shared,
    first: Pass,
    second: Pass,
    t: u32,
) -> (Ran, Ran)
    requires first { IsPassOf shared.now first }
    requires second { IsPassOf shared.now second }
    ensures first { IsPassOf shared.now result.0.pass }
    ensures second { IsPassOf shared.now result.1.pass }
{
    thread::scope(
        thread::scope_env(),
        rt,
        |scope| -> (Ran, Ran)
            requires { IsPassOf shared.now first × IsPassOf shared.now second }
            ensures { IsPassOf shared.entry.now result.0.pass
                × IsPassOf shared.entry.now result.1.pass }
        {
            let one = scope
                .spawn_with(
                    OfTable { shared },
                    move || -> Ran
                        requires { IsPassOf shared.now first }
                        ensures { IsPassOf shared.entry.now result.pass }
                    { run(rt, shared, first, A, t == A) },
                )
                .expect(rt, "the first thread");
            let other = scope
                .spawn_with(
                    OfTable { shared },
                    move || -> Ran
                        requires { IsPassOf shared.now second }
                        ensures { IsPassOf shared.entry.now result.pass }
                    { run(rt, shared, second, t, t == A) },
                )
                .expect(rt, "the second thread");
            (one.join(rt), other.join(rt))
        },
    )
}

/// Whether a task counts in `running` where it has joined, and in `this` until it has left.
fn adds_up(reading: Reading, one: Turn, other: Turn) -> bool {
    let half = u64::from(HALF);
    let running = u64::from(one == Turn::Blocks) + u64::from(other == Turn::Blocks);
    let asleep = u64::from(one == Turn::Leaves) + u64::from(other == Turn::Leaves);
    u64::from(reading.running) == half * running
        && u64::from(reading.this) == half * (running + asleep)
}

#[test]
fn two_threads_two_tasks(rt: HostRuntime) {
    let (shared, first, second) = two_passes(&rt, rt.alloc(), 1);
    let (one, other) = run_both(&rt, &shared, first, second, B);
    let reading = close_both(&rt, rt.alloc(), shared, one.pass, other.pass);
    assert!(rt; adds_up(reading, one.turn, other.turn), "{reading:?}");
}

#[test]
fn two_threads_one_task(rt: HostRuntime) {
    let (shared, first, second) = two_passes(&rt, rt.alloc(), 1);
    let (one, other) = run_both(&rt, &shared, first, second, A);
    let Reading { running, this } = close_both(&rt, rt.alloc(), shared, one.pass, other.pass);
    assert!(rt; (running == 0 && (this == 0 || this == HALF)) || (running == HALF && this == HALF));
}
