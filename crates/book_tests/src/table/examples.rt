//! The worked examples.
ghost use Rattle.grub_table.specs.Calls.{IsPassOf, IsClaimOf};

use crate::table::fixtures::{
    A, B, Got, ask, ask_all, close_both, expect, keep, look, make, one_pass, refuse_one, setup_of,
    take, tells, two_passes,
};
use grub_book::{Op, Reading, Reply, Setup};
use grub_table::{Claim, CloseWhy, OpenFault, Pass, Shared, Sighting};
use std::alloc::Global;
use std::fmt;
use std::process::Abort;

fn join(r: u32, m: u32, q: u32, d: u32) -> (Op, Reply) {
    (Op::Join { r, m }, Reply::Joined { q, d })
}

fn wake(m: u32, q: u32, d: u32) -> (Op, Reply) {
    (Op::Wake { r: 0, m }, Reply::Woken { q, d })
}

fn block(m: u32, reply: Reply) -> (Op, Reply) {
    (Op::Block { r: 0, m }, reply)
}

fn waits(m: u32, ticket: u32, z: u32) -> (Op, Reply) {
    block(m, Reply::Waiting { ticket, z })
}

fn timer(ticket: u32, m: u32, reply: Reply) -> (Op, Reply) {
    (Op::Timer { ticket, m }, reply)
}

fn charge(dt: u32, q: u32, d: u32) -> (Op, Reply) {
    let dq = u64::from(dt);
    (Op::Charge { r: 0, dt }, Reply::Charged { dq, k: 0, q, d })
}

fn retune(q: u32, p: u32, reply: Reply) -> (Op, Reply) {
    (Op::Retune { q, p }, reply)
}

#[test]
fn claim_on_one_task(rt: HostRuntime) {
    let (shared, first, second) = two_passes(&rt, rt.alloc(), 1);
    let asked = [join(0, 0, 4, 8), block(0, Reply::Asleep)];
    let first = ask_all(&rt, &shared, first, A, &asked);
    let wakes = Op::Wake { r: 0, m: 3 };
    let claim = take(&rt, &shared, first, A, wakes);
    let claimed = Got::Busy(Sighting::Claimed { word: 11 });
    let asked = ask(&rt, &shared, second, A, wakes, 1);
    let second = expect(&rt, asked, claimed);
    let mut second = ask_all(&rt, &shared, second, B, &[join(0, 3, 4, 11)]);
    let _ = make(&rt, &shared, claim, 1, Reply::Woken { q: 4, d: 11 });
    look(&rt, &shared, &mut second, 0, 1048576, 1048576);
}

/// A claim that is kept where no try is allowed, reads the runqueue at rest, and is cancelled.
fn keep_and_cancel(rt: &impl Abort, shared: &Shared, claim: Claim) -> Pass
    requires { IsClaimOf shared.now claim }
    ensures { IsPassOf shared.now result }
{
    let mut claim = keep(rt, shared, claim);
    assert!(rt; shared.has_queue(0));
    let rest = Reading {
        running: 0,
        this: 0,
    };
    assert_eq!(rt; shared.read_held(&mut claim, 0), rest);
    shared.cancel(claim)
}

/// A call of the task A that takes its task and is made in so many tries.
fn take_and_make(
    rt: &impl Abort,
    shared: &Shared,
    pass: Pass,
    tries: u8,
    asked: (Op, Reply),
) -> Pass
    requires { IsPassOf shared.now pass }
    ensures { IsPassOf shared.now result }
{
    let (op, reply) = asked;
    let claim = take(rt, shared, pass, A, op);
    make(rt, shared, claim, tries, reply)
}

#[test]
fn no_tries(rt: HostRuntime) {
    let (shared, pass) = one_pass(&rt, rt.alloc());
    let claim = take(&rt, &shared, pass, A, Op::Join { r: 0, m: 0 });
    let mut pass = keep_and_cancel(&rt, &shared, claim);
    look(&rt, &shared, &mut pass, 0, 0, 0);
    let pass = take_and_make(&rt, &shared, pass, 1, join(0, 0, 4, 8));
    let pass = take_and_make(&rt, &shared, pass, 0, charge(2, 2, 8));
    let _ = take_and_make(&rt, &shared, pass, 0, waits(2, 1, 4));
}

#[test]
fn own_reading(rt: HostRuntime) {
    let (shared, pass) = one_pass(&rt, rt.alloc());
    let mut pass = ask_all(&rt, &shared, pass, A, &[join(0, 0, 4, 8)]);
    look(&rt, &shared, &mut pass, 0, 524288, 524288);
}

#[test]
fn migration(rt: HostRuntime) {
    let (shared, first, second) = two_passes(&rt, rt.alloc(), 2);
    let asked = [join(0, 0, 4, 8), charge(2, 2, 8), waits(2, 1, 4)];
    let first = ask_all(&rt, &shared, first, A, &asked);
    let moves = [
        (Op::Wake { r: 1, m: 3 }, Reply::Elsewhere(0)),
        (Op::Leave, Reply::Left { r: 0 }),
        join(1, 3, 2, 8),
    ];
    let mut second = ask_all(&rt, &shared, second, A, &moves);
    look(&rt, &shared, &mut second, 0, 0, 0);
    look(&rt, &shared, &mut second, 1, 524288, 524288);
    let _ = ask_all(&rt, &shared, first, A, &[timer(1, 4, Reply::Stale)]);
}

/// Whether a table with so many passes is opened, or refused for this reason.
fn opens(alloc: Global, setup: &Setup, passes: u32, fault: Option<OpenFault>) -> bool {
    Shared::open(alloc, setup, passes).err() == fault
}

#[test]
fn open_refuses(rt: HostRuntime) {
    let Some(setup) = setup_of(rt.alloc(), 1, 2) else {
        panic!(rt; "no setup")
    };
    assert!(rt; opens(rt.alloc(), &setup, 0, Some(OpenFault::NoPass)));
    assert!(rt; opens(rt.alloc(), &setup, 65, Some(OpenFault::TooManyPasses)));
    assert!(rt; opens(rt.alloc(), &setup, 64, None));
}

fn expect_text<F: fmt::Display>(rt: &impl Abort, alloc: Global, fault: &F, text: &str) {
    assert!(rt; tells(alloc, fault, text), "{text}");
}

#[test]
fn fault_texts(rt: HostRuntime) {
    let alloc = rt.alloc();
    expect_text(&rt, alloc, &OpenFault::NoPass, "23 NoPass");
    expect_text(&rt, alloc, &OpenFault::TooManyPasses, "24 TooManyPasses");
    expect_text(&rt, alloc, &OpenFault::NoMemory, "25 NoMemory");
    expect_text(&rt, alloc, &CloseWhy::Missing(64), "26 Missing(64)");
    expect_text(&rt, alloc, &CloseWhy::NoMemory, "42 NoMemory");
}

/// Closes with both passes, after which the runqueue is as at the beginning.
fn close_at_rest(rt: &impl Abort, alloc: Global, shared: Shared, one: Pass, other: Pass)
    requires one { IsPassOf shared one }
    requires other { IsPassOf shared other }
{
    let rest = Reading {
        running: 0,
        this: 0,
    };
    assert_eq!(rt; close_both(rt, alloc, shared, one, other), rest);
}

#[test]
fn open_meet_close(rt: HostRuntime) {
    let (shared, first, second) = two_passes(&rt, rt.alloc(), 1);
    let (mut first, second) = shared.meet(first, second);
    assert!(rt; first.number() == 0 && second.number() == 1);
    look(&rt, &shared, &mut first, 0, 0, 0);
    let (shared, first) = refuse_one(&rt, rt.alloc(), shared, first, 0);
    close_at_rest(&rt, rt.alloc(), shared, first, second);
}

#[test]
fn close_with_a_claim_out(rt: HostRuntime) {
    let (shared, first, second) = two_passes(&rt, rt.alloc(), 1);
    let claim = take(&rt, &shared, first, A, Op::Join { r: 0, m: 0 });
    let (shared, second) = refuse_one(&rt, rt.alloc(), shared, second, 1);
    let first = shared.cancel(claim);
    close_at_rest(&rt, rt.alloc(), shared, second, first);
}

#[test]
fn tickets(rt: HostRuntime) {
    let (shared, pass) = one_pass(&rt, rt.alloc());
    let asked = [
        join(0, 0, 4, 8),
        charge(2, 2, 8),
        waits(2, 1, 4),
        wake(3, 2, 8),
        charge(1, 1, 8),
        waits(4, 2, 6),
        timer(1, 4, Reply::Stale),
        timer(2, 5, Reply::Early(6)),
        timer(2, 6, Reply::Retired),
        timer(2, 6, Reply::Stale),
    ];
    let _ = ask_all(&rt, &shared, pass, A, &asked);
}

#[test]
fn retunes(rt: HostRuntime) {
    let (shared, pass) = one_pass(&rt, rt.alloc());
    let done = Reply::Retuned;
    let mut pass = ask_all(
        &rt,
        &shared,
        pass,
        A,
        &[retune(2, 8, done), join(0, 0, 2, 8)],
    );
    look(&rt, &shared, &mut pass, 0, 262144, 262144);
    let asked = [
        retune(4, 8, Reply::StillActive),
        block(0, Reply::Asleep),
        retune(8, 8, done),
    ];
    let mut pass = ask_all(&rt, &shared, pass, A, &asked);
    look(&rt, &shared, &mut pass, 0, 0, 1048576);
    let pass = ask_all(
        &rt,
        &shared,
        pass,
        B,
        &[(Op::Join { r: 0, m: 0 }, Reply::Full)],
    );
    let pass = ask_all(&rt, &shared, pass, A, &[retune(4, 8, done)]);
    let pass = ask_all(&rt, &shared, pass, B, &[join(0, 0, 4, 8)]);
    let mut pass = ask_all(
        &rt,
        &shared,
        pass,
        A,
        &[retune(5, 8, Reply::Full), wake(3, 4, 11)],
    );
    look(&rt, &shared, &mut pass, 0, 1048576, 1048576);
    let asked = [
        block(0, Reply::Asleep),
        (Op::Exit, Reply::Ended),
        retune(1, 1, Reply::Gone),
    ];
    let _ = ask_all(&rt, &shared, pass, B, &asked);
}

#[test]
fn retunes_and_tries(rt: HostRuntime) {
    let (shared, pass) = one_pass(&rt, rt.alloc());
    let asked = ask(&rt, &shared, pass, B, Op::Retune { q: 2, p: 8 }, 0);
    let pass = expect(&rt, asked, Got::Replied(Reply::Retuned));
    let asked = [join(0, 0, 4, 8), block(0, Reply::Asleep)];
    let mut pass = ask_all(&rt, &shared, pass, A, &asked);
    look(&rt, &shared, &mut pass, 0, 0, 524288);
    let claim = take(&rt, &shared, pass, A, Op::Retune { q: 8, p: 16 });
    let claim = keep(&rt, &shared, claim);
    let mut pass = make(&rt, &shared, claim, 1, Reply::Retuned);
    look(&rt, &shared, &mut pass, 0, 0, 524288);
}
