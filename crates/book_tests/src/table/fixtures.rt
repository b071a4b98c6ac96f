//! Tables and calls for the tests.
ghost use Rattle.std.specs.Prelude.{◌≡◌, ◌<◌};
ghost use Rattle.std.specs.List.{All};
ghost use Rattle.grub_table.specs.Calls.{IsPassOf, IsClaimOf};

use grub_book::{Op, Params, Queue, Reading, Reply, Setup};
use grub_table::{Claim, CloseWhy, Finished, Pass, Shared, Sighting, Started};
use std::alloc::Global;
use std::fmt;
use std::process::Abort;

pub(crate) const A: u32 = 0;

pub(crate) const B: u32 = 1;

/// What became of a call.
#[derive(Clone, Copy, PartialEq, Eq, Debug)]
pub(crate) enum Got {
    Replied(Reply),
    Busy(Sighting),
    Lost,
}

/// Runqueues of a whole processor, and tasks of 4/8, where the allocator gives room for them.
pub(crate) fn setup_of(alloc: Global, queues: u32, tasks: u32) -> Option<Setup> {
    let queue = Queue::new(1048576, 0).ok()?;
    let task = Params::new(4, 8).ok()?;
    let queues = vec![in alloc; queue; queues as usize].ok()?;
    let tasks = vec![in alloc; task; tasks as usize].ok()?;
    Setup::new(queues, tasks).ok()
}

/// A table of so many runqueues and two tasks, with its passes.
fn opened(rt: &impl Abort, alloc: Global, queues: u32, passes: u32) -> (Shared, Vec<Pass>)
    ensures { All (IsPassOf result.0) result.1.items }
{
    let Some(setup) = setup_of(alloc, queues, 2) else {
        panic!(rt; "no setup")
    };
    let Ok(opened) = Shared::open(alloc, &setup, passes) else {
        panic!(rt; "not opened")
    };
    opened
}

/// The last pass, which leaves the others.
pub(crate) fn last_pass(rt: &impl Abort, shared: &Shared, passes: &mut Vec<Pass>) -> Pass
    requires { All (IsPassOf shared.now) passes.old.items }
    ensures pass { IsPassOf shared.now result }
    ensures others { All (IsPassOf shared.now) passes.new.items }
{
    let Some(pass) = passes.pop() else {
        panic!(rt; "no pass")
    };
    pass
}

/// The pass is put behind the others.
pub(crate) fn put_last(rt: &impl Abort, shared: &Shared, passes: &mut Vec<Pass>, pass: Pass)
    requires passes { All (IsPassOf shared.now) passes.old.items }
    requires pass { IsPassOf shared.now pass }
    ensures { All (IsPassOf shared.now) passes.new.items }
{
    let Ok(()) = passes.push(pass) else {
        panic!(rt; "no room for a pass")
    };
}

/// A table with one pass.
pub(crate) fn one_pass(rt: &impl Abort, alloc: Global) -> (Shared, Pass)
    ensures { IsPassOf result.0 result.1 }
{
    let (shared, mut passes) = opened(rt, alloc, 1, 1);
    let pass = last_pass(rt, &shared, &mut passes);
    (shared, pass)
}

/// A table with two passes.
pub(crate) fn two_passes(rt: &impl Abort, alloc: Global, queues: u32) -> (Shared, Pass, Pass)
    ensures first { IsPassOf result.0 result.1 }
    ensures second { IsPassOf result.0 result.2 }
{
    let (shared, mut passes) = opened(rt, alloc, queues, 2);
    let second = last_pass(rt, &shared, &mut passes);
    let first = last_pass(rt, &shared, &mut passes);
    assert!(rt; passes.is_empty() && first.number() == 0 && second.number() == 1);
    (shared, first, second)
}

/// One call: it is started and, where it took its task, finished in so many tries or cancelled.
pub(crate) fn ask(
    rt: &impl Abort,
    shared: &Shared,
    pass: Pass,
    t: u32,
    op: Op,
    tries: u8,
) -> (Pass, Got)
    requires { IsPassOf shared.now pass }
    ensures { IsPassOf shared.now result.0 }
{
    assert!(rt; shared.has_task(t) && shared.fits(&op));
    match shared.start(pass, t, op) {
        Started::Answered(pass, reply) => (pass, Got::Replied(reply)),
        Started::Busy(pass, sighting) => (pass, Got::Busy(sighting)),
        Started::Held(claim) => finished(shared, claim, tries),
    }
}

fn finished(shared: &Shared, claim: Claim, tries: u8) -> (Pass, Got)
    requires { IsClaimOf shared.now claim }
    ensures { IsPassOf shared.now result.0 }
{
    match shared.finish(claim, tries) {
        Finished::Done(pass, reply) => (pass, Got::Replied(reply)),
        Finished::Held(claim) => (shared.cancel(claim), Got::Lost),
    }
}

/// The pass of a call of which this became.
pub(crate) fn expect(rt: &impl Abort, asked: (Pass, Got), expected: Got) -> Pass
    ensures { result ≡ asked.0 }
{
    let (pass, got) = asked;
    assert_eq!(rt; got, expected);
    pass
}

/// Calls for one task, in order, with one try each.
pub(crate) fn ask_all(
    rt: &impl Abort,
    shared: &Shared,
    mut pass: Pass,
    t: u32,
    asked: &[(Op, Reply)],
) -> Pass
    requires { IsPassOf shared.now pass }
    ensures { IsPassOf shared.now result }
{
    for (op, reply) in asked {
        let asked = ask(rt, shared, pass, t, *op, 1);
        pass = expect(rt, asked, Got::Replied(*reply));
    }
    pass
}

pub(crate) fn look(
    rt: &impl Abort,
    shared: &Shared,
    pass: &mut Pass,
    r: u32,
    running: u32,
    this: u32,
)
    requires { IsPassOf shared.now pass.old }
    ensures { IsPassOf shared.now pass.new }
{
    assert!(rt; shared.has_queue(r));
    assert_eq!(rt; shared.read(pass, r), Reading { running, this });
}

/// Whether the claim is what such a call takes.
fn is_for(claim: &Claim, number: u32, t: u32, op: Op) -> bool {
    claim.number() == number && claim.task() == t && claim.op() == op
}

/// A call that takes its task.
pub(crate) fn take(rt: &impl Abort, shared: &Shared, pass: Pass, t: u32, op: Op) -> Claim
    requires { IsPassOf shared.now pass }
    ensures { IsClaimOf shared.now result }
{
    assert!(rt; shared.has_task(t) && shared.fits(&op));
    let number = pass.number();
    match shared.start(pass, t, op) {
        Started::Held(claim) => {
            assert!(rt; is_for(&claim, number, t, op));
            claim
        }
        Started::Answered(_, _) | Started::Busy(_, _) => panic!(rt; "not taken"),
    }
}

/// A claim whose call is made in so many tries.
pub(crate) fn make(rt: &impl Abort, shared: &Shared, claim: Claim, tries: u8, reply: Reply) -> Pass
    requires { IsClaimOf shared.now claim }
    ensures { IsPassOf shared.now result }
{
    let (pass, got) = finished(shared, claim, tries);
    assert_eq!(rt; got, Got::Replied(reply));
    pass
}

/// A claim that comes back where no try is allowed.
pub(crate) fn keep(rt: &impl Abort, shared: &Shared, claim: Claim) -> Claim
    requires { IsClaimOf shared.now claim }
    ensures { IsClaimOf shared.now result }
{
    match shared.finish(claim, 0) {
        Finished::Held(claim) => claim,
        Finished::Done(_, _) => panic!(rt; "made"),
    }
}

/// Whether this is the text of a fault.
pub(crate) fn tells<F: fmt::Display>(alloc: Global, fault: &F, text: &str) -> bool {
    format!(in alloc; "{fault}").is_ok_and(|told| told.as_str() == text)
}

/// A close with one pass of two, of this number, which is refused and gives all back.
pub(crate) fn refuse_one(
    rt: &impl Abort,
    alloc: Global,
    shared: Shared,
    pass: Pass,
    number: u32,
) -> (Shared, Pass)
    requires { IsPassOf shared pass }
    ensures shared { result.0 ≡ shared }
    ensures pass { IsPassOf shared result.1 }
{
    let mut passes = Vec::new(alloc);
    put_last(rt, &shared, &mut passes, pass);
    let Err(fault) = shared.close(alloc, passes) else {
        panic!(rt; "closed")
    };
    assert!(rt; fault.why == CloseWhy::Missing(1) && tells(alloc, &fault, "26 Missing(1)"));
    let shared = fault.shared;
    let mut passes = fault.passes;
    let pass = last_pass(rt, &shared, &mut passes);
    assert!(rt; passes.is_empty() && pass.number() == number);
    (shared, pass)
}

/// The readings at the end.
pub(crate) fn closed(
    rt: &impl Abort,
    alloc: Global,
    shared: Shared,
    passes: Vec<Pass>,
) -> Vec<Reading>
    requires { All (IsPassOf shared) passes.items }
{
    let Ok(readings) = shared.close(alloc, passes) else {
        panic!(rt; "not closed")
    };
    readings
}

/// The reading at the end of the only runqueue.
pub(crate) fn close_both(
    rt: &impl Abort,
    alloc: Global,
    shared: Shared,
    first: Pass,
    second: Pass,
) -> Reading
    requires first { IsPassOf shared first }
    requires second { IsPassOf shared second }
{
    let mut passes = Vec::new(alloc);
    put_last(rt, &shared, &mut passes, first);
    put_last(rt, &shared, &mut passes, second);
    let readings = closed(rt, alloc, shared, passes);
    assert!(rt; readings.len() == 1);
    readings[0]
}
