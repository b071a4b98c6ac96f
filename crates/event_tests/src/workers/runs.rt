//! Two files, with workers held so that every run is the same.
ghost use Rattle.std.specs.Prelude.{◌≤◌};

use super::files::writes;
use super::gates::{Hold, Holds};
use grub_workers::Attempts;
use std::alloc::Global;
use std::sync::Wait;
use std::thread::Threads;

fn hold(worker: u32, before: u64, other: u32, after: u64) -> Option<Hold> {
    Some(Hold {
        worker,
        before,
        other,
        after,
    })
}

const JOIN_A: &[u8] = b"task A 4 8\nat 0 join A\n";

const JOIN_B: &[u8] = b"task B 4 8\nat 0 join B\n";

const BOTH_JOIN: &[u8] =
    b"runqueue 0\nat 0 join A: joined q=4 d=8\nclose running=524288 this=524288\nrunqueue 1\nat 0 join B: joined q=4 d=8\nclose running=524288 this=524288\n";

/// Whether a run of two files, one try and so many rounds, with workers held so, has this text, and no hold was missed.
fn writes_held<R: Threads + Wait>(
    rt: &R,
    alloc: Global,
    files: &[&[u8]],
    rounds: u16,
    holds: [Option<Hold>; 4],
    text: &[u8],
) -> bool
    requires { 1 ≤ rounds }
{
    let attempts = Attempts { tries: 1, rounds };
    let gate = Holds::new(holds);
    writes(rt, alloc, files, attempts, &gate, text) && gate.missed() == 0
}

/// Whether both tasks join where one worker is held before its first call.
fn both_join<R: Threads + Wait>(rt: &R, alloc: Global, held: u32, other: u32) -> bool {
    let holds = [hold(held, 1, other, 2), None, None, None];
    writes_held(rt, alloc, &[JOIN_A, JOIN_B], 1, holds, BOTH_JOIN)
}

#[test]
fn two_workers_at_once(rt: HostRuntime) {
    assert!(rt; both_join(&rt, rt.alloc(), 0, 1));
    assert!(rt; both_join(&rt, rt.alloc(), 1, 0));
}

/// Whether both tasks join where one worker is held while it has a claim.
fn both_join_beside_a_claim<R: Threads + Wait>(
    rt: &R,
    alloc: Global,
    held: u32,
    other: u32,
) -> bool {
    let holds = [hold(held, 2, other, 2), hold(other, 1, held, 1), None, None];
    writes_held(rt, alloc, &[JOIN_A, JOIN_B], 1, holds, BOTH_JOIN)
}

#[test]
fn a_claim_blocks_no_other_task(rt: HostRuntime) {
    assert!(rt; both_join_beside_a_claim(&rt, rt.alloc(), 0, 1));
    assert!(rt; both_join_beside_a_claim(&rt, rt.alloc(), 1, 0));
}

const SHARED: [&[u8]; 2] = [
    b"task T 4 8\nat 0 join T\nat 0 run T 2\nat 2 block T\nat 9 read\n",
    b"at 3 wake T\nat 3 read\n",
];

const SHARED_REPORTS: &[u8] =
    b"runqueue 0\nat 0 join T: joined q=4 d=8\nat 0 run T 2: charged dq=2 k=0 q=2 d=8\nat 2 block T: waiting ticket=1 z=4\nat 4 timer T 1: stale\nat 9 read: running=0 this=0\nclose running=0 this=0\nrunqueue 1\nat 3 wake T: elsewhere 0\nat 3 leave T: left 0\nat 3 join T: joined q=2 d=8\nat 3 read: running=524288 this=524288\nclose running=524288 this=524288\n";

#[test]
fn two_files_share_a_task(rt: HostRuntime) {
    let holds = [hold(1, 1, 0, 6), hold(0, 7, 1, 6), None, None];
    assert!(rt; writes_held(&rt, rt.alloc(), &SHARED, 1, holds, SHARED_REPORTS));
}

const BUSY: [&[u8]; 2] = [b"task T 4 8\nat 0 join T\n", b"at 0 wake T\nat 0 read\n"];

const BUSY_REPORTS: &[u8] =
    b"runqueue 0\nat 0 join T: joined q=4 d=8\nclose running=524288 this=524288\nrunqueue 1\nat 0 wake T: busy\nat 0 read: running=0 this=0\nclose running=0 this=0\n";

#[test]
fn a_task_is_busy(rt: HostRuntime) {
    let holds = [hold(1, 1, 0, 1), hold(0, 2, 1, 3), None, None];
    assert!(rt; writes_held(&rt, rt.alloc(), &BUSY, 2, holds, BUSY_REPORTS));
}

const GIVEN_UP: [&[u8]; 2] = [
    b"task T 4 8\nat 0 join T\nat 0 run T 2\nat 2 block T\nat 5 read\nat 9 read\n",
    b"at 3 wake T\n",
];

const GIVEN_UP_REPORTS: &[u8] =
    b"runqueue 0\nat 0 join T: joined q=4 d=8\nat 0 run T 2: charged dq=2 k=0 q=2 d=8\nat 2 block T: waiting ticket=1 z=4\nat 4 timer T 1: busy\nat 5 read: running=524288 this=524288\nat 9 read: running=0 this=0\nclose running=0 this=0\nrunqueue 1\nat 3 wake T: elsewhere 0\nat 3 leave T: left 0\nat 3 join T: joined q=2 d=8\nclose running=524288 this=524288\n";

#[test]
fn a_timer_is_given_up(rt: HostRuntime) {
    let holds = [
        hold(1, 1, 0, 6),
        hold(0, 7, 1, 2),
        hold(1, 3, 0, 8),
        hold(0, 9, 1, 5),
    ];
    assert!(rt; writes_held(&rt, rt.alloc(), &GIVEN_UP, 1, holds, GIVEN_UP_REPORTS));
}
