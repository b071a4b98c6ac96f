//! One file alone.
use super::files::writes;
use super::gates::Count;
use grub_workers::{Attempts, NoGate};
use std::alloc::Global;
use std::sync::Wait;
use std::thread::Threads;

pub const FIRST_FILE: &[u8] =
    b"task A 4 8\nat 0 join A\nat 0 block A\nat 0 read\nat 3 wake A\nat 3 read\n";

pub const FIRST_REPORT: &[u8] =
    b"runqueue 0\nat 0 join A: joined q=4 d=8\nat 0 block A: asleep\nat 0 read: running=0 this=524288\nat 3 wake A: woken q=4 d=11\nat 3 read: running=524288 this=524288\nclose running=524288 this=524288\n";

#[test]
fn the_first_file(rt: HostRuntime) {
    let attempts = Attempts {
        tries: 8,
        rounds: 64,
    };
    assert!(rt;
        writes(
            &rt,
            rt.alloc(),
            &[FIRST_FILE],
            attempts,
            &NoGate,
            FIRST_REPORT
        )
    );
}

const GIVEN_UP: &[u8] =
    b"runqueue 0\nat 0 join A: lost\nat 0 block A: not-on\nat 0 read: running=0 this=0\nat 3 wake A: not-on\nat 3 read: running=0 this=0\nclose running=0 this=0\n";

#[test]
fn the_first_file_without_tries(rt: HostRuntime) {
    let attempts = Attempts {
        tries: 0,
        rounds: 1,
    };
    assert!(rt; writes(&rt, rt.alloc(), &[FIRST_FILE], attempts, &NoGate, GIVEN_UP));
}

/// Whether a run of this file in three rounds without tries has this text, and so many calls.
fn counts<R: Threads + Wait>(rt: &R, alloc: Global, file: &[u8], text: &[u8], calls: u64) -> bool {
    let attempts = Attempts {
        tries: 0,
        rounds: 3,
    };
    let gate = Count::new();
    writes(rt, alloc, &[file], attempts, &gate, text) && gate.counts() == (calls, calls, calls)
}

#[test]
fn all_rounds_are_used(rt: HostRuntime) {
    assert!(rt; counts(&rt, rt.alloc(), FIRST_FILE, GIVEN_UP, 9));

    // The join alone: a start, three times a finish, and the claim given back.
    let join = b"task A 4 8\nat 0 join A\n";
    let lost = b"runqueue 0\nat 0 join A: lost\nclose running=0 this=0\n";
    assert!(rt; counts(&rt, rt.alloc(), join, lost, 5));
}

pub const DOCUMENTATION: &[u8] =
    b"task T1 4 8\ntask T2 4 8\nat 0 join T1\nat 0 join T2\nat 0 run T1 2\nat 2 block T1\nat 2 run T2 2\nat 4 run T2 4\nat 8 wake T1\nat 8 read\n";

pub const DOCUMENTATION_REPORT: &[u8] =
    b"runqueue 0\nat 0 join T1: joined q=4 d=8\nat 0 join T2: joined q=4 d=8\nat 0 run T1 2: charged dq=2 k=0 q=2 d=8\nat 2 block T1: waiting ticket=1 z=4\nat 2 run T2 2: charged dq=2 k=0 q=2 d=8\nat 4 timer T1 1: retired\nat 4 run T2 4: charged dq=2 k=1 q=4 d=16\nat 8 wake T1: woken q=4 d=16\nat 8 read: running=1048576 this=1048576\nclose running=1048576 this=1048576\n";

#[test]
fn the_documentations_example(rt: HostRuntime) {
    let attempts = Attempts {
        tries: 4,
        rounds: 100,
    };
    let report = DOCUMENTATION_REPORT;
    assert!(rt; writes(&rt, rt.alloc(), &[DOCUMENTATION], attempts, &NoGate, report));
}
