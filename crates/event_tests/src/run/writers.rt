//! Writers that fail, and writers that take all.

use super::{ENOUGH, ends};
use crate::documentation;
use crate::expects::expect_at;
use crate::writer::{Expecting, Then};
use grub_run::GrubFault;
use std::alloc::Global;
use std::process::Abort;
use std::sync::Wait;
use std::thread::Threads;

/// Whether a run of the documentation's file ends so, when a writer of so many calls has taken this text.
fn ends_in<R: Threads + Wait + Sync>(
    rt: &R,
    alloc: Global,
    (each, calls, then): (usize, usize, Then),
    end: Result<(), GrubFault>,
    text: &[u8],
) -> bool {
    let mut out = Expecting::new(text);
    out.each = each;
    out.calls = calls;
    out.then = then;
    ends(rt, alloc, &[documentation::FILE], ENOUGH, out, end)
}

/// Expects that a writer which goes on so after any number of calls, of 7 bytes each, fails when it has taken as much.
fn expect_faults<R: Abort + Threads + Wait + Sync>(rt: &R, alloc: Global, then: Then) {
    let fails = Err(GrubFault::WriteFault);
    let whole = documentation::REPORT.as_bytes();
    for calls in 0..whole.len().div_ceil(7) {
        let text = &whole[..calls * 7];
        expect_at(rt, ends_in(rt, alloc, (7, calls, then), fails, text), calls);
    }
}

#[test]
fn writers_that_fail(rt: HostRuntime) {
    let alloc = rt.alloc();
    expect_faults(&rt, alloc, Then::Fails);
    expect_faults(&rt, alloc, Then::TakesNothing);
    expect_faults(&rt, alloc, Then::FailsInFlush);
    let fails = Err(GrubFault::WriteFault);
    assert!(rt; ends_in(&rt, alloc, (10, 1, Then::Fails), fails, b"runqueue 0"));
}

#[test]
fn writers_that_take_all(rt: HostRuntime) {
    let alloc = rt.alloc();
    let text = documentation::REPORT.as_bytes();
    let fails = Err(GrubFault::WriteFault);
    assert!(rt; ends_in(&rt, alloc, (1, 1000, Then::Fails), Ok(()), text));
    assert!(rt; ends_in(&rt, alloc, (1000, 1000, Then::TakesNothing), Ok(()), text));
    assert!(rt; ends_in(&rt, alloc, (1000, 1000, Then::FailsInFlush), fails, text));
}
