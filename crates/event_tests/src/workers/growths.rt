//! Memory that is refused, and the lines of the faults of a run.
use super::files::{Refusal, run_files, writes};
use super::singles::{DOCUMENTATION, DOCUMENTATION_REPORT, FIRST_FILE, FIRST_REPORT};
use grub_workers::{Attempts, NoGate, RunFault};
use std::alloc::Global;
use std::sync::Wait;
use std::thread::Threads;

/// Whether a run of this file has this report, or one that comes after a refused one.
fn writes_after_all<R: Threads + Wait>(rt: &R, alloc: Global, lines: &[u8], report: &[u8]) -> bool {
    let attempts = Attempts {
        tries: 8,
        rounds: 64,
    };
    match run_files(rt, alloc, &[lines], attempts, &NoGate) {
        Ok(text) => text.as_slice() == report,
        Err(Refusal::Memory) => writes(rt, alloc, &[lines], attempts, &NoGate, report),
        Err(Refusal::Fault) => false,
    }
}

/// Passes under `rt try --test --fail-alloc N` for each N too: a refused growth is answered as want of memory, or as the
/// refused start of a thread, and the next run, as one where nothing is refused, gives the reports.
#[test]
fn refused_growths(rt: HostRuntime) {
    let alloc = rt.alloc();
    assert!(rt; writes_after_all(&rt, alloc, FIRST_FILE, FIRST_REPORT));
    assert!(rt; writes_after_all(&rt, alloc, DOCUMENTATION, DOCUMENTATION_REPORT));
}

/// Whether a fault is told so.
fn is_told(alloc: Global, fault: RunFault, text: &str) -> bool {
    match format!(in alloc; "{fault}") {
        Ok(told) => told.as_str() == text,
        Err(_) => false,
    }
}

#[test]
fn fault_texts(rt: HostRuntime) {
    assert!(rt; is_told(rt.alloc(), RunFault::NoMemory, "38 NoMemory"));
    assert!(rt; is_told(rt.alloc(), RunFault::Spawn, "39 Spawn"));
}
