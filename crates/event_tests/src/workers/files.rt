//! Plans of event files, and the text of an outcome.
ghost use Rattle.std.specs.Prelude.{◌≤◌};
ghost use Rattle.grub_workers.specs.Runs.{AllAsksOf};

use grub_trace::{Plan, TextFault, TraceFault, read_files, report_of};
use grub_workers::{Attempts, Gate, Outcome, RunFault, run};
use std::alloc::Global;
use std::sync::Wait;
use std::thread::Threads;

/// Why a test's run gave no text: memory was refused, or the start of a thread, or else there is a fault. It owns nothing,
/// so that what returns it has nothing to drop.
#[derive(Clone, Copy)]
pub enum Refusal {
    Memory,
    Fault,
}

/// A file of version 1 with a whole processor for its runqueue, and these lines.
fn file(alloc: Global, lines: &[u8]) -> Result<Vec<u8>, Refusal> {
    let head = b"grub 1\nqueue 1048576 0\n".as_slice();
    match [head, lines].concat(alloc) {
        Ok(file) => Ok(file),
        Err(_) => Err(Refusal::Memory),
    }
}

fn files(alloc: Global, all: &[&[u8]]) -> Result<Vec<Vec<u8>>, Refusal> {
    let mut files = Vec::new(alloc);
    for lines in all {
        let Ok(file) = file(alloc, lines) else {
            return Err(Refusal::Memory);
        };
        if files.push(file).is_err() {
            return Err(Refusal::Memory);
        }
    }
    Ok(files)
}

/// The plan of such files.
fn plan_of(alloc: Global, all: &[&[u8]]) -> Result<Plan, Refusal> {
    let Ok(files) = files(alloc, all) else {
        return Err(Refusal::Memory);
    };
    match read_files(alloc, &files) {
        Ok(plan) => Ok(plan),
        Err(TraceFault::NoMemory) => Err(Refusal::Memory),
        Err(_) => Err(Refusal::Fault),
    }
}

/// Adds the texts of all reports, in the order of the files.
fn push_reports(
    alloc: Global,
    plan: &Plan,
    outcome: &Outcome,
    text: &mut Vec<u8>,
) -> Result<(), Refusal>
    requires { AllAsksOf plan.now outcome.now.reports.items }
{
    let mut r = 0u32;
    for (report, closing) in outcome.reports.iter().zip(&outcome.closing) {
        let part = match report_of(alloc, plan, r, report, *closing) {
            Ok(part) => part,
            Err(TextFault::NoMemory) => return Err(Refusal::Memory),
        };
        if text.extend_from_slice(&part).is_err() {
            return Err(Refusal::Memory);
        }
        r = r.saturating_add(1);
    }
    Ok(())
}

/// The texts of the reports of a run of this plan.
fn text_of<R: Threads + Wait, G: Gate>(
    rt: &R,
    alloc: Global,
    plan: &Plan,
    attempts: Attempts,
    gate: &G,
) -> Result<Vec<u8>, Refusal>
    requires { 1 ≤ attempts.rounds }
{
    let outcome = match run(rt, alloc, plan, attempts.tries, attempts.rounds, gate) {
        Ok(outcome) => outcome,
        Err(RunFault::NoMemory | RunFault::Spawn) => return Err(Refusal::Memory),
    };
    let mut text = Vec::new(alloc);
    match push_reports(alloc, plan, &outcome, &mut text) {
        Ok(()) => Ok(text),
        Err(refusal) => Err(refusal),
    }
}

/// Runs such files, and gives the texts of their reports.
pub(crate) fn run_files<R: Threads + Wait, G: Gate>(
    rt: &R,
    alloc: Global,
    all: &[&[u8]],
    attempts: Attempts,
    gate: &G,
) -> Result<Vec<u8>, Refusal>
    requires { 1 ≤ attempts.rounds }
{
    match plan_of(alloc, all) {
        Ok(plan) => text_of(rt, alloc, &plan, attempts, gate),
        Err(refusal) => Err(refusal),
    }
}

/// Whether a run of such files has this text.
pub(crate) fn writes<R: Threads + Wait, G: Gate>(
    rt: &R,
    alloc: Global,
    all: &[&[u8]],
    attempts: Attempts,
    gate: &G,
    text: &[u8],
) -> bool
    requires { 1 ≤ attempts.rounds }
{
    match run_files(rt, alloc, all, attempts, gate) {
        Ok(found) => found.as_slice() == text,
        Err(_) => false,
    }
}
