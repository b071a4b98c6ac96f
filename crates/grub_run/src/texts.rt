//! From the bytes of event files to the bytes of their reports.

ghost use Rattle.std.specs.Prelude.{◌≡◌, ◌≤◌, ℕ, List, length, MatchResult, OnOk, OnErr, IfErr, IfOk};
ghost use Rattle.std.specs.Io.KnownBytes.{Appends};
ghost use Rattle.grub_book.specs.declared.setup.TheConstants.{QUEUES_MAX};
ghost use Rattle.grub_trace.specs.Meaning.{Reads};
ghost use Rattle.grub_trace.specs.FirstFault.{IsFault};
ghost use Rattle.grub_plan.specs.Contents.{contents};
ghost use Rattle.grub_trace.specs.Tree.{Tree};
ghost use Rattle.grub_trace.specs.declared.fault.Kind.{Kind};
ghost use Rattle.grub_workers.specs.Runs.{AllAsksOf};
ghost use Rattle.grub_run.specs.Written.{AppendsPrefix, Begins, IsFaultOf, IsNoFileFault, IsOnlyFault, IsOutput, Writes, texts_from};
ghost use Rattle.grub_run.specs.inside.Ran.{BeginsRun, IsFaultOfRun, WritesRun};
ghost use Rattle.grub_run.specs.declared.grub_fault.GrubFault.TheVariants as faults;

use crate::grub_fault::GrubFault;
use grub_book::Reading;
use grub_plan::{Plan, Report, TextFault, report_of};
use grub_trace::read_files;
use grub_workers::{NoGate, run};
use std::alloc::Global;
use std::io;
use std::io::Write;
use std::sync::Wait;
use std::thread::Threads;
use text_bytes::write_buffer;

/// Reads event files, runs them with a thread for each, and writes the texts of their reports in file order.
///
/// `Trace` (28 to 37) is the reader's fault. `WriteFault` (45) comes where a write or the flush failed, or a write took
/// nothing; a beginning of the text was written then. On every other fault nothing was written: the whole text is made
/// before the first write.
pub fn run_texts<R: Threads + Wait, W: Write>(
    rt: &R,
    alloc: Global,
    files: &[Vec<u8>],
    tries: u8,
    rounds: u16,
    out: &mut W,
) -> Result<(), GrubFault>
    requires { 1 ≤ rounds }

    ensures text { OnOk result
        (Writes (IsOutput tries) (W.contents out.old) (W.contents out.new) (contents files.now)) }
    ensures prefix { IfErr result (λ e. e ≡ faults.WriteFault
        → Begins (IsOutput tries) (W.contents out.old) (W.contents out.new)
        (contents files.now)) }
    ensures nothing { IfErr result (λ e. (e ≡ faults.WriteFault → ⊥) → out.new ≡ out.old) }

    // A fault of the files is the reader's, and where there is one it is answered, memory aside.
    ensures fault { IfErr result (IsFaultOf (contents files.now)) }
    ensures answered { (k : Kind) (f n : ℕ) → IsFault (contents files.now) k f n
        → MatchResult result (λ _. ⊥) (λ e. IsOnlyFault e k f n) }
    ensures readable { (trees : List Tree) → Reads (contents files.now) trees
        → IfErr result IsNoFileFault }
{
    let plan = match read_files(alloc, files) {
        Ok(plan) => plan,
        Err(fault) => return Err(GrubFault::Trace(fault)),
    };
    write_outcome(rt, alloc, &plan, tries, rounds, out)
}

/// Runs the plan, and writes the texts of its reports.
fn write_outcome<R: Threads + Wait, W: Write>(
    rt: &R,
    alloc: Global,
    plan: &Plan,
    tries: u8,
    rounds: u16,
    out: &mut W,
) -> Result<(), GrubFault>
    requires few { length plan.now.scripts ≤ QUEUES_MAX }
    requires rounds { 1 ≤ rounds }
    ensures text { OnOk result
        (WritesRun plan.now tries (W.contents out.old) (W.contents out.new)) }
    ensures prefix { IfErr result (λ e. e ≡ faults.WriteFault
        → BeginsRun plan.now tries (W.contents out.old) (W.contents out.new)) }
    ensures nothing { IfErr result (λ e. (e ≡ faults.WriteFault → ⊥) → out.new ≡ out.old) }
    ensures fault { IfErr result IsFaultOfRun }
{
    let outcome = match run(rt, alloc, plan, tries, rounds, &NoGate) {
        Ok(outcome) => outcome,
        Err(fault) => return Err(GrubFault::Run(fault)),
    };
    let text = match texts_of(alloc, plan, &outcome.reports, &outcome.closing) {
        Ok(text) => text,
        Err(fault) => return Err(GrubFault::Text(fault)),
    };
    match write_text(text, out) {
        Ok(()) => Ok(()),
        Err(_) => Err(GrubFault::WriteFault),
    }
}

/// The texts of the reports, in file order.
fn texts_of(
    alloc: Global,
    plan: &Plan,
    reports: &[Report],
    closing: &[Reading],
) -> Result<Vec<u8>, TextFault>
    requires one_each { length reports.now ≡ length closing.now }
    requires most { length reports.now ≤ QUEUES_MAX }
    requires tasks { AllAsksOf plan.now reports.now }
    ensures { IfOk result
        (λ text. text.items ≡ texts_from plan.now.names 0 reports.now closing.now) }
{
    let mut text = Vec::new(alloc);
    for (r, report) in reports.iter().enumerate() {
        let one = report_of(alloc, plan, r as u32, report, closing[r])?;
        text.extend_from_slice(&one)?;
    }
    Ok(text)
}

/// Writes a whole text, and flushes.
pub fn write_text<W: Write>(mut text: Vec<u8>, out: &mut W) -> io::Result<()>
    ensures whole { OnOk result (Appends (W.contents out.old) (W.contents out.new) text.items) }
    ensures part { OnErr result
        (AppendsPrefix (W.contents out.old) (W.contents out.new) text.items) }
{
    write_buffer(&mut text, out)?;
    out.flush()
}
