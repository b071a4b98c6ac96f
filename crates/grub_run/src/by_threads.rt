//! The same by threads: files are read, and the lines of reports are made, by several at once.

ghost use Rattle.std.specs.Prelude.{◌≡◌, ◌≤◌, ℕ, List, [], length, vec_capacity, MatchResult, OnOk, OnErr, IfErr};
ghost use Rattle.std.specs.Io.KnownBytes.{Appends};
ghost use Rattle.grub_book.specs.declared.setup.TheConstants.{QUEUES_MAX};
ghost use Rattle.grub_trace.specs.Meaning.{Reads};
ghost use Rattle.grub_trace.specs.FirstFault.{IsFault};
ghost use Rattle.grub_plan.specs.Contents.{contents};
ghost use Rattle.grub_trace.specs.Tree.{Tree};
ghost use Rattle.grub_trace.specs.declared.fault.Kind.{Kind};
ghost use Rattle.grub_workers.specs.Runs.{AllAsksOf};
ghost use Rattle.grub_run.specs.Written.{AppendsPrefix, Begins, IsFaultOf, IsNoFileFault, IsOnlyFault, IsOutput, Writes, texts_from};
ghost use Rattle.grub_run.specs.inside.Ran.{BeginsRun, IsFaultOfRun, WritesRun};
ghost use Rattle.grub_run.specs.declared.grub_fault.GrubFault.TheVariants as faults;

use crate::grub_fault::GrubFault;
use crate::report::{QueueReport, write_report};
use grub_book::Reading;
use grub_plan::{Plan, Report, TextFault};
use grub_trace::read_files_by_threads;
use grub_views::LineRoom;
use grub_workers::{NoGate, run};
use std::alloc::Global;
use std::io;
use std::io::Write;
use std::sync::Wait;
use std::thread::Threads;
use text_bytes::{LINE_MAX, write_buffer};

/// `run_texts` for many and long files: several threads read them and make the lines of the reports, and the files' bytes
/// are dropped before the run, so their memory is free for the entries. The text goes through buffers of fixed size, which
/// are the last thing that memory is taken for.
pub fn run_texts_by_threads<R: Threads + Wait + Sync, W: Write>(
    rt: &R,
    alloc: Global,
    files: Vec<Vec<u8>>,
    tries: u8,
    rounds: u16,
    out: &mut W,
) -> Result<(), GrubFault>
    requires { 1 ≤ rounds }

    ensures text { OnOk result
        (Writes (IsOutput tries) (W.contents out.old) (W.contents out.new) (contents files.items)) }
    ensures prefix { IfErr result (λ e. e ≡ faults.WriteFault
        → Begins (IsOutput tries) (W.contents out.old) (W.contents out.new)
        (contents files.items)) }
    ensures nothing { IfErr result (λ e. (e ≡ faults.WriteFault → ⊥) → out.new ≡ out.old) }

    // A fault of the files is the reader's, and where there is one it is answered, memory aside.
    ensures fault { IfErr result (IsFaultOf (contents files.items)) }
    ensures answered { (k : Kind) (f n : ℕ) → IsFault (contents files.items) k f n
        → MatchResult result (λ _. ⊥) (λ e. IsOnlyFault e k f n) }
    ensures readable { (trees : List Tree) → Reads (contents files.items) trees
        → IfErr result IsNoFileFault }
{
    let plan = match read_files_by_threads(rt, alloc, &files) {
        Ok(plan) => plan,
        Err(fault) => return Err(GrubFault::Trace(fault)),
    };
    drop(files);
    write_run(rt, alloc, &plan, tries, rounds, out)
}

/// Runs the plan, and writes the texts of its reports.
fn write_run<R: Threads + Wait + Sync, W: Write>(
    rt: &R,
    alloc: Global,
    plan: &Plan,
    tries: u8,
    rounds: u16,
    out: &mut W,
) -> Result<(), GrubFault>
    requires few { length plan.now.scripts ≤ QUEUES_MAX }
    requires rounds { 1 ≤ rounds }
    ensures text { OnOk result
        (WritesRun plan.now tries (W.contents out.old) (W.contents out.new)) }
    ensures prefix { IfErr result (λ e. e ≡ faults.WriteFault
        → BeginsRun plan.now tries (W.contents out.old) (W.contents out.new)) }
    ensures nothing { IfErr result (λ e. (e ≡ faults.WriteFault → ⊥) → out.new ≡ out.old) }
    ensures fault { IfErr result IsFaultOfRun }
{
    let outcome = match run(rt, alloc, plan, tries, rounds, &NoGate) {
        Ok(outcome) => outcome,
        Err(fault) => return Err(GrubFault::Run(fault)),
    };
    let Ok(room) = LineRoom::new(alloc) else {
        return Err(GrubFault::Text(TextFault::NoMemory));
    };
    match write_reports(rt, room, out, plan, &outcome.reports, &outcome.closing) {
        Ok(()) => Ok(()),
        Err(_) => Err(GrubFault::WriteFault),
    }
}

/// Writes the texts of the reports, in file order, and flushes.
fn write_reports<R: Threads + Sync, W: Write>(
    rt: &R,
    mut room: LineRoom,
    out: &mut W,
    plan: &Plan,
    reports: &[Report],
    closing: &[Reading],
) -> io::Result<()>
    requires empty { room.buffer.items ≡ [] }
    requires room { LINE_MAX ≤ vec_capacity room.buffer }
    requires one_each { length reports.now ≡ length closing.now }
    requires most { length reports.now ≤ QUEUES_MAX }
    requires tasks { AllAsksOf plan.now reports.now }
    ensures whole { OnOk result (Appends (W.contents out.old) (W.contents out.new)
        (texts_from plan.now.names 0 reports.now closing.now)) }
    ensures part { OnErr result (AppendsPrefix (W.contents out.old) (W.contents out.new)
        (texts_from plan.now.names 0 reports.now closing.now)) }
{
    for (r, report) in reports.iter().enumerate() {
        let queue = QueueReport {
            r: r as u32,
            report,
            closing: closing[r],
        };
        write_report(rt, &mut room, out, plan, queue)?;
    }
    write_buffer(&mut room.buffer, out)?;
    out.flush()
}
