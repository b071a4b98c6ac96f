//! From the bytes of event files to the bytes of a view.

ghost use Rattle.std.specs.Prelude.{◌≡◌, ◌+◌, ◌≤◌, ℕ, List, MatchResult, OnOk, OnErr, IfErr, vec_capacity};
ghost use Rattle.grub_book.specs.Sums.{opening_book};
ghost use Rattle.grub_trace.specs.Meaning.{Reads};
ghost use Rattle.grub_trace.specs.FirstFault.{IsFault};
ghost use Rattle.grub_plan.specs.Contents.{contents};
ghost use Rattle.grub_trace.specs.Tree.{Tree};
ghost use Rattle.grub_trace.specs.declared.fault.Kind.{Kind};
ghost use Rattle.grub_run.specs.Written.{Begins, Writes};
ghost use Rattle.grub_run.specs.ViewFaults.{IsFaultOfView, IsNoFaultOfFile, IsOnlyFaultOfFile};
ghost use Rattle.grub_run.specs.Shown.{IsShown};
ghost use Rattle.grub_run.specs.declared.show_fault.ShowFault.TheVariants as faults;
ghost use Rattle.grub_run.specs.inside.Showing.{BeginsLine, IsFaultOfLine, WritesLine};

use crate::ready::Ready;
use crate::show_fault::ShowFault;
use crate::texts::write_text;
use grub_book::Book;
use grub_picture::{end_of, picture_text};
use grub_plan::Plan;
use grub_timeline::{Step, play};
use grub_trace::read_files_by_threads;
use grub_views::{StepMaker, summary_text, write_steps, write_timeline};
use std::alloc::Global;
use std::io;
use std::io::Write;
use std::thread::Threads;

/// A view of the time line of files.
#[derive(Clone, Copy, Debug, PartialEq, Eq)]
pub enum FileView {
    /// A line for each entry, and the closing readings.
    Timeline,

    /// A table of the entries, with the reading after each.
    Steps,

    /// A table of the tasks and one of the runqueues.
    Summary,

    /// A picture as an SVG document: from a moment, or from 0, to a moment, or to that of the last entry (or 1, where
    /// that is 0). Past the last entry the last state goes on.
    Picture { from: Option<u32>, to: Option<u32> },
}

/// Reads event files, plays them on one time line, and writes a view of it. The files' bytes are dropped before they are
/// played, so their memory is free for the entries. Lines and steps are written while they are played, and no entry is kept.
///
/// `Trace` (28 to 37) is the reader's fault, and `NoMemory` (48) is want of memory for the time line or the view's text.
/// `EmptySpan` comes where a picture would not begin before it ends. `WriteFault` (45) comes where the writer failed or
/// took nothing; a beginning of the text was written then. On every other fault nothing was written: all memory is taken
/// before the first write.
pub fn write_view<R: Threads + Sync, W: Write>(
    rt: &R,
    alloc: Global,
    files: Vec<Vec<u8>>,
    view: FileView,
    out: &mut W,
) -> Result<(), ShowFault>
    ensures text { OnOk result
        (Writes (IsShown view) (W.contents out.old) (W.contents out.new) (contents files.items)) }
    ensures prefix { IfErr result (λ e. e ≡ faults.WriteFault
        → Begins (IsShown view) (W.contents out.old) (W.contents out.new) (contents files.items)) }
    ensures nothing { IfErr result (λ e. (e ≡ faults.WriteFault → ⊥) → out.new ≡ out.old) }

    // A fault of the files is the reader's, and where there is one it is answered, memory aside. An empty span is told
    // where the span of a picture is empty.
    ensures fault { IfErr result (IsFaultOfView view (contents files.items)) }
    ensures answered { (k : Kind) (f n : ℕ) → IsFault (contents files.items) k f n
        → MatchResult result (λ _. ⊥) (λ e. IsOnlyFaultOfFile e k f n) }
    ensures readable { (trees : List Tree) → Reads (contents files.items) trees
        → IfErr result IsNoFaultOfFile }
{
    let plan = match read_files_by_threads(rt, alloc, &files) {
        Ok(plan) => plan,
        Err(fault) => return Err(ShowFault::Trace(fault)),
    };
    drop(files);
    write_played(rt, alloc, &plan, view, out)
}

/// Plays the plan, and writes a view of its time line.
fn write_played<R: Threads + Sync, W: Write>(
    rt: &R,
    alloc: Global,
    plan: &Plan,
    view: FileView,
    out: &mut W,
) -> Result<(), ShowFault>
    ensures text { OnOk result
        (WritesLine view plan.now (W.contents out.old) (W.contents out.new)) }
    ensures prefix { IfErr result (λ e. e ≡ faults.WriteFault
        → BeginsLine view plan.now (W.contents out.old) (W.contents out.new)) }
    ensures nothing { IfErr result (λ e. (e ≡ faults.WriteFault → ⊥) → out.new ≡ out.old) }
    ensures fault { IfErr result (IsFaultOfLine view plan.now) }
{
    match view {
        FileView::Timeline => write_lines(rt, alloc, plan, out),
        FileView::Steps => write_rows(rt, alloc, plan, out),
        FileView::Summary => write_summary(alloc, plan, out),
        FileView::Picture { from, to } => write_picture(alloc, plan, from, to, out),
    }
}

/// Plays the plan, and writes the lines of its time line.
fn write_lines<R: Threads + Sync, W: Write>(
    rt: &R,
    alloc: Global,
    plan: &Plan,
    out: &mut W,
) -> Result<(), ShowFault>
    ensures text { OnOk result
        (WritesLine FileView.Timeline plan.now (W.contents out.old) (W.contents out.new)) }
    ensures prefix { IfErr result (λ e. e ≡ faults.WriteFault
        → BeginsLine FileView.Timeline plan.now (W.contents out.old) (W.contents out.new)) }
    ensures nothing { IfErr result (λ e. (e ≡ faults.WriteFault → ⊥) → out.new ≡ out.old) }
    ensures fault { IfErr result (IsFaultOfLine FileView.Timeline plan.now) }
{
    let Some(ready) = Ready::new(alloc, plan) else {
        return Err(ShowFault::NoMemory);
    };
    match lines_through(rt, ready, plan, out) {
        Ok(()) => Ok(()),
        Err(_) => Err(ShowFault::WriteFault),
    }
}

/// Plays a time line, writes its lines, and flushes.
fn lines_through<R: Threads + Sync, W: Write>(
    rt: &R,
    ready: Ready<'_>,
    plan: &Plan,
    out: &mut W,
) -> io::Result<()>
    requires plan { ready.playing.plan ≡ plan.now }
    ensures whole { OnOk result
        (WritesLine FileView.Timeline plan.now (W.contents out.old) (W.contents out.new)) }
    ensures part { OnErr result
        (BeginsLine FileView.Timeline plan.now (W.contents out.old) (W.contents out.new)) }
{
    let Ready {
        playing,
        mut latest,
        mut room,
    } = ready;
    write_timeline(rt, &mut room, out, plan, &mut latest, playing)?;
    write_text(room.buffer, out)
}

/// Plays the plan, and writes the steps of its time line.
fn write_rows<R: Threads + Sync, W: Write>(
    rt: &R,
    alloc: Global,
    plan: &Plan,
    out: &mut W,
) -> Result<(), ShowFault>
    ensures text { OnOk result
        (WritesLine FileView.Steps plan.now (W.contents out.old) (W.contents out.new)) }
    ensures prefix { IfErr result (λ e. e ≡ faults.WriteFault
        → BeginsLine FileView.Steps plan.now (W.contents out.old) (W.contents out.new)) }
    ensures nothing { IfErr result (λ e. (e ≡ faults.WriteFault → ⊥) → out.new ≡ out.old) }
    ensures fault { IfErr result (IsFaultOfLine FileView.Steps plan.now) }
{
    let Ok(book) = Book::new(alloc, plan.setup()) else {
        return Err(ShowFault::NoMemory);
    };
    let Some(ready) = Ready::new(alloc, plan) else {
        return Err(ShowFault::NoMemory);
    };
    let Ok(steps) = Vec::with_capacity(alloc, ready.latest.capacity()) else {
        return Err(ShowFault::NoMemory);
    };
    match rows_through(rt, ready, plan, book, steps, out) {
        Ok(()) => Ok(()),
        Err(_) => Err(ShowFault::WriteFault),
    }
}

/// Plays a time line, writes its steps, by a book that was asked nothing yet, and flushes.
fn rows_through<R: Threads + Sync, W: Write>(
    rt: &R,
    ready: Ready<'_>,
    plan: &Plan,
    book: Book<'_>,
    steps: Vec<Step>,
    out: &mut W,
) -> io::Result<()>
    requires plan { ready.playing.plan ≡ plan.now }
    requires setup { book.setup ≡ plan.now.setup }
    requires book { book.records ≡ opening_book plan.now.setup }
    requires steps { ready.playing.most ≤ vec_capacity steps }
    requires waiting { vec_capacity ready.latest ≤ vec_capacity steps }
    ensures whole { OnOk result
        (WritesLine FileView.Steps plan.now (W.contents out.old) (W.contents out.new)) }
    ensures part { OnErr result
        (BeginsLine FileView.Steps plan.now (W.contents out.old) (W.contents out.new)) }
{
    let Ready {
        playing,
        latest,
        mut room,
    } = ready;
    let mut maker = StepMaker {
        book,
        latest,
        steps,
    };
    write_steps(rt, &mut room, out, plan, &mut maker, playing)?;
    write_text(room.buffer, out)
}

/// Plays the plan, and writes the summary of its time line.
fn write_summary<W: Write>(alloc: Global, plan: &Plan, out: &mut W) -> Result<(), ShowFault>
    ensures text { OnOk result
        (WritesLine FileView.Summary plan.now (W.contents out.old) (W.contents out.new)) }
    ensures prefix { IfErr result (λ e. e ≡ faults.WriteFault
        → BeginsLine FileView.Summary plan.now (W.contents out.old) (W.contents out.new)) }
    ensures nothing { IfErr result (λ e. (e ≡ faults.WriteFault → ⊥) → out.new ≡ out.old) }
    ensures fault { IfErr result (IsFaultOfLine FileView.Summary plan.now) }
{
    let Ok(line) = play(alloc, plan) else {
        return Err(ShowFault::NoMemory);
    };
    let Ok(text) = summary_text(alloc, plan, &line) else {
        return Err(ShowFault::NoMemory);
    };
    match write_text(text, out) {
        Ok(()) => Ok(()),
        Err(_) => Err(ShowFault::WriteFault),
    }
}

/// Plays the plan, and writes a picture of its time line.
fn write_picture<W: Write>(
    alloc: Global,
    plan: &Plan,
    from: Option<u32>,
    to: Option<u32>,
    out: &mut W,
) -> Result<(), ShowFault>
    ensures text { OnOk result
        (WritesLine (FileView.Picture from to) plan.now (W.contents out.old) (W.contents out.new)) }
    ensures prefix { IfErr result (λ e. e ≡ faults.WriteFault
        → BeginsLine (FileView.Picture from to) plan.now
        (W.contents out.old) (W.contents out.new)) }
    ensures nothing { IfErr result (λ e. (e ≡ faults.WriteFault → ⊥) → out.new ≡ out.old) }
    ensures fault { IfErr result (IsFaultOfLine (FileView.Picture from to) plan.now) }
{
    let Ok(line) = play(alloc, plan) else {
        return Err(ShowFault::NoMemory);
    };
    let first = from.unwrap_or(0);
    let end = to.unwrap_or(end_of(&line));
    if first >= end {
        return Err(ShowFault::EmptySpan {
            from: first,
            to: end,
        });
    }
    let Ok(text) = picture_text(alloc, plan, &line, first, end) else {
        return Err(ShowFault::NoMemory);
    };
    match write_text(text, out) {
        Ok(()) => Ok(()),
        Err(_) => Err(ShowFault::WriteFault),
    }
}
