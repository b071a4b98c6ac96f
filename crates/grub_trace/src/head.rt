//! The head of a file: its version, its runqueue, and the tasks that it declares.

ghost use Rattle.std.specs.Prelude.{◌≡◌, Err, IfOk, IfSome, is_some};
ghost use Rattle.grub_book.specs.Bandwidth.{capacity_fits};
ghost use Rattle.grub_trace.specs.declared.fault.TraceFault.TheVariants.{NoMemory};
ghost use Rattle.grub_trace.specs.Forms.{version_of};
ghost use Rattle.text_bytes.specs.Lines.{parts_of};
ghost use Rattle.grub_trace.specs.inside.Heads.{GivesHead, GivesTasks, IsHead};
ghost use Rattle.grub_trace.specs.inside.Reading.{AnswersOpening, GivesQueue, IsIndexed, declarations, of_file, read_file, read_queue, read_second};

use crate::fault::{Kind, Location, TraceFault};
use crate::form::{Form, form_of};
use crate::number::number;
use crate::raw::Head;
use crate::tasks::{Tasks, declare};
use crate::version::{Version, version_of};
use grub_book::Queue;
use std::alloc::Global;
use text_bytes::{first_line, first_word};

/// Reads the task lines, which stand below the second.
fn read_tasks<'a>(
    alloc: Global,
    file: usize,
    version: Version,
    queue: Queue,
    tasks: &mut Tasks,
    text: &'a [u8],
) -> Result<Head<'a>, TraceFault>
    requires indexed { IsIndexed tasks.old }
    ensures gives { GivesTasks result file version queue (declarations tasks.old)
        (declarations tasks.new) (parts_of text.now) }
    ensures head { IfOk result IsHead }
    ensures file { IfOk result (λ h. h.file ≡ file) }
    ensures indexed { (result ≡ Err NoMemory → ⊥) → IsIndexed tasks.new }
{
    let mut rest = text;
    let mut first = 3;
    while let Some((line, after)) = first_line(rest) {
        let Some(Form::Task(name, runtime, period)) = form_of(line) else {
            break;
        };
        let line = Location { file, line: first };
        declare(alloc, tasks, line, name, runtime, period)?;
        rest = after;
        first += 1;
    }
    Ok(Head {
        file,
        version,
        queue,
        first,
        below: rest,
    })
}

/// The constants of a runqueue, where they are ones.
fn capacity(umax: u32, uextra: u32) -> Option<Queue>
    ensures value { IfSome result (λ q. q ≡ record { most = umax; extra = uextra }) }
    ensures exact { is_some result ≡ capacity_fits (record { most = umax; extra = uextra }) }
{
    Queue::new(umax, uextra).ok()
}

fn read_queue(line: &[u8]) -> Result<Queue, Kind>
    ensures { GivesQueue result line.now }
{
    let (first, _) = first_word(line);
    if first != b"queue".as_slice() {
        return Err(Kind::MissingQueue);
    }
    let Some(Form::Queue(umax, uextra)) = form_of(line) else {
        return Err(Kind::BadLine);
    };
    let (Some(umax), Some(uextra)) = (number(umax), number(uextra)) else {
        return Err(Kind::BadNumber);
    };
    match capacity(umax, uextra) {
        Some(queue) => Ok(queue),
        None => Err(Kind::OutOfRange),
    }
}

#[tactic(auto, unfolding(crate::specs::inside::Reading::read_second))]
/// Reads the second line and the task lines below it.
fn read_second<'a>(
    alloc: Global,
    file: usize,
    version: Version,
    tasks: &mut Tasks,
    text: &'a [u8],
) -> Result<Head<'a>, TraceFault>
    requires indexed { IsIndexed tasks.old }
    ensures gives { GivesHead result file (declarations tasks.new)
        (read_second version (declarations tasks.old) (parts_of text.now)) }
    ensures opening { AnswersOpening result
        (of_file file (read_second version (declarations tasks.old) (parts_of text.now))) }
    ensures head { IfOk result IsHead }
    ensures file { IfOk result (λ h. h.file ≡ file) }
    ensures indexed { (result ≡ Err NoMemory → ⊥) → IsIndexed tasks.new }
{
    let second = Location { file, line: 2 };
    let Some((line, rest)) = first_line(text) else {
        let kind = if text.is_empty() {
            Kind::MissingQueue
        } else {
            Kind::CutShort
        };
        return Err(second.fault(kind));
    };
    let queue = read_queue(line).map_err(|kind| second.fault(kind))?;
    read_tasks(alloc, file, version, queue, tasks, rest)
}

#[tactic(auto, unfolding(crate::specs::inside::Reading::read_file, crate::specs::inside::Reading::read_first))]
/// Reads the head of the file of this number, after the tasks of the files before it.
pub(crate) fn read_head<'a>(
    alloc: Global,
    file: usize,
    tasks: &mut Tasks,
    bytes: &'a [u8],
) -> Result<Head<'a>, TraceFault>
    requires indexed { IsIndexed tasks.old }
    ensures gives { GivesHead result file (declarations tasks.new)
        (read_file (declarations tasks.old) bytes.now) }
    ensures opening { AnswersOpening result
        (of_file file (read_file (declarations tasks.old) bytes.now)) }
    ensures head { IfOk result IsHead }
    ensures file { IfOk result (λ h. h.file ≡ file) }
    ensures indexed { (result ≡ Err NoMemory → ⊥) → IsIndexed tasks.new }
{
    let first = Location { file, line: 1 };
    let Some((line, rest)) = first_line(bytes) else {
        let kind = if bytes.is_empty() {
            Kind::BadHeader
        } else {
            Kind::CutShort
        };
        return Err(first.fault(kind));
    };
    let Some(version) = version_of(line) else {
        return Err(first.fault(Kind::BadHeader));
    };
    read_second(alloc, file, version, tasks, rest)
}
