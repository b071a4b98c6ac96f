//! The heads of files, read in turn, and what stands below each, read in turn or by threads.

ghost use Rattle.std.specs.Prelude.{◌≡◌, ◌<◌, ◌≤◌, ◌⊎◌, [], Err, IfErr, IfOk, OnErr, OnOk, length, map};
ghost use Rattle.grub_book.specs.declared.setup.TheConstants.{QUEUES_MAX};
ghost use Rattle.grub_plan.specs.Contents.{contents};
ghost use Rattle.grub_trace.specs.inside.Bodies.{AreRead, HaveHeads, head_above};
ghost use Rattle.grub_trace.specs.inside.Planning.{AreHeadsOf, IsPlanned};
ghost use Rattle.grub_trace.specs.inside.Heads.{GiveTogether};
ghost use Rattle.grub_trace.specs.inside.Reading.{AnswersOpening, Faults, IsIndexed, declarations, read_from};

use crate::below::Below;
use crate::fault::{Kind, Location, TraceFault};
use crate::head::read_head;
use crate::tasks::Tasks;
use grub_book::QUEUES_MAX;
use std::alloc::Global;
use std::thread;
use std::thread::Threads;

/// The heads of files, in order, above what was not read yet, and all tasks that they declare; where one is wrong, those
/// before it, and its fault.
#[derive(Drop)]
pub struct Heads<'a> {
    pub tasks: Tasks,
    pub bodies: Vec<Below<'a>>,
    pub fault: Option<TraceFault>,
}

/// Whether a run may have so many files: each is of a runqueue, so at most `QUEUES_MAX`, and at least one. The fault is of
/// the first line of the first file that is too much, or of the one that is missing.
pub fn check_count(count: usize) -> Result<(), TraceFault>
    ensures many { QUEUES_MAX < count → result ≡ Err (TraceFault.At Kind.OutOfRange QUEUES_MAX 1) }
    ensures nothing { count ≡ 0 → result ≡ Err (TraceFault.At Kind.MissingQueue 0 1) }
    ensures some { OnOk result (0 < count) }
    ensures few { OnOk result (count ≤ QUEUES_MAX) }
    ensures exact { OnErr result (QUEUES_MAX < count ⊎ count ≡ 0) }
{
    if count > QUEUES_MAX {
        let after = Location {
            file: QUEUES_MAX,
            line: 1,
        };
        return Err(after.fault(Kind::OutOfRange));
    }
    if count == 0 {
        let first = Location { file: 0, line: 1 };
        return Err(first.fault(Kind::MissingQueue));
    }
    Ok(())
}

/// Reads the heads of files, one after the other, up to the first that is wrong. If that is the first of all, its fault is
/// answered, before memory is taken.
fn heads_of(alloc: Global, files: &[Vec<u8>]) -> Result<Heads<'_>, TraceFault>
    ensures together { IfOk result
        (λ h. GiveTogether (declarations h.tasks) (map head_above h.bodies.items) h.fault
        (read_from (record { declared = []; files = [] }) 0 (contents files.now))) }
    ensures fault { IfErr result
        (λ e. Faults e (read_from (record { declared = []; files = [] }) 0 (contents files.now))) }
    ensures opening { AnswersOpening result
        (read_from (record { declared = []; files = [] }) 0 (contents files.now)) }
    ensures heads { IfOk result (λ h. HaveHeads h.bodies.items) }
    ensures indexed { IfOk result (λ h. IsIndexed h.tasks) }
{
    let mut tasks = Tasks::new(alloc);
    let mut bodies = Vec::new(alloc);
    for (file, bytes) in files.iter().enumerate() {
        let head = match read_head(alloc, file, &mut tasks, bytes) {
            Ok(head) => head,
            Err(TraceFault::NoMemory) => return Err(TraceFault::NoMemory),
            Err(fault) if file == 0 => return Err(fault),
            Err(fault) => {
                let fault = Some(fault);
                return Ok(Heads {
                    tasks,
                    bodies,
                    fault,
                });
            }
        };
        let file = Err(TraceFault::NoMemory);
        if bodies.push(Below { head, file }).is_err() {
            return Err(TraceFault::NoMemory);
        }
    }
    let fault = None;
    Ok(Heads {
        tasks,
        bodies,
        fault,
    })
}

/// The heads of as many files as may be. Nothing grows before that of the first was read.
pub(crate) fn read_heads(alloc: Global, files: &[Vec<u8>]) -> Result<Heads<'_>, TraceFault>
    ensures heads { IfOk result (AreHeadsOf (contents files.now)) }
    ensures fault { IfErr result (λ e. IsPlanned (contents files.now) (Err e)) }
{
    if let Err(fault) = check_count(files.len()) {
        return Err(fault);
    }
    heads_of(alloc, files)
}

/// Reads what stands below each head, one after the other.
pub(crate) fn read_in_turn(alloc: Global, tasks: &Tasks, bodies: &mut [Below<'_>])
    requires indexed { IsIndexed tasks.now }
    requires heads { HaveHeads bodies.old }
    ensures heads { map head_above bodies.new ≡ map head_above bodies.old }
    ensures read { AreRead tasks.now bodies.new }
{
    for i in 0..bodies.len() {
        bodies[i].read(alloc, tasks);
    }
}

/// The same, each in a thread of its own, where one can be started.
pub(crate) fn read_by_threads<R: Threads + Sync>(
    rt: &R,
    alloc: Global,
    tasks: &Tasks,
    bodies: &mut [Below<'_>],
)
    requires indexed { IsIndexed tasks.now }
    requires heads { HaveHeads bodies.old }
    ensures heads { map head_above bodies.new ≡ map head_above bodies.old }
    ensures read { AreRead tasks.now bodies.new }
{
    thread::for_each_mut(rt, bodies, QUEUES_MAX, &|_, body| body.read(alloc, tasks));
}
