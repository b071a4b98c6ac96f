//! The calls of a handle, which are made with what it leads to.

ghost use Rattle.std.specs.Prelude.{◌≡◌, ◌≢◌, ◌⊎◌, IsNone, IfSome, IfOk, IfErr};
ghost use Rattle.neddwyrol_table.specs.Called.{IsWell, Stands, IsBeside, IsSame, Keeps, WasAsked, WasCalledBy, WasRead, Went};
ghost use Rattle.neddwyrol_table.specs.Ended.{AreOfOne, IsPartedInto, TookIn, HaveMetBy, IsAgain, IsClosedBy};
ghost use Rattle.neddwyrol_table.specs.declared.held.Kept.{Kept};

use crate::calls::ask;
use crate::closing::{NO_MEMORY, NO_PART, closed, gathered, met, parted};
use crate::held::{Held, Kept};
use crate::pass::NdTable;
use core::mem::replace_with;
use grub_table::Shared;
use library_book::{DONE, NdOp, NdReading, NdReply, QUEUE_OUT_OF_RANGE};
use std::alloc::Global;
use std::ptr::NonNull;

/// Reads a runqueue, where there is one of this number.
fn looked(kept: Kept, r: u32, reading: &mut NdReading) -> (Kept, u32)
    requires { IsWell kept }
    ensures well { IsWell result.0 }
    ensures beside { IsBeside kept result.0 }
    ensures read { WasRead r result.1 reading.old reading.new kept result.0 }
{
    if !kept.shared.has_queue(r) {
        return (kept, QUEUE_OUT_OF_RANGE);
    }
    let Kept {
        shared,
        mut pass,
        gathered,
    } = kept;
    let now = shared.read(&mut pass, r);
    *reading = NdReading {
        running_bw: now.running,
        this_bw: now.this,
    };
    let kept = Kept {
        shared,
        pass,
        gathered,
    };
    (kept, DONE)
}

/// Makes a call. The pass alone moves.
#[inline(always)]
#[tactic(auto, using(crate::proofs::Calling::asked_by_handle))]
pub(crate) fn call(held: &mut Held, task: u32, op: NdOp, tries: u8) -> NdReply
    requires { Stands held.old }
    ensures stands { Stands held.new }
    ensures asked { Went held.old held.new (WasAsked task op result) }
    ensures called { Went held.old held.new (WasCalledBy task op tries result) }
{
    let Some(Kept { shared, pass, .. }) = &mut held.kept else {
        unreachable!()
    };
    let shared: &Shared = shared;
    replace_with(pass, (), move |pass, ()| {
        ask(shared, pass, task, op, tries)
    })
}

pub(crate) fn look(held: &mut Held, queue: u32, reading: &mut NdReading) -> u32
    requires { Stands held.old }
    ensures stands { Stands held.new }
    ensures read { Went held.old held.new (WasRead queue result reading.old reading.new) }
{
    let Some(kept) = held.kept.take() else {
        unreachable!()
    };
    let (kept, code) = looked(kept, queue, reading);
    held.kept = Some(kept);
    code
}

/// Where the table lies.
pub(crate) fn place(held: &Held) -> NdTable
    requires { Stands held.now }
{
    let Some(kept) = &held.kept else {
        unreachable!()
    };
    NdTable {
        at: NonNull::from_ref(&*kept.shared).cast::<u8>().as_ptr(),
    }
}

/// The last pass that was gathered, by itself.
pub(crate) fn part_of(alloc: Global, held: &mut Held) -> Result<Box<Held>, u32>
    requires { Stands held.old }
    ensures stands { Stands held.new }
    ensures part { IfOk result (λ b. Stands b.value) }
    ensures done { IfOk result (λ b. IsPartedInto held.old held.new b.value) }
    ensures kept { IfErr result (λ code. (code ≡ NO_PART) × Went held.old held.new IsSame) }
{
    let Ok(mut part) = Box::new(
        alloc,
        Held {
            kept: None,
            taken: None,
        },
    ) else {
        return Err(NO_PART);
    };
    if part_into(alloc, held, part.as_mut()) == DONE {
        Ok(part)
    } else {
        Err(NO_PART)
    }
}

/// The second leads to the last pass that the first had gathered.
fn part_into(alloc: Global, first: &mut Held, second: &mut Held) -> u32
    requires { Stands first.old }
    ensures stands { Stands first.new }
    ensures part { result ≡ DONE → Stands second.new }
    ensures done { result ≡ DONE → IsPartedInto first.old first.new second.new }
    ensures kept { result ≢ DONE → Went first.old first.new IsSame }
{
    let Some(kept) = first.kept.take() else {
        unreachable!()
    };
    let (kept, part) = parted(alloc, kept);
    first.kept = Some(kept);
    match part {
        Some(part) => {
            second.kept = Some(part);
            DONE
        }
        None => NO_PART,
    }
}

pub(crate) fn meet(first: &mut Held, second: &mut Held)
    requires first { Stands first.old }
    requires second { Stands second.old }
    requires table { AreOfOne first.old second.old }
    ensures first { Stands first.new }
    ensures second { Stands second.new }
    ensures met { HaveMetBy first.old second.old first.new second.new }
{
    let Some(kept) = first.kept.take() else {
        unreachable!()
    };
    let Some(other) = second.kept.take() else {
        unreachable!()
    };
    let (kept, other) = met(kept, other);
    first.kept = Some(kept);
    second.kept = Some(other);
}

/// The second is empty afterwards, where it is gathered.
pub(crate) fn gather(first: &mut Held, second: &mut Held) -> u32
    requires first { Stands first.old }
    requires second { Stands second.old }
    requires table { AreOfOne first.old second.old }
    ensures stands { Stands first.new }
    ensures done { result ≡ DONE → TookIn first.old second.old first.new }
    ensures kept { result ≢ DONE → Went first.old first.new IsSame }
    ensures back { result ≢ DONE → Stands second.new × Went second.old second.new IsSame }
{
    let Some(kept) = first.kept.take() else {
        unreachable!()
    };
    let Some(other) = second.kept.take() else {
        unreachable!()
    };
    let (kept, other) = gathered(kept, other);
    first.kept = Some(kept);
    match other {
        Some(other) => {
            second.kept = Some(other);
            NO_MEMORY
        }
        None => DONE,
    }
}

/// It is empty afterwards, where the table is closed.
pub(crate) fn close(alloc: Global, held: &mut Held, readings: &mut [NdReading]) -> u32
    requires { Stands held.old }
    ensures closed { result ≡ DONE → IsClosedBy held.old readings.old readings.new }
    ensures refused { result ≢ DONE → readings.new ≡ readings.old }
    ensures well { IfSome held.new.kept IsWell }
    ensures back { (k l : Kept) → Keeps held.old k → Keeps held.new l → IsAgain k l }
    ensures lost { IsNone held.new.kept → (result ≡ DONE) ⊎ (result ≡ NO_MEMORY) }
{
    let Some(kept) = held.kept.take() else {
        unreachable!()
    };
    let (kept, code) = closed(alloc, kept, readings);
    held.kept = kept;
    code
}
