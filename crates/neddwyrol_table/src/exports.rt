//! What C calls. A call takes a pass and gives it back, so that no pass is in two calls at once.

ghost use Rattle.std.specs.Prelude.{◌≡◌, ◌≢◌, ◌⊎◌};
ghost use denote.RawPtr.{InBlock, null_ptr};
ghost use Rattle.library_book.specs.Asked.{plain_reply};
ghost use Rattle.library_book.specs.Memory.{machine_of};
ghost use Rattle.neddwyrol_table.specs.Called.{Keeps, Stands, Went, IsSame, WasAsked, WasCalledBy, WasRead};
ghost use Rattle.neddwyrol_table.specs.Claims.{HasTask, IsTaskOf, IsTold, IsTakenBy, IsMade, IsUnmade, IsGivenBack, Took, StillTook, CameBack};
ghost use Rattle.neddwyrol_table.specs.Ended.{AreOfOne, IsPartedInto, TookIn, HaveMetBy, IsAgain, IsClosedBy};
ghost use Rattle.neddwyrol_table.specs.Opened.{IsOpenedFor, open_fault};
ghost use Rattle.neddwyrol_table.specs.declared.held.Kept.{Kept};

use crate::calls::{HELD, LOST};
use crate::claims::{cancel, finish, show, start};
use crate::handled::{call, close, gather, look, meet, part_of, place};
use crate::opening::opened;
use crate::pass::{EMPTY, NdClaim, NdPass, NdTable, both_opened};
use library_book::{DONE, NdOp, NdReading, NdReply, NdRunqueue, NdTask, plain_reply};
use std::alloc::Global;

/// Opens a table of the reservations and constants that stand in the memory, with so many passes, and writes one pass with
/// all others gathered. It answers 0, or the first fault: 1 to 8 as of `nd_open`, but for at most 64 runqueues and 256
/// tasks; 23 where no pass is asked for, 24 where more than 64 are, and 25 where memory was refused. Then nothing is written.
#[unsafe(no_mangle)]
pub extern "C" fn nd_table_open(
    alloc: Global,
    tasks: &[NdTask],
    queues: &[NdRunqueue],
    passes: u32,
    all: &mut NdPass,
) -> u32
    ensures opened { result ≡ DONE
        → IsOpenedFor (machine_of tasks.now queues.now) passes all.new.held }
    ensures there { result ≡ DONE → InBlock all.new.at × Stands all.new.held }
    ensures fault { result ≢ DONE → result ≡ open_fault tasks.now queues.now passes }
    ensures kept { result ≢ DONE → all.new ≡ all.old }
{
    match opened(alloc, tasks, queues, passes) {
        Ok(held) => {
            *all = NdPass::of_box(held);
            DONE
        }
        Err(fault) => fault,
    }
}

/// Asks an op for a task by `start` and `finish` of `grub_table`: the call with its reply, as of `nd_apply`, is all that is
/// new of the pass in the one history of the table. No call is made where it answers 50, another pass has the task; 52, so
/// many tries were lost, each to a change of the runqueue's sums; 70 and 71 as of `nd_apply`; 51, the pass is empty and comes
/// back as it was.
#[unsafe(no_mangle)]
pub extern "C" fn nd_pass_apply(
    pass: NdPass,
    task: u32,
    op: NdOp,
    tries: u8,
    back: &mut NdPass,
) -> NdReply
    requires stands { InBlock pass.at → Stands pass.held }
    ensures there { InBlock pass.at → InBlock back.new.at }
    ensures stands { InBlock pass.at → Stands back.new.held }
    ensures asked { InBlock pass.at → Went pass.held back.new.held (WasAsked task op result) }
    ensures called { InBlock pass.at
        → Went pass.held back.new.held (WasCalledBy task op tries result) }
    ensures empty { pass.at ≡ null_ptr → (result ≡ plain_reply EMPTY) × (back.new ≡ pass) }
{
    match pass.opened() {
        Ok(mut held) => {
            let reply = call(held.as_mut(), task, op, tries);
            *back = NdPass::of_box(held);
            reply
        }
        Err(empty) => {
            *back = empty;
            plain_reply(EMPTY)
        }
    }
}

/// Begins a call by `start` of `grub_table`. Where it answers 100 the pass has the task: its claim is written, and the pass is
/// spent. Else the pass is given back and no claim is written. No call is made where it answers 50, another pass has the task;
/// 70 and 71 as of `nd_apply`. Any other reply is one that the place, the count, the ticket or an early timer decided: the call
/// with it is all that is new of the pass in the history. An empty pass is answered 51, and comes back as it was.
#[unsafe(no_mangle)]
pub extern "C" fn nd_pass_start(
    pass: NdPass,
    task: u32,
    op: NdOp,
    back: &mut NdPass,
    claim: &mut NdClaim,
) -> NdReply
    requires stands { InBlock pass.at → Stands pass.held }
    ensures holds { result.kind ≡ HELD
        → InBlock claim.new.pass.at × HasTask claim.new.pass.held }
    ensures taken { result.kind ≡ HELD
        → Took pass.held claim.new.pass.held (IsTakenBy task op) }
    ensures spent { result.kind ≡ HELD → back.new ≡ back.old }
    ensures stands { result.kind ≢ HELD → InBlock pass.at
        → InBlock back.new.at × Stands back.new.held }
    ensures told { result.kind ≢ HELD → InBlock pass.at
        → Went pass.held back.new.held (IsTold task op result) }
    ensures kept { result.kind ≢ HELD → claim.new ≡ claim.old }
    ensures empty { pass.at ≡ null_ptr → (result ≡ plain_reply EMPTY) × (back.new ≡ pass) }
{
    match pass.opened() {
        Ok(mut held) => {
            let reply = start(held.as_mut(), task, op);
            let now = NdPass::of_box(held);
            if reply.kind == HELD {
                *claim = NdClaim { pass: now };
            } else {
                *back = now;
            }
            reply
        }
        Err(empty) => {
            *back = empty;
            plain_reply(EMPTY)
        }
    }
}

/// Makes the call of a claim by `finish` of `grub_table`. The call with its reply is all that is new of the pass in the
/// history; the task and the pass are given back. Or it answers 52: so many tries were lost, each to a change of the runqueue's
/// sums. Then no call is made, and the claim is given back. An op that changes no sum needs no try. An empty claim is answered
/// 51, and no pass is written.
#[unsafe(no_mangle)]
pub extern "C" fn nd_claim_finish(
    claim: NdClaim,
    tries: u8,
    back: &mut NdPass,
    claim_back: &mut NdClaim,
) -> NdReply
    requires holds { InBlock claim.pass.at → HasTask claim.pass.held }
    ensures stands { result.kind ≢ LOST → InBlock claim.pass.at
        → InBlock back.new.at × Stands back.new.held }
    ensures made { result.kind ≢ LOST → InBlock claim.pass.at
        → CameBack claim.pass.held back.new.held (IsMade tries result) }
    ensures spent { result.kind ≢ LOST → claim_back.new ≡ claim_back.old }
    ensures holds { result.kind ≡ LOST
        → InBlock claim_back.new.pass.at × HasTask claim_back.new.pass.held }
    ensures lost { result.kind ≡ LOST
        → StillTook claim.pass.held claim_back.new.pass.held (IsUnmade tries) }
    ensures kept { result.kind ≡ LOST → back.new ≡ back.old }
    ensures empty { claim.pass.at ≡ null_ptr
        → (result ≡ plain_reply EMPTY) × (back.new ≡ back.old) }
{
    match claim.pass.opened() {
        Ok(mut held) => {
            let reply = finish(held.as_mut(), tries);
            let now = NdPass::of_box(held);
            if reply.kind == LOST {
                *claim_back = NdClaim { pass: now };
            } else {
                *back = now;
            }
            reply
        }
        Err(_) => plain_reply(EMPTY),
    }
}

/// Gives the task and the pass of a claim back by `cancel` of `grub_table`: no call is made, and nothing is new of the pass in
/// the history. Of an empty claim nothing is written.
#[unsafe(no_mangle)]
pub extern "C" fn nd_claim_cancel(claim: NdClaim, back: &mut NdPass)
    requires holds { InBlock claim.pass.at → HasTask claim.pass.held }
    ensures there { InBlock claim.pass.at → InBlock back.new.at }
    ensures stands { InBlock claim.pass.at → Stands back.new.held }
    ensures given { InBlock claim.pass.at
        → CameBack claim.pass.held back.new.held IsGivenBack }
    ensures empty { claim.pass.at ≡ null_ptr → back.new ≡ back.old }
{
    if let Ok(mut held) = claim.pass.opened() {
        cancel(held.as_mut());
        *back = NdPass::of_box(held);
    }
}

/// Writes the record of a claim's task, which is the task's in the history that the pass has seen. It answers 0, and gives the
/// claim back as it is; or 51 where the claim is empty, and then no record is written.
#[unsafe(no_mangle)]
pub extern "C" fn nd_claim_record(
    claim: NdClaim,
    task: &mut NdTask,
    claim_back: &mut NdClaim,
) -> u32
    requires holds { InBlock claim.pass.at → HasTask claim.pass.held }
    ensures holds { InBlock claim.pass.at
        → InBlock claim_back.new.pass.at × HasTask claim_back.new.pass.held }
    ensures shown { InBlock claim.pass.at
        → (result ≡ DONE) × StillTook claim.pass.held claim_back.new.pass.held (IsTaskOf task.new) }
    ensures empty { claim.pass.at ≡ null_ptr
        → (result ≡ EMPTY) × (task.new ≡ task.old) × (claim_back.new ≡ claim) }
{
    match claim.pass.opened() {
        Ok(mut held) => {
            *task = show(held.as_mut());
            let now = NdPass::of_box(held);
            *claim_back = NdClaim { pass: now };
            DONE
        }
        Err(empty) => {
            *claim_back = NdClaim { pass: empty };
            EMPTY
        }
    }
}

/// Reads the sums of a runqueue by one load, as `read` of `grub_table` does. It answers 0; or 64 where there is no such
/// runqueue, and 51 where the pass is empty. Then no reading is written, and an empty pass comes back as it was.
#[unsafe(no_mangle)]
pub extern "C" fn nd_pass_read(
    pass: NdPass,
    queue: u32,
    reading: &mut NdReading,
    back: &mut NdPass,
) -> u32
    requires stands { InBlock pass.at → Stands pass.held }
    ensures there { InBlock pass.at → InBlock back.new.at }
    ensures stands { InBlock pass.at → Stands back.new.held }
    ensures read { InBlock pass.at
        → Went pass.held back.new.held (WasRead queue result reading.old reading.new) }
    ensures empty { pass.at ≡ null_ptr
        → (result ≡ EMPTY) × (reading.new ≡ reading.old) × (back.new ≡ pass) }
{
    match pass.opened() {
        Ok(mut held) => {
            let code = look(held.as_mut(), queue, reading);
            *back = NdPass::of_box(held);
            code
        }
        Err(empty) => {
            *back = empty;
            EMPTY
        }
    }
}

/// Gives the last pass that was gathered a handle of its own. It answers 0; or 27 where none is gathered or memory was
/// refused, and 51 where the pass is empty. Then the pass comes back as it was and no other is written.
#[unsafe(no_mangle)]
pub extern "C" fn nd_pass_part(
    alloc: Global,
    pass: NdPass,
    back: &mut NdPass,
    part: &mut NdPass,
) -> u32
    requires stands { InBlock pass.at → Stands pass.held }
    ensures there { InBlock pass.at → InBlock back.new.at }
    ensures stands { InBlock pass.at → Stands back.new.held }
    ensures part { result ≡ DONE → InBlock part.new.at × Stands part.new.held }
    ensures done { result ≡ DONE → IsPartedInto pass.held back.new.held part.new.held }
    ensures refused { result ≢ DONE → part.new ≡ part.old }
    ensures kept { result ≢ DONE → InBlock pass.at → Went pass.held back.new.held IsSame }
    ensures empty { pass.at ≡ null_ptr → (result ≡ EMPTY) × (back.new ≡ pass) }
{
    match pass.opened() {
        Ok(mut held) => {
            let found = part_of(alloc, held.as_mut());
            *back = NdPass::of_box(held);
            match found {
                Ok(it) => {
                    *part = NdPass::of_box(it);
                    DONE
                }
                Err(code) => code,
            }
        }
        Err(empty) => {
            *back = empty;
            EMPTY
        }
    }
}

/// Writes where the table of a pass lies: two tables that are there lie at two places. It answers 0, and gives the pass back as
/// it is; or 51 where the pass is empty, and then no place is written.
#[unsafe(no_mangle)]
pub extern "C" fn nd_pass_table(pass: NdPass, table: &mut NdTable, back: &mut NdPass) -> u32
    requires stands { InBlock pass.at → Stands pass.held }
    ensures there { InBlock pass.at → InBlock back.new.at }
    ensures same { InBlock pass.at → (result ≡ DONE) × (back.new.held ≡ pass.held) }
    ensures empty { pass.at ≡ null_ptr
        → (result ≡ EMPTY) × (table.new ≡ table.old) × (back.new ≡ pass) }
{
    match pass.opened() {
        Ok(held) => {
            *table = place(held.as_ref());
            *back = NdPass::of_box(held);
            DONE
        }
        Err(empty) => {
            *back = empty;
            EMPTY
        }
    }
}

/// Two passes of one table meet, as by `meet` of `grub_table`: what one has seen is then a beginning of what the other has.
/// Where one is empty, both come back as they were.
#[unsafe(no_mangle)]
pub extern "C" fn nd_pass_meet(
    first: NdPass,
    second: NdPass,
    first_back: &mut NdPass,
    second_back: &mut NdPass,
)
    requires first { InBlock first.at → Stands first.held }
    requires second { InBlock second.at → Stands second.held }
    requires table { InBlock first.at → InBlock second.at → AreOfOne first.held second.held }
    ensures first { InBlock first.at → InBlock second.at
        → InBlock first_back.new.at × Stands first_back.new.held }
    ensures second { InBlock first.at → InBlock second.at
        → InBlock second_back.new.at × Stands second_back.new.held }
    ensures met { InBlock first.at → InBlock second.at
        → HaveMetBy first.held second.held first_back.new.held second_back.new.held }
    ensures empty { (first.at ≡ null_ptr) ⊎ (second.at ≡ null_ptr)
        → (first_back.new ≡ first) × (second_back.new ≡ second) }
{
    match both_opened(first, second) {
        Ok((mut one, mut other)) => {
            meet(one.as_mut(), other.as_mut());
            *first_back = NdPass::of_box(one);
            *second_back = NdPass::of_box(other);
        }
        Err((one, other)) => {
            *first_back = one;
            *second_back = other;
        }
    }
}

/// The first pass takes in the second, of the same table, with those that it gathered. It answers 0, and the second is spent;
/// or 42 where memory was refused and 51 where one of the two is empty, and both are given back as they were.
#[unsafe(no_mangle)]
pub extern "C" fn nd_pass_gather(
    first: NdPass,
    second: NdPass,
    first_back: &mut NdPass,
    second_back: &mut NdPass,
) -> u32
    requires first { InBlock first.at → Stands first.held }
    requires second { InBlock second.at → Stands second.held }
    requires table { InBlock first.at → InBlock second.at → AreOfOne first.held second.held }
    ensures first { InBlock first.at → InBlock second.at
        → InBlock first_back.new.at × Stands first_back.new.held }
    ensures done { result ≡ DONE → TookIn first.held second.held first_back.new.held }
    ensures kept { result ≢ DONE → InBlock first.at → InBlock second.at
        → Went first.held first_back.new.held IsSame }
    ensures second { result ≢ DONE → InBlock first.at → InBlock second.at
        → InBlock second_back.new.at × Stands second_back.new.held
        × Went second.held second_back.new.held IsSame }
    ensures empty { (first.at ≡ null_ptr) ⊎ (second.at ≡ null_ptr)
        → (result ≡ EMPTY) × (first_back.new ≡ first) × (second_back.new ≡ second) }
{
    match both_opened(first, second) {
        Ok((mut one, mut other)) => {
            let code = gather(one.as_mut(), other.as_mut());
            *first_back = NdPass::of_box(one);
            if code != DONE {
                *second_back = NdPass::of_box(other);
            }
            code
        }
        Err((one, other)) => {
            *first_back = one;
            *second_back = other;
            EMPTY
        }
    }
}

/// Closes the table by a pass that has gathered all others, and writes the last sums of its runqueues, as many as there is
/// room for, as `close` of `grub_table` gives them. It answers 0, and the pass is spent. Where it is refused nothing is
/// written and the pass is given back: 26 where a pass is not gathered, 42 where memory was refused, 51 where the pass is empty.
/// Where there is no memory even to give it back the table is freed.
#[unsafe(no_mangle)]
pub extern "C" fn nd_table_close(
    alloc: Global,
    pass: NdPass,
    readings: &mut [NdReading],
    back: &mut NdPass,
) -> u32
    requires stands { InBlock pass.at → Stands pass.held }
    ensures closed { result ≡ DONE → IsClosedBy pass.held readings.old readings.new }
    ensures refused { result ≢ DONE → readings.new ≡ readings.old }
    ensures back { result ≢ DONE → InBlock pass.at → (back.new ≡ back.old)
        ⊎ (InBlock back.new.at × Stands back.new.held
        × ((k l : Kept) → Keeps pass.held k → Keeps back.new.held l → IsAgain k l)) }
    ensures empty { pass.at ≡ null_ptr → (result ≡ EMPTY) × (back.new ≡ pass) }
{
    match pass.opened() {
        Ok(mut held) => {
            let code = close(alloc, held.as_mut(), readings);
            if held.kept.is_some() {
                *back = NdPass::of_box(held);
            }
            code
        }
        Err(empty) => {
            *back = empty;
            EMPTY
        }
    }
}

/// Frees a pass with those that it gathered, and the table with its last one. It does nothing with an empty pass.
#[unsafe(no_mangle)]
pub extern "C" fn nd_pass_free(pass: NdPass) {
    drop(pass.opened());
}
