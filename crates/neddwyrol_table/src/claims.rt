//! A call in two steps: a pass takes a task, and its claim is finished or given up.

ghost use Rattle.std.specs.Prelude.{◌≡◌, ◌≢◌, IsSome, IfSome};
ghost use Rattle.neddwyrol_table.specs.Called.{IsWell, Stands, IsBeside, Went};
ghost use Rattle.neddwyrol_table.specs.Claims.{claim_of, IsShown, IsTaskOf, IsWellTaken, HasTask, IsTold, IsTakenBy, IsMade, IsUnmade, IsGivenBack, GoWith, GoOn, Took, StillTook, CameBack};

use crate::calls::{BUSY, HELD, LOST, op_for};
use crate::held::{Held, Kept, Taken};
use grub_table::{Finished, Started};
use library_book::{NdOp, NdReply, NdTask, plain_reply, reply_of, task_of};
use std::mem::ManuallyDrop;

/// Begins a call, where there is such a task and op.
fn started(kept: Kept, t: u32, op: NdOp) -> (Held, NdReply)
    requires { IsWell kept }
    ensures well { IfSome result.0.kept IsWell × IfSome result.0.taken IsWellTaken }
    ensures told { IfSome result.0.kept (λ l. IsBeside kept l × IsTold t op result.1 kept l) }
    ensures taken { IfSome result.0.taken (λ x. GoWith kept x × IsTakenBy t op kept x) }
    ensures held { result.1.kind ≡ HELD → IsSome result.0.taken }
    ensures back { result.1.kind ≢ HELD → IsSome result.0.kept }
{
    let it = match op_for(&kept.shared, t, op) {
        Ok(it) => it,
        Err(code) => return (Held::of_pass(kept), plain_reply(code)),
    };
    let Kept {
        shared,
        pass,
        gathered,
    } = kept;
    match shared.start(pass, t, it) {
        Started::Answered(pass, reply) => {
            let kept = Kept {
                shared,
                pass,
                gathered,
            };
            (Held::of_pass(kept), reply_of(reply))
        }
        Started::Busy(pass, _) => {
            let kept = Kept {
                shared,
                pass,
                gathered,
            };
            (Held::of_pass(kept), plain_reply(BUSY))
        }
        Started::Held(claim) => {
            let taken = Taken {
                shared,
                claim: unsafe { ManuallyDrop::new_unchecked(claim) },
                gathered,
            };
            (Held::of_claim(taken), plain_reply(HELD))
        }
    }
}

/// Makes the call of a claim, within so many tries.
fn finished(taken: Taken, tries: u8) -> (Held, NdReply)
    requires { IsWellTaken taken }
    ensures well { IfSome result.0.kept IsWell × IfSome result.0.taken IsWellTaken }
    ensures made { IfSome result.0.kept (λ l. GoWith l taken × IsMade tries result.1 taken l) }
    ensures lost { IfSome result.0.taken (λ x. GoOn taken x × IsUnmade tries taken x) }
    ensures held { result.1.kind ≡ LOST → IsSome result.0.taken }
    ensures back { result.1.kind ≢ LOST → IsSome result.0.kept }
{
    let Taken {
        shared,
        claim,
        gathered,
    } = taken;
    match shared.finish(ManuallyDrop::into_inner(claim), tries) {
        Finished::Done(pass, made) => {
            let kept = Kept {
                shared,
                pass,
                gathered,
            };
            (Held::of_pass(kept), reply_of(made))
        }
        Finished::Held(claim) => {
            let taken = Taken {
                shared,
                claim: unsafe { ManuallyDrop::new_unchecked(claim) },
                gathered,
            };
            (Held::of_claim(taken), plain_reply(LOST))
        }
    }
}

/// Gives the task of a claim back.
fn cancelled(taken: Taken) -> Kept
    requires { IsWellTaken taken }
    ensures well { IsWell result }
    ensures given { GoWith result taken × IsGivenBack taken result }
{
    let Taken {
        shared,
        claim,
        gathered,
    } = taken;
    let pass = shared.cancel(ManuallyDrop::into_inner(claim));
    Kept {
        shared,
        pass,
        gathered,
    }
}

/// The record of a claim's task, in the memory of a task.
fn shown(taken: Taken) -> (Taken, NdTask)
    requires { IsWellTaken taken }
    ensures well { IsWellTaken result.0 }
    ensures same { GoOn taken result.0 × (claim_of result.0 ≡ claim_of taken) }
    ensures shown { IsShown result.1 taken }
{
    let Taken {
        shared,
        claim,
        gathered,
    } = taken;
    let claim = ManuallyDrop::into_inner(claim);
    let task = task_of(&claim.record());
    let taken = Taken {
        shared,
        claim: unsafe { ManuallyDrop::new_unchecked(claim) },
        gathered,
    };
    (taken, task)
}

pub(crate) fn show(held: &mut Held) -> NdTask
    requires { HasTask held.old }
    ensures holds { HasTask held.new }
    ensures shown { StillTook held.old held.new (IsTaskOf result) }
{
    let Some(taken) = held.taken.take() else {
        unreachable!()
    };
    let (taken, task) = shown(taken);
    held.taken = Some(taken);
    task
}

pub(crate) fn start(held: &mut Held, task: u32, op: NdOp) -> NdReply
    requires { Stands held.old }
    ensures holds { result.kind ≡ HELD → HasTask held.new }
    ensures taken { result.kind ≡ HELD → Took held.old held.new (IsTakenBy task op) }
    ensures stands { result.kind ≢ HELD → Stands held.new }
    ensures told { result.kind ≢ HELD → Went held.old held.new (IsTold task op result) }
{
    let Some(kept) = held.kept.take() else {
        unreachable!()
    };
    let (now, reply) = started(kept, task, op);
    *held = now;
    reply
}

pub(crate) fn finish(held: &mut Held, tries: u8) -> NdReply
    requires { HasTask held.old }
    ensures holds { result.kind ≡ LOST → HasTask held.new }
    ensures lost { result.kind ≡ LOST → StillTook held.old held.new (IsUnmade tries) }
    ensures stands { result.kind ≢ LOST → Stands held.new }
    ensures made { result.kind ≢ LOST → CameBack held.old held.new (IsMade tries result) }
{
    let Some(taken) = held.taken.take() else {
        unreachable!()
    };
    let (now, reply) = finished(taken, tries);
    *held = now;
    reply
}

pub(crate) fn cancel(held: &mut Held)
    requires { HasTask held.old }
    ensures stands { Stands held.new }
    ensures given { CameBack held.old held.new IsGivenBack }
{
    let Some(taken) = held.taken.take() else {
        unreachable!()
    };
    held.kept = Some(cancelled(taken));
}
