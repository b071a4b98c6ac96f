//! A call of one pass, from its start to its end.

ghost use Rattle.std.specs.Prelude.{◌≡◌, ◌<◌, ◌≤◌, ◌⊎◌, length, Some, IfOk, IfErr};
ghost use Rattle.grub_book.specs.Op.{IsOp};
ghost use Rattle.grub_book.specs.declared.op.Op.{Op};
ghost use Rattle.library_book.specs.Asked.{op_of};
ghost use Rattle.grub_table.specs.Calls.{terms, IsPassOf};
ghost use Rattle.neddwyrol_table.specs.Called.{WasCalled};
ghost use Rattle.neddwyrol_table.specs.inside.Answered.{AnswersAsk, AnswersOp, IsMadeBy, IsNotMadeBy};

use grub_book::Op;
use grub_table::{Finished, Pass, Shared, Started};
use library_book::{NO_OP, NO_TASK, NdOp, NdReply, op_of, plain_reply, reply_of};

/// Another pass has the task, or changed it meanwhile.
pub const BUSY: u32 = 50;

/// The pass has the task, and the call is to be finished or cancelled.
pub const HELD: u32 = 100;

/// All tries were lost, each to a change of the runqueue's sums; the task was given back.
pub const LOST: u32 = 52;

/// Makes a call, where there is such a task and op. Each kind of op has a function of its own, in which nothing of another
/// stands: the kind is looked at once.
#[inline(always)]
#[tactic(auto, using(crate::proofs::Calling::answers_ask))]
pub(crate) fn ask(shared: &Shared, pass: Pass, t: u32, op: NdOp, tries: u8) -> (Pass, NdReply)
    requires { IsPassOf shared.now pass }
    ensures of { IsPassOf shared.now result.0 }
    ensures answered { AnswersAsk shared.now t op tries result.1 pass result.0 }
{
    if !shared.has_task(t) {
        return (pass, plain_reply(NO_TASK));
    }
    match op_of(op) {
        Some(Op::Charge { r, dt }) => charge(shared, pass, t, r, dt, tries),
        Some(Op::Block { r, m }) => block(shared, pass, t, r, m, tries),
        Some(Op::Timer { ticket, m }) => timer(shared, pass, t, ticket, m, tries),
        Some(Op::Wake { r, m }) => wake(shared, pass, t, r, m, tries),
        Some(Op::Join { r, m }) => join(shared, pass, t, r, m, tries),
        Some(Op::Leave) => leave(shared, pass, t, tries),
        Some(it) => seldom(shared, pass, t, it, tries),
        None => (pass, plain_reply(NO_OP)),
    }
}

/// A call by `start`, `finish` and, where all tries were lost, `cancel`.
#[inline(always)]
fn made(shared: &Shared, pass: Pass, t: u32, op: Op, tries: u8) -> (Pass, NdReply)
    requires of { IsPassOf shared.now pass }
    requires task { t < length (terms shared.now).setup.tasks }
    requires op { IsOp (terms shared.now).setup op }
    ensures of { IsPassOf shared.now result.0 }
    ensures made { IsMadeBy t op result.1 pass result.0 ⊎ IsNotMadeBy result.1 pass result.0 }
    ensures called { WasCalled shared.now pass t op tries result.1 result.0 }
{
    match shared.start(pass, t, op) {
        Started::Answered(pass, reply) => (pass, reply_of(reply)),
        Started::Busy(pass, _) => (pass, plain_reply(BUSY)),
        Started::Held(claim) => match shared.finish(claim, tries) {
            Finished::Done(pass, reply) => (pass, reply_of(reply)),
            Finished::Held(claim) => (shared.cancel(claim), plain_reply(LOST)),
        },
    }
}

/// Makes the call of an op, where it may be asked.
#[inline(always)]
fn answered(shared: &Shared, pass: Pass, t: u32, op: Op, tries: u8) -> (Pass, NdReply)
    requires of { IsPassOf shared.now pass }
    requires task { t < length (terms shared.now).setup.tasks }
    ensures of { IsPassOf shared.now result.0 }
    ensures answered { AnswersOp shared.now t op tries result.1 pass result.0 }
{
    if shared.fits(&op) {
        made(shared, pass, t, op, tries)
    } else {
        (pass, plain_reply(NO_OP))
    }
}

/// A charge.
fn charge(shared: &Shared, pass: Pass, t: u32, r: u32, dt: u32, tries: u8) -> (Pass, NdReply)
    requires of { IsPassOf shared.now pass }
    requires task { t < length (terms shared.now).setup.tasks }
    ensures of { IsPassOf shared.now result.0 }
    ensures answered { AnswersOp shared.now t (Op.Charge r dt) tries result.1 pass result.0 }
{
    answered(shared, pass, t, Op::Charge { r, dt }, tries)
}

/// A block.
fn block(shared: &Shared, pass: Pass, t: u32, r: u32, m: u32, tries: u8) -> (Pass, NdReply)
    requires of { IsPassOf shared.now pass }
    requires task { t < length (terms shared.now).setup.tasks }
    ensures of { IsPassOf shared.now result.0 }
    ensures answered { AnswersOp shared.now t (Op.Block r m) tries result.1 pass result.0 }
{
    answered(shared, pass, t, Op::Block { r, m }, tries)
}

/// A timer.
fn timer(shared: &Shared, pass: Pass, t: u32, ticket: u32, m: u32, tries: u8) -> (Pass, NdReply)
    requires of { IsPassOf shared.now pass }
    requires task { t < length (terms shared.now).setup.tasks }
    ensures of { IsPassOf shared.now result.0 }
    ensures answered { AnswersOp shared.now t (Op.Timer ticket m) tries result.1 pass result.0 }
{
    answered(shared, pass, t, Op::Timer { ticket, m }, tries)
}

/// A wake.
fn wake(shared: &Shared, pass: Pass, t: u32, r: u32, m: u32, tries: u8) -> (Pass, NdReply)
    requires of { IsPassOf shared.now pass }
    requires task { t < length (terms shared.now).setup.tasks }
    ensures of { IsPassOf shared.now result.0 }
    ensures answered { AnswersOp shared.now t (Op.Wake r m) tries result.1 pass result.0 }
{
    answered(shared, pass, t, Op::Wake { r, m }, tries)
}

/// A join.
fn join(shared: &Shared, pass: Pass, t: u32, r: u32, m: u32, tries: u8) -> (Pass, NdReply)
    requires of { IsPassOf shared.now pass }
    requires task { t < length (terms shared.now).setup.tasks }
    ensures of { IsPassOf shared.now result.0 }
    ensures answered { AnswersOp shared.now t (Op.Join r m) tries result.1 pass result.0 }
{
    answered(shared, pass, t, Op::Join { r, m }, tries)
}

/// A leave.
fn leave(shared: &Shared, pass: Pass, t: u32, tries: u8) -> (Pass, NdReply)
    requires of { IsPassOf shared.now pass }
    requires task { t < length (terms shared.now).setup.tasks }
    ensures of { IsPassOf shared.now result.0 }
    ensures answered { AnswersOp shared.now t Op.Leave tries result.1 pass result.0 }
{
    answered(shared, pass, t, Op::Leave, tries)
}

/// An op that is asked seldom, by one code for all.
fn seldom(shared: &Shared, pass: Pass, t: u32, op: Op, tries: u8) -> (Pass, NdReply)
    requires of { IsPassOf shared.now pass }
    requires task { t < length (terms shared.now).setup.tasks }
    ensures of { IsPassOf shared.now result.0 }
    ensures answered { AnswersOp shared.now t op tries result.1 pass result.0 }
{
    answered(shared, pass, t, op, tries)
}

/// What may be asked for a task, or the number of why it may not.
#[inline(always)]
pub(crate) fn op_for(shared: &Shared, t: u32, op: NdOp) -> Result<Op, u32>
    ensures found { IfOk result (λ it. (t < length (terms shared.now).setup.tasks)
        × (op_of op ≡ Some it) × IsOp (terms shared.now).setup it) }
    ensures none { IfErr result (λ code.
        ((length (terms shared.now).setup.tasks ≤ t) × (code ≡ NO_TASK))
        ⊎ ((t < length (terms shared.now).setup.tasks)
        × ((it : Op) → op_of op ≡ Some it → ¬ IsOp (terms shared.now).setup it)
        × (code ≡ NO_OP))) }
{
    if !shared.has_task(t) {
        return Err(NO_TASK);
    }
    match op_of(op) {
        Some(it) if shared.fits(&it) => Ok(it),
        _ => Err(NO_OP),
    }
}
