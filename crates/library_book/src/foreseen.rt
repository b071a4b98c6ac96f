//! What a book would answer, without a step.

ghost use Rattle.std.specs.Prelude.{◌≡◌, ◌<◌, IfSome, IsSome, [], length};
ghost use Rattle.grub_book.specs.Machine.{Machine};
ghost use Rattle.grub_book.specs.Op.{IsOp};
ghost use Rattle.grub_book.specs.Step.{step};
ghost use Rattle.library_book.specs.Memory.{records_of, machine_of, IsBook};
ghost use Rattle.library_book.specs.Answer.{answer, answer_else};

use crate::asked::{NdOp, NdReply};
use crate::calls::{fits, is_move, op_of, plain_reply, reply_of};
use crate::codes::{DAMAGED, NO_OP, NO_TASK};
use crate::memory::{NdRunqueue, NdTask};
use crate::moving::{moving, reply_told};
use crate::records::{queue_in, record_in};
use grub_book::{Op, Reply, refusal, runqueue, settle};

/// The reply to an op that may be asked for task `t`, of which there is one. None where the memory is no book.
fn reply_to(tasks: &[NdTask], queues: &[NdRunqueue], t: u32, op: Op) -> Option<Reply>
    requires task { t < length tasks.now }
    requires fits { IsOp (machine_of [] queues.now) op }
    ensures reply { (s : Machine) → IsBook s tasks.now queues.now
        → IfSome result (λ reply. reply ≡ (step s (records_of tasks.now) t op).1) }
    ensures some { (s : Machine) → IsBook s tasks.now queues.now → IsSome result }
{
    let held = record_in(&tasks[t as usize])?;
    if let Some(reply) = refusal(held.place, held.count, op) {
        return Some(reply);
    }
    let on = runqueue(held.place, op) as usize;
    if on >= queues.len() {
        return None;
    }
    let (queue, now) = queue_in(&queues[on])?;
    let (_, reply) = settle(held, queue, now, op);
    Some(reply)
}

/// The reply to what is no op of the one-thread book, for a task that is there.
fn reply_else(tasks: &[NdTask], queues: &[NdRunqueue], t: u32, op: NdOp) -> NdReply
    requires { t < length tasks.now }
    ensures { (s : Machine) → IsBook s tasks.now queues.now
        → result ≡ (answer_else s (records_of tasks.now) t op).1 }
{
    if !is_move(op, queues) {
        return plain_reply(NO_OP);
    }
    match moving(tasks, queues, t, op.a) {
        Some(it) => reply_told(&it),
        None => plain_reply(DAMAGED),
    }
}

/// What `apply` would answer of a book.
pub(crate) fn foreseen(tasks: &[NdTask], queues: &[NdRunqueue], task: u32, op: NdOp) -> NdReply
    ensures { (s : Machine) → IsBook s tasks.now queues.now
        → result ≡ (answer s (records_of tasks.now) task op).1 }
{
    if task as usize >= tasks.len() {
        return plain_reply(NO_TASK);
    }
    match op_of(op) {
        Some(it) if fits(it, queues) => match reply_to(tasks, queues, task, it) {
            Some(reply) => reply_of(reply),
            None => plain_reply(DAMAGED),
        },
        Some(_) => plain_reply(NO_OP),
        None => reply_else(tasks, queues, task, op),
    }
}
