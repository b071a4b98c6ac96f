//! The steps of a book over memory of its caller.

ghost use Rattle.std.specs.Prelude.{◌≡◌, ◌<◌, ◌≤◌, false, IfSome, IsNone, IsTrue, IsSome, [], length};
ghost use Rattle.grub_book.specs.Machine.{Machine};
ghost use Rattle.grub_book.specs.Op.{IsOp};
ghost use Rattle.grub_book.specs.Step.{step, Refuses, is_under_claim};
ghost use Rattle.library_book.specs.Memory.{records_of, machine_of, IsBook};
ghost use Rattle.grub_book.specs.declared.op.Op.{Op};
ghost use Rattle.library_book.specs.Asked.{plain_reply};
ghost use Rattle.library_book.specs.Answer.{answer, answer_else, is_op, is_move};

use crate::asked::{NdOp, NdReply};
use crate::calls::{fits, is_move, op_of, plain_reply, reply_of};
use crate::codes::{DAMAGED, NO_OP, NO_TASK};
use crate::memory::{NdRunqueue, NdTask};
use crate::moving::moved;
use crate::records::{counts, queue_in, record_in, shifted, task_of, waits_until};
use grub_book::{Op, Reply, refusal, runqueue, settle};

/// Asks an op that may be asked for task `t`, of which there is one. None where the memory is no book; then, and where the
/// reply refuses, nothing is written.
#[inline(always)]
pub(crate) fn asked(
    tasks: &mut [NdTask],
    queues: &mut [NdRunqueue],
    t: u32,
    op: Op,
) -> Option<Reply>
    requires task { t < length tasks.old }
    requires fits { IsOp (machine_of [] queues.old) op }
    ensures step { (s : Machine) → IsBook s tasks.old queues.old
        → IfSome result (λ reply. (records_of tasks.new, reply)
        ≡ step s (records_of tasks.old) t op) }
    ensures book { (s : Machine) → IsBook s tasks.old queues.old
        → IsBook s tasks.new queues.new }
    ensures some { (s : Machine) → IsBook s tasks.old queues.old → IsSome result }
    ensures none { IsNone result → (tasks.new ≡ tasks.old) × (queues.new ≡ queues.old) }
    ensures kept { IfSome result (λ reply. Refuses reply
        → (tasks.new ≡ tasks.old) × (queues.new ≡ queues.old)) }
{
    match op {
        Op::Charge { r, dt } => charged(tasks, queues, t, r, dt),
        Op::Block { r, m } => blocked(tasks, queues, t, r, m),
        Op::Timer { ticket, m } => stepped(tasks, queues, t, Op::Timer { ticket, m }),
        Op::Wake { r, m } => stepped(tasks, queues, t, Op::Wake { r, m }),
        Op::Join { r, m } => joined(tasks, queues, t, r, m),
        Op::Leave => left(tasks, queues, t),
        _ => seldom(tasks, queues, t, op),
    }
}

/// `asked` of a charge, which changes no sum, and of its task the server alone. Charges are what is asked most.
#[inline(always)]
fn charged(
    tasks: &mut [NdTask],
    queues: &mut [NdRunqueue],
    t: u32,
    r: u32,
    dt: u32,
) -> Option<Reply>
    requires task { t < length tasks.old }
    requires fits { IsOp (machine_of [] queues.old) (Op.Charge r dt) }
    ensures step { (s : Machine) → IsBook s tasks.old queues.old
        → IfSome result (λ reply. (records_of tasks.new, reply)
        ≡ step s (records_of tasks.old) t (Op.Charge r dt)) }
    ensures book { (s : Machine) → IsBook s tasks.old queues.old
        → IsBook s tasks.new queues.new }
    ensures some { (s : Machine) → IsBook s tasks.old queues.old → IsSome result }
    ensures none { IsNone result → (tasks.new ≡ tasks.old) × (queues.new ≡ queues.old) }
    ensures kept { IfSome result (λ reply. Refuses reply
        → (tasks.new ≡ tasks.old) × (queues.new ≡ queues.old)) }
{
    let at = t as usize;
    let op = Op::Charge { r, dt };
    let held = record_in(&tasks[at])?;
    if let Some(reply) = refusal(held.place, held.count, op) {
        return Some(reply);
    }
    let (queue, now) = queue_in(&queues[r as usize])?;
    let (next, reply) = settle(held, queue, now, op);
    if refuses(reply) {
        return Some(reply);
    }
    let task = &mut tasks[at];
    task.budget = next.server.q;
    task.deadline = next.server.d;
    Some(reply)
}

/// `asked` of a block. Where it waits, as it mostly does, no sum changes, and no bandwidth is wanted.
#[inline(always)]
fn blocked(tasks: &mut [NdTask], queues: &mut [NdRunqueue], t: u32, r: u32, m: u32) -> Option<Reply>
    requires task { t < length tasks.old }
    requires fits { IsOp (machine_of [] queues.old) (Op.Block r m) }
    ensures step { (s : Machine) → IsBook s tasks.old queues.old
        → IfSome result (λ reply. (records_of tasks.new, reply)
        ≡ step s (records_of tasks.old) t (Op.Block r m)) }
    ensures book { (s : Machine) → IsBook s tasks.old queues.old
        → IsBook s tasks.new queues.new }
    ensures some { (s : Machine) → IsBook s tasks.old queues.old → IsSome result }
    ensures none { IsNone result → (tasks.new ≡ tasks.old) × (queues.new ≡ queues.old) }
    ensures kept { IfSome result (λ reply. Refuses reply
        → (tasks.new ≡ tasks.old) × (queues.new ≡ queues.old)) }
{
    let at = t as usize;
    if let Some(z) = waits_until(&tasks[at], r, m) {
        let task = &mut tasks[at];
        let count = task.count + 1;
        task.count = count;
        task.state = 2;
        return Some(Reply::Waiting { ticket: count, z });
    }
    stepped(tasks, queues, t, Op::Block { r, m })
}

/// `asked` of a join, by a code of its own: what it calls is not made part of its caller.
#[inline(never)]
fn joined(tasks: &mut [NdTask], queues: &mut [NdRunqueue], t: u32, r: u32, m: u32) -> Option<Reply>
    requires task { t < length tasks.old }
    requires fits { IsOp (machine_of [] queues.old) (Op.Join r m) }
    ensures step { (s : Machine) → IsBook s tasks.old queues.old
        → IfSome result (λ reply. (records_of tasks.new, reply)
        ≡ step s (records_of tasks.old) t (Op.Join r m)) }
    ensures book { (s : Machine) → IsBook s tasks.old queues.old
        → IsBook s tasks.new queues.new }
    ensures some { (s : Machine) → IsBook s tasks.old queues.old → IsSome result }
    ensures none { IsNone result → (tasks.new ≡ tasks.old) × (queues.new ≡ queues.old) }
    ensures kept { IfSome result (λ reply. Refuses reply
        → (tasks.new ≡ tasks.old) × (queues.new ≡ queues.old)) }
{
    stepped(tasks, queues, t, Op::Join { r, m })
}

/// `asked` of a leave, likewise.
#[inline(never)]
fn left(tasks: &mut [NdTask], queues: &mut [NdRunqueue], t: u32) -> Option<Reply>
    requires task { t < length tasks.old }
    requires fits { IsOp (machine_of [] queues.old) Op.Leave }
    ensures step { (s : Machine) → IsBook s tasks.old queues.old
        → IfSome result (λ reply. (records_of tasks.new, reply)
        ≡ step s (records_of tasks.old) t Op.Leave) }
    ensures book { (s : Machine) → IsBook s tasks.old queues.old
        → IsBook s tasks.new queues.new }
    ensures some { (s : Machine) → IsBook s tasks.old queues.old → IsSome result }
    ensures none { IsNone result → (tasks.new ≡ tasks.old) × (queues.new ≡ queues.old) }
    ensures kept { IfSome result (λ reply. Refuses reply
        → (tasks.new ≡ tasks.old) × (queues.new ≡ queues.old)) }
{
    stepped(tasks, queues, t, Op::Leave)
}

/// `asked` of an op that is asked seldom, by one code for all.
fn seldom(tasks: &mut [NdTask], queues: &mut [NdRunqueue], t: u32, op: Op) -> Option<Reply>
    requires task { t < length tasks.old }
    requires fits { IsOp (machine_of [] queues.old) op }
    ensures step { (s : Machine) → IsBook s tasks.old queues.old
        → IfSome result (λ reply. (records_of tasks.new, reply)
        ≡ step s (records_of tasks.old) t op) }
    ensures book { (s : Machine) → IsBook s tasks.old queues.old
        → IsBook s tasks.new queues.new }
    ensures some { (s : Machine) → IsBook s tasks.old queues.old → IsSome result }
    ensures none { IsNone result → (tasks.new ≡ tasks.old) × (queues.new ≡ queues.old) }
    ensures kept { IfSome result (λ reply. Refuses reply
        → (tasks.new ≡ tasks.old) × (queues.new ≡ queues.old)) }
{
    stepped(tasks, queues, t, op)
}

/// `asked` of any op. Where the op's kind is known, what other kinds want is no part of the code.
#[inline(always)]
fn stepped(tasks: &mut [NdTask], queues: &mut [NdRunqueue], t: u32, op: Op) -> Option<Reply>
    requires task { t < length tasks.old }
    requires fits { IsOp (machine_of [] queues.old) op }
    ensures step { (s : Machine) → IsBook s tasks.old queues.old
        → IfSome result (λ reply. (records_of tasks.new, reply)
        ≡ step s (records_of tasks.old) t op) }
    ensures book { (s : Machine) → IsBook s tasks.old queues.old
        → IsBook s tasks.new queues.new }
    ensures some { (s : Machine) → IsBook s tasks.old queues.old → IsSome result }
    ensures none { IsNone result → (tasks.new ≡ tasks.old) × (queues.new ≡ queues.old) }
    ensures kept { IfSome result (λ reply. Refuses reply
        → (tasks.new ≡ tasks.old) × (queues.new ≡ queues.old)) }
{
    let at = t as usize;
    let held = record_in(&tasks[at])?;
    if let Some(reply) = refusal(held.place, held.count, op) {
        return Some(reply);
    }
    let r = runqueue(held.place, op);
    let on = r as usize;
    if on >= queues.len() {
        return None;
    }
    let (queue, now) = queue_in(&queues[on])?;
    let bw = held.params.bw();
    if !counts(now, r, &held, bw) {
        return None;
    }
    let (next, reply) = settle(held, queue, now, op);
    if refuses(reply) {
        return Some(reply);
    }
    let new = shifted(now, r, &held, &next, bw);
    let cell = &mut queues[on];
    cell.running_bw = new.running;
    cell.this_bw = new.this;
    tasks[at] = task_of(&next);
    Some(reply)
}

/// Whether the reply refuses, after the place, the count and the ticket did not.
fn refuses(reply: Reply) -> bool
    ensures late { IsTrue result → Refuses reply }
    ensures all { result ≡ false → Refuses reply → is_under_claim reply ≡ false }
{
    matches!(
        reply,
        Reply::Early(_) | Reply::Full | Reply::DeadlineOverflow
    )
}

/// `apply` of what is no op of the one-thread book, for a task that is there: a move, or nothing. It is asked seldom.
#[inline(never)]
fn moved_or_not(tasks: &mut [NdTask], queues: &mut [NdRunqueue], t: u32, op: NdOp) -> NdReply
    requires { t < length tasks.old }
    ensures answer { (s : Machine) → IsBook s tasks.old queues.old
        → (records_of tasks.new, result) ≡ answer_else s (records_of tasks.old) t op }
    ensures book { (s : Machine) → IsBook s tasks.old queues.old
        → IsBook s tasks.new queues.new }
    ensures kept { result.kind < 101 → (tasks.new ≡ tasks.old) × (queues.new ≡ queues.old) }
    ensures no_op { is_move (length queues.old) op ≡ false → result ≡ plain_reply NO_OP }
{
    if !is_move(op, queues) {
        return plain_reply(NO_OP);
    }
    match moved(tasks, queues, t, op.a) {
        Some(reply) => reply,
        None => plain_reply(DAMAGED),
    }
}

/// Asks an op for a task of a book. On memory that is a book the answer is that of the one-thread book, and the memory is
/// the book after the step: a kind of 9 to 21 refuses, and from 101 on the op was granted. It is 70 where there is no such
/// task, and then 71 where no such op may be asked; 72 says that the memory is no book. Where it is below 101 nothing is
/// written.
#[inline(always)]
pub fn apply(tasks: &mut [NdTask], queues: &mut [NdRunqueue], task: u32, op: NdOp) -> NdReply
    ensures answer { (s : Machine) → IsBook s tasks.old queues.old
        → (records_of tasks.new, result) ≡ answer s (records_of tasks.old) task op }
    ensures book { (s : Machine) → IsBook s tasks.old queues.old
        → IsBook s tasks.new queues.new }
    ensures kept { result.kind < 101 → (tasks.new ≡ tasks.old) × (queues.new ≡ queues.old) }
    ensures no_task { length tasks.old ≤ task → result ≡ plain_reply NO_TASK }
    ensures no_op { task < length tasks.old → is_op (length queues.old) op ≡ false
        → result ≡ plain_reply NO_OP }
{
    if task as usize >= tasks.len() {
        return plain_reply(NO_TASK);
    }
    match op_of(op) {
        Some(it) if fits(it, queues) => match asked(tasks, queues, task, it) {
            Some(reply) => reply_of(reply),
            None => plain_reply(DAMAGED),
        },
        Some(_) => plain_reply(NO_OP),
        None => moved_or_not(tasks, queues, task, op),
    }
}
