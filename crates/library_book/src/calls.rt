//! Ops and replies in plain numbers.

ghost use Rattle.std.specs.Prelude.{◌≡◌, ◌↔◌, IsTrue, [], length};
ghost use Rattle.grub_book.specs.Op.{IsOp};
ghost use Rattle.library_book.specs.Memory.{machine_of};
ghost use Rattle.library_book.specs.Asked.{op_of, op_fits, reply_of, plain_reply};
ghost use Rattle.library_book.specs.Answer.{is_op, is_move};

use crate::asked::{MOVE, NdOp, NdReply};
use crate::memory::NdRunqueue;
use grub_book::{MOMENT_MAX, Op, Params, RUN_MAX, Reply};

/// The op that is asked, where there is one of this kind.
pub fn op_of(op: NdOp) -> Option<Op>
    ensures { result ≡ op_of op }
{
    let NdOp { kind, a, b } = op;
    match kind {
        1 => Some(Op::Join { r: a, m: b }),
        2 => Some(Op::Wake { r: a, m: b }),
        3 => Some(Op::Block { r: a, m: b }),
        4 => Some(Op::Leave),
        5 => Some(Op::Timer { ticket: a, m: b }),
        6 => Some(Op::Exit),
        7 => Some(Op::Charge { r: a, dt: b }),
        8 => Some(Op::Retune { q: a, p: b }),
        _ => None,
    }
}

/// Whether the op's runqueue is there, and its numbers are within the limits.
pub(crate) fn fits(op: Op, queues: &[NdRunqueue]) -> bool
    ensures test { result ≡ op_fits (length queues.now) op }
    ensures fits { IsTrue result ↔ IsOp (machine_of [] queues.now) op }
{
    match op {
        Op::Join { r, m } | Op::Wake { r, m } | Op::Block { r, m } => {
            (r as usize) < queues.len() && m <= MOMENT_MAX
        }
        Op::Leave | Op::Exit => true,
        Op::Timer { m, .. } => m <= MOMENT_MAX,
        Op::Retune { q, p } => Params::fits(q, p),
        Op::Charge { r, dt } => (r as usize) < queues.len() && 1 <= dt && dt <= RUN_MAX,
    }
}

/// Whether it is a move to a runqueue that is there.
pub(crate) fn is_move(op: NdOp, queues: &[NdRunqueue]) -> bool
    ensures { result ≡ is_move (length queues.now) op }
{
    op.kind == MOVE && (op.a as usize) < queues.len()
}

/// Whether there is such an op, its runqueue is there, and its numbers are within the limits.
pub(crate) fn may_ask(op: NdOp, queues: &[NdRunqueue]) -> bool
    ensures { result ≡ is_op (length queues.now) op }
{
    let is_step = match op_of(op) {
        Some(it) => fits(it, queues),
        None => false,
    };
    is_step || is_move(op, queues)
}

/// A reply of this kind, without numbers.
pub fn plain_reply(kind: u32) -> NdReply
    ensures { result ≡ plain_reply kind }
{
    NdReply {
        kind,
        number: 0,
        budget: 0,
        deadline: 0,
        charged: 0,
    }
}

fn reply_with(kind: u32, number: u32, budget: u32, deadline: u32) -> NdReply
    ensures { result ≡ record (plain_reply kind)
        { number = number; budget = budget; deadline = deadline } }
{
    NdReply {
        kind,
        number,
        budget,
        deadline,
        charged: 0,
    }
}

/// A reply of the book in plain numbers.
#[inline(always)]
pub fn reply_of(reply: Reply) -> NdReply
    ensures { result ≡ reply_of reply }
{
    match reply {
        Reply::Joined { q, d } => reply_with(101, 0, q, d),
        Reply::Woken { q, d } => reply_with(102, 0, q, d),
        Reply::Waiting { ticket, z } => reply_with(103, ticket, 0, z),
        Reply::Asleep => plain_reply(104),
        Reply::Left { r } => reply_with(105, r, 0, 0),
        Reply::Retired => plain_reply(106),
        Reply::Ended => plain_reply(107),
        Reply::Charged { k, q, d, dq } => NdReply {
            kind: 108,
            number: k,
            budget: q,
            deadline: d,
            charged: dq,
        },
        Reply::Retuned => plain_reply(109),
        Reply::Gone => plain_reply(9),
        Reply::NotOn => plain_reply(10),
        Reply::AlreadyOn(r) => reply_with(11, r, 0, 0),
        Reply::Elsewhere(r) => reply_with(12, r, 0, 0),
        Reply::AlreadyContending => plain_reply(13),
        Reply::NotContending => plain_reply(14),
        Reply::StillContending => plain_reply(15),
        Reply::StillActive => plain_reply(16),
        Reply::Worn => plain_reply(17),
        Reply::Stale => plain_reply(18),
        Reply::Early(z) => reply_with(19, 0, 0, z),
        Reply::Full => plain_reply(20),
        Reply::DeadlineOverflow => plain_reply(21),
    }
}
