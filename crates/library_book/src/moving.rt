//! Moves of ready tasks from one runqueue to another.

ghost use Rattle.std.specs.Prelude.{◌≡◌, ◌<◌, IfSome, IsNone, IsSome, length};
ghost use Rattle.grub_book.specs.Machine.{Machine};
ghost use Rattle.library_book.specs.Memory.{records_of, IsBook};
ghost use Rattle.library_book.specs.Move.{refused_move, move_step};
ghost use Rattle.library_book.specs.inside.Moves.{IsMoving, IsInside, reply_told};

use crate::asked::NdReply;
use crate::calls::{plain_reply, reply_of};
use crate::memory::{NdRunqueue, NdTask};
use crate::records::{counts, queue_in, record_in};
use grub_book::{Op, Place, Reply, State, runqueue};

/// The kind of a reply that grants a move.
pub const MOVED: u32 = 110;

/// What a move comes to.
#[derive(Clone, Copy)]
pub(crate) enum Outcome {
    Refused(Reply),

    /// The runqueue that the task leaves, and what then stands in its memory and in that of the other.
    Granted {
        from: u32,
        left: NdRunqueue,
        reached: NdRunqueue,
    },
}

/// The reply that the place alone decides.
fn refusal(place: Place, r: u32) -> Option<Reply>
    ensures { result ≡ refused_move r place }
{
    match place {
        Place::Gone => Some(Reply::Gone),
        Place::Away => Some(Reply::NotOn),
        Place::On(from, _) if from == r => Some(Reply::AlreadyOn(from)),
        Place::On(_, State::Contending) => None,
        Place::On(_, _) => Some(Reply::NotContending),
    }
}

/// What comes of a move of task `t` to runqueue `r`, which are there. None where the memory is no book.
pub(crate) fn moving(tasks: &[NdTask], queues: &[NdRunqueue], t: u32, r: u32) -> Option<Outcome>
    requires task { t < length tasks.now }
    requires queue { r < length queues.now }
    ensures book { (s : Machine) → IsBook s tasks.now queues.now
        → IfSome result (λ m. IsMoving s tasks.now queues.now t r m) }
    ensures some { (s : Machine) → IsBook s tasks.now queues.now → IsSome result }
    ensures inside { IfSome result (λ m. IsInside (length queues.now) m) }
{
    let held = record_in(&tasks[t as usize])?;
    if let Some(reply) = refusal(held.place, r) {
        return Some(Outcome::Refused(reply));
    }
    let from = runqueue(held.place, Op::Leave);
    if from as usize >= queues.len() {
        return None;
    }
    let (_, here) = queue_in(&queues[from as usize])?;
    let (queue, there) = queue_in(&queues[r as usize])?;
    let bw = held.params.bw();
    if bw > here.running || bw > here.this {
        return None;
    }
    if there.this + bw > queue.umax() {
        return Some(Outcome::Refused(Reply::Full));
    }
    Some(Outcome::Granted {
        from,
        left: NdRunqueue {
            running_bw: here.running - bw,
            this_bw: here.this - bw,
            ..queues[from as usize]
        },
        reached: NdRunqueue {
            running_bw: there.running + bw,
            this_bw: there.this + bw,
            ..queues[r as usize]
        },
    })
}

/// The reply to a move.
pub(crate) fn reply_told(outcome: &Outcome) -> NdReply
    ensures { result ≡ reply_told outcome.now }
{
    match *outcome {
        Outcome::Refused(reply) => reply_of(reply),
        Outcome::Granted { from, .. } => NdReply {
            number: from,
            ..plain_reply(MOVED)
        },
    }
}

/// Moves task `t` to runqueue `r`, which are there. None where the memory is no book; then, and where the reply refuses,
/// nothing is written.
pub(crate) fn moved(
    tasks: &mut [NdTask],
    queues: &mut [NdRunqueue],
    t: u32,
    r: u32,
) -> Option<NdReply>
    requires task { t < length tasks.old }
    requires queue { r < length queues.old }
    ensures step { (s : Machine) → IsBook s tasks.old queues.old
        → IfSome result (λ reply. (records_of tasks.new, reply)
        ≡ move_step s (records_of tasks.old) t r) }
    ensures book { (s : Machine) → IsBook s tasks.old queues.old
        → IsBook s tasks.new queues.new }
    ensures some { (s : Machine) → IsBook s tasks.old queues.old → IsSome result }
    ensures none { IsNone result → (tasks.new ≡ tasks.old) × (queues.new ≡ queues.old) }
    ensures kept { IfSome result (λ reply. reply.kind < 101
        → (tasks.new ≡ tasks.old) × (queues.new ≡ queues.old)) }
{
    let outcome = moving(tasks, queues, t, r)?;
    let reply = reply_told(&outcome);
    if let Outcome::Granted {
        from,
        left,
        reached,
    } = outcome
    {
        queues[from as usize] = left;
        queues[r as usize] = reached;
        let at = t as usize;
        tasks[at] = NdTask {
            queue: r,
            ..tasks[at]
        };
    }
    Some(reply)
}
