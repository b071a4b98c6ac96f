//! A book over memory of its caller.

ghost use Rattle.std.specs.Prelude.{◌≡◌, ◌≢◌, ◌<◌, ◌≤◌, ◌^◌, ◌↔◌, ℕ, None, false, length, take, drop, min};
ghost use Rattle.grub_book.specs.Machine.{Machine};
ghost use Rattle.grub_book.specs.Sums.{opening_book};
ghost use Rattle.grub_book.specs.Rebase.{first_held};
ghost use Rattle.library_book.specs.Memory.{records_of, machine_of, IsFlatMachine, IsBook};
ghost use Rattle.library_book.specs.Asked.{plain_reply};
ghost use Rattle.library_book.specs.Answer.{answer, is_op};
ghost use Rattle.library_book.specs.Batch.{answered_all, replies_to};
ghost use Rattle.library_book.specs.Rebase.{rebase_answer};
ghost use Rattle.library_book.specs.Opening.{opening_fault};
ghost use Rattle.library_book.specs.declared.codes.TheConstants.{DONE, NO_TASK, NO_OP, DAMAGED};

use library_book::{
    NdAsk, NdOp, NdReply, NdRunqueue, NdTask, apply, apply_all, open_book, rebase, rebase_limit,
};

/// Makes a book of the reservations and the constants that stand in the memory: every task is away, with the block count
/// 0, a full budget and the deadline 0. It answers 0, or the number of the first fault, 1 to 8; then nothing is written.
#[unsafe(no_mangle)]
pub extern "C" fn nd_open(tasks: &mut [NdTask], queues: &mut [NdRunqueue]) -> u32
    ensures fault { result ≡ opening_fault tasks.old queues.old }
    ensures accepted { (result ≡ DONE) ↔ IsFlatMachine (machine_of tasks.old queues.old) }
    ensures book { result ≡ DONE
        → IsBook (machine_of tasks.old queues.old) tasks.new queues.new }
    ensures records { result ≡ DONE
        → records_of tasks.new ≡ opening_book (machine_of tasks.old queues.old) }
    ensures kept { result ≢ DONE → (tasks.new ≡ tasks.old) × (queues.new ≡ queues.old) }
{
    open_book(tasks, queues)
}

/// Asks an op for a task of a book. On memory that is a book the answer is that of the one-thread book, and the memory is
/// the book after the step: a kind of 9 to 21 refuses, and from 101 on the op was granted. It is 70 where there is no such
/// task, and then 71 where no such op may be asked; 72 says that the memory is no book. Where it is below 101 nothing is
/// written.
#[unsafe(no_mangle)]
pub extern "C" fn nd_apply(
    tasks: &mut [NdTask],
    queues: &mut [NdRunqueue],
    task: u32,
    op: NdOp,
) -> NdReply
    ensures answer { (s : Machine) → IsBook s tasks.old queues.old
        → (records_of tasks.new, result) ≡ answer s (records_of tasks.old) task op }
    ensures book { (s : Machine) → IsBook s tasks.old queues.old
        → IsBook s tasks.new queues.new }
    ensures kept { result.kind < 101 → (tasks.new ≡ tasks.old) × (queues.new ≡ queues.old) }
    ensures no_task { length tasks.old ≤ task → result ≡ plain_reply NO_TASK }
    ensures no_op { task < length tasks.old → is_op (length queues.old) op ≡ false
        → result ≡ plain_reply NO_OP }
{
    apply(tasks, queues, task, op)
}

/// Asks ops one after another, as many as there is room for replies, and answers how many that were. Each is asked and
/// answered as `nd_apply` does; replies past that count are left as they were.
#[unsafe(no_mangle)]
pub extern "C" fn nd_apply_all(
    tasks: &mut [NdTask],
    queues: &mut [NdRunqueue],
    asks: &[NdAsk],
    replies: &mut [NdReply],
) -> usize
    ensures count { result ≡ min (length asks.now) (length replies.old) }
    ensures book { (s : Machine) → IsBook s tasks.old queues.old
        → IsBook s tasks.new queues.new }
    ensures records { (s : Machine) → IsBook s tasks.old queues.old → records_of tasks.new
        ≡ answered_all s (records_of tasks.old) (take result asks.now) }
    ensures replies { (s : Machine) → IsBook s tasks.old queues.old → take result replies.new
        ≡ replies_to s (records_of tasks.old) (take result asks.now) }
    ensures rest { drop result replies.new ≡ drop result replies.old }
{
    apply_all(tasks, queues, asks, replies)
}

/// Moves the origin of time of a book: what was the moment `by` is the moment 0 from then on. Each deadline falls by as much,
/// and is 0 where it was below. The count of a task that waits stays, and that of each other task becomes 0. It is 111 where
/// that was done. 74 refuses it where a contending task's deadline, or a waiting task's 0-lag time, is below `by`, with the
/// number of the first such task. 72 says that the memory is no book. Where the kind is below 101 nothing is written.
#[unsafe(no_mangle)]
pub extern "C" fn nd_rebase(tasks: &mut [NdTask], queues: &mut [NdRunqueue], by: u32) -> NdReply
    ensures answer { (s : Machine) → IsBook s tasks.old queues.old
        → (records_of tasks.new, result) ≡ rebase_answer by (records_of tasks.old) }
    ensures book { (s : Machine) → IsBook s tasks.old queues.old
        → IsBook s tasks.new queues.new }
    ensures queues { queues.new ≡ queues.old }
    ensures kept { result.kind < 101 → tasks.new ≡ tasks.old }
{
    rebase(tasks, queues, by)
}

/// Writes the greatest number by which `nd_rebase` is not refused, and answers 0: the least of the deadlines of contending
/// tasks and of the 0-lag times of waiting ones, and 4294967295 where no task is active. 72 says that the memory is no book;
/// then nothing is written.
#[unsafe(no_mangle)]
pub extern "C" fn nd_rebase_limit(tasks: &[NdTask], queues: &[NdRunqueue], by: &mut u32) -> u32
    ensures done { (s : Machine) → IsBook s tasks.now queues.now → result ≡ DONE }
    ensures damaged { result ≢ DONE → result ≡ DAMAGED }
    ensures value { (s : Machine) (n : ℕ) → IsBook s tasks.now queues.now → n < 2 ^ 32
        → ((first_held n (records_of tasks.now) ≡ None) ↔ (n ≤ by.new)) }
    ensures kept { result ≢ DONE → by.new ≡ by.old }
{
    rebase_limit(tasks, queues, by)
}
