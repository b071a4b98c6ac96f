//! Many ops, one after another.

ghost use Rattle.std.specs.Prelude.{◌≡◌, length, take, drop, min};
ghost use Rattle.grub_book.specs.Machine.{Machine};
ghost use Rattle.library_book.specs.Memory.{records_of, IsBook};
ghost use Rattle.library_book.specs.Batch.{answered_all, replies_to};

use crate::asked::{NdAsk, NdReply};
use crate::memory::{NdRunqueue, NdTask};
use crate::steps::apply;

/// Asks ops one after another, as many as there is room for replies, and answers how many that were. Each is asked and
/// answered as `apply` does; replies past that count are left as they were.
pub fn apply_all(
    tasks: &mut [NdTask],
    queues: &mut [NdRunqueue],
    asks: &[NdAsk],
    replies: &mut [NdReply],
) -> usize
    ensures count { result ≡ min (length asks.now) (length replies.old) }
    ensures book { (s : Machine) → IsBook s tasks.old queues.old
        → IsBook s tasks.new queues.new }
    ensures records { (s : Machine) → IsBook s tasks.old queues.old → records_of tasks.new
        ≡ answered_all s (records_of tasks.old) (take result asks.now) }
    ensures replies { (s : Machine) → IsBook s tasks.old queues.old → take result replies.new
        ≡ replies_to s (records_of tasks.old) (take result asks.now) }
    ensures rest { drop result replies.new ≡ drop result replies.old }
{
    let count = asks.len().min(replies.len());
    for i in 0..count {
        let NdAsk { task, op } = asks[i];
        replies[i] = apply(tasks, queues, task, op);
    }
    count
}
