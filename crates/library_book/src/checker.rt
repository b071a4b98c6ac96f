//! A checker of recorded histories, which takes no memory.

ghost use Rattle.std.specs.Prelude.{◌≡◌, ◌+◌, ◌<◌, ◌≤◌, false, length, take, IsTrue};
ghost use Rattle.grub_book.specs.Machine.{Machine};
ghost use Rattle.library_book.specs.Memory.{records_of, IsBook};
ghost use Rattle.library_book.specs.Recorded.{IsAnswered, IsRead, IsRebase, IsOfBook, IsRecordedFrom, book_after, book_recorded};

use crate::asked::NdEvent;
use crate::calls::may_ask;
use crate::foreseen::foreseen;
use crate::memory::{NdRunqueue, NdTask};
use crate::rebasing::{foreseen_rebase, rebase};
use crate::steps::apply;

/// The kind of an event that is a call.
pub const CALL: u32 = 1;

/// The kind of an event that is a reading.
pub const READING: u32 = 2;

/// The kind of an event that is a rebase.
pub const REBASE: u32 = 3;

/// How many events of a recorded history the book in this memory gives: the index of the first that is out of range or is
/// not what the book replies or reads, else their number. The memory becomes the book after the events that are counted;
/// the call or rebase at that index is not made.
pub fn check(tasks: &mut [NdTask], queues: &mut [NdRunqueue], events: &[NdEvent]) -> usize
    ensures within { result ≤ length events.now }
    ensures legal { (s : Machine) → IsBook s tasks.old queues.old
        → IsRecordedFrom s (records_of tasks.old) (take result events.now) }
    ensures stops { (s : Machine) → IsBook s tasks.old queues.old → result < length events.now
        → ¬ IsRecordedFrom s (records_of tasks.old) (take (result + 1) events.now) }
    ensures book { (s : Machine) → IsBook s tasks.old queues.old
        → IsBook s tasks.new queues.new }
    ensures after { (s : Machine) → IsBook s tasks.old queues.old → records_of tasks.new
        ≡ book_recorded s (records_of tasks.old) (take result events.now) }
{
    for i in 0..events.len() {
        if !follows(tasks, queues, &events[i]) {
            return i;
        }
    }
    events.len()
}

/// Whether an event is the book's, which then is the one after it; else nothing is written.
fn follows(tasks: &mut [NdTask], queues: &mut [NdRunqueue], event: &NdEvent) -> bool
    ensures book { (s : Machine) → IsBook s tasks.old queues.old
        → IsBook s tasks.new queues.new }
    ensures yes { (s : Machine) → IsBook s tasks.old queues.old → IsTrue result
        → IsOfBook s (records_of tasks.old) event.now
        × (records_of tasks.new ≡ book_after s (records_of tasks.old) event.now) }
    ensures no { (s : Machine) → IsBook s tasks.old queues.old → result ≡ false
        → ¬ IsOfBook s (records_of tasks.old) event.now }
    ensures kept { result ≡ false → (tasks.new ≡ tasks.old) × (queues.new ≡ queues.old) }
{
    if event.kind == CALL && answers(tasks, queues, event) {
        apply(tasks, queues, event.number, event.op);
        return true;
    }
    if event.kind == REBASE && rebases(tasks, queues, event) {
        rebase(tasks, queues, event.number);
        return true;
    }
    event.kind == READING && reads(tasks, queues, event)
}

/// Whether the task of a call is there, its op may be asked, and the book would reply so.
fn answers(tasks: &[NdTask], queues: &[NdRunqueue], event: &NdEvent) -> bool
    requires { event.now.kind ≡ CALL }
    ensures yes { (s : Machine) → IsBook s tasks.now queues.now → IsTrue result
        → IsAnswered s (records_of tasks.now) event.now }
    ensures no { (s : Machine) → IsBook s tasks.now queues.now → result ≡ false
        → ¬ IsAnswered s (records_of tasks.now) event.now }
{
    if event.number as usize >= tasks.len() || !may_ask(event.op, queues) {
        return false;
    }
    foreseen(tasks, queues, event.number, event.op) == event.reply
}

/// Whether the book would answer a rebase so.
fn rebases(tasks: &[NdTask], queues: &[NdRunqueue], event: &NdEvent) -> bool
    requires { event.now.kind ≡ REBASE }
    ensures yes { (s : Machine) → IsBook s tasks.now queues.now → IsTrue result
        → IsRebase (records_of tasks.now) event.now }
    ensures no { (s : Machine) → IsBook s tasks.now queues.now → result ≡ false
        → ¬ IsRebase (records_of tasks.now) event.now }
{
    foreseen_rebase(tasks, event.number) == event.reply
}

/// Whether the runqueue of a reading is there, and has these sums.
fn reads(tasks: &[NdTask], queues: &[NdRunqueue], event: &NdEvent) -> bool
    requires { event.now.kind ≡ READING }
    ensures yes { (s : Machine) → IsBook s tasks.now queues.now → IsTrue result
        → IsRead s (records_of tasks.now) event.now }
    ensures no { (s : Machine) → IsBook s tasks.now queues.now → result ≡ false
        → ¬ IsRead s (records_of tasks.now) event.now }
{
    let at = event.number as usize;
    at < queues.len()
        && queues[at].running_bw == event.running_bw
        && queues[at].this_bw == event.this_bw
}
