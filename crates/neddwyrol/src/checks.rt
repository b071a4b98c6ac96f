//! Whether memory is a book, and whether a recorded history is one's.

ghost use Rattle.std.specs.Prelude.{◌≡◌, ◌≢◌, ◌+◌, ◌<◌, ◌≤◌, ◌↔◌, length, take};
ghost use Rattle.grub_book.specs.Machine.{Machine};
ghost use Rattle.library_book.specs.Memory.{records_of, IsBook};
ghost use Rattle.library_book.specs.Audit.{audit_fault};
ghost use Rattle.library_book.specs.Located.{opening_number, audit_number};
ghost use Rattle.library_book.specs.Opening.{opening_fault};
ghost use Rattle.library_book.specs.Recorded.{IsRecordedFrom, book_recorded};
ghost use Rattle.library_book.specs.declared.codes.TheConstants.{DONE};

use library_book::{NdEvent, NdRunqueue, NdTask, audit, check, located_fault, open_fault};

/// The version of the structs, the numbers of codes and the arguments of calls. A change of one of these changes it.
pub const ABI: u32 = 1;

/// The version of the library, 0.3.0: major * 1000000 + minor * 1000 + patch.
pub const VERSION: u32 = 3000;

/// The version of the library.
#[unsafe(no_mangle)]
pub extern "C" fn nd_version() -> u32
    ensures { result ≡ VERSION }
{
    VERSION
}

/// The version of the structs, the numbers of codes and the arguments of calls, as the library has them.
#[unsafe(no_mangle)]
pub extern "C" fn nd_abi() -> u32
    ensures { result ≡ ABI }
{
    ABI
}

/// 0 exactly where the memory is a book: its numbers are within their limits, and the sums of each runqueue are those of
/// its tasks, added up afresh. Else the number of the first fault: 1 to 8 as of `nd_open`, then 60, 63, 68 and 64 of the
/// tasks in order, then 65, 66 and 67 of the runqueues in order.
#[unsafe(no_mangle)]
pub extern "C" fn nd_audit(tasks: &[NdTask], queues: &[NdRunqueue]) -> u32
    ensures fault { result ≡ audit_fault tasks.now queues.now }
    ensures book { (result ≡ DONE) ↔ ((s : Machine) × IsBook s tasks.now queues.now) }
{
    audit(tasks, queues)
}

/// What `nd_open` answers, and which runqueue (4, 5) or task (1, 2, 3) has the fault; of another fault the number is 0.
#[unsafe(no_mangle)]
pub extern "C" fn nd_open_fault(tasks: &[NdTask], queues: &[NdRunqueue], number: &mut u32) -> u32
    ensures fault { result ≡ opening_fault tasks.now queues.now }
    ensures number { result ≢ DONE → number.new ≡ opening_number tasks.now queues.now }
    ensures kept { result ≡ DONE → number.new ≡ number.old }
{
    open_fault(tasks, queues, number)
}

/// What `nd_audit` answers, and which runqueue (4, 5, 65 to 67) or task (1 to 3, 60, 63, 64, 68) has the fault; of another
/// fault the number is 0.
#[unsafe(no_mangle)]
pub extern "C" fn nd_audit_fault(tasks: &[NdTask], queues: &[NdRunqueue], number: &mut u32) -> u32
    ensures fault { result ≡ audit_fault tasks.now queues.now }
    ensures number { result ≢ DONE → number.new ≡ audit_number tasks.now queues.now }
    ensures kept { result ≡ DONE → number.new ≡ number.old }
{
    located_fault(tasks, queues, number)
}

/// How many events of a recorded history the book in this memory gives: the index of the first that is out of range or is
/// not what the book replies or reads, else their number. The memory becomes the book after the events that are counted; the
/// call or rebase at that index is not made.
#[unsafe(no_mangle)]
pub extern "C" fn nd_check(
    tasks: &mut [NdTask],
    queues: &mut [NdRunqueue],
    events: &[NdEvent],
) -> usize
    ensures within { result ≤ length events.now }
    ensures legal { (s : Machine) → IsBook s tasks.old queues.old
        → IsRecordedFrom s (records_of tasks.old) (take result events.now) }
    ensures stops { (s : Machine) → IsBook s tasks.old queues.old → result < length events.now
        → ¬ IsRecordedFrom s (records_of tasks.old) (take (result + 1) events.now) }
    ensures book { (s : Machine) → IsBook s tasks.old queues.old
        → IsBook s tasks.new queues.new }
    ensures after { (s : Machine) → IsBook s tasks.old queues.old → records_of tasks.new
        ≡ book_recorded s (records_of tasks.old) (take result events.now) }
{
    check(tasks, queues, events)
}
