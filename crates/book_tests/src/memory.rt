//! Memory that is refused, and setups and histories as large as they may be.

ghost use Rattle.std.specs.Prelude.{◌≡◌, IfOk};

use crate::book::{expect, go, joins, look, looks, setup_of, walk};
use grub_book::{Book, BookFault, CheckFault, Event, Op, Params, Queue, Reply, Setup, check};
use std::alloc::{AllocError, Global};
use std::process::Abort;

/// The most runqueues and tasks.
const QUEUES: u32 = 64;

const TASKS: u32 = 256;

/// The bandwidth of a task of 1/8, and that of four of them.
const EIGHTH: u32 = 131072;

const HALF: u32 = 524288;

/// How often a task joins, blocks and leaves in a long history.
const ROUNDS: u32 = 20000;

/// The most pieces of memory that are held back.
const PIECES: usize = 131072;

/// All memory that is left, so that every growth is refused until it is dropped; none of it is written. None where the
/// allocator gives memory without end, as that of `rt try` does.
fn all_memory(rt: &impl Abort, alloc: Global) -> Option<Vec<Vec<u8>>> {
    let Ok(mut pieces) = Vec::with_capacity(alloc, PIECES) else {
        panic!(rt; "no room for the pieces")
    };
    let mut size = usize::MAX / 65536;
    for _halving in 0..48 {
        for _piece in 0..PIECES {
            let Ok(piece) = Vec::with_capacity(alloc, size) else {
                break;
            };
            if pieces.push(piece).is_err() {
                return None;
            }
        }
        size /= 2;
    }
    Some(pieces)
}

/// Whether a book, and the check of a history without events, are refused their memory.
fn are_refused(alloc: Global, setup: &Setup) -> bool {
    let book = Book::new(alloc, setup).err();
    let checked = check(alloc, setup, &[]);
    book == Some(BookFault::NoMemory) && checked == Err(CheckFault::NoMemory)
}

#[test]
fn no_memory_is_left(rt: HostRuntime) {
    let setup = setup_of(&rt, rt.alloc(), 1, &[(4, 8)]);
    let Some(held_back) = all_memory(&rt, rt.alloc()) else {
        return;
    };
    let refused = are_refused(rt.alloc(), &setup);
    drop(held_back);
    assert!(rt; refused);
}

/// A book, which is made a second time where memory was refused once.
fn book_after_all<'a>(alloc: Global, setup: &'a Setup) -> Result<Book<'a>, BookFault>
    ensures { IfOk result (λ b. b.setup ≡ setup.now) }
{
    match Book::new(alloc, setup) {
        Err(BookFault::NoMemory) => Book::new(alloc, setup),
        made => made,
    }
}

/// A book of these five runqueues reads the last one at rest.
fn read_after_all(rt: &impl Abort, alloc: Global, setup: &Setup) {
    let Ok(mut book) = book_after_all(alloc, setup) else {
        panic!(rt; "no book")
    };
    go(rt, &mut book, setup, &[look(4, 0, 0)]);
}

/// What `check` answers, which is asked a second time where memory was refused once.
fn check_after_all(alloc: Global, setup: &Setup, events: &[Event]) -> Result<(), CheckFault> {
    match check(alloc, setup, events) {
        Err(CheckFault::NoMemory) => check(alloc, setup, events),
        answer => answer,
    }
}

fn five_each(
    alloc: Global,
    queue: Queue,
    task: Params,
) -> Result<(Vec<Queue>, Vec<Params>), AllocError> {
    Ok((vec![in alloc; queue; 5]?, vec![in alloc; task; 5]?))
}

fn setup_after_all(rt: &impl Abort, alloc: Global) -> Setup {
    let (Ok(queue), Ok(task)) = (Queue::new(1048576, 0), Params::new(4, 8)) else {
        panic!(rt; "no queue or no task")
    };
    let lists = match five_each(alloc, queue, task) {
        Err(AllocError) => five_each(alloc, queue, task),
        lists => lists,
    };
    let Ok((queues, tasks)) = lists else {
        panic!(rt; "refused twice")
    };
    let Ok(setup) = Setup::new(queues, tasks) else {
        panic!(rt; "no setup")
    };
    setup
}

fn call(task: u32, op: Op, reply: Reply) -> Event {
    Event::Call {
        pass: 0,
        task,
        op,
        reply,
    }
}

/// Passes too where any one growth is refused (`tests/refused-growths.py`).
#[test]
fn refused_growths(rt: HostRuntime) {
    let setup = setup_after_all(&rt, rt.alloc());
    read_after_all(&rt, rt.alloc(), &setup);
    let events = [joins(4), joins(5)];
    let right = check_after_all(rt.alloc(), &setup, &events[..1]);
    let wrong = check_after_all(rt.alloc(), &setup, &events);
    assert_eq!(rt; right, Ok(()));
    assert_eq!(rt; wrong, Err(CheckFault::WrongReply(1)));
}

/// A history is right, and with one more event it is wrong at this place.
fn check_both(
    rt: &impl Abort,
    alloc: Global,
    setup: &Setup,
    mut events: Vec<Event>,
    more: Event,
    place: usize,
) {
    expect(rt, alloc, setup, &events, Ok(()));
    let Ok(()) = events.push(more) else {
        panic!(rt; "no memory")
    };
    let wrong = Err(CheckFault::WrongReply(place));
    expect(rt, alloc, setup, &events, wrong);
}

/// Four tasks join each runqueue, and each is read.
fn four_each(alloc: Global) -> Result<Vec<Event>, AllocError> {
    let mut events = Vec::new(alloc);
    for task in 0..TASKS {
        let op = Op::Join { r: task / 4, m: 0 };
        events.push(call(task, op, Reply::Joined { q: 1, d: 8 }))?;
    }
    for queue in 0..QUEUES {
        events.push(looks(queue, HALF, HALF))?;
    }
    Ok(events)
}

#[test]
fn the_largest_setup(rt: HostRuntime) {
    let setup = setup_of(&rt, rt.alloc(), QUEUES as usize, &[(1, 8); 256]);
    walk(&rt, rt.alloc(), &setup, &[look(QUEUES - 1, 0, 0)]);
    let Ok(events) = four_each(rt.alloc()) else {
        panic!(rt; "no memory")
    };
    let more = looks(QUEUES - 1, HALF, HALF + EIGHTH);
    check_both(&rt, rt.alloc(), &setup, events, more, 320);
}

/// Rounds of joining, blocking and leaving.
fn rounds(alloc: Global) -> Result<Vec<Event>, AllocError> {
    let round = [
        joins(0),
        call(0, Op::Block { r: 0, m: 0 }, Reply::Asleep),
        call(0, Op::Leave, Reply::Left { r: 0 }),
    ];
    let mut events = Vec::new(alloc);
    for _round in 0..ROUNDS {
        events.extend_from_slice(&round)?;
    }
    Ok(events)
}

/// The event that is wrong comes late.
#[test]
fn a_long_history(rt: HostRuntime) {
    let setup = setup_of(&rt, rt.alloc(), 1, &[(4, 8)]);
    let Ok(events) = rounds(rt.alloc()) else {
        panic!(rt; "no memory")
    };
    let more = call(0, Op::Leave, Reply::Left { r: 0 });
    check_both(&rt, rt.alloc(), &setup, events, more, 60000);
}
