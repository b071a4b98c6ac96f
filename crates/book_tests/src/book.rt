//! The worked examples of the book.

ghost use Rattle.std.specs.Prelude.{◌≡◌};

use grub_book::{
    Book, BookFault, CheckFault, Event, Op, Params, Place, Queue, Reading, Reply, Setup,
    SetupFault, State, check, refusal,
};
use std::alloc::Global;
use std::fmt;
use std::process::Abort;

const A: u32 = 0;

const B: u32 = 1;

/// Tasks of these reservations.
fn params_of(rt: &impl Abort, alloc: Global, tasks: &[(u32, u32)]) -> Vec<Params> {
    let mut params = Vec::new(alloc);
    for (runtime, period) in tasks {
        let Ok(task) = Params::new(*runtime, *period) else {
            panic!(rt; "no task")
        };
        let Ok(()) = params.push(task) else {
            panic!(rt; "no memory")
        };
    }
    params
}

/// Runqueues of a whole processor, and tasks of these reservations.
pub(crate) fn setup_of(
    rt: &impl Abort,
    alloc: Global,
    queues: usize,
    tasks: &[(u32, u32)],
) -> Setup {
    let Ok(queue) = Queue::new(1048576, 0) else {
        panic!(rt; "no queue")
    };
    let params = params_of(rt, alloc, tasks);
    let Ok(queues) = vec![in alloc; queue; queues] else {
        panic!(rt; "no memory")
    };
    let Ok(setup) = Setup::new(queues, params) else {
        panic!(rt; "no setup")
    };
    setup
}

/// A new book.
pub(crate) fn book_of<'a>(rt: &impl Abort, alloc: Global, setup: &'a Setup) -> Book<'a>
    ensures { result.setup ≡ setup.now }
{
    let Ok(book) = Book::new(alloc, setup) else {
        panic!(rt; "no book")
    };
    book
}

/// A step of an example.
#[derive(Clone, Copy)]
pub(crate) enum Step {
    /// An op of a task, and its reply.
    Ask(u32, Op, Reply),

    /// The reading of a runqueue.
    Look(u32, Reading),
}

fn ask(rt: &impl Abort, book: &mut Book<'_>, setup: &Setup, t: u32, op: Op, reply: Reply)
    requires { book.old.setup ≡ setup.now }
    ensures { book.new.setup ≡ setup.now }
{
    assert!(rt; setup.has_task(t) && op.fits(setup));
    assert_eq!(rt; book.apply(t, op), reply);
}

fn read(rt: &impl Abort, book: &Book<'_>, setup: &Setup, r: u32, reading: Reading)
    requires { book.now.setup ≡ setup.now }
{
    assert!(rt; setup.has_queue(r));
    assert_eq!(rt; book.read(r), reading);
}

/// Takes the steps in order.
pub(crate) fn go(rt: &impl Abort, book: &mut Book<'_>, setup: &Setup, steps: &[Step])
    requires { book.old.setup ≡ setup.now }
    ensures { book.new.setup ≡ setup.now }
{
    for step in steps {
        match *step {
            Step::Ask(t, op, reply) => ask(rt, book, setup, t, op, reply),
            Step::Look(r, reading) => read(rt, book, setup, r, reading),
        }
    }
}

/// Takes the steps with a new book.
pub(crate) fn walk(rt: &impl Abort, alloc: Global, setup: &Setup, steps: &[Step]) {
    let mut book = book_of(rt, alloc, setup);
    go(rt, &mut book, setup, steps);
}

pub(crate) fn look(r: u32, running: u32, this: u32) -> Step {
    Step::Look(r, Reading { running, this })
}

fn join(t: u32, m: u32, q: u32, d: u32) -> Step {
    Step::Ask(t, Op::Join { r: 0, m }, Reply::Joined { q, d })
}

fn wake(t: u32, m: u32, q: u32, d: u32) -> Step {
    Step::Ask(t, Op::Wake { r: 0, m }, Reply::Woken { q, d })
}

fn waits(m: u32, ticket: u32, z: u32) -> Step {
    block(A, m, Reply::Waiting { ticket, z })
}

fn block(t: u32, m: u32, reply: Reply) -> Step {
    Step::Ask(t, Op::Block { r: 0, m }, reply)
}

fn timer(ticket: u32, m: u32, reply: Reply) -> Step {
    Step::Ask(A, Op::Timer { ticket, m }, reply)
}

fn charge(dt: u32, k: u32, q: u32, d: u32) -> Step {
    let dq = u64::from(dt);
    Step::Ask(A, Op::Charge { r: 0, dt }, Reply::Charged { dq, k, q, d })
}

fn retune(t: u32, q: u32, p: u32, reply: Reply) -> Step {
    Step::Ask(t, Op::Retune { q, p }, reply)
}

#[test]
fn full_budget(rt: HostRuntime) {
    let setup = setup_of(&rt, rt.alloc(), 1, &[(4, 8)]);
    let steps = [
        join(A, 0, 4, 8),
        block(A, 0, Reply::Asleep),
        look(0, 0, 524288),
    ];
    walk(&rt, rt.alloc(), &setup, &steps);
}

#[test]
fn admission(rt: HostRuntime) {
    let tasks = [(1, 3), (1, 3), (1, 3), (1, 1048576), (1, 1048576)];
    let setup = setup_of(&rt, rt.alloc(), 1, &tasks);
    let steps = [
        join(0, 0, 1, 3),
        join(1, 0, 1, 3),
        join(2, 0, 1, 3),
        join(3, 0, 1, 1048576),
        Step::Ask(4, Op::Join { r: 0, m: 0 }, Reply::Full),
        look(0, 1048576, 1048576),
        Step::Ask(4, Op::Leave, Reply::NotOn),
    ];
    walk(&rt, rt.alloc(), &setup, &steps);
}

#[test]
fn tickets(rt: HostRuntime) {
    let setup = setup_of(&rt, rt.alloc(), 1, &[(4, 8), (4, 8)]);
    let steps = [
        join(A, 0, 4, 8),
        charge(2, 0, 2, 8),
        waits(2, 1, 4),
        wake(A, 3, 2, 8),
        charge(1, 0, 1, 8),
        waits(4, 2, 6),
        timer(1, 4, Reply::Stale),
        timer(2, 5, Reply::Early(6)),
        timer(2, 6, Reply::Retired),
        timer(2, 6, Reply::Stale),
    ];
    walk(&rt, rt.alloc(), &setup, &steps);
}

#[test]
fn many_blocks(rt: HostRuntime) {
    let setup = setup_of(&rt, rt.alloc(), 1, &[(4, 8), (4, 8)]);
    let mut book = book_of(&rt, rt.alloc(), &setup);
    let steps = [join(A, 0, 4, 8), charge(2, 0, 2, 8)];
    go(&rt, &mut book, &setup, &steps);
    for ticket in 1..65536 {
        let steps = [waits(2, ticket, 4), wake(A, 2, 2, 8)];
        go(&rt, &mut book, &setup, &steps);
    }
    let steps = [waits(2, 65536, 4), wake(A, 2, 2, 8), charge(1, 0, 1, 8)];
    go(&rt, &mut book, &setup, &steps);
}

/// No test counts so far: the reply is that of the count alone.
#[test]
fn worn(rt: HostRuntime) {
    let place = Place::On(0, State::Contending);
    let block = Op::Block { r: 0, m: 2 };
    assert_eq!(rt; refusal(place, 16777214, block), None);
    assert_eq!(rt; refusal(place, 16777215, block), Some(Reply::Worn));
}

#[test]
fn deadline_overflow(rt: HostRuntime) {
    let setup = setup_of(&rt, rt.alloc(), 1, &[(1, 1048576)]);
    let steps = [
        join(A, 0, 1, 1048576),
        Step::Ask(
            A,
            Op::Charge { r: 0, dt: 16777216 },
            Reply::DeadlineOverflow,
        ),
        charge(1, 1, 1, 2097152),
    ];
    walk(&rt, rt.alloc(), &setup, &steps);
}

#[test]
fn exits(rt: HostRuntime) {
    let setup = setup_of(&rt, rt.alloc(), 1, &[(4, 8)]);
    let steps = [
        join(A, 0, 4, 8),
        charge(2, 0, 2, 8),
        waits(2, 1, 4),
        Step::Ask(A, Op::Exit, Reply::StillActive),
        timer(1, 4, Reply::Retired),
        look(0, 0, 524288),
        Step::Ask(A, Op::Exit, Reply::Ended),
        look(0, 0, 0),
        Step::Ask(A, Op::Exit, Reply::Gone),
        Step::Ask(A, Op::Join { r: 0, m: 5 }, Reply::Gone),
        timer(1, 4, Reply::Stale),
    ];
    walk(&rt, rt.alloc(), &setup, &steps);
}

#[test]
fn places(rt: HostRuntime) {
    let setup = setup_of(&rt, rt.alloc(), 2, &[(4, 8)]);
    let steps = [
        Step::Ask(A, Op::Wake { r: 0, m: 0 }, Reply::NotOn),
        block(A, 0, Reply::NotOn),
        join(A, 0, 4, 8),
        Step::Ask(A, Op::Join { r: 1, m: 0 }, Reply::AlreadyOn(0)),
        Step::Ask(A, Op::Wake { r: 0, m: 0 }, Reply::AlreadyContending),
        Step::Ask(A, Op::Wake { r: 1, m: 0 }, Reply::Elsewhere(0)),
        Step::Ask(A, Op::Charge { r: 1, dt: 1 }, Reply::Elsewhere(0)),
        Step::Ask(A, Op::Leave, Reply::StillContending),
        Step::Ask(A, Op::Exit, Reply::StillActive),
        block(A, 0, Reply::Asleep),
        block(A, 0, Reply::NotContending),
        Step::Ask(A, Op::Charge { r: 0, dt: 1 }, Reply::NotContending),
        Step::Ask(A, Op::Leave, Reply::Left { r: 0 }),
        Step::Ask(A, Op::Leave, Reply::NotOn),
        Step::Ask(A, Op::Exit, Reply::Ended),
    ];
    walk(&rt, rt.alloc(), &setup, &steps);
}

#[test]
fn retunes(rt: HostRuntime) {
    let setup = setup_of(&rt, rt.alloc(), 1, &[(4, 8), (4, 8)]);
    let steps = [
        retune(A, 2, 8, Reply::Retuned),
        join(A, 0, 2, 8),
        look(0, 262144, 262144),
        retune(A, 4, 8, Reply::StillActive),
        block(A, 0, Reply::Asleep),
        retune(A, 8, 8, Reply::Retuned),
        look(0, 0, 1048576),
        Step::Ask(B, Op::Join { r: 0, m: 0 }, Reply::Full),
        retune(A, 4, 8, Reply::Retuned),
        join(B, 0, 4, 8),
        retune(A, 5, 8, Reply::Full),
        wake(A, 3, 4, 11),
        look(0, 1048576, 1048576),
        block(B, 0, Reply::Asleep),
        Step::Ask(B, Op::Exit, Reply::Ended),
        retune(B, 1, 1, Reply::Gone),
    ];
    walk(&rt, rt.alloc(), &setup, &steps);
}

pub(crate) fn joins(task: u32) -> Event {
    Event::Call {
        pass: 0,
        task,
        op: Op::Join { r: 0, m: 0 },
        reply: Reply::Joined { q: 4, d: 8 },
    }
}

pub(crate) fn looks(queue: u32, running: u32, this: u32) -> Event {
    Event::Look {
        pass: 1,
        queue,
        reading: Reading { running, this },
    }
}

/// Checks events of a setup, and expects this answer.
pub(crate) fn expect(
    rt: &impl Abort,
    alloc: Global,
    setup: &Setup,
    events: &[Event],
    answer: Result<(), CheckFault>,
) {
    let last = events.last();
    assert_eq!(rt; check(alloc, setup, events), answer, "the last is {last:?}");
}

#[test]
fn histories(rt: HostRuntime) {
    let alloc = rt.alloc();
    let setup = setup_of(&rt, alloc, 1, &[(4, 8), (4, 8)]);
    let join = joins(0);
    expect(&rt, alloc, &setup, &[], Ok(()));
    let right = [join, looks(0, 524288, 524288)];
    expect(&rt, alloc, &setup, &right, Ok(()));
    let wrong = Err(CheckFault::WrongReply(1));
    expect(&rt, alloc, &setup, &[join, looks(0, 0, 0)], wrong);
    expect(&rt, alloc, &setup, &[join, looks(0, 0, 524288)], wrong);
    let wrong = Err(CheckFault::WrongReply(0));
    expect(&rt, alloc, &setup, &[joins(2)], wrong);
}

/// Why there is no setup of so many runqueues and tasks.
fn setup_fault(alloc: Global, queues: usize, tasks: usize) -> Option<SetupFault> {
    let queue = Queue::new(1048576, 0).ok()?;
    let task = Params::new(4, 8).ok()?;
    let queues = vec![in alloc; queue; queues].ok()?;
    let tasks = vec![in alloc; task; tasks].ok()?;
    Setup::new(queues, tasks).err()
}

/// Whether a setup of so many runqueues and tasks is refused for this reason.
fn refuses(alloc: Global, queues: usize, tasks: usize, fault: SetupFault) -> bool {
    setup_fault(alloc, queues, tasks) == Some(fault)
}

#[test]
fn setups(rt: HostRuntime) {
    let alloc = rt.alloc();
    assert!(rt; refuses(alloc, 65, 0, SetupFault::TooManyQueues));
    assert!(rt; refuses(alloc, 1, 257, SetupFault::TooManyTasks));
    assert!(rt; refuses(alloc, 0, 0, SetupFault::NoQueue));
    let setup = setup_of(&rt, alloc, 1, &[]);
    walk(&rt, alloc, &setup, &[look(0, 0, 0)]);
}

/// Whether this is the text of a fault.
fn tells<F: fmt::Display>(alloc: Global, fault: &F, text: &str) -> bool {
    format!(in alloc; "{fault}").is_ok_and(|told| told.as_str() == text)
}

fn expect_text<F: fmt::Display>(rt: &impl Abort, alloc: Global, fault: &F, text: &str) {
    assert!(rt; tells(alloc, fault, text), "{text}");
}

#[test]
fn fault_texts(rt: HostRuntime) {
    let alloc = rt.alloc();
    expect_text(&rt, alloc, &SetupFault::TooManyQueues, "6 TooManyQueues");
    expect_text(&rt, alloc, &SetupFault::TooManyTasks, "7 TooManyTasks");
    expect_text(&rt, alloc, &SetupFault::NoQueue, "8 NoQueue");
    expect_text(&rt, alloc, &BookFault::NoMemory, "40 NoMemory");
    expect_text(&rt, alloc, &CheckFault::NoMemory, "41 NoMemory");
    expect_text(&rt, alloc, &CheckFault::WrongReply(7), "22 WrongReply(7)");
}
