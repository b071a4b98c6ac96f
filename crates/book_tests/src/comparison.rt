//! The book beside the plain one, over ops without a visible order.

ghost use Rattle.std.specs.Prelude.{◌≡◌, ◌<◌, length};
ghost use Rattle.grub_book.specs.Op.{IsOp};

use crate::book::{book_of, setup_of};
use crate::plain::PlainBook;
use grub_book::{Book, Op, Reading, Reply, Setup};
use std::process::Abort;

/// What a book replies, and what it reads then.
#[derive(Clone, Copy, PartialEq, Eq)]
struct Answer {
    reply: Reply,
    first: Reading,
    second: Reading,
}

fn book_answer(book: &mut Book<'_>, t: u32, op: Op) -> Answer
    requires task { t < length book.old.setup.tasks }
    requires fits { IsOp book.old.setup op }
    requires queues { 1 < length book.old.setup.queues }
    ensures { book.new.setup ≡ book.old.setup }
{
    let reply = book.apply(t, op);
    Answer {
        reply,
        first: book.read(0),
        second: book.read(1),
    }
}

fn plain_answer(plain: &mut PlainBook<'_>, t: u32, op: Op) -> Answer
    requires task { t < length plain.old.setup.tasks }
    requires fits { IsOp plain.old.setup op }
    requires queues { 1 < length plain.old.setup.queues }
    ensures { plain.new.setup ≡ plain.old.setup }
{
    let reply = plain.apply(t, op);
    Answer {
        reply,
        first: plain.read(0),
        second: plain.read(1),
    }
}

/// Asks both books, expects the same reply and the same readings, and gives the reply.
fn ask_both(
    rt: &impl Abort,
    book: &mut Book<'_>,
    plain: &mut PlainBook<'_>,
    setup: &Setup,
    t: u32,
    op: Op,
) -> Reply
    requires book { book.old.setup ≡ setup.now }
    requires plain { plain.old.setup ≡ setup.now }
    ensures book { book.new.setup ≡ setup.now }
    ensures plain { plain.new.setup ≡ setup.now }
{
    assert!(rt; setup.has_task(t) && op.fits(setup) && setup.has_queue(1));
    let told = book_answer(book, t, op);
    assert!(rt; told == plain_answer(plain, t, op), "{op:?} of {t}");
    told.reply
}

/// The next of a row of numbers without a visible order.
fn scrambled(seed: u32) -> u32 {
    let x = seed ^ (seed << 13);
    let x = x ^ (x >> 17);
    x ^ (x << 5)
}

fn any_op(x: u32, ticket: u32, m: u32) -> Op {
    let r = x / 16 % 2;
    let few = 1 + x / 32 % 4;
    let join = Op::Join { r, m };
    let wake = Op::Wake { r, m };
    let block = Op::Block { r, m };
    let timer = Op::Timer { ticket, m };
    let retune = Op::Retune { q: few, p: 8 };
    let charge = Op::Charge { r, dt: few };
    let rare = if x / 64 % 16 == 0 { Op::Exit } else { charge };
    let ops = [
        join,
        join,
        wake,
        wake,
        block,
        block,
        block,
        Op::Leave,
        timer,
        timer,
        timer,
        retune,
        rare,
        charge,
        charge,
        charge,
    ];
    ops[(x % 16) as usize]
}

/// The ticket of the latest block that waits.
fn latest(reply: Reply, ticket: u32) -> u32 {
    match reply {
        Reply::Waiting { ticket, .. } => ticket,
        _ => ticket,
    }
}

/// Asks both books for many ops.
fn ask_many(rt: &impl Abort, book: &mut Book<'_>, plain: &mut PlainBook<'_>, setup: &Setup)
    requires book { book.old.setup ≡ setup.now }
    requires plain { plain.old.setup ≡ setup.now }
{
    let mut x = 2463534242;
    let mut ticket = 1;
    for i in 0..4000 {
        x = scrambled(x);
        let t = x / 65536 % 6;
        let op = any_op(x, ticket, i / 8);
        let reply = ask_both(rt, book, plain, setup, t, op);
        ticket = latest(reply, ticket);
    }
}

#[test]
fn as_the_plain_book(rt: HostRuntime) {
    let tasks = [(1, 8), (2, 8), (3, 8), (4, 8), (5, 8), (6, 8)];
    let setup = setup_of(&rt, rt.alloc(), 2, &tasks);
    let mut book = book_of(&rt, rt.alloc(), &setup);
    let Ok(mut plain) = PlainBook::new(rt.alloc(), &setup) else {
        panic!(rt; "no plain book")
    };
    ask_many(&rt, &mut book, &mut plain, &setup);
}
