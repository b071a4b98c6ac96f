//! The library in ten lines: two tasks that reserve half a processor each, and the first blocks with budget left.
#![tactic(auto)]

use grub_book::{Book, Op, Params, Queue, Setup};

fn main(rt: HostRuntime) -> anyhow::Result<()> {
    let alloc = rt.alloc();

    let (whole, half) = (Queue::new(1048576, 0)?, Params::new(4, 8)?);
    let setup = Setup::new(vec![in alloc; whole]?, vec![in alloc; half, half]?)?;
    let mut book = Book::new(alloc, &setup)?;
    book.apply(0, Op::Join { r: 0, m: 0 });
    book.apply(1, Op::Join { r: 0, m: 0 });
    book.apply(0, Op::Charge { r: 0, dt: 2 });
    let waiting = book.apply(0, Op::Block { r: 0, m: 2 });
    println!(rt; "{waiting:?}: {:?}", book.read(0))?;
    let retired = book.apply(0, Op::Timer { ticket: 1, m: 4 });
    println!(rt; "{retired:?}: {:?}", book.read(0))?;

    Ok(())
}
