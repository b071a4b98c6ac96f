//! The entries of a time line, each with what it made of the book.

ghost use Rattle.std.specs.Prelude.{◌≡◌, ◌≤◌, length, vec_capacity};
ghost use Rattle.grub_timeline.specs.TimeLines.{AreWithin, IsTimeLine};
ghost use Rattle.grub_timeline.specs.Fitting.{AreToldIn, IsToldIn};
ghost use Rattle.grub_timeline.specs.Past.{book_past};
ghost use Rattle.grub_timeline.specs.Replay.{book_after, queue_or, step_of, steps_from};

use crate::{TimeLine, ToldEntry};
use grub_book::{Book, Place, Reading, Server, Setup};
use grub_plan::{Ask, Plan};
use std::alloc::{AllocError, Global};

/// What an entry changed of its task.
#[derive(Clone, Copy, Debug, PartialEq, Eq)]
pub struct Change {
    /// The number of the task.
    pub task: u32,

    /// Its budget and deadline before the entry.
    pub server: Server,

    /// Where it is after the entry.
    pub place: Place,
}

/// An entry of a time line, and what it made of the book.
#[derive(Clone, Copy, Debug, PartialEq, Eq)]
pub struct Step {
    /// The entry, and the runqueue that asked.
    pub told: ToldEntry,

    /// What it changed of its task; nothing where it read a runqueue.
    pub change: Option<Change>,

    /// The runqueue on which its task stands after it, or else stood before it, or else the asker's.
    pub queue: u32,

    /// The reading of that runqueue after the entry.
    pub reading: Reading,
}

/// The steps of these entries, by a book that begins with every task away. It is refused where the allocator refused.
pub fn replay(alloc: Global, setup: &Setup, told: &[ToldEntry]) -> Result<Vec<Step>, AllocError>
    requires { AreToldIn setup.now told.now }
{
    let mut steps = Vec::with_capacity(alloc, told.len())?;
    let Ok(mut book) = Book::new(alloc, setup) else {
        return Err(AllocError);
    };
    fill_steps(&mut steps, &mut book, told);
    Ok(steps)
}

/// The steps of a time line of the plan. It is refused where the allocator refused.
pub fn played_steps(alloc: Global, plan: &Plan, line: &TimeLine) -> Result<Vec<Step>, AllocError>
    requires line { IsTimeLine plan.now line.now.told.items line.now.closing.items }
    requires within { AreWithin plan.now.setup line.now.told.items }
{
    steps_in(alloc, plan, line)
}

fn steps_in(alloc: Global, plan: &Plan, line: &TimeLine) -> Result<Vec<Step>, AllocError>
    requires { AreToldIn plan.now.setup line.now.told.items }
{
    replay(alloc, plan.setup(), &line.told)
}

/// Asks the book what the entry asked it.
pub fn step_after(book: &mut Book, x: &ToldEntry) -> Step
    requires { IsToldIn book.old.setup x.now }
    ensures setup { book.new.setup ≡ book.old.setup }
    ensures records { book.new.records
        ≡ book_after book.old.setup book.old.records x.now.entry.ask }
    ensures value { result ≡ step_of book.old.setup book.old.records x.now }
{
    let Ask::Call { t, op } = x.entry.ask else {
        return Step {
            told: *x,
            change: None,
            queue: x.runqueue,
            reading: book.read(x.runqueue),
        };
    };
    let before = book.record(t);
    book.apply(t, op);
    let place = book.record(t).place;
    let stood = queue_or(before.place, x.runqueue);
    let queue = queue_or(place, stood);
    let reading = book.read(queue);
    Step {
        told: *x,
        change: Some(Change {
            task: t,
            server: before.server,
            place,
        }),
        queue,
        reading,
    }
}

/// The runqueue of a place, or this one where there is none.
fn queue_or(place: Place, r: u32) -> u32
    ensures { result ≡ queue_or place r }
{
    match place {
        Place::On(s, _) => s,
        Place::Away | Place::Gone => r,
    }
}

/// Puts the steps of these entries into a vector that has room for them, by a book that goes on with them.
pub fn fill_steps(steps: &mut Vec<Step>, book: &mut Book<'_>, told: &[ToldEntry])
    requires told { AreToldIn book.old.setup told.now }
    requires room { length told.now ≤ vec_capacity steps.old }
    ensures steps { steps.new.items ≡ steps_from book.old.setup book.old.records told.now }
    ensures setup { book.new.setup ≡ book.old.setup }
    ensures records { book.new.records ≡ book_past book.old.setup book.old.records told.now }
    ensures room { vec_capacity steps.new ≡ vec_capacity steps.old }
{
    steps.clear();
    for x in told {
        steps.push_reserved(step_after(book, x));
    }
}
