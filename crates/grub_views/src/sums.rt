//! What is counted over a time line, in one walk over its entries.

ghost use Rattle.std.specs.Prelude.{◌≡◌, ◌+◌, ◌<◌, ◌≤◌, ◌^◌, [], ℕ, All, IfOk, IfSome, length, vec_len, vec_capacity};
ghost use Rattle.grub_timeline.specs.Fitting.{AreToldIn};
ghost use Rattle.grub_views.specs.inside.Within.{IsMeterWithin, IsWithin};

use crate::tally::Tally;
use crate::usage::Meter;
use grub_book::{Book, Setup};
use grub_timeline::{Step, ToldEntry, step_after};
use std::alloc::{AllocError, Global};

/// What is counted of each task, and of each runqueue.
#[derive(Drop)]
pub struct Totals {
    pub tallies: Vec<Tally>,
    pub meters: Vec<Meter>,
}

/// What is counted over these entries, by a book that begins with every task away. No step is kept. It is refused where
/// the allocator refused.
pub(crate) fn sums_of(
    alloc: Global,
    setup: &Setup,
    told: &[ToldEntry],
) -> Result<Totals, AllocError>
    requires { AreToldIn setup.now told.now }
    ensures tallies { IfOk result (λ v. vec_len v.tallies ≡ length setup.now.tasks) }
    ensures meters { IfOk result (λ v. vec_len v.meters ≡ length setup.now.queues) }
{
    let mut sums = sums_of_none(alloc, setup)?;
    let Ok(mut book) = Book::new(alloc, setup) else {
        return Err(AllocError);
    };
    count_all(&mut book, told, &mut sums.tallies, &mut sums.meters);
    Ok(sums)
}

/// What is counted over no step.
fn sums_of_none(alloc: Global, setup: &Setup) -> Result<Totals, AllocError>
    ensures tallies { IfOk result (λ v. vec_len v.tallies ≡ length setup.now.tasks) }
    ensures meters { IfOk result (λ v. vec_len v.meters ≡ length setup.now.queues) }
    ensures tallies_within { IfOk result (λ v. All (IsWithin 0) v.tallies.items) }
    ensures meters_within { IfOk result (λ v. All (IsMeterWithin 0) v.meters.items) }
{
    let mut tallies = Vec::with_capacity(alloc, setup.task_count() as usize)?;
    let mut meters = Vec::with_capacity(alloc, setup.queue_count() as usize)?;
    fill_tallies(setup, &mut tallies);
    fill_meters(setup, &mut meters);
    Ok(Totals { tallies, meters })
}

/// The numbers of each task over no step, in a vector with room for them.
fn fill_tallies(setup: &Setup, tallies: &mut Vec<Tally>)
    requires empty { tallies.old.items ≡ [] }
    requires room { length setup.now.tasks ≤ vec_capacity tallies.old }
    ensures len { vec_len tallies.new ≡ length setup.now.tasks }
    ensures within { All (IsWithin 0) tallies.new.items }
{
    for t in 0..setup.task_count() {
        tallies.push_reserved(Tally::new(setup.params(t).runtime()));
    }
}

/// And those of each runqueue.
fn fill_meters(setup: &Setup, meters: &mut Vec<Meter>)
    requires empty { meters.old.items ≡ [] }
    requires room { length setup.now.queues ≤ vec_capacity meters.old }
    ensures len { vec_len meters.new ≡ length setup.now.queues }
    ensures within { All (IsMeterWithin 0) meters.new.items }
{
    for r in 0..setup.queue_count() {
        meters.push_reserved(Meter::new(r));
    }
}

/// Adds what each entry makes of the book, from its first on.
fn count_all(book: &mut Book, told: &[ToldEntry], tallies: &mut [Tally], meters: &mut [Meter])
    requires fits { AreToldIn book.old.setup told.now }
    requires tasks { length tallies.old ≡ length book.old.setup.tasks }
    requires tallies { All (IsWithin 0) tallies.old }
    requires meters { All (IsMeterWithin 0) meters.old }
    ensures tallies { length tallies.new ≡ length tallies.old }
    ensures meters { length meters.new ≡ length meters.old }
{
    for x in told {
        let step = step_after(book, x);
        count_task(tallies, &step);
        count_queues(meters, &step);
    }
}

/// Adds a step to what is counted of its task, where it has one.
fn count_task(tallies: &mut [Tally], x: &Step)
    requires there { IfSome x.now.change (λ change. change.task < length tallies.old) }
    requires room { (n : ℕ) × (n + 1 < 2 ^ 64) × All (IsWithin n) tallies.old }
    ensures within { (n : ℕ) → All (IsWithin n) tallies.old → All (IsWithin (n + 1)) tallies.new }
    ensures len { length tallies.new ≡ length tallies.old }
{
    match x.change {
        Some(change) => {
            let t = change.task as usize;
            tallies[t] = tallies[t].and(x);
        }
        None => {}
    }
}

/// Adds a step to what is counted of each runqueue: time passes on all of them.
fn count_queues(meters: &mut [Meter], x: &Step)
    requires room { (n : ℕ) × (n + 1 < 2 ^ 64) × All (IsMeterWithin n) meters.old }
    ensures within { (n : ℕ) → All (IsMeterWithin n) meters.old
        → All (IsMeterWithin (n + 1)) meters.new }
    ensures len { length meters.new ≡ length meters.old }
{
    for meter in meters.iter_mut() {
        *meter = meter.and(x);
    }
}
