//! What stands in the memory of a book, as the records, constants and readings of `grub_book`.

ghost use Rattle.std.specs.Prelude.{◌≡◌, ◌↔◌, ◌<◌, ◌≤◌, ◌^◌, if◌then◌else◌, IfSome, IsNone, IsTrue};
ghost use Rattle.grub_book.specs.Bandwidth.{bandwidth_of};
ghost use Rattle.grub_book.specs.Step.{lag_moment};
ghost use Rattle.grub_book.specs.Totals.{Counts, shifted_of};
ghost use Rattle.grub_book.specs.declared.rules.TheConstants.{COUNT_MAX};
ghost use Rattle.library_book.specs.Memory.{place_of, record_of, constants_of, reading_in, state_max};
ghost use Rattle.library_book.specs.inside.Ready.{CanStand, IsReady};

use crate::memory::{NdRunqueue, NdTask};
use grub_book::{COUNT_MAX, Params, Place, Queue, Reading, Record, Server, State};

pub(crate) fn place_of(state: u32, queue: u32) -> Place
    ensures { result ≡ place_of state queue }
{
    match state {
        0 => Place::Away,
        1 => Place::On(queue, State::Contending),
        2 => Place::On(queue, State::NonContending),
        3 => Place::On(queue, State::Inactive),
        _ => Place::Gone,
    }
}

/// The record that stands in a task's memory, where a step may be made of it.
pub(crate) fn record_in(task: &NdTask) -> Option<Record>
    ensures some { IfSome result (λ x. (x ≡ record_of task.now) × CanStand x) }
    ensures none { IsNone result → ¬ CanStand (record_of task.now) }
{
    let Ok(params) = Params::new(task.runtime, task.period) else {
        return None;
    };
    let server = Server {
        q: task.budget,
        d: task.deadline,
    };
    if !server.fits(params) || task.count > COUNT_MAX {
        return None;
    }
    Some(Record {
        place: place_of(task.state, task.queue),
        count: task.count,
        server,
        params,
    })
}

fn codes_of(place: Place) -> (u32, u32)
    ensures place { place_of result.0 result.1 ≡ place }
    ensures state { result.0 ≤ state_max }
{
    match place {
        Place::Away => (0, 0),
        Place::On(r, State::Contending) => (1, r),
        Place::On(r, State::NonContending) => (2, r),
        Place::On(r, State::Inactive) => (3, r),
        Place::Gone => (4, 0),
    }
}

/// The memory of a record.
pub fn task_of(held: &Record) -> NdTask
    ensures record { record_of result ≡ held.now }
    ensures state { result.state ≤ state_max }
{
    let (state, queue) = codes_of(held.place);
    NdTask {
        runtime: held.params.runtime(),
        period: held.params.period(),
        budget: held.server.q,
        deadline: held.server.d,
        count: held.count,
        state,
        queue,
    }
}

/// The 0-lag time of a task that contends on runqueue `r`, where its block at `m` waits for it.
#[inline(always)]
pub(crate) fn waits_until(task: &NdTask, r: u32, m: u32) -> Option<u32>
    ensures on { IfSome result (λ z. (task.now.state ≡ 1) × (task.now.queue ≡ r)) }
    ensures count { IfSome result (λ z. task.now.count < COUNT_MAX) }
    ensures moment { IfSome result (λ z. (z ≡ lag_moment (record_of task.now)) × (m < z)) }
{
    let NdTask {
        runtime,
        period,
        budget,
        deadline,
        count,
        state,
        queue,
    } = *task;
    if state != 1 || queue != r || count >= COUNT_MAX || runtime == 0 {
        return None;
    }
    let lag = u64::from(budget) * u64::from(period) / u64::from(runtime);
    let d = u64::from(deadline);
    if d <= lag + u64::from(m) {
        return None;
    }
    Some((d - lag) as u32)
}

/// Whether a reading counts what a task of this bandwidth adds to it.
pub(crate) fn counts(now: Reading, r: u32, held: &Record, bw: u32) -> bool
    requires { bw ≡ bandwidth_of held.now.params }
    ensures { IsTrue result ↔ Counts now r held.now }
{
    let active = !held.place.is_active_on(r) || bw <= now.running;
    let on = !held.place.is_on(r) || bw <= now.this;
    active && on
}

/// The reading of a runqueue after a task's record became another, as `shifted` of `grub_book`, where the bandwidth of the
/// old record is known. A division is dear, so none is made twice.
pub(crate) fn shifted(now: Reading, r: u32, held: &Record, next: &Record, bw: u32) -> Reading
    requires counts { Counts now r held.now }
    requires bw { bw ≡ bandwidth_of held.now.params }
    requires bw_most { bw ≤ 2 ^ 20 }
    requires most { now.this ≤ 2 ^ 20 }
    requires running { now.running ≤ now.this }
    ensures { result ≡ shifted_of now r held.now next.now }
{
    let new_bw = bandwidth_after(held.params, bw, next.params);
    let running = now.running - share(held.place.is_active_on(r), bw);
    let this = now.this - share(held.place.is_on(r), bw);
    Reading {
        running: running + share(next.place.is_active_on(r), new_bw),
        this: this + share(next.place.is_on(r), new_bw),
    }
}

/// The bandwidth of the new reservation, which mostly is the old one.
fn bandwidth_after(old: Params, bw: u32, new: Params) -> u32
    requires value { bw ≡ bandwidth_of old }
    requires most { bw ≤ 2 ^ 20 }
    ensures value { result ≡ bandwidth_of new }
    ensures most { result ≤ 2 ^ 20 }
{
    if new.runtime() == old.runtime() && new.period() == old.period() {
        bw
    } else {
        new.bw()
    }
}

fn share(counts: bool, bw: u32) -> u32
    ensures { result ≡ (if counts then bw else 0) }
{
    if counts { bw } else { 0 }
}

/// The constants and the reading that stand in a runqueue's memory, where a charge may be made of them.
pub(crate) fn queue_in(cell: &NdRunqueue) -> Option<(Queue, Reading)>
    ensures some { IfSome result (λ x. (x.0 ≡ constants_of cell.now) × (x.1 ≡ reading_in cell.now)
        × IsReady x.0 x.1) }
    ensures none { IsNone result → ¬ IsReady (constants_of cell.now) (reading_in cell.now) }
{
    let Ok(queue) = Queue::new(cell.umax, cell.uextra) else {
        return None;
    };
    let now = Reading {
        running: cell.running_bw,
        this: cell.this_bw,
    };
    if now.running > now.this || now.this > queue.umax() {
        return None;
    }
    Some((queue, now))
}
