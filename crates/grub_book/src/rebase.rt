//! A new origin of time.

ghost use Rattle.std.specs.Prelude.{◌≡◌, ◌≤◌, ◌<◌, ◌^◌, ◌↔◌, ◌-◌, ℕ, None, length};
ghost use Rattle.grub_book.specs.Server.{Fits, lag_of};
ghost use Rattle.grub_book.specs.inside.Standings.{AllFit, lesser_of};
ghost use Rattle.grub_book.specs.Rebase.{bound_of, holds_back, first_held, waits, rebased, book_rebased};

use crate::place::{Place, Record, State};
use crate::{Params, Server};

/// The moment of a task that a new origin of time may not pass: its deadline where it contends, its 0-lag time where it
/// waits for it, and 0 where that is before 0.
pub fn bound(held: &Record) -> Option<u32>
    requires { Fits held.now.server held.now.params }
    ensures { result ≡ bound_of held.now }
{
    match held.place {
        Place::On(_, State::Contending) => Some(held.server.d),
        Place::On(_, State::NonContending) => Some(lag_moment(held.server, held.params)),
        _ => None,
    }
}

/// The 0-lag time, where one before the moment 0 counts as 0.
fn lag_moment(server: Server, params: Params) -> u32
    requires { Fits server params }
    ensures { result ≡ server.d - lag_of server params }
{
    let lag = u64::from(server.q) * u64::from(params.period()) / u64::from(params.runtime());
    u64::from(server.d).saturating_sub(lag) as u32
}

/// Whether the task does not let the origin of time move by so much.
pub fn holds_back(held: &Record, by: u32) -> bool
    requires { Fits held.now.server held.now.params }
    ensures { result ≡ holds_back by held.now }
{
    match bound(held) {
        Some(m) => m < by,
        None => false,
    }
}

/// Whether the task waits for its 0-lag time.
pub fn waits(place: Place) -> bool
    ensures { result ≡ waits place }
{
    matches!(place, Place::On(_, State::NonContending))
}

/// What is kept of the task once the origin has moved by so much. Its deadline falls by as much, and is 0 where it was
/// below. Its count is 0, but where it waits: then its timer keeps its ticket.
pub fn rebased(held: Record, by: u32) -> Record
    ensures { result ≡ rebased by held }
{
    Record {
        count: if waits(held.place) { held.count } else { 0 },
        server: Server {
            q: held.server.q,
            d: held.server.d.saturating_sub(by),
        },
        ..held
    }
}

/// The first task that does not let the origin of time move by so much.
pub(crate) fn first_held(records: &[Record], by: u32) -> Option<u32>
    requires fits { AllFit records.now }
    requires few { length records.now < 2 ^ 32 }
    ensures { result ≡ first_held by records.now }
{
    for (t, held) in records.iter().enumerate() {
        if holds_back(held, by) {
            return Some(t as u32);
        }
    }
    None
}

/// The lesser of a number and of a moment, if there is one.
fn lesser(least: u32, moment: Option<u32>) -> u32
    ensures { result ≡ lesser_of least moment }
{
    match moment {
        Some(m) => least.min(m),
        None => least,
    }
}

/// The greatest number that no task holds back.
pub(crate) fn limit(records: &[Record]) -> u32
    requires { AllFit records.now }
    ensures { (by : ℕ) → by < 2 ^ 32 → ((first_held by records.now ≡ None) ↔ (by ≤ result)) }
{
    let mut least = u32::MAX;
    for held in records {
        least = lesser(least, bound(held));
    }
    least
}

/// Moves the origin of time by so much.
pub(crate) fn rebase_all(records: &mut [Record], by: u32)
    ensures { records.new ≡ book_rebased by records.old }
{
    for held in records.iter_mut() {
        *held = rebased(*held, by);
    }
}
