//! Which word of the row is whose, and what is in it.
ghost use Rattle.std.specs.Prelude.{◌≡◌, ℕ, ◌<◌, ◌≤◌, ◌+◌, ◌*◌, false, IfSome, IsNone, ◌≢◌};
ghost use Rattle.grub_book.specs.declared.rules.TheConstants.{COUNT_MAX};
ghost use Rattle.grub_book.specs.Bandwidth.{Reservation, IsReservation};
ghost use Rattle.grub_book.specs.declared.server.Server.{Server};
ghost use Rattle.grub_book.specs.Machine.{IsMachine};
ghost use Rattle.grub_book.specs.declared.event.Reading.{Reading};
ghost use Rattle.grub_book.specs.declared.place.Place.{Place};
ghost use Rattle.grub_table.specs.Words.{queue_word, server_word, params_word, task_word, PlaceFits, QueueFits, ServerFits, TaskFits};
ghost use Rattle.grub_table.specs.Layout.{queue_word_at, task_word_at, shown};
ghost use Rattle.grub_table.specs.inside.Layout.{server_word_at, params_word_at};

use crate::{TaskWord, pack_task, unpack_params, unpack_queue, unpack_server, unpack_task};
use grub_book::{Params, Reading, Record, Server, Setup};

/// How many words a runqueue or a task has to itself: 128 bytes.
pub(crate) const SPACING: usize = 16;

#[inline(always)]
pub(crate) fn queue_word_at(r: u32) -> usize
    ensures { result ≡ queue_word_at r }
{
    SPACING * r as usize
}

#[inline(always)]
pub(crate) fn task_word_at(setup: &Setup, t: u32) -> usize
    ensures value { result ≡ task_word_at setup.now t }
    ensures limits { IsMachine setup.now }
{
    SPACING * (setup.queue_count() as usize + t as usize)
}

#[inline(always)]
pub(crate) fn server_word_at(setup: &Setup, t: u32) -> usize
    ensures value { result ≡ server_word_at setup.now t }
    ensures limits { IsMachine setup.now }
{
    task_word_at(setup, t) + 1
}

#[inline(always)]
pub(crate) fn params_word_at(setup: &Setup, t: u32) -> usize
    ensures value { result ≡ params_word_at setup.now t }
    ensures limits { IsMachine setup.now }
{
    task_word_at(setup, t) + 2
}

/// The reading in a runqueue's word.
#[inline(always)]
pub(crate) fn reading_in(word: u64) -> Reading
    requires { (now : Reading) × QueueFits now × (queue_word now ≡ word) }
    ensures fits { QueueFits result }
    ensures word { queue_word result ≡ word }
{
    let Some(reading) = unpack_queue(word) else {
        unreachable!()
    };
    reading
}

/// The server in a server word.
#[inline(always)]
pub(crate) fn server_in(word: u64) -> Server
    requires { (server : Server) × ServerFits server × (server_word server ≡ word) }
    ensures fits { ServerFits result }
    ensures word { server_word result ≡ word }
{
    let Some(server) = unpack_server(word) else {
        unreachable!()
    };
    server
}

/// The reservation in a parameter word.
#[inline(always)]
pub(crate) fn params_in(word: u64) -> Params
    requires { (p : Reservation) × IsReservation p × (params_word p ≡ word) }
    ensures fits { IsReservation result }
    ensures word { params_word result ≡ word }
{
    let Some(params) = unpack_params(word) else {
        unreachable!()
    };
    params
}

/// What the word of a free task says; none where the claim bit is set.
#[inline(always)]
pub(crate) fn unclaimed(word: u64) -> Option<TaskWord>
    ensures found { IfSome result
        (λ w. TaskFits w × (w.claimed ≡ false) × (task_word w.place w.count false ≡ word)) }
    ensures none { IsNone result → (p : Place) (n : ℕ) → PlaceFits p → n ≤ COUNT_MAX
        → task_word p n false ≢ word }
{
    let Some(shown) = unpack_task(word) else {
        return None;
    };
    if shown.claimed { None } else { Some(shown) }
}

/// The task word of a free task with this record.
#[inline(always)]
pub(crate) fn free_word(held: &Record) -> u64
    requires place { PlaceFits held.now.place }
    requires count { held.now.count ≤ COUNT_MAX }
    ensures { result ≡ shown held.now false }
{
    pack_task(TaskWord {
        place: held.place,
        claimed: false,
        count: held.count,
    })
}
