//! A player that has asked nothing yet. All memory that playing wants is taken here.
ghost use Rattle.std.specs.Prelude.{◌≡◌, ◌≤◌, ◌+◌, [], None, IfOk, length, vec_capacity};
ghost use Rattle.std.specs.Bool.{OnTrue};
ghost use Rattle.std.specs.FinMap as map;
ghost use Rattle.grub_timeline.specs.inside.Playing.{IsPlaying};

use crate::log::Log;
use crate::player::Player;
use grub_book::Book;
use grub_plan::Plan;
use grub_wheel::Wheel;
use std::alloc::{AllocError, Global};
use std::snapshot::Snapshot;

/// How many entries are told at a time at most, where a line cannot ask for half as many.
const CHUNK: usize = 32_768;

/// A player that has asked nothing yet.
pub(crate) fn player_of<'a>(alloc: Global, plan: &'a Plan) -> Result<Player<'a>, AllocError>
    ensures playing { IfOk result IsPlaying }
    ensures setup { IfOk result (λ x. x.book.setup ≡ plan.now.setup) }
    ensures empty { IfOk result (λ x. x.told.items ≡ []) }
    ensures last { IfOk result (λ x. x.wheel.last ≡ None) }
    ensures room { IfOk result (λ x. length plan.now.setup.tasks + 3 ≤ vec_capacity x.chunk) }
{
    let setup = plan.setup();
    let tasks = setup.task_count();
    let Ok(book) = Book::new(alloc, setup) else {
        return Err(AllocError);
    };
    let wheel = wheel_of(alloc, tasks)?;
    let armers = vec![in alloc; 0; tasks as usize]?;
    let chunk = Vec::with_capacity(alloc, CHUNK.max(2 * (tasks as usize + 3)))?;
    let told = Log::new();
    let start = Snapshot::of(&told);
    Ok(Player {
        book,
        told,
        start,
        chunk,
        wheel,
        armers,
    })
}

/// A wheel with a place for a timer of each task, and for one while it takes the place of another.
fn wheel_of(alloc: Global, tasks: u32) -> Result<Wheel, AllocError>
    ensures places { IfOk result (λ w. w.spare ≡ tasks + 1) }
    ensures timers { IfOk result (λ w. w.timers ≡ map.empty) }
    ensures last { IfOk result (λ w. w.last ≡ None) }
{
    let Ok(mut wheel) = Wheel::new(alloc) else {
        return Err(AllocError);
    };
    if add_places(&mut wheel, u64::from(tasks) + 1) {
        Ok(wheel)
    } else {
        Err(AllocError)
    }
}

/// Adds so many places, and tells whether there was memory for them.
fn add_places(wheel: &mut Wheel, count: u64) -> bool
    ensures places { OnTrue result
        (wheel.new ≡ record wheel.old { spare = wheel.old.spare + count }) }
{
    for _ in 0..count {
        if wheel.add_place().is_err() {
            return false;
        }
    }
    true
}
