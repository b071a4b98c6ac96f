//! What the views that are written while they are played take memory for.

ghost use Rattle.std.specs.Prelude.{◌≡◌, ◌+◌, ◌≤◌, [], IfSome, length, vec_capacity};
ghost use Rattle.text_bytes.specs.declared.pieces.TheConstants.{LINE_MAX};

use grub_plan::Plan;
use grub_timeline::{Playing, ToldEntry};
use grub_views::LineRoom;
use std::alloc::Global;

/// A time line of which nothing was played yet, and room to write it line by line.
#[derive(Drop)]
pub struct Ready<'a> {
    pub playing: Playing<'a>,

    /// The entries that were played last.
    pub latest: Vec<ToldEntry>,

    pub room: LineRoom,
    ghost nothing: { playing.told ≡ [] },
    ghost holds: { playing.most ≤ vec_capacity latest },
    ghost waiting: { length playing.plan.setup.tasks + 3 ≤ vec_capacity latest },
    ghost empty: { room.buffer.items ≡ [] },
    ghost line: { LINE_MAX ≤ vec_capacity room.buffer },
}

impl<'a> Ready<'a> {
    /// Takes the memory. `None` where the allocator refused.
    pub(crate) fn new(alloc: Global, plan: &'a Plan) -> Option<Ready<'a>>
        ensures plan { IfSome result (λ x. x.playing.plan ≡ plan.now) }
    {
        let Ok(room) = LineRoom::new(alloc) else {
            return None;
        };
        let Ok(playing) = Playing::new(alloc, plan) else {
            return None;
        };
        let Ok(latest) = Vec::with_capacity(alloc, playing.most()) else {
            return None;
        };
        Some(Ready {
            playing,
            latest,
            room,
        })
    }
}
