//! Room for the lines of a text on their way to a writer.

ghost use Rattle.std.specs.Prelude.{◌≡◌, ◌≤◌, [], All, IfOk, OnOk, OnErr, vec_capacity};
ghost use Rattle.std.specs.List.{flat_map};
ghost use Rattle.text_bytes.specs.Writing.{HandsOn, HandsPart};

use std::alloc::{AllocError, Global};
use std::io;
use std::io::Write;
use std::thread::Threads;
use text_bytes::{Blocks, LINE_MAX, LineOf, line_buffer, write_lines};

/// Room for the lines of a text on their way to a writer. It never grows, so writing takes no memory.
#[derive(Drop)]
pub struct LineRoom {
    /// The blocks in which threads make many lines.
    pub blocks: Blocks,

    /// What is not written yet. It is written as often as it is full.
    pub buffer: Vec<u8>,
}

impl LineRoom {
    /// Takes the memory. It is refused where the allocator refused.
    pub fn new(alloc: Global) -> Result<LineRoom, AllocError>
        ensures empty { IfOk result (λ x. x.buffer.items ≡ []) }
        ensures room { IfOk result (λ x. LINE_MAX ≤ vec_capacity x.buffer) }
    {
        let buffer = line_buffer(alloc)?;
        let blocks = Blocks::new(alloc)?;
        Ok(LineRoom { blocks, buffer })
    }

    /// Puts the lines of the items behind what the buffer keeps, as `text_bytes::write_lines` does.
    /// After a failing write, or one that took nothing, a beginning of the buffer's bytes and the lines was written.
    pub fn write_lines<R: Threads + Sync, W: Write, X: Sync, L: LineOf<X> + Sync>(
        &mut self,
        rt: &R,
        out: &mut W,
        items: &[X],
        lines: &L,
    ) -> io::Result<()>
        requires fits { All (λ x. L.fits lines.now x) items.now }
        requires room { LINE_MAX ≤ vec_capacity self.old.buffer }
        ensures whole { OnOk result (HandsOn (W.contents out.old) (W.contents out.new)
            self.old.buffer.items (flat_map (L.line lines.now) items.now) self.new.buffer.items) }
        ensures part { OnErr result (HandsPart (W.contents out.old) (W.contents out.new)
            self.old.buffer.items (flat_map (L.line lines.now) items.now)) }
        ensures room { LINE_MAX ≤ vec_capacity self.new.buffer }
    {
        write_lines(rt, &mut self.blocks, &mut self.buffer, out, items, lines)
    }
}
