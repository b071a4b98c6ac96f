//! The way of lines to a writer.

ghost use Rattle.std.specs.Prelude.{◌≤◌, [], All, vec_capacity, OnOk, OnErr};
ghost use Rattle.std.specs.List.{flat_map};
ghost use Rattle.text_bytes.specs.Writing.{HandsOn, HandsPart};

use crate::blocks::{Blocks, ROUND_MAX};
use crate::buffer::{make_room, write_buffer};
use crate::item_line::LineOf;
use crate::pieces::LINE_MAX;
use std::io;
use std::io::Write;
use std::thread::Threads;

/// Fewer lines are made before a thread has started. So many or more are worth several threads.
pub const MANY_LINES: usize = 1024;

/// Writes the lines of the items in their order. Many are made by several threads, and all of them are written then; few
/// are put into the buffer, which is written as often as it is full. It takes no memory.
/// After a failing write, or one that took nothing, a beginning of the buffer's bytes and the lines was written.
pub fn write_lines<R: Threads + Sync, W: Write, X: Sync, L: LineOf<X> + Sync>(
    rt: &R,
    blocks: &mut Blocks,
    buffer: &mut Vec<u8>,
    out: &mut W,
    items: &[X],
    lines: &L,
) -> io::Result<()>
    requires fits { All (λ x. L.fits lines.now x) items.now }
    requires room { LINE_MAX ≤ vec_capacity buffer.old }
    ensures whole { OnOk result (HandsOn (W.contents out.old) (W.contents out.new) buffer.old.items
        (flat_map (L.line lines.now) items.now) buffer.new.items) }
    ensures part { OnErr result (HandsPart (W.contents out.old)
        (W.contents out.new) buffer.old.items (flat_map (L.line lines.now) items.now)) }
    ensures room { LINE_MAX ≤ vec_capacity buffer.new }
{
    if items.len() < MANY_LINES {
        write_few(buffer, out, items, lines)
    } else {
        write_buffer(buffer, out)?;
        write_many(rt, blocks, out, items, lines)
    }
}

fn write_few<W: Write, X, L: LineOf<X>>(
    buffer: &mut Vec<u8>,
    out: &mut W,
    items: &[X],
    lines: &L,
) -> io::Result<()>
    requires fits { All (λ x. L.fits lines.now x) items.now }
    requires room { LINE_MAX ≤ vec_capacity buffer.old }
    ensures whole { OnOk result (HandsOn (W.contents out.old) (W.contents out.new) buffer.old.items
        (flat_map (L.line lines.now) items.now) buffer.new.items) }
    ensures part { OnErr result (HandsPart (W.contents out.old)
        (W.contents out.new) buffer.old.items (flat_map (L.line lines.now) items.now)) }
    ensures room { LINE_MAX ≤ vec_capacity buffer.new }
{
    for item in items {
        make_room(buffer, out)?;
        lines.append(buffer, item);
    }
    Ok(())
}

fn write_many<R: Threads + Sync, W: Write, X: Sync, L: LineOf<X> + Sync>(
    rt: &R,
    blocks: &mut Blocks,
    out: &mut W,
    items: &[X],
    lines: &L,
) -> io::Result<()>
    requires fits { All (λ x. L.fits lines.now x) items.now }
    ensures whole { OnOk result (HandsOn (W.contents out.old) (W.contents out.new) []
        (flat_map (L.line lines.now) items.now) []) }
    ensures part { OnErr result (HandsPart (W.contents out.old) (W.contents out.new) []
        (flat_map (L.line lines.now) items.now)) }
{
    let mut at = 0;
    while at < items.len() {
        let end = items.len().min(at.saturating_add(ROUND_MAX));
        blocks.write_round(rt, out, &items[at..end], lines)?;
        at = end;
    }
    Ok(())
}
