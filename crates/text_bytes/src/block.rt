//! The lines of a part of the items.

ghost use Rattle.std.specs.Prelude.{◌≡◌, ◌+◌, ◌*◌, ◌<◌, ◌≤◌, ◌++◌, All, length, vec_len, vec_capacity};
ghost use Rattle.std.specs.Fork.{slice_chunk};
ghost use Rattle.std.specs.List.{flat_map};

use crate::item_line::LineOf;
use crate::pieces::LINE_MAX;
use std::mem;

/// Appends the lines of the items to a vector that has room for them.
fn append_lines<X, L: LineOf<X>>(block: &mut Vec<u8>, items: &[X], lines: &L)
    requires fits { All (λ x. L.fits lines.now x) items.now }
    requires room { vec_len block.old + length items.now * LINE_MAX ≤ vec_capacity block.old }
    ensures text { block.new.items ≡ block.old.items ++ flat_map (L.line lines.now) items.now }
    ensures room { vec_capacity block.old ≤ vec_capacity block.new }
{
    for item in items {
        lines.append(block, item);
    }
}

/// The part of this number, from 0, of parts of this size. It is empty where the items end before it.
fn part_at<X>(items: &[X], size: usize, number: usize) -> &[X]
    ensures part { result.now ≡ slice_chunk items.now size number }
    ensures small { length result.now ≤ size }
{
    let from = number.saturating_mul(size).min(items.len());
    let (_, rest) = items.split_at(from);
    let (part, _) = rest.split_at(size.min(rest.len()));
    part
}

/// Makes a block of the lines of one part.
pub(crate) fn make_block<X, L: LineOf<X>>(
    block: &mut Vec<u8>,
    items: &[X],
    size: usize,
    number: usize,
    lines: &L,
)
    requires fits { All (λ x. L.fits lines.now x) items.now }
    requires room { size * LINE_MAX ≤ vec_capacity block.old }
    ensures text { block.new.items
        ≡ flat_map (L.line lines.now) (slice_chunk items.now size number) }
    ensures room { vec_capacity block.old ≤ vec_capacity block.new }
{
    // The vectors of a round stand side by side. Each is filled out of its place, since a thread that counted its bytes there
    // would take the cache line from the others at each piece.
    let alloc = *block.allocator();
    let mut own = mem::replace(block, Vec::new(alloc));
    own.clear();
    append_lines(&mut own, part_at(items, size, number), lines);
    *block = own;
}
