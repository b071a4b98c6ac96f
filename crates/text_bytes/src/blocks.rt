//! Blocks of lines, each in a buffer of its own.

ghost use Rattle.std.specs.Prelude.{◌≡◌, ℕ, ◌*◌, ◌<◌, ◌≤◌, [], All, length, vec_len, vec_capacity, OnOk, OnErr, slice_index_or};
ghost use Rattle.std.specs.Fork.{slice_chunk};
ghost use Rattle.std.specs.List.{flat_map};
ghost use Rattle.text_bytes.specs.Writing.{HandsOn, HandsPart};
ghost use Rattle.text_bytes.specs.declared.blocks.TheConstants.{COUNT, BLOCK_ROOM};

use crate::block::make_block;
use crate::buffer::write_bytes;
use crate::item_line::LineOf;
use crate::pieces::LINE_MAX;
use std::alloc::{AllocError, Global};
use std::io::Write;
use std::thread::Threads;
use std::{io, thread};

/// How many blocks a round has. Each is made by a thread of its own.
const COUNT: usize = 4;

/// No block has more lines.
const BLOCK_MAX: usize = 8192;

/// No block has more bytes.
const BLOCK_ROOM: usize = BLOCK_MAX * LINE_MAX;

/// No round has more lines.
pub const ROUND_MAX: usize = COUNT * BLOCK_MAX;

/// The buffers of a round's blocks. They never grow, so a round takes no memory.
#[derive(Drop)]
pub struct Blocks {
    blocks: Vec<Vec<u8>>,
    ghost count: { vec_len blocks ≡ COUNT },
    ghost rooms: { All (λ b. BLOCK_ROOM ≤ vec_capacity b) blocks.items },
}

impl Blocks {
    /// Takes the memory of the buffers. It is refused where the allocator refused.
    pub fn new(alloc: Global) -> Result<Blocks, AllocError> {
        let mut blocks = Vec::with_capacity(alloc, COUNT)?;
        for _ in 0..COUNT {
            blocks.push(Vec::with_capacity(alloc, BLOCK_ROOM)?)?;
        }
        Ok(Blocks { blocks })
    }

    /// Makes the lines of a round, each block in a thread of its own where one can be started, and writes them in order.
    /// After a failing write, or one that took nothing, a beginning of them was written.
    pub fn write_round<R: Threads + Sync, W: Write, X: Sync, L: LineOf<X> + Sync>(
        &mut self,
        rt: &R,
        out: &mut W,
        items: &[X],
        lines: &L,
    ) -> io::Result<()>
        requires fits { All (λ x. L.fits lines.now x) items.now }
        requires most { length items.now ≤ ROUND_MAX }
        ensures whole { OnOk result (HandsOn (W.contents out.old) (W.contents out.new) []
            (flat_map (L.line lines.now) items.now) []) }
        ensures part { OnErr result (HandsPart (W.contents out.old) (W.contents out.new) []
            (flat_map (L.line lines.now) items.now)) }
    {
        make_blocks(
            rt,
            &mut self.blocks,
            items.len().div_ceil(COUNT),
            items,
            lines,
        );
        write_blocks(&self.blocks, out)
    }
}

/// Makes each block of the lines of its part of the items, which are as many parts of this size as there are blocks.
fn make_blocks<R: Threads + Sync, X: Sync, L: LineOf<X> + Sync>(
    rt: &R,
    blocks: &mut [Vec<u8>],
    size: usize,
    items: &[X],
    lines: &L,
)
    requires some { 0 < length blocks.old }
    requires fits { All (λ x. L.fits lines.now x) items.now }
    requires room { All (λ b. size * LINE_MAX ≤ vec_capacity b) blocks.old }
    ensures text { (i : ℕ) (d : _) → i < length blocks.old → (slice_index_or blocks.new i d).items
        ≡ flat_map (L.line lines.now) (slice_chunk items.now size i) }
    ensures room { (i : ℕ) (d : _) → i < length blocks.old
        → vec_capacity (slice_index_or blocks.old i d)
        ≤ vec_capacity (slice_index_or blocks.new i d) }
{
    thread::for_each_mut(
        rt,
        blocks,
        blocks.len(),
        &|i, block| make_block(block, items, size, i, lines),
    );
}

/// Writes the blocks in order. After a failing write, or one that took nothing, a beginning of them was written.
fn write_blocks<W: Write>(blocks: &[Vec<u8>], out: &mut W) -> io::Result<()>
    ensures whole { OnOk result (HandsOn (W.contents out.old) (W.contents out.new) []
        (flat_map (λ b. b.items) blocks.now) []) }
    ensures part { OnErr result (HandsPart (W.contents out.old) (W.contents out.new) []
        (flat_map (λ b. b.items) blocks.now)) }
{
    for block in blocks {
        write_bytes(block, out)?;
    }
    Ok(())
}
