//! The one loop over the pieces of a trace.

ghost use Rattle.std.specs.Prelude.{◌≡◌, ◌<◌, ◌⊎◌, IfOk, OnOk, false, length, take};
ghost use Rattle.text_bytes.specs.Source.{Gives};
ghost use Rattle.trace_lines.specs.Keeping.{progress};
ghost use Rattle.trace_file.specs.Reading.{ComesTo, IsSoIn, IsSoOf};
ghost use Rattle.trace_file.specs.inside.Taking.{Reads, TookAll, TookEnough, TookLast, TookPiece};

use std::alloc::Global;
use std::io;
use text_bytes::read_once;
use trace_lines::{Halt, Lines, RecordReader};

/// The bytes of a piece of a trace.
const PIECE_BYTES: usize = 65536;

/// Why the text of a trace was not read up to its end, nor to the line at which it halts.
#[derive(Drop)]
pub enum ReadFault<F> {
    /// The file could not be opened, or a read failed.
    Unreadable,

    /// There was no memory for a piece.
    NoMemory,

    /// What takes the lines refused one.
    Lines(F),
}

/// Reads the trace of a path, and hands on its lines, up to its end or to the line at which it halts: none where each line was taken. A
/// read that gives fewer bytes than there was room for is not the end; one that gives none is.
pub fn read_lines<
    D: Drop,
    O: Fn(&str) -> io::Result<D>,
    N: Fn(&mut D, &mut [u8]) -> io::Result<usize>,
    L: Lines,
>(
    alloc: Global,
    opener: &O,
    read: &N,
    path: &str,
    lines: &mut L,
) -> Result<Option<Halt>, ReadFault<L::Fault>>
    requires opener { O.IsAlwaysCallable opener.now }
    requires read { N.IsAlwaysCallable read.now }
    ensures { IfOk result (λ halt. IsSoOf O.Fn opener.now N.Fn read.now path.now
        (ComesTo L.step (L.seen lines.old) halt (L.seen lines.new))) }
{
    let Ok(mut room) = Vec::from_elem(alloc, 0u8, PIECE_BYTES) else {
        return Err(ReadFault::NoMemory);
    };
    open_and_read(alloc, opener, read, path, &mut room, lines)
}

/// Opens a trace and reads it, in pieces of at most this room.
fn open_and_read<
    D: Drop,
    O: Fn(&str) -> io::Result<D>,
    N: Fn(&mut D, &mut [u8]) -> io::Result<usize>,
    L: Lines,
>(
    alloc: Global,
    opener: &O,
    read: &N,
    path: &str,
    room: &mut [u8],
    lines: &mut L,
) -> Result<Option<Halt>, ReadFault<L::Fault>>
    requires opener { O.IsAlwaysCallable opener.now }
    requires read { N.IsAlwaysCallable read.now }
    requires has_room { 0 < length room.old }
    ensures { IfOk result (λ halt. IsSoOf O.Fn opener.now N.Fn read.now path.now
        (ComesTo L.step (L.seen lines.old) halt (L.seen lines.new))) }
{
    match opener(path) {
        Ok(mut file) => read_opened(alloc, read, &mut file, room, lines),
        Err(_) => Err(ReadFault::Unreadable),
    }
}

/// Reads an opened trace.
fn read_opened<D, N: Fn(&mut D, &mut [u8]) -> io::Result<usize>, L: Lines>(
    alloc: Global,
    read: &N,
    file: &mut D,
    room: &mut [u8],
    lines: &mut L,
) -> Result<Option<Halt>, ReadFault<L::Fault>>
    requires callable { N.IsAlwaysCallable read.now }
    requires has_room { 0 < length room.old }
    ensures { IfOk result (λ halt. IsSoIn N.Fn read.now file.old
        (ComesTo L.step (L.seen lines.old) halt (L.seen lines.new))) }
{
    let mut reader = RecordReader::new(alloc);
    read_pieces(read, file, room, &mut reader, lines)?;
    Ok(reader.end())
}

/// Takes the pieces of an opened trace up to its end, or to the line at which its text halts.
fn read_pieces<D, N: Fn(&mut D, &mut [u8]) -> io::Result<usize>, L: Lines>(
    read: &N,
    file: &mut D,
    room: &mut [u8],
    reader: &mut RecordReader,
    lines: &mut L,
) -> Result<(), ReadFault<L::Fault>>
    requires callable { N.IsAlwaysCallable read.now }
    requires has_room { 0 < length room.old }
    ensures { OnOk result (TookAll N.Fn read.now L.step file.old
        (progress reader.old (L.seen lines.old)) (progress reader.new (L.seen lines.new))
        ⊎ TookEnough N.Fn read.now L.step file.old
        (progress reader.old (L.seen lines.old)) (progress reader.new (L.seen lines.new))) }
{
    for _ in 0..u64::MAX {
        if !read_piece(read, file, room, reader, lines)? {
            return Ok(());
        }
    }
    Err(ReadFault::Unreadable)
}

/// Takes the next piece; false at the end of the trace, or where its text halts.
fn read_piece<D, N: Fn(&mut D, &mut [u8]) -> io::Result<usize>, L: Lines>(
    read: &N,
    file: &mut D,
    room: &mut [u8],
    reader: &mut RecordReader,
    lines: &mut L,
) -> Result<bool, ReadFault<L::Fault>>
    requires callable { N.IsAlwaysCallable read.now }
    requires has_room { 0 < length room.old }
    ensures room { length room.new ≡ length room.old }
    ensures piece { OnOk result (TookPiece N.Fn read.now L.step file.old
        (progress reader.old (L.seen lines.old)) file.new
        (progress reader.new (L.seen lines.new))) }
    ensures last { IfOk result (λ more. more ≡ false → TookLast N.Fn read.now L.step file.old
        (progress reader.old (L.seen lines.old)) file.new
        (progress reader.new (L.seen lines.new))) }
{
    let count = feed_piece(read, file, room, reader, lines)?;
    Ok(count > 0 && !reader.is_halted(lines))
}

/// Reads the next piece and hands it to the reader; how many bytes it has.
#[tactic(auto, unfolding(crate::specs::inside::Taking::Reads))]
fn feed_piece<D, N: Fn(&mut D, &mut [u8]) -> io::Result<usize>, L: Lines>(
    read: &N,
    file: &mut D,
    room: &mut [u8],
    reader: &mut RecordReader,
    lines: &mut L,
) -> Result<usize, ReadFault<L::Fault>>
    requires callable { N.IsAlwaysCallable read.now }
    requires has_room { 0 < length room.old }
    ensures room { length room.new ≡ length room.old }
    ensures gives { IfOk result
        (λ n. Gives N.Fn read.now file.old (take n room.new) file.new) }
    ensures reads { IfOk result (λ n. Reads L.step (progress reader.old (L.seen lines.old))
        (take n room.new) (progress reader.new (L.seen lines.new))) }
{
    let Ok(count) = read_once(read, file, room) else {
        return Err(ReadFault::Unreadable);
    };
    match reader.feed(lines, &room[..count]) {
        Ok(()) => Ok(count),
        Err(fault) => Err(ReadFault::Lines(fault)),
    }
}
