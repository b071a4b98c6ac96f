//! The bytes of files, which have a bound.

ghost use Rattle.std.specs.Prelude.{◌≡◌, ◌<◌, ◌≤◌, ◌+◌, ◌⊎◌, IfErr, IfOk, OnOk, length, take, vec_len};
ghost use Rattle.text_bytes.specs.declared.files.FileFault.TheVariants as faults;
ghost use Rattle.text_bytes.specs.inside.Behind.{GivesBehind};
ghost use Rattle.text_bytes.specs.Source.{BreaksOff, Exceeds, Fails, Gives, Holds, IsLonger, IsOpened, IsUnreadable, ReadsWhole, StopsWithin};

use std::alloc::{AllocError, Global};
use std::io;

/// The most bytes that a file may have.
pub const FILE_BYTES_MAX: usize = 16777216;

/// So many bytes of room are made where a file has filled all that there was.
const ROOM_BYTES: usize = 65536;

/// How files are opened and read.
#[derive(Drop)]
pub struct Source<O, N> {
    /// Opens the file at a path.
    pub open: O,

    /// Reads the next bytes of an opened file into room, and gives their number: 0 at the end.
    pub read: N,
}

/// Why a file was not read whole: it has more bytes than it may have, it could not be opened or read, or there was no
/// memory for its bytes.
#[derive(Clone, Copy, Debug, PartialEq, Eq)]
pub enum FileFault {
    TooLong,
    Read,
    NoMemory,
}

/// The bytes of the file at this path, of which there may be at most `FILE_BYTES_MAX`.
pub fn read_file<
    D: Drop,
    O: Fn(&str) -> io::Result<D>,
    N: Fn(&mut D, &mut [u8]) -> io::Result<usize>,
>(alloc: Global, source: &Source<O, N>, path: &str) -> Result<Vec<u8>, FileFault>
    requires open { O.IsAlwaysCallable source.now.open }
    requires read { N.IsAlwaysCallable source.now.read }
    ensures few { IfOk result (λ v. vec_len v ≤ FILE_BYTES_MAX) }
    ensures whole { IfOk result (λ v. Holds O.Fn N.Fn source.now path.now v.items) }
    ensures unreadable { IfErr result
        (λ e. e ≡ faults.Read → IsUnreadable O.Fn N.Fn source.now path.now) }
    ensures too_long { IfErr result
        (λ e. e ≡ faults.TooLong → IsLonger O.Fn N.Fn source.now path.now) }
    ensures memory { IfErr result
        (λ e. e ≡ faults.NoMemory → IsOpened O.Fn N.Fn source.now path.now) }
{
    match (source.open)(path) {
        Ok(mut file) => read_all(alloc, &source.read, &mut file),
        Err(_) => Err(FileFault::Read),
    }
}

/// One read of an opened file into this room: how many bytes it gave.
pub fn read_once<D, N: Fn(&mut D, &mut [u8]) -> io::Result<usize>>(
    read: &N,
    file: &mut D,
    room: &mut [u8],
) -> Result<usize, FileFault>
    requires callable { N.IsAlwaysCallable read.now }
    requires has_room { 0 < length room.old }
    ensures fits { IfOk result (λ n. n ≤ length room.new) }
    ensures gives { IfOk result (λ n. Gives N.Fn read.now file.old (take n room.new) file.new) }
    ensures fails { IfErr result (λ e. (e ≡ faults.Read) × Fails N.Fn read.now file.old file.new) }
{
    match read(file, room) {
        Ok(count) if count <= room.len() => Ok(count),
        _ => Err(FileFault::Read),
    }
}

/// One read of an opened file behind the bytes that fill the front of this room.
fn read_behind<D, N: Fn(&mut D, &mut [u8]) -> io::Result<usize>>(
    read: &N,
    file: &mut D,
    room: &mut [u8],
    filled: usize,
) -> Result<usize, FileFault>
    requires callable { N.IsAlwaysCallable read.now }
    requires has_room { filled < length room.old }
    ensures fits { IfOk result (λ n. filled + n ≤ length room.new) }
    ensures gives { IfOk result (λ n. GivesBehind N.Fn read.now
        file.old (take filled room.old) n (take (filled + n) room.new) file.new) }
    ensures fails { IfErr result (λ e. (e ≡ faults.Read) × Fails N.Fn read.now file.old file.new) }
{
    read_once(read, file, &mut room[filled..])
}

/// Room for a further read behind the bytes that fill the front of these.
fn make_room(bytes: &mut Vec<u8>, filled: usize) -> Result<(), AllocError>
    requires front { filled ≤ vec_len bytes.old }
    requires few { filled ≤ FILE_BYTES_MAX }
    requires within { vec_len bytes.old ≤ FILE_BYTES_MAX + 1 }
    ensures room { OnOk result (filled < vec_len bytes.new) }
    ensures within { OnOk result (vec_len bytes.new ≤ FILE_BYTES_MAX + 1) }
    ensures kept { OnOk result (take filled bytes.new.items ≡ take filled bytes.old.items) }
{
    if filled < bytes.len() {
        return Ok(());
    }
    bytes.resize((filled + ROOM_BYTES).min(FILE_BYTES_MAX + 1), 0)
}

/// A further read of an opened file, for which there is room then: how many bytes it gave.
fn read_more<D, N: Fn(&mut D, &mut [u8]) -> io::Result<usize>>(
    read: &N,
    file: &mut D,
    bytes: &mut Vec<u8>,
    filled: usize,
) -> Result<usize, FileFault>
    requires callable { N.IsAlwaysCallable read.now }
    requires front { filled ≤ vec_len bytes.old }
    requires few { filled ≤ FILE_BYTES_MAX }
    requires within { vec_len bytes.old ≤ FILE_BYTES_MAX + 1 }
    ensures fits { IfOk result (λ n. filled + n ≤ vec_len bytes.new) }
    ensures within { IfOk result (λ n. vec_len bytes.new ≤ FILE_BYTES_MAX + 1) }
    ensures gives { IfOk result (λ n. GivesBehind N.Fn read.now
        file.old (take filled bytes.old.items) n (take (filled + n) bytes.new.items) file.new) }
    ensures fails { IfErr result (λ e. e ≡ faults.Read → Fails N.Fn read.now file.old file.new) }
    ensures memory { IfErr result (λ e. e ≡ faults.NoMemory → file.new ≡ file.old) }
    ensures kinds { IfErr result (λ e. (e ≡ faults.Read) ⊎ (e ≡ faults.NoMemory)) }
{
    if make_room(bytes, filled).is_err() {
        return Err(FileFault::NoMemory);
    }
    read_behind(read, file, bytes, filled)
}

/// All bytes of an opened file up to its end, of which there may be at most `FILE_BYTES_MAX`. No more than one byte
/// beyond these is read.
pub fn read_all<D, N: Fn(&mut D, &mut [u8]) -> io::Result<usize>>(
    alloc: Global,
    read: &N,
    file: &mut D,
) -> Result<Vec<u8>, FileFault>
    requires { N.IsAlwaysCallable read.now }
    ensures few { IfOk result (λ v. vec_len v ≤ FILE_BYTES_MAX) }
    ensures whole { IfOk result (λ v. ReadsWhole N.Fn read.now file.old v.items file.new) }
    ensures broken { IfErr result
        (λ e. e ≡ faults.Read → BreaksOff N.Fn read.now file.old file.new) }
    ensures too_long { IfErr result
        (λ e. e ≡ faults.TooLong → Exceeds N.Fn read.now file.old file.new) }
    ensures memory { IfErr result
        (λ e. e ≡ faults.NoMemory → StopsWithin N.Fn read.now file.old file.new) }
{
    let mut bytes = Vec::new(alloc);
    let mut filled = 0;
    'pieces: loop {
        let count = read_more(read, file, &mut bytes, filled)?;
        if count == 0 {
            bytes.truncate(filled);
            return Ok(bytes);
        }
        filled += count;
        if filled > FILE_BYTES_MAX {
            return Err(FileFault::TooLong);
        }
    }
}
