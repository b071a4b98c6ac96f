//! The way of a text to a writer, through a buffer that never grows: writing takes no memory.

ghost use Rattle.std.specs.Prelude.{◌≡◌, ◌+◌, ◌≤◌, [], OnOk, OnErr, IfOk, vec_len, vec_capacity};
ghost use Rattle.text_bytes.specs.Writing.{HandsOn, HandsPart};

use crate::pieces::LINE_MAX;
use std::alloc::{AllocError, Global};
use std::io;
use std::io::{ErrorKind, Write};

/// How many bytes a buffer has room for.
const BUFFER_ROOM: usize = 65536;

/// A buffer for lines. It is refused where the allocator refused.
pub fn line_buffer(alloc: Global) -> Result<Vec<u8>, AllocError>
    ensures empty { IfOk result (λ v. v.items ≡ []) }
    ensures room { IfOk result (λ v. LINE_MAX ≤ vec_capacity v) }
{
    Vec::with_capacity(alloc, BUFFER_ROOM)
}

/// Writes the bytes. After a failing write, or one that took nothing, a beginning of them was written.
pub fn write_bytes<W: Write>(bytes: &[u8], out: &mut W) -> io::Result<()>
    ensures whole { OnOk result
        (HandsOn (W.contents out.old) (W.contents out.new) bytes.now [] []) }
    ensures part { OnErr result (HandsPart (W.contents out.old) (W.contents out.new) bytes.now []) }
{
    let mut at = 0;
    while at < bytes.len() {
        let count = out.write(&bytes[at..])?;
        if count == 0 {
            return Err(io::Error::from(ErrorKind::WriteZero));
        }
        at += count;
    }
    Ok(())
}

/// Writes what the buffer keeps. After a failing write, or one that took nothing, a beginning of it was written.
pub fn write_buffer<W: Write>(buffer: &mut Vec<u8>, out: &mut W) -> io::Result<()>
    ensures whole { OnOk result
        (HandsOn (W.contents out.old) (W.contents out.new) buffer.old.items [] []) }
    ensures empty { OnOk result (buffer.new.items ≡ []) }
    ensures part { OnErr result
        (HandsPart (W.contents out.old) (W.contents out.new) buffer.old.items []) }
    ensures room { vec_capacity buffer.new ≡ vec_capacity buffer.old }
{
    write_bytes(buffer, out)?;
    buffer.clear();
    Ok(())
}

/// Makes room for a line, where there is none: the buffer is written then. After a failing write, or one that took nothing,
/// a beginning of its bytes was written.
pub fn make_room<W: Write>(buffer: &mut Vec<u8>, out: &mut W) -> io::Result<()>
    requires { LINE_MAX ≤ vec_capacity buffer.old }
    ensures whole { OnOk result
        (HandsOn (W.contents out.old) (W.contents out.new) buffer.old.items [] buffer.new.items) }
    ensures line { OnOk result (vec_len buffer.new + LINE_MAX ≤ vec_capacity buffer.new) }
    ensures part { OnErr result
        (HandsPart (W.contents out.old) (W.contents out.new) buffer.old.items []) }
    ensures room { LINE_MAX ≤ vec_capacity buffer.new }
{
    if buffer.capacity() - buffer.len() < LINE_MAX {
        write_buffer(buffer, out)?;
    }
    Ok(())
}
