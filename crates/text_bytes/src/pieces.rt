//! Pieces of a text. Most are appended to a vector that has room for them, so no memory is taken.

ghost use Rattle.std.specs.Prelude.{◌≡◌, ◌+◌, ◌≤◌, ◌++◌, OnOk, length, decimal, vec_len, vec_capacity};

use itoa::Buffer;
use std::alloc::AllocError;

/// No number has more digits.
pub const DIGITS_MAX: usize = 20;

/// No line that is written through a buffer is longer.
pub const LINE_MAX: usize = 320;

/// Appends a piece as it is.
pub fn append(out: &mut Vec<u8>, piece: &[u8])
    requires { vec_len out.old + length piece.now ≤ vec_capacity out.old }
    ensures text { out.new.items ≡ out.old.items ++ piece.now }
    ensures len { vec_len out.new ≡ vec_len out.old + length piece.now }
    ensures room { vec_capacity out.old ≤ vec_capacity out.new }
{
    let Ok(()) = out.extend_from_slice(piece) else {
        unreachable!();
    };
}

/// Appends a piece and then a number, in plain decimal.
pub fn append_number(out: &mut Vec<u8>, piece: &[u8], n: u64)
    requires { vec_len out.old + length piece.now + DIGITS_MAX ≤ vec_capacity out.old }
    ensures text { out.new.items ≡ out.old.items ++ (piece.now ++ decimal n) }
    ensures len { vec_len out.new ≤ vec_len out.old + length piece.now + DIGITS_MAX }
    ensures room { vec_capacity out.old ≤ vec_capacity out.new }
{
    let mut buffer = Buffer::new();
    append(out, piece);
    append(out, buffer.format(n).as_bytes());
}

/// Appends a piece and then a number, in plain decimal. It is refused where the allocator refused.
pub fn put_number(out: &mut Vec<u8>, piece: &[u8], n: u64) -> Result<(), AllocError>
    ensures { OnOk result (out.new.items ≡ out.old.items ++ (piece.now ++ decimal n)) }
{
    out.reserve(piece.len() + DIGITS_MAX)?;
    append_number(out, piece, n);
    Ok(())
}
