//! Pieces of a picture's text.

use std::alloc::AllocError;

/// Appends a piece and then a number, in plain decimal. It is refused where the allocator refused.
pub fn put_number(out: &mut Vec<u8>, piece: &[u8], n: u64) -> Result<(), AllocError> {
    text_bytes::put_number(out, piece, n)?;
    Ok(())
}

/// Appends a text as it is. It is refused where the allocator refused.
pub fn put_text(out: &mut Vec<u8>, text: &str) -> Result<(), AllocError> {
    out.extend_from_slice(text.as_bytes())
}
