//! How a text is read, and the options of given tasks.

use convert::{ConvertOptions, options_of};
use std::alloc::Global;
use std::io;

/// Gives the next bytes of a text.
pub(crate) fn read_text(text: &[u8], at: &mut usize, room: &mut [u8]) -> io::Result<usize> {
    let mut count = 0usize;
    for (byte, place) in text.iter().skip(*at).zip(room.iter_mut()) {
        *place = *byte;
        count = count.saturating_add(1);
    }
    *at = at.saturating_add(count);
    Ok(count)
}

/// The options of these tasks alone; None where the words say none, or memory is refused.
pub(crate) fn options<'a>(alloc: Global, tasks: &[&'a str]) -> Option<ConvertOptions<'a>> {
    match options_of(alloc, tasks, None, None, None) {
        Ok(Ok(options)) => Some(options),
        Ok(Err(_)) | Err(_) => None,
    }
}
