//! Bytes in and bytes out, whatever they say: files of a bounded length, the lines of a text and the words of a line;
//! and lines that are put together and written in order, by several threads where there are many.
#![tactic(auto)]

mod block;
mod blocks;
mod buffer;
mod files;
mod item_line;
mod lines;
mod pieces;
mod writing;

pub use blocks::Blocks;
pub use buffer::{line_buffer, make_room, write_buffer, write_bytes};
pub use files::{FILE_BYTES_MAX, FileFault, Source, read_all, read_file, read_once};
pub use item_line::LineOf;
pub use lines::{first_line, first_word, space_in};
pub use pieces::{DIGITS_MAX, LINE_MAX, append, append_number, put_number};
pub use writing::{MANY_LINES, write_lines};
