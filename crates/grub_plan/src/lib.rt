//! What event files say, what their lines ask, what was asked and answered, what that does to timers, and the texts of it.
#![tactic(auto)]

mod asking;
mod entries;
mod entry;
mod keeping;
mod line;
mod name;
mod pieces;
mod plan;
mod text;

pub use asking::call_of;
pub use entry::{Answer, Ask, Entry, Report};
pub use keeping::{keep, make_room};
pub use line::{Act, Line};
pub use name::{NAME_MAX, is_name};
pub use pieces::{
    ANSWER_MAX, ASK_MAX, READING_MAX, append_answer, append_ask, append_close, append_entry,
    append_head, append_reading,
};
pub use plan::Plan;
pub use text::{TextFault, line_of, put_reading, report_of};
