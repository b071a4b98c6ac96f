//! The reader of event files. What `grub_plan` hands out is handed out here too.
#![tactic(auto)]

mod below;
mod body;
mod fault;
mod form;
mod head;
mod heads;
mod naming;
mod number;
mod raw;
mod read;
mod tasks;
mod version;
mod word_list;
mod words;

pub use fault::{Kind, TraceFault};
pub use grub_plan::{
    ANSWER_MAX, ASK_MAX, Act, Answer, Ask, Entry, Line, Plan, READING_MAX, Report, TextFault,
    append_answer, append_ask, append_close, append_entry, append_head, append_reading, is_name,
    line_of, put_reading, report_of,
};
pub use heads::check_count;
pub use read::{read_files, read_files_by_threads};
