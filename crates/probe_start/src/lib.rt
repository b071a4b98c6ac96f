//! What is known of a record before its first line is played: which lines it has, whether a task is older, and what each runqueue
//! begins with.
#![tactic(auto)]

mod look;
mod notes;

pub use look::{Assumed, RecordLook};
pub use notes::{CpuNote, StartNotes, note_of, put_note};
