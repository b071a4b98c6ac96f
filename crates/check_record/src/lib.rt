//! A record is read: what its notes tell, lines of timers that are kept, and lines of probes that are played.
#![tactic(auto)]

mod gathering;
mod laws;
mod names;
mod notes;
mod played;
mod probes;
mod reading;
mod timers;
mod whole;

pub use gathering::{EarlierLine, Gathering};
pub use laws::{LawsOfRecord, RecordLaws};
pub use names::Names;
pub use played::{AHEAD, Played};
pub use probes::Probes;
pub use whole::{RecordRequest, gathered_whole};
