//! What options and the notes of a record say of the kernel that was recorded.
#![tactic(auto)]

mod head;
mod opening;
mod sought;
mod timers;
mod wanted;

pub use head::{OpeningSign, RecordHead, SumsOpened, cpus_of, is_older, server_note};
pub use opening::{is_frequency, newcomer, opening_by_change, opening_of};
pub use sought::SoughtTask;
pub use timers::{LateLine, RecordTimers};
pub use wanted::{WantedLines, wanted_by};
