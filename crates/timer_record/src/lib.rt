//! The lines of a record that bear on the timers of SCHED_DEADLINE, with tasks and timers by number.
//!
//! Whose a timer is, the clock of a wake and the moment of an admission are told by other lines, which may stand further on:
//! they are found while the lines are kept. Moments and spans are nanoseconds.
#![tactic(auto)]

mod before;
mod charging;
mod event;
mod late;
mod lines;
mod moment;
mod passing;
mod record;
mod timers;
mod vote;
mod waking;

pub use event::{KeptEvent, KeptLine};
pub use late::LateNote;
pub use lines::{
    AddressLines, FirstLine, GivenReservation, KeptLines, TaskLines, TaskNote, TimerLines, Unlisted,
};
pub use record::OpenRecord;
pub use vote::Vote;
