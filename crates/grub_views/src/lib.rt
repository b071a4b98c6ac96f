//! Views of a time line that are written while it is played: its text, and its steps as a table of tab-separated fields.
#![tactic(auto)]

mod beside;
mod line_room;
mod lines;
mod rest;
mod row;
mod rows;
mod step_maker;
mod summary;
mod sums;
mod table;
mod tally;
mod usage;

pub use line_room::LineRoom;
pub use lines::write_timeline;
pub use rows::write_steps;
pub use step_maker::StepMaker;
pub use summary::summary_text;
