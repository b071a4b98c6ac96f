//! What `grubtrace size` prints: the tasks of a record, and the reservations that they need.
#![tactic(auto)]

mod census;
mod figures;
mod options;
mod picture;
mod price;
mod reading;
mod sections;
mod serving;
mod sizing;
mod task_text;

pub use options::{AskedTask, FaultKind, OptionFault, SizeOptions, SizeWords, size_options_of};
pub use serving::serve_size;
