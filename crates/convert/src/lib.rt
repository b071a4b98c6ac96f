//! From a kernel trace to event files: what the words of the options say, a trace read in pieces, and its faults.
#![tactic(auto)]

mod census;
mod event;
mod fault;
mod files;
mod landing;
mod lists;
mod names;
mod options;
mod order;
mod pieces;
mod placing;
mod rules;
mod serving;
mod setting;
mod standing;
mod writing;

pub use event::{EventSource, TaskAct, TaskEvent, TimedEvent};
pub use files::{FilesFault, event_files, events_told, setting_of};
pub use names::{fair_name, names_of};
pub use options::{ConvertOptions, FairReservation, TaskReservation, options_of};
pub use order::{EventPlace, FIRST_WAKE, OrderFault};
pub use pieces::read_facts;
pub use placing::place_facts;
pub use serving::{explain, serve_events, serve_tasks};
pub use setting::{Declared, Setting, queue_of, umax_of};
pub use standing::Standing;
pub use writing::{event_file, file_events};
