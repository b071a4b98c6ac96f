//! From the paths of event files to printed reports or a view of their time line, or to the line of a fault and a status.
#![tactic(auto)]

mod by_threads;
mod grub_fault;
mod laws;
mod paths;
mod printing;
mod program_fault;
mod ready;
mod report;
mod serving;
mod show_fault;
mod streams;
mod texts;
mod view;

pub use by_threads::run_texts_by_threads;
pub use grub_fault::GrubFault;
pub use grub_workers::Attempts;
pub use laws::one_file_is_played_as_it_runs;
pub use printing::{print_reports, print_view};
pub use program_fault::{ProgramFault, STATUS_FILE, STATUS_SYSTEM, STATUS_USAGE};
pub use serving::{serve_files, serve_view};
pub use show_fault::ShowFault;
pub use streams::Streams;
pub use texts::{run_texts, write_text};
pub use view::{FileView, write_view};
