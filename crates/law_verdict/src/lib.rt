//! The laws' part of a verdict, in words.
#![tactic(auto)]

mod breach;
mod lines;
mod names;
mod others;
mod serving;
mod table;
mod task;
mod task_text;
mod text;
mod writing;

pub use breach::{put_finding, put_traces};
pub use lines::FigureLines;
pub use names::{asked_of, fault_name, law_name, line_name};
pub use others::CpuLeft;
pub use serving::{FigureText, print_figures, shows_class};
pub use table::put_law_row;
pub use task::TaskFigures;
pub use task_text::{put_figures, put_supply};
pub use text::put_laws;
pub use writing::{TaskName, put_count, put_span, put_task};
