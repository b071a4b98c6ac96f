//! The report of a check: its verdict as a document of JSON.
#![tactic(auto)]

mod finding;
mod laws;
mod probes;
mod record;
mod report;
mod tasks;
mod timers;
mod words;

pub use laws::add_laws;
pub use probes::{ProbeAnswers, add_evidence, add_probes};
pub use record::{ReportSettings, add_settings};
pub use report::CheckReport;
pub use tasks::add_tasks;
pub use timers::{TimerAnswers, add_timers};
