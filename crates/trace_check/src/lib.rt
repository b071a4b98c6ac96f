//! The program's part of `grubtrace check`: a record that was read is judged, and the verdict written.
#![tactic(auto)]

mod beside;
mod by_laws;
mod by_probes;
mod by_timers;
mod check;
mod evidence;
mod files;
mod opening;
mod order;
mod probe_states;
mod reports;
mod showing;
mod untried;
mod warnings;
mod why;

pub use check::{CheckRequest, serve_check};
pub use law_findings::AskedLaws;
pub use law_verdict::asked_of as laws_of;
pub use trace_options::{
    Arithmetic, CheckOption, CheckOptions, CheckWords, FairServerOption, TaskOption, Window,
    WrongOption, options_of, window_of,
};
