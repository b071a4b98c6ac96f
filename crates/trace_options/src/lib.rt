//! Words of options, and what those of `grubtrace check` say.
#![tactic(auto)]

mod fault;
mod options;
mod window;
mod words;

pub use fault::{
    Fault, STATUS_DIFFERS, STATUS_FILE, STATUS_LAW, STATUS_SYSTEM, STATUS_USAGE, Uncompared,
    told_status,
};
pub use options::{
    Arithmetic, CheckOption, CheckOptions, CheckWords, TaskOption, WrongOption, options_of,
};
pub use trace_lines::{CPUS, CpuRange};
pub use window::{Window, window_of};
pub use words::{FairServerOption, domain_of, last_parts};
