//! Lines of probes as moves of a run: each shows the state before its function, and then the run changes as the function does.
//!
//! What differs is counted, and the kernel's value is taken; where nothing differs the run went as `specs/` says.
#![tactic(auto)]

mod arming;
mod line;
mod marks;
mod servers;
mod timers;

pub use arming::armed;
pub use line::{event_of, play_line};
pub use marks::marked;
pub use servers::{picked, server_started, server_stopped, stops_nothing};
pub use timers::{replenish_fired, zero_lag_fired};
