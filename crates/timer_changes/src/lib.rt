//! A record's timers, played with one rule changed at a time: what they would show if the kernel had that rule in place of its own.
#![tactic(auto)]

mod explanation;
mod play;
mod rules;
mod trial;

pub use explanation::put_explanation;
pub use trial::{CHANGES, tried};
