//! The laws that lines of timers, wakes and switches show by themselves: *firing*, and *pick* as far as no deadline stands in a line.
#![tactic(auto)]

mod play;
mod timers;
mod waits;

pub use play::TimerLaws;
