//! The laws as a fold over the lines of a record. It carries no budget, no deadline and no sum: each law looks at values that stand a
//! few lines apart, and at who is queued, armed and admitted by what lines tell.
#![tactic(auto)]

mod budget;
mod cpu;
mod expiry;
mod firing;
mod play;
mod progress;
mod states;
mod switches;
mod task;
mod timer;
mod zero_lag;

pub use play::LawPlay;
