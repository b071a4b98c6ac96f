//! Reads the file of a trace in pieces, up to its end or to the line at which its text halts; and the calls that reach files.
#![tactic(auto)]

mod files;
mod reading;

pub use files::{Files, Target};
pub use reading::{ReadFault, read_lines};
