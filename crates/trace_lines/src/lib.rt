//! One line of a record: what it says, in the words of `trace_data`.
#![tactic(auto)]

mod change;
mod clock;
mod comment;
mod fixed;
mod line;
mod named_cpu;
mod note;
mod reader;
mod scheduled;
mod verb;
mod word;

pub use change::CpuChange;
pub use clock::{CLOCK_MAX, Clock};
pub use line::{ToldLine, told_by};
pub use note::Lost;
pub use reader::{Halt, Lines, RecordReader};
pub use scheduled::{Class, Scheduled};
pub use word::{CPUS, CpuRange, first_part, kernel_of, range_in};
