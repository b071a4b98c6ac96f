//! Lines of probes at the functions of kernel/sched/deadline.c: from the text of their fields to what they show.
#![tactic(auto)]

mod field;
mod front;
mod numerals;
mod shown;
mod tables;
mod value;
mod values;

pub use numerals::{numeral, signed, unsigned};
pub use shown::{MarkEvent, ProbeEvent, event_named, probe_of};
pub use value::timer_function;
