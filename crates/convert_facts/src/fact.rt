//! Facts: what a trace tells of the tasks that were given, by options or by its own notes.

use crate::fault::LineFault;
use grub_book::Params;
use trace_data::{Kernel, Limit, Stop};

/// What a line tells of a task.
#[derive(Clone, Copy, Debug, PartialEq, Eq)]
pub enum What {
    /// It wakes on this CPU.
    Wakes { cpu: u32 },

    /// It is sent to this CPU.
    Sent { cpu: u32 },

    /// It ran for so many nanoseconds up to this moment.
    Ran { nanos: u64 },

    /// It stops to run; the CPU is the line's.
    Stops { cpu: u32, state: Stop },

    /// Its 0-lag timer is armed for this moment, in nanoseconds.
    Armed { expires: u64 },

    /// Its 0-lag timer is cancelled.
    Cancelled,

    /// Its 0-lag timer fires, at this moment in nanoseconds.
    Fired { now: u64 },
}

/// One thing that a trace tells of a given task.
#[derive(Clone, Copy, Debug, PartialEq, Eq)]
pub struct Fact {
    /// The line of the trace, which counts from 1.
    pub line: u64,

    /// The moment of the line, in nanoseconds.
    pub at: u64,

    /// The index of the task among those that were given, and those of notes behind them.
    pub task: usize,

    pub what: What,
}

/// A given task, where the trace shows it.
#[derive(Debug, Drop)]
pub struct Found {
    pub pid: u64,

    /// Its comm at the first line that shows its pid.
    pub comm: Vec<u8>,

    /// That line.
    pub line: u64,
}

/// What a trace tells up to its end, or up to its first line with a fault.
#[derive(Drop)]
pub struct Facts {
    /// In the order of their lines.
    pub facts: Vec<Fact>,

    /// For each task in turn, where the trace shows it: those that were given, and behind them those of notes.
    pub found: Vec<Option<Found>>,

    /// What the tasks of notes reserve, in microseconds.
    pub noted: Vec<Params>,

    /// What notes say of the kernel.
    pub kernel: Option<Kernel>,
    pub limit: Option<Limit>,

    /// How many runqueues there are.
    pub runqueues: u32,

    pub fault: Option<LineFault>,
}
