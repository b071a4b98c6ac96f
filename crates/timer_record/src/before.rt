//! The line before another one on its CPU.

/// What the last line of a CPU tells of the owner of a timer that the next line starts, or that it started itself.
#[derive(Clone, Copy)]
pub enum Before {
    Nothing,

    /// A task of the class was charged.
    Charged { task: u32 },

    /// This `dl_task_timer` was started.
    Started { timer: u32 },
}
