//! Lines that say what happens.

/// What a line says that happens, with the name or the number of its task and with such numbers. A plan has the tasks by
/// their numbers.
#[derive(Clone, Copy, Debug, PartialEq, Eq)]
pub enum Act<N = u32, V = u32> {
    Join(N),
    Wake(N),
    Block(N),
    Leave(N),
    Exit(N),
    /// The task ran for so long.
    Run(N, V),
    /// The task's reservation becomes this runtime in each period.
    Retune(N, V, V),
    /// The runqueue is read.
    Read,
}

/// A line of a script, at its moment.
#[derive(Clone, Copy, Debug, PartialEq, Eq)]
pub struct Line<N = u32> {
    pub m: u32,
    pub act: Act<N>,
}
