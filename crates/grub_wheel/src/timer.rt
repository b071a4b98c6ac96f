//! One timer of a task.

ghost use Rattle.std.specs.Prelude.{◌≡◌};
ghost use Rattle.grub_wheel.specs.inside.Order.{is_before};

/// The timer of a blocked task.
#[derive(Clone, Copy, Debug, PartialEq, Eq)]
pub struct Timer {
    /// The task's 0-lag time, from which on the timer is due.
    pub z: u32,

    /// The number of the task.
    pub t: u32,

    /// The ticket of the block that waits for it.
    pub ticket: u32,
}

impl Timer {
    /// Whether it comes before the timer of another task: by moment, then by task.
    pub(crate) fn is_before(self, other: Timer) -> bool
        ensures { result ≡ is_before self other }
    {
        self.z < other.z || (self.z == other.z && self.t < other.t)
    }
}
