//! Progress: a task whose budget is used up gets it again at its server's deadline (Abeni and Buttazzo 1998;
//! Documentation/scheduler/sched-deadline.rst, section 2.1).

ghost use Rattle.std.specs.Prelude.{◌↔◌, IsTrue};
ghost use Rattle.law_findings.specs.Progress.{IsWaitedFor};

/// A task that a line shows queued and throttled.
#[derive(Clone, Copy)]
pub struct Throttled {
    /// Its replenishment timer is armed.
    pub is_armed: bool,

    /// The timer fired, and the CPU that ran it has shown nothing since: it may wait for the runqueue's lock.
    pub is_firing: bool,

    /// The same call replenished it, or armed the timer.
    pub is_answered: bool,
}

/// Whether something is to end its throttling.
pub fn is_waited_for(task: Throttled) -> bool
    ensures { IsTrue result ↔ IsWaitedFor task }
{
    task.is_armed || task.is_firing || task.is_answered
}
