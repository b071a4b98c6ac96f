//! Firing: the 0-lag timer and the replenishment timer fire at their moments (Lipari and Baruah 2000;
//! Documentation/scheduler/sched-deadline.rst, section 2.2).

ghost use Rattle.std.specs.Prelude.{◌↔◌, IsTrue};
ghost use Rattle.law_findings.specs.Firing.{IsEarly, IsAwakeLong, IsDue};

/// A microsecond, to which moments of lines are cut.
const MICRO: u64 = 1000;

/// For so long a timer may fire of a task that has woken: its function may wait for the runqueue's lock.
const AWAKE: u64 = 100_000;

/// For so long a timer may be late before it is missed.
const LATE: u64 = 10_000_000;

/// Whether a timer fires before its expiry. Moments are nanoseconds.
pub fn is_early(expiry: u64, fired: u64) -> bool
    ensures { IsTrue result ↔ IsEarly expiry fired }
{
    fired < expiry && expiry - fired >= MICRO
}

/// Whether a task has woken so long before its 0-lag timer fires, and before its expiry, that the timer was to be cancelled.
pub fn is_awake_long(woke: u64, expiry: u64, fired: u64) -> bool
    ensures { IsTrue result ↔ IsAwakeLong woke expiry fired }
{
    woke <= fired && fired - woke >= AWAKE && woke <= expiry && expiry - woke >= AWAKE
}

/// Whether a timer that has not fired up to this moment is missed.
pub fn is_due(expiry: u64, now: u64) -> bool
    ensures { IsTrue result ↔ IsDue expiry now }
{
    expiry <= now && now - expiry >= LATE
}
