//! Expiry: a throttled task gets its budget at the begin of its next period (Abeni and Buttazzo 1998;
//! Documentation/scheduler/sched-deadline.rst, section 2.1).

ghost use Rattle.std.specs.Prelude.{◌≡◌, ◌↔◌, IsTrue};
ghost use Rattle.law_findings.specs.Expiry.{IsNextPeriod, begin_of, moment_of};

/// A microsecond, to which moments of lines are cut, in nanoseconds.
const MICRO: u64 = 1000;

/// A replenishment timer that is armed. Moments are nanoseconds: `deadline` and `clock` on the runqueue's clock, the others on that
/// of the lines.
#[derive(Clone, Copy)]
pub struct Expiry {
    pub deadline: u64,
    pub dl_deadline: u64,
    pub dl_period: u64,

    /// The runqueue's clock at the line that throttled the task, and the moment of that line.
    pub clock: u64,
    pub from: u64,

    /// The moment of the line that armed the timer, and for when.
    pub to: u64,
    pub armed_for: u64,
}

impl Expiry {
    /// The begin of the next period, on the runqueue's clock.
    pub fn period(self) -> u64
        ensures { result ≡ begin_of self }
    {
        self.deadline
            .wrapping_sub(self.dl_deadline)
            .wrapping_add(self.dl_period)
    }

    /// When the runqueue's clock was read, by the moment that the timer is armed for.
    fn read(self) -> u64
        ensures { result ≡ moment_of self }
    {
        self.armed_for
            .wrapping_sub(self.period().wrapping_sub(self.clock))
    }
}

/// Whether the timer is armed for the begin of the next period: the runqueue's clock was then read between the two lines, to a
/// microsecond.
pub fn is_next_period(expiry: Expiry) -> bool
    ensures { IsTrue result ↔ IsNextPeriod expiry }
{
    let read = expiry.read();
    let is_behind = expiry.from <= read || expiry.from - read <= MICRO;
    let is_before = read <= expiry.to || read - expiry.to <= 2 * MICRO;
    is_behind && is_before
}
