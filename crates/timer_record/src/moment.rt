//! When the kernel took a change that a note tells of.

ghost use Rattle.std.specs.Prelude.{◌≡◌};
ghost use Rattle.timer_record.specs.Moments.{ends_of, near_of, wake_clock_of};

use trace_data::Stop;

/// A charge so much before a note may be that within the call.
const CALL: u64 = 30_000;

/// Of a task's first note: its call may have waited before it returned.
const FIRST_CALL: u64 = 5_000_000;

/// The kernel's change is so much before the note, where no charge tells more.
const LAG: u64 = 2_000;

/// A run that began so much before the line of a wake began with it.
const WAKE: u64 = 100_000;

/// A moment that was cut or rounded may be so much later than it says.
pub const ROUNDING: u64 = 999;

/// What is known of a task as lines pass by.
#[derive(Clone, Copy)]
pub struct Passing {
    /// The moment of its last charge.
    pub charged: Option<u64>,

    /// It is within a call of sched_setattr(2), and no line has shown that the kernel has taken the change.
    pub is_calling: bool,

    /// The moment of the last charge within its last call, before the change was seen.
    pub within_call: Option<u64>,

    /// The moment of the charge before that one, within the same call.
    pub earlier_in_call: Option<u64>,

    /// It has had a note before.
    pub has_note: bool,

    /// The moment of its last note.
    pub noted: u64,

    /// It is of the class.
    pub is_deadline: bool,

    /// It was switched out last as it ended.
    pub has_ended: bool,

    /// Its last wake, among the kept lines, where no charge followed yet.
    pub woken: Option<usize>,
}

impl Passing {
    ghost use Rattle.timer_record.specs.Moments.{calling_of, change_of, charged_of, in_class_of, passing_at_first, is_gone_of, is_outside_of, returned_of, switched_of, told_of};

    /// A task of which no line has passed by.
    pub fn new() -> Passing
        ensures { result ≡ passing_at_first }
    {
        Passing {
            charged: None,
            is_calling: false,
            within_call: None,
            earlier_in_call: None,
            has_note: false,
            noted: 0,
            is_deadline: false,
            has_ended: false,
            woken: None,
        }
    }

    /// The task after a charge at this moment.
    pub fn charged(self, at: u64) -> Passing
        ensures { result ≡ charged_of self at }
    {
        let passing = Passing {
            charged: Some(at),
            woken: None,
            ..self
        };
        if self.is_calling {
            Passing {
                within_call: Some(at),
                earlier_in_call: self.within_call,
                ..passing
            }
        } else {
            passing
        }
    }

    /// The task after it is switched out as one of the class: a call that puts it there was taken before the last charge.
    pub fn in_class(self) -> Passing
        ensures { result ≡ in_class_of self }
    {
        if self.is_calling && !self.is_deadline {
            Passing {
                is_calling: false,
                within_call: self.earlier_in_call.or(self.within_call),
                ..self
            }
        } else {
            self
        }
    }

    /// The task after it is switched out, as one of the class or not.
    pub fn switched(self, is_deadline: bool, stop: Stop) -> Passing
        ensures { result ≡ switched_of self is_deadline stop }
    {
        let passing = if is_deadline { self.in_class() } else { self };
        Passing {
            has_ended: ends(stop),
            ..passing
        }
    }

    /// Whether it has ended, or left the class: a timer that is started is not its own.
    pub fn is_gone(self) -> bool
        ensures { result ≡ is_gone_of self }
    {
        self.has_ended || !self.is_deadline
    }

    /// Whether its notes put it outside the class, and no call of it is at work that may put it there again.
    pub fn is_outside(self) -> bool
        ensures { result ≡ is_outside_of self }
    {
        self.has_note && !self.is_deadline && !self.is_calling && self.within_call.is_none()
    }

    /// The task after its call returned.
    pub fn returned(self) -> Passing
        ensures { result ≡ returned_of self }
    {
        Passing {
            is_calling: false,
            ..self
        }
    }

    /// The task after it made a call.
    pub fn calling(self) -> Passing
        ensures { result ≡ calling_of self }
    {
        Passing {
            is_calling: true,
            within_call: None,
            earlier_in_call: None,
            ..self
        }
    }

    /// The task after a note of this moment.
    pub fn told(self, is_deadline: bool, noted: u64) -> Passing
        ensures { result ≡ told_of self is_deadline noted }
    {
        Passing {
            within_call: None,
            has_note: true,
            noted,
            is_deadline,
            ..self
        }
    }

    /// When the kernel took the change that a note of this moment tells of: just after the charge within the call.
    pub fn change_before(self, note: u64, is_by_itself: bool) -> u64
        ensures { result ≡ change_of self note is_by_itself }
    {
        let span = if self.has_note { CALL } else { FIRST_CALL };
        let near = charge_near(self.charged, note, span);
        let charge = if is_by_itself {
            self.within_call.or(near)
        } else {
            near
        };
        match charge {
            Some(charge) => charge.saturating_add(1),
            None => note.saturating_sub(LAG),
        }
    }
}

/// Whether a task that stops so has ended.
fn ends(stop: Stop) -> bool
    ensures { result ≡ ends_of stop }
{
    match stop {
        Stop::Ends => true,
        Stop::Ready | Stop::Blocks => false,
    }
}

/// A charge less than a span before a note.
fn charge_near(charge: Option<u64>, note: u64, span: u64) -> Option<u64>
    ensures { result ≡ near_of charge note span }
{
    let charge = charge?;
    if note.saturating_sub(charge) < span {
        Some(charge)
    } else {
        None
    }
}

/// The clock of a wake at this moment, when its task's first charge is of a run of so many nanoseconds: a run that began just before
/// the wake's line began with the wake.
pub fn wake_clock(woken: u64, charged: u64, nanos: u64) -> u64
    ensures { result ≡ wake_clock_of woken charged nanos }
{
    let begun = charged.saturating_sub(nanos);
    if begun < woken && woken - begun < WAKE {
        begun
    } else {
        woken
    }
}
