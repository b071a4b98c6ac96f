//! A task that was given.

ghost use Rattle.std.specs.Prelude.{◌≡◌};
ghost use Rattle.convert_facts.specs.Given.{has_pid, has_timer, is_number, is_sugov, seeks};
ghost use Rattle.convert_facts.specs.Keeping.{given_text};

use crate::fact::Found;

/// A task that was given, by its comm or its pid.
#[derive(Drop)]
pub struct GivenTask {
    /// The comm that is still looked for.
    pub sought: Option<Vec<u8>>,

    /// Its pid, once that is known.
    pub pid: Option<u64>,

    pub found: Option<Found>,

    /// The address of its 0-lag timer, once there is one.
    pub timer: Option<u64>,
}

/// Whether a comm is that of the kernel threads that have no bandwidth.
pub(crate) fn is_sugov(comm: &[u8]) -> bool
    ensures { result ≡ is_sugov comm.now }
{
    comm.starts_with(b"sugov:")
}

fn is_number(number: u64, maybe: Option<u64>) -> bool
    ensures { result ≡ is_number number maybe }
{
    match maybe {
        None => false,
        Some(own) => own == number,
    }
}

impl GivenTask {
    /// Whether its pid is known, and is this one.
    pub(crate) fn has_pid(&self, pid: u64) -> bool
        ensures { result ≡ has_pid pid (given_text self.now) }
    {
        is_number(pid, self.pid)
    }

    /// Whether this comm is the one that is still looked for.
    pub(crate) fn seeks(&self, comm: &[u8]) -> bool
        ensures { result ≡ seeks comm.now (given_text self.now) }
    {
        match &self.sought {
            None => false,
            Some(sought) => sought.as_slice() == comm,
        }
    }

    /// Whether the timer at this address is its 0-lag timer.
    pub(crate) fn has_timer(&self, timer: u64) -> bool
        ensures { result ≡ has_timer timer (given_text self.now) }
    {
        is_number(timer, self.timer)
    }
}
