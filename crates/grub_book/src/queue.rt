//! The constants of a runqueue.

ghost use Rattle.std.specs.Prelude.{◌≡◌, ◌<◌, ◌↔◌, IsOk, IsErrOf, IfOk};
ghost use Rattle.grub_book.specs.Bandwidth.{IsCapacity, IsMost};

use std::error::Error;
use std::fmt;
use std::marker::Model;

/// A bandwidth of one, a whole processor.
pub const BW_UNIT: u32 = 1048576;

/// Why the constants of a runqueue are refused, in the order of the tests.
#[derive(Clone, Copy, Debug, PartialEq, Eq)]
pub enum QueueFault {
    /// 4: the most bandwidth is not 1 to 1048576.
    UmaxOutOfRange,

    /// 5: the extra bandwidth is more than the most.
    UextraOutOfRange,
}

impl fmt::Display for QueueFault {
    ghost use Rattle.std.specs.Prelude.{Some};
    ghost use Rattle.grub_book.specs.Messages.{queue_fault_text};

    ghost output = { λ fault. Some (queue_fault_text fault) };

    fn fmt<W: fmt::Write>(&self, f: &mut fmt::Formatter<W>) -> fmt::Result {
        f.write_str(match self {
            QueueFault::UmaxOutOfRange => "4 UmaxOutOfRange",
            QueueFault::UextraOutOfRange => "5 UextraOutOfRange",
        })
    }
}

impl Error for QueueFault {}

/// The constants of a runqueue: Umax and Uextra of the kernel's `sched-deadline.rst`, "Bandwidth reclaiming".
#[derive(Clone, Copy, Debug, PartialEq, Eq)]
pub struct Queue {
    umax: u32,
    uextra: u32,
}

impl Model for Queue {
    ghost use Rattle.grub_book.specs.Bandwidth.{Capacity, IsCapacity};

    ghost Value = { Capacity };

    ghost view = { λ q. record { most = q.umax; extra = q.uextra } };

    ghost invariant = { λ q. IsCapacity (record { most = q.umax; extra = q.uextra }) };

    ghost inverse = { λ v. record { umax = v.most; uextra = v.extra } };
}

impl Queue {
    /// A runqueue that admits tasks up to the bandwidth `umax`, of which running tasks may reclaim `uextra` at all times, both in 1/2^20.
    /// It is refused with 4 where `umax` is not 1 to 1048576, and then with 5 where `uextra` is more than `umax`.
    pub fn new(umax: u32, uextra: u32) -> Result<Queue, QueueFault>
        ensures ok { IfOk result (λ q. q ≡ record { most = umax; extra = uextra }) }
        ensures accepted { IsOk result ↔ IsCapacity (record { most = umax; extra = uextra }) }

        // Each fault where the one before it does not stand.
        ensures most { IsErrOf result QueueFault.UmaxOutOfRange ↔ ¬ IsMost umax }
        ensures extra { IsErrOf result QueueFault.UextraOutOfRange ↔ IsMost umax × (umax < uextra) }
    {
        if umax == 0 || umax > BW_UNIT {
            return Err(QueueFault::UmaxOutOfRange);
        }
        if uextra > umax {
            return Err(QueueFault::UextraOutOfRange);
        }
        Ok(Queue { umax, uextra })
    }

    /// The most bandwidth that is admitted, in 1/2^20.
    pub fn umax(&self) -> u32
        ensures value { result ≡ self.now.most }
        ensures limits { IsCapacity self.now }
    {
        self.umax
    }

    /// The bandwidth that running tasks may reclaim at all times, beside that of inactive tasks, in 1/2^20.
    pub fn uextra(&self) -> u32
        ensures value { result ≡ self.now.extra }
        ensures limits { IsCapacity self.now }
    {
        self.uextra
    }
}
