//! Why a wheel has no room.
use std::error::Error;
use std::fmt;

/// Why a wheel was not made, or got no place for a timer.
#[derive(Clone, Copy, Debug, PartialEq, Eq)]
pub enum WheelFault {
    /// 27: the allocator refused.
    NoMemory,
}

impl fmt::Display for WheelFault {
    ghost use Rattle.std.specs.Prelude.{Some};
    ghost use Rattle.grub_wheel.specs.Messages.{wheel_fault_text};

    ghost output = { λ _. Some wheel_fault_text };

    fn fmt<W: fmt::Write>(&self, f: &mut fmt::Formatter<W>) -> fmt::Result {
        f.write_str(match self {
            WheelFault::NoMemory => "27 NoMemory",
        })
    }
}

impl Error for WheelFault {}
