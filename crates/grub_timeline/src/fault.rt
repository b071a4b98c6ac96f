//! Why files were not played.
use std::error::Error;
use std::fmt;

/// Why there is no time line of a plan.
#[derive(Clone, Copy, Debug, PartialEq, Eq)]
pub enum PlayFault {
    /// 48: the allocator refused.
    NoMemory,
}

impl fmt::Display for PlayFault {
    ghost use Rattle.std.specs.Prelude.{Some};
    ghost use Rattle.grub_timeline.specs.Messages.{play_fault_text};

    ghost output = { λ _. Some play_fault_text };

    fn fmt<W: fmt::Write>(&self, f: &mut fmt::Formatter<W>) -> fmt::Result {
        f.write_str(match self {
            PlayFault::NoMemory => "48 NoMemory",
        })
    }
}

impl Error for PlayFault {}
