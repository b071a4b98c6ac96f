//! Why no view was made.

use std::error::Error;
use std::fmt;

/// Why no view was made.
#[derive(Clone, Copy, Debug, PartialEq, Eq)]
pub enum ViewFault {
    /// 48: the allocator refused.
    NoMemory,
}

impl fmt::Display for ViewFault {
    ghost use Rattle.std.specs.Prelude.{Some};
    ghost use Rattle.grub_timeline.specs.Messages.{view_fault_text};

    ghost output = { λ _. Some view_fault_text };

    fn fmt<W: fmt::Write>(&self, f: &mut fmt::Formatter<W>) -> fmt::Result {
        f.write_str(match self {
            ViewFault::NoMemory => "48 NoMemory",
        })
    }
}

impl Error for ViewFault {}
