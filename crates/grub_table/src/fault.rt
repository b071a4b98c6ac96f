//! Why a table is not opened, or not closed.

use crate::pass::Pass;
use crate::shared::Shared;
use std::error::Error;
use std::fmt;

/// Why no table was made.
#[derive(Clone, Copy, PartialEq, Eq, Debug)]
pub enum OpenFault {
    /// 23: no pass is asked for.
    NoPass,

    /// 24: more than 64 passes are.
    TooManyPasses,

    /// 25: the allocator refused.
    NoMemory,
}

impl fmt::Display for OpenFault {
    ghost use Rattle.std.specs.Prelude.{Some};
    ghost use Rattle.grub_table.specs.Messages.{open_fault_text};

    ghost output = { λ fault. Some (open_fault_text fault) };

    fn fmt<W: fmt::Write>(&self, f: &mut fmt::Formatter<W>) -> fmt::Result {
        f.write_str(match self {
            OpenFault::NoPass => "23 NoPass",
            OpenFault::TooManyPasses => "24 TooManyPasses",
            OpenFault::NoMemory => "25 NoMemory",
        })
    }
}

impl Error for OpenFault {}

/// Why a table was not closed.
#[derive(Clone, Copy, PartialEq, Eq, Debug)]
pub enum CloseWhy {
    /// 26: so many passes are not there.
    Missing(u32),

    /// 42: the allocator refused.
    NoMemory,
}

impl fmt::Display for CloseWhy {
    ghost use Rattle.std.specs.Prelude.{Some};
    ghost use Rattle.grub_table.specs.Messages.{close_why_text};

    ghost output = { λ fault. Some (close_why_text fault) };

    fn fmt<W: fmt::Write>(&self, f: &mut fmt::Formatter<W>) -> fmt::Result {
        match self {
            CloseWhy::Missing(n) => write!(f, "26 Missing({n})"),
            CloseWhy::NoMemory => f.write_str("42 NoMemory"),
        }
    }
}

impl Error for CloseWhy {}

/// A refused close: the table and the passes come back as they were.
#[derive(Drop)]
pub struct CloseFault {
    pub why: CloseWhy,
    pub shared: Shared,
    pub passes: Vec<Pass>,
}

impl fmt::Display for CloseFault {
    ghost use Rattle.std.specs.Prelude.{Some};
    ghost use Rattle.grub_table.specs.Messages.{close_fault_text};

    ghost output = { λ fault. Some (close_fault_text fault) };

    fn fmt<W: fmt::Write>(&self, f: &mut fmt::Formatter<W>) -> fmt::Result {
        self.why.fmt(f)
    }
}
