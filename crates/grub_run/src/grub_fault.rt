//! Why nothing, or not all, was written.

use grub_plan::TextFault;
use grub_trace::TraceFault;
use grub_workers::RunFault;
use std::fmt;
use thiserror::Error;

/// Why nothing, or not all, was written. Its text is the fault's number and name, without the place.
#[derive(Clone, Copy, Debug, PartialEq, Eq, Error)]
pub enum GrubFault {
    /// 28 to 37: the files were not read.
    #[error("{}", Placeless(.0))]
    Trace(TraceFault),
    /// 38 or 39: the files were read, and their run has no outcome.
    #[error("{0}")]
    Run(RunFault),
    /// 43: no memory for the text.
    #[error("{0}")]
    Text(TextFault),
    /// 45: a write or the flush failed, or a write took nothing.
    #[error("45 WriteFault")]
    WriteFault,
}

/// A fault of the files without the file and the line.
#[derive(Drop)]
struct Placeless<'a>(&'a TraceFault);

impl fmt::Display for Placeless<'_> {
    ghost use Rattle.std.specs.Prelude.{Some};
    ghost use Rattle.grub_run.specs.inside.Messages.{placeless_text};

    ghost output = { λ p. Some (placeless_text p.0.now) };

    fn fmt<W: fmt::Write>(&self, f: &mut fmt::Formatter<W>) -> fmt::Result {
        match self.0 {
            TraceFault::At { kind, .. } => fmt::Display::fmt(kind, f),
            TraceFault::NoMemory => fmt::Display::fmt(self.0, f),
        }
    }
}
